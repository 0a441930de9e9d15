//! The server's search trees: mutable order-preserving trees of sealed values, after Popa, Li and Zeldovich 2013, balanced as
//! the scapegoat trees of Galperin and Rivest 1993.
#![tactic(auto)]

mod arena;
mod building;
mod change;
mod coding;
mod copying;
mod cursors;
mod done;
mod dropping;
mod grafting;
mod inserting;
mod moving;
mod nodes;
mod places;
mod reading;
mod rebuilding;
mod removing;
mod settling;
mod shape;
mod stops;
mod sweeping;
mod tree;
mod ways;

pub use change::Change;
pub use cursors::{Arrival, Cursor};
pub use path_code::Recode;
pub use stops::{At, Stop};
pub use tree::Tree;
pub use tree_model::Place;

#[cfg(test)]
mod drop_tests;
#[cfg(test)]
mod plain_tests;
#[cfg(test)]
mod tests;
#[cfg(test)]
mod whole_tests;
