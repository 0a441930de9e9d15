//! Paths in a binary search tree, and the 64-bit codes that order them, after Popa, Li and Zeldovich 2013.
#![tactic(auto)]

mod codes;
pub mod laws;
mod moves;
mod paths;
pub mod sum_laws;

pub use codes::{child, code, root};
pub use moves::{Move, Recode, move_enc, path_of};
pub use paths::Path;
pub use tree_model::Side;

#[cfg(test)]
mod tests;
