//! The versions of the tables: what a commit and an install make of one, and the turns of which a version is the outcome.
#![tactic(auto)]

mod applying;
mod change;
mod composing;
mod draft;
pub mod examples;
mod laying;
mod listing;
mod op;
mod snapshot;
mod turn;
mod version;

pub use applying::apply_ops;
pub use change::ColumnChange;
pub use enc_table::{Stamps, Table};
pub use laying::apply_rebuild;
pub use mope_base::{Body, ColNo, Items, Mode, OutOfMemory, SessionNo, TableNo};
pub use op::Op;
pub use ope_tree::Place;
pub use snapshot::{Ending, Snapshot};
pub use summary::Summary;
pub use turn::{Turn, TurnKind};
pub use version::Version;

#[cfg(test)]
mod tests;
