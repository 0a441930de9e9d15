//! The index of a column: its rows in the order of their codes.
#![tactic(auto)]

mod cuts;
mod entry;
mod index;
pub mod laws;
mod moving;
mod placing;

pub use entry::Entry;
pub use index::Index;

#[cfg(test)]
mod tests;
