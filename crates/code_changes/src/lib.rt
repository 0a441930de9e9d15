//! What the operations on a column do to the list of its codes: definitions and laws on which trees, summaries, tables and
//! versions stand, and searches in such lists.
#![tactic(auto)]

pub mod composition_laws;
pub mod laws;
pub mod removal_laws;
mod searches;

pub use searches::{holds, new_code};

#[cfg(test)]
mod tests;
