//! The balance rules of scapegoat trees, after Galperin and Rivest 1993 with alpha 2/3, as functions of numbers.
#![tactic(auto)]

mod links;
mod memory;
mod rules;

pub use links::{Links, balanced_links};
pub use memory::OutOfMemory;
pub use rules::{limit, needs_whole, pick, too_deep};

#[cfg(test)]
mod tests;
