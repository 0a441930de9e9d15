//! The calls that do all that the program does, and the parts of which they are made.
#![tactic(auto)]

mod batch;
pub mod laws;
mod plain;
mod refusals;
mod replay;
mod running;
mod summing;
#[cfg(test)]
mod tests;

pub use batch::mope_batch;
