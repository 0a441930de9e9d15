//! The words of the command line: which are right, and what they order.
#![tactic(auto)]

mod given;
pub mod laws;
mod numbers;
mod order;

pub use numbers::plain_number;
pub use order::{Generating, Order, Replaying, Schedule, read_order};

#[cfg(test)]
mod tests;
#[cfg(test)]
mod wrong_tests;
