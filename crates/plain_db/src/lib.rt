//! The plain database as a program, one statement and one turn at a time, and the law that a run's history is serial.
#![tactic(auto)]

mod answering;
mod committing;
mod copying;
mod history;
pub mod laws;
mod rows;
mod running;
mod selecting;
mod state;
mod tables;
mod taking_back;
#[cfg(test)]
mod tests;
mod trying;
mod turning;

pub use answering::answer;
pub use running::run_turns;
pub use workload::{PlainDb, PlainRow, PlainTable};
