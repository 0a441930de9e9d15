//! The state that sessions take in turn: what happened, and the version that it led to.
#![tactic(auto)]

mod copies;
mod history;
mod making;
mod newer;
mod outcome;
mod state;

pub use outcome::{Committed, Installed};
pub use state::State;
pub use versions::{Ending, Snapshot, Turn, TurnKind};

#[cfg(test)]
mod tests;
