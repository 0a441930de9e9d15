//! All sessions of a workload on one thread, one exchange a step.
#![tactic(auto)]

mod scripts;
mod seat;
mod starting;
mod stepping;
#[cfg(test)]
mod tests;
mod turning;

pub use stepping::Core;
