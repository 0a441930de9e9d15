//! What the world of all sessions is after any turns, and that the server's version stands for it: definitions and laws. Nothing here runs.
#![tactic(auto)]

pub mod cells;
pub mod examples;
pub mod laws;
pub mod schedules;
pub mod seats;
pub mod stepping;
pub mod telling;
