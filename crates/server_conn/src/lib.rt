//! A connection of the server: what it does with each request, whatever comes. It holds no key.
#![tactic(auto)]

mod came;
mod checks;
mod conn;
#[cfg(test)]
mod end_tests;
pub mod examples;
mod inserting;
pub mod laws;
mod querying;
mod receipt;
#[cfg(test)]
mod refusal_tests;
mod selecting;
mod serving;
mod stage;
#[cfg(test)]
mod tests;
mod txn;
#[cfg(test)]
mod verb_tests;
mod walking;
mod watch;

pub use conn::Conn;
pub use receipt::{Receipt, Served};
pub use watch::{ListWatch, NoWatch, Watch};
