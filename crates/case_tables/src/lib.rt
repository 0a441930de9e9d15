//! Tables of the kinds of messages: how long a message of each kind is, where bytes stop being one,
//! and the fields of a message as bytes.
#![tactic(auto)]

mod field_macros;
mod fields;
mod rows;
mod tables;

pub use fields::Field;
pub use rows::{Cut, Kind};
pub use tables::{Kinds, check_kinds, cut_within};

#[cfg(test)]
mod tests;
