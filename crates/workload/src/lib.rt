//! A workload, the plain database that its answers are told by, and the definitions of its runs.
#![tactic(auto)]

pub mod examples;
pub mod laws;
mod plain;
mod script;

pub use plain::{PlainDb, PlainRow, PlainTable};
pub use script::{Act, Answer, Ask, Decl, DoneTxn, End, Piece, Verb, Workload};
