//! Plans: which rows of a table are within bounds on codes, found by its indexes.
#![tactic(auto)]

mod bounds;
mod ends;
pub mod laws;
mod ordering;
mod plans;
mod spans;
mod walking;

pub use bounds::{Bound, Query};
pub use ends::bound;
pub use plans::{choose, count, extreme, rows};
