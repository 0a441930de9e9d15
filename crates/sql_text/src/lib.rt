//! The statements of SQL that a workload is written in: lines as statements, and statements as lines. And
//! the lines that frame them.
#![tactic(auto)]

use mope_base::Items;

mod arrange_steps;
mod filter_steps;
mod frame_steps;
mod frames;
pub mod laws;
mod letting_go;
mod lines;
mod marks;
mod ninth;
mod parsing;
mod printing;
mod scanning;
mod statements;
mod states;
mod steps;
mod tokens;

pub use frames::{Frame, read_frame};
pub use parsing::{ParseStop, Reason, parse};
pub use printing::print;
pub use scanning::is_blank_line;
pub use statements::{Cond, Order, Stmt, What};

/// The bytes of the name of a table or a column: a letter, then letters, digits and underscores. Names are
/// compared byte for byte.
#[derive(Debug, Drop)]
pub struct Name {
    pub bytes: Items<u8>,
}

/// What a condition asks of a value of its column. `Between` has the low end first, and holds both ends.
#[derive(Clone, Copy, Debug, PartialEq, Eq)]
pub enum Test {
    Eq(u64),
    Lt(u64),
    Le(u64),
    Gt(u64),
    Ge(u64),
    Between(u64, u64),
}

#[cfg(test)]
mod tests;
