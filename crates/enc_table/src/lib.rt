//! The server's tables of sealed rows.
#![tactic(auto)]

mod adding;
mod carrying;
mod cell;
mod columns;
mod deleting;
mod dropping;
mod inserting;
mod laying;
mod looking;
mod positions;
mod ranks;
mod rebuilding;
mod sharing;
mod stamps;
mod stop;
mod stored_rows;
mod table;

pub use cell::Cell;
pub use stamps::Stamps;
pub use stop::TableStop;
pub use table::Table;

#[cfg(test)]
mod plain_tests;
#[cfg(test)]
mod tests;
