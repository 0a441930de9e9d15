//! Plain tables, on which answers are defined.
use mope_base::Items;

/// A row: its number, from 1 in its table and never used again, and its values in the order of the columns.
#[derive(Debug, Drop)]
pub struct PlainRow {
    pub number: u64,
    pub values: Items<u64>,
}

/// A table: its rows in the order of their numbers, and the number of the next row.
#[derive(Debug, Drop)]
pub struct PlainTable {
    pub rows: Items<PlainRow>,
    pub next: u64,
}

/// The tables of a database, in the order of their declaration.
#[derive(Debug, Drop)]
pub struct PlainDb {
    pub tables: Items<PlainTable>,
}
