//! Workloads, their scripts, and the answers and ends of transactions.
use mope_base::{ColNo, Items, SessionNo, TableNo};
use sql_text::{Name, Test};

/// The declared tables and, per session, its script: what one input file spells.
#[derive(Debug, Drop)]
pub struct Workload {
    pub tables: Items<Decl>,
    pub sessions: Items<Items<Piece>>,
}

/// A declared table with its columns, in the order of the declaration.
#[derive(Debug, Drop)]
pub struct Decl {
    pub name: Name,
    pub columns: Items<Name>,
}

/// One transaction of a script. `Txn` has its statements in order, and whether it ends by ROLLBACK; a statement
/// alone is a transaction of one. `Rebuild` balances the tree of one column.
#[derive(Debug, Drop)]
pub enum Piece {
    Txn { acts: Items<Act>, rollback: bool },
    Rebuild { table: TableNo, column: ColNo },
}

/// A statement: an INSERT of one row, its values in the order of the columns, or one that asks by conditions.
#[derive(Debug, Drop)]
pub enum Act {
    Insert { table: TableNo, values: Items<u64> },
    Ask(Ask),
}

/// A statement over the rows that meet every test, joined by AND.
#[derive(Debug, Drop)]
pub struct Ask {
    pub table: TableNo,
    pub verb: Verb,
    pub tests: Items<(ColNo, Test)>,
}

/// What is asked of the rows that meet the tests. In `Rows` the order is a column and whether it goes downwards;
/// the limit is the most rows that are given.
#[derive(Debug, Drop)]
pub enum Verb {
    Rows {
        columns: Items<ColNo>,
        order: Option<(ColNo, bool)>,
        limit: Option<u64>,
    },
    Count,
    Min(ColNo),
    Max(ColNo),
    Delete,
}

/// The answer of one statement. `Rows` has the asked values row after row, `width` to a row.
#[derive(Debug, Drop)]
pub enum Answer {
    Inserted,
    Deleted(u64),
    Count(u64),
    Min(Option<u64>),
    Max(Option<u64>),
    Rows { width: u8, values: Items<u64> },
}

/// How a transaction ended. `Committed` and `Installed` have the version that it made, `Conflict` and `Stale` a
/// table and the version that changed it, `Full` the table that took no further row.
#[derive(Clone, Copy, Debug, PartialEq, Eq)]
pub enum End {
    Read,
    Committed(u64),
    RolledBack,
    Full(TableNo),
    Conflict(TableNo, u64),
    Installed(u64),
    Stale(TableNo, u64),
}

/// A finished transaction: whose it was, its place in the session's script (from 1), the version that it began
/// from, how it ended and what its statements answered.
#[derive(Debug, Drop)]
pub struct DoneTxn {
    pub session: SessionNo,
    pub place: u32,
    pub base: u64,
    pub end: End,
    pub answers: Items<Answer>,
}
