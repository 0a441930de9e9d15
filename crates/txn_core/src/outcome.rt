//! How transactions end.
use mope_base::TableNo;

/// How a commit ended.
#[derive(Clone, Copy, PartialEq, Eq, Debug)]
pub enum Committed {
    /// It made the version of this number.
    Committed(u64),
    /// This table, which the transaction had touched, was written after its begin, last by the version of this number. Of
    /// several such tables it is the lowest.
    Conflict { table: TableNo, number: u64 },
}

/// How an install ended.
#[derive(Clone, Copy, PartialEq, Eq, Debug)]
pub enum Installed {
    /// It made the version of this number.
    Installed(u64),
    /// The table was changed after the begin, last by the version of this number.
    Stale { table: TableNo, number: u64 },
}
