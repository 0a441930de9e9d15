//! Statements.
use crate::{Name, Test};
use mope_base::Items;

/// One statement of a workload.
#[derive(Debug, Drop)]
pub enum Stmt {
    /// A transaction begins.
    Begin,
    /// The transaction ends, and its changes are kept.
    Commit,
    /// The transaction ends, and its changes are dropped.
    Rollback,
    /// The tree of a column is rebuilt.
    Rebuild {
        table: Name,
        column: Name,
    },
    /// A row goes into a table: a value for each column, in their order.
    Insert {
        table: Name,
        values: Items<u64>,
    },
    /// The rows that meet each condition are deleted.
    Delete {
        table: Name,
        conds: Items<Cond>,
    },
    /// The rows that meet each condition are read. Only where `what` asks for rows is there an order or
    /// a limit, which is the number of rows that are answered at most.
    Select {
        what: What,
        table: Name,
        conds: Items<Cond>,
        order: Option<Order>,
        limit: Option<u64>,
    },
}

/// What a SELECT asks of the rows.
#[derive(Debug, Drop)]
pub enum What {
    /// The rows, with all columns in their order.
    All,
    /// The rows, with these columns.
    Columns(Items<Name>),
    /// How many there are.
    Count,
    /// The least value of a column.
    Min(Name),
    /// The greatest value of a column.
    Max(Name),
}

/// A condition: a column and what is asked of its value.
#[derive(Debug, Drop)]
pub struct Cond {
    pub column: Name,
    pub test: Test,
}

/// The order of rows by the values of a column: they fall where `down` is set, else they rise.
#[derive(Debug, Drop)]
pub struct Order {
    pub column: Name,
    pub down: bool,
}
