//! Requests and replies.
use mope_base::{Body, ColNo, Items, TableNo};
use path_code::Side;

/// What the proxy asks of the server.
#[derive(Debug, Drop)]
pub enum Request {
    /// A transaction begins.
    Begin,
    /// A walk down the tree of a column begins at its root.
    WalkStart { table: TableNo, column: ColNo },
    /// The walk takes a step.
    Go { side: Side },
    /// The walk ends at the item where it stands.
    Found,
    /// A row goes into a table: a body for each column, at the places that the last walks found.
    Insert { table: TableNo, bodies: Items<Body> },
    /// Rows are selected or deleted.
    Query(Asked),
    /// The transaction ends: its changes are kept, or all are dropped.
    End { commit: bool },
    /// The tree of a column is rebuilt.
    Rebuild { table: TableNo, column: ColNo },
}

/// A selection of rows of a table, and what becomes of them.
#[derive(Debug, Drop)]
pub struct Asked {
    pub table: TableNo,
    /// 0 gives rows, 1 counts them, 2 and 3 give the least and the greatest body of a column, and 4
    /// deletes them.
    pub verb: u8,
    /// The column of verbs 2 and 3, else 0.
    pub target: u8,
    /// The order of rows: 0 none, 1 up, 2 down.
    pub order: u8,
    /// The column of the order, 0 where there is none.
    pub order_column: u8,
    /// How many rows verb 0 gives at most.
    pub limit: Option<u64>,
    /// The columns that verb 0 gives.
    pub columns: Items<u8>,
    /// The conditions, each a column and an operator: 0 `=`, 1 `<`, 2 `<=`, 3 `>`, 4 `>=`, 5
    /// BETWEEN. Their bounds are the places that the last walks found.
    pub conds: Items<(u8, u8)>,
}

/// What the server answers.
#[derive(Debug, Drop)]
pub enum Reply {
    /// The walk stands at an item with this body.
    Node(Body),
    /// The walk has ended, and its place is kept.
    Placed,
    /// The bodies of rows, `width` a row.
    Rows { width: u8, bodies: Items<Body> },
    /// So many rows were counted, inserted or deleted.
    Count(u64),
    /// The transaction began or ended. The table is the one that stood against it, else 0; the number
    /// is that of a version.
    Ended { how: How, table: u8, number: u64 },
    /// The request was refused for the reason of this code, with a value that tells more of it.
    No { code: u8, value: u32 },
}

/// A request and the reply to it.
#[derive(Debug, Drop)]
pub struct Exchange {
    pub request: Request,
    pub reply: Reply,
}

/// How a transaction began or ended.
#[derive(Clone, Copy, Debug, PartialEq, Eq)]
pub enum How {
    Began,
    /// It ended and changed nothing.
    Closed,
    Committed,
    /// It was dropped, since a table that it touched had changed.
    Conflict,
    /// A rebuilt tree was put in.
    Installed,
    /// A rebuilt tree was dropped, since its table had changed.
    Stale,
}
