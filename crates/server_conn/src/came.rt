//! What comes of a request to a transaction.
use mope_base::{ColNo, TableNo};
use walk_proto::Reply;

/// The turn that a transaction waits for at its end.
#[derive(Clone, Copy, PartialEq, Eq, Debug)]
pub enum Due {
    Commit,
    Install { table: TableNo, column: ColNo },
}

/// What comes of a request to a transaction.
#[derive(Drop)]
pub enum Came {
    /// A reply, and the transaction goes on.
    Says(Reply),
    /// A reply, and the transaction has ended.
    Ends(Reply),
    /// The transaction waits for its last turn.
    Waits(Due),
}
