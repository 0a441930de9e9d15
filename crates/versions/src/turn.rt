//! What happened, one turn of one session after the other.
use crate::change::ColumnChange;
use crate::op::Op;
use mope_base::{ColNo, Items, SessionNo, TableNo};

/// What a turn did.
#[derive(Drop)]
pub enum TurnKind {
    /// A transaction began on the version of this number.
    Began(u64),
    /// A transaction committed: its operations made the version of this number.
    Committed {
        number: u64,
        ops: Items<Op>,
    },
    /// A transaction didn't commit, since this table, which it had touched, was written after its begin, last by the version
    /// of this number. Of several such tables it is the lowest.
    Conflict {
        table: TableNo,
        number: u64,
    },
    /// The tree of this column was balanced, which made the version of this number.
    Installed {
        number: u64,
        table: TableNo,
        column: ColNo,
    },
    /// A column wasn't balanced, since its table was changed after the begin, last by the version of this number.
    Stale {
        table: TableNo,
        number: u64,
    },
}

/// A turn: whose it was, what it did, and what became of the codes of the columns that it changed, by table and then column.
#[derive(Drop)]
pub struct Turn {
    pub session: SessionNo,
    pub what: TurnKind,
    pub changes: Items<ColumnChange>,
}
