//! The task that a client has in hand.

use mope_base::{ColNo, TableNo};

/// Where a walk stands: after so many steps down, at an item of this value.
#[derive(Clone, Copy, Debug)]
pub struct Stop {
    pub steps: u8,
    pub value: u64,
}

/// The task in hand: to begin the next transaction; to find the place of a constant, from where the walk stands; to send
/// a statement whose constants have their places; to end the transaction or rebuild the tree; or nothing, since the
/// script has ended.
#[derive(Clone, Copy, Debug)]
pub(crate) enum Doing {
    Opening,
    Looking {
        table: TableNo,
        column: ColNo,
        constant: u64,
        stop: Option<Stop>,
    },
    Acting,
    Closing,
    Nothing,
}
