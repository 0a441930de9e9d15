//! The operations of a transaction.
ghost use Rattle.std.specs.Prelude.{◌≡◌};
ghost use Rattle.versions.specs.Operations.{op_table, rank_op};

use mope_base::{Body, Items, TableNo};
use ope_tree::Place;

/// What a transaction does to a table. Its places and rows are those of the table as the operations before it leave it.
#[derive(Drop)]
pub enum Op {
    /// A row with these sealed values, in each column at a place of the column's tree.
    Insert {
        table: TableNo,
        places: Items<Place>,
        bodies: Items<Body>,
    },
    /// The rows of these numbers, which increase, go.
    Delete {
        table: TableNo,
        rows: Items<u64>,
    },
}

impl Op {
    /// The table that it is on.
    pub fn table(&self) -> TableNo
        ensures { result.0 ≡ op_table (rank_op self.now) }
    {
        match self {
            Op::Insert { table, .. } => *table,
            Op::Delete { table, .. } => *table,
        }
    }
}
