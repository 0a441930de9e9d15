//! Copies of a transaction's operations, which its turn keeps.
ghost use Rattle.std.specs.Prelude.{◌≡◌, IfOk};

use mope_base::{Items, OutOfMemory};
use std::alloc::Global;
use versions::Op;

fn copied<T: Copy>(alloc: Global, items: &[T]) -> Result<Items<T>, OutOfMemory>
    ensures copy { IfOk result (λ copy. copy ≡ items.now) }
{
    let copy = Vec::from_slice(alloc, items)?;
    Ok(Items::from_vec(copy))
}

fn copied_op(alloc: Global, op: &Op) -> Result<Op, OutOfMemory>
    ensures copy { IfOk result (λ copy. copy ≡ op.now) }
{
    match op {
        Op::Insert {
            table,
            places,
            bodies,
        } => {
            let places = copied(alloc, places.as_slice())?;
            let bodies = copied(alloc, bodies.as_slice())?;
            Ok(Op::Insert {
                table: *table,
                places,
                bodies,
            })
        }
        Op::Delete { table, rows } => {
            let rows = copied(alloc, rows.as_slice())?;
            Ok(Op::Delete {
                table: *table,
                rows,
            })
        }
    }
}

/// The same operations, in their order.
pub(crate) fn copied_ops(alloc: Global, ops: &[Op]) -> Result<Items<Op>, OutOfMemory>
    ensures copy { IfOk result (λ copy. copy ≡ ops.now) }
{
    let mut copy = Items::new(alloc);
    'ops: for op in ops {
        let same = copied_op(alloc, op)?;
        copy.push(same)?;
    }
    Ok(copy)
}
