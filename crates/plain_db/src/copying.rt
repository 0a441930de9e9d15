//! Copies of values and of rows.

ghost use Rattle.std.specs.Prelude.{◌≡◌, ◌++◌, ◌∷◌, [], filter, IfOk, OnOk, if◌then◌else◌};
ghost use Rattle.workload.specs.Selection.{passes};
ghost use Rattle.workload.specs.Outcome.{value_at};

use crate::rows::passes_all;
use mope_base::{ColNo, Items, OutOfMemory};
use sql_text::Test;
use std::alloc::Global;
use workload::PlainRow;

pub(crate) fn copied(alloc: Global, values: &[u64]) -> Result<Items<u64>, OutOfMemory>
    ensures { IfOk result (λ copy. copy ≡ values.now) }
{
    Ok(Items::from_vec(values.to_vec(alloc)?))
}

fn push_copy_if(
    alloc: Global,
    copies: &mut Vec<PlainRow>,
    row: &PlainRow,
    chosen: bool,
) -> Result<(), OutOfMemory>
    ensures { OnOk result (copies.new.items ≡ copies.old.items ++ (if chosen then row.now ∷ [] else [])) }
{
    if chosen {
        let values = copied(alloc, row.values.as_slice())?;
        let number = row.number;
        copies.push(PlainRow { number, values })?;
    }
    Ok(())
}

/// Copies of the rows that meet every test, in their order.
pub(crate) fn copied_passing(
    alloc: Global,
    rows: &[PlainRow],
    tests: &[(ColNo, Test)],
) -> Result<Items<PlainRow>, OutOfMemory>
    ensures { IfOk result (λ copies. copies ≡ filter (passes value_at tests.now) rows.now) }
{
    let mut copies = Vec::new(alloc);
    'rows: for i in 0..rows.len() {
        let row = &rows[i];
        push_copy_if(alloc, &mut copies, row, passes_all(row, tests))?;
    }
    Ok(Items::from_vec(copies))
}
