//! Which rows of a table a statement is about, by their positions.

ghost use Rattle.std.specs.Prelude.{◌≡◌, ◌++◌, ◌∷◌, [], filter, IfOk, OnOk, if◌then◌else◌};
ghost use Rattle.workload.specs.Selection.{meets, passes, values_at};
ghost use Rattle.workload.specs.Outcome.{value_at};
ghost use Rattle.plain_db.specs.Positions.{row_at, rows_at};

use mope_base::{ColNo, OutOfMemory};
use sql_text::Test;
use std::alloc::Global;
use workload::PlainRow;

/// The value of a row in a column; 0 where it has no such column.
pub(crate) fn value_in(row: &PlainRow, column: ColNo) -> u64
    ensures { result ≡ value_at column row.now }
{
    let values = row.values.as_slice();
    let index = column.0 as usize;
    if index < values.len() {
        values[index]
    } else {
        0
    }
}

/// The value in a column of the row at a position.
pub(crate) fn value_of(rows: &[PlainRow], position: usize, column: ColNo) -> u64
    ensures { result ≡ value_at column (row_at rows.now position) }
{
    if position < rows.len() {
        value_in(&rows[position], column)
    } else {
        0
    }
}

fn meets_test(test: Test, x: u64) -> bool
    ensures { result ≡ meets test x }
{
    match test {
        Test::Eq(c) => x == c,
        Test::Lt(c) => x < c,
        Test::Le(c) => x <= c,
        Test::Gt(c) => c < x,
        Test::Ge(c) => c <= x,
        Test::Between(low, high) => low <= x && x <= high,
    }
}

/// Whether a row meets every test.
pub(crate) fn passes_all(row: &PlainRow, tests: &[(ColNo, Test)]) -> bool
    ensures { result ≡ passes value_at tests.now row.now }
{
    'tests: for i in 0..tests.len() {
        let (column, test) = tests[i];
        if !meets_test(test, value_in(row, column)) {
            return false;
        }
    }
    true
}

fn push_if(positions: &mut Vec<usize>, position: usize, chosen: bool) -> Result<(), OutOfMemory>
    ensures { OnOk result (positions.new.items ≡ positions.old.items ++ (if chosen then position ∷ [] else [])) }
{
    if chosen {
        positions.push(position)?;
    }
    Ok(())
}

/// The positions of the rows that meet every test, in their order.
pub(crate) fn matching(
    alloc: Global,
    rows: &[PlainRow],
    tests: &[(ColNo, Test)],
) -> Result<Vec<usize>, OutOfMemory>
    ensures { IfOk result (λ positions. rows_at rows.now positions.items ≡ filter (passes value_at tests.now) rows.now) }
{
    let mut positions = Vec::new(alloc);
    'rows: for i in 0..rows.len() {
        push_if(&mut positions, i, passes_all(&rows[i], tests))?;
    }
    Ok(positions)
}
