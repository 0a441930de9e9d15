//! The answer of one statement, and what it leaves of the database.

ghost use Rattle.std.specs.Prelude.{◌≡◌, ◌<◌, length, Some, None, IfOk, OnErr};
ghost use Rattle.workload.specs.PlainDatabase.{table_of, is_full};
ghost use Rattle.workload.specs.Selection.{selected, answer_about};
ghost use Rattle.workload.specs.Outcome.{value_at, left_by, inserted, answered, outcome_of};
ghost use Rattle.plain_db.specs.Answerable.{IsAnswerable, IsNarrow, IsNumbered, outcome_shown};

use crate::copying::copied;
use crate::selecting::{answer_of, chosen_rows};
use crate::tables::{put_row, take_rows_out, takes_no_row};
use mope_base::{OutOfMemory, TableNo};
use std::alloc::Global;
use workload::{Act, Answer, Ask, PlainDb, Verb};

fn insert_answer(
    alloc: Global,
    db: &mut PlainDb,
    t: TableNo,
    values: &[u64],
) -> Result<Option<Answer>, OutOfMemory>
    requires { t.0 < length db.old.tables }
    ensures outcome { IfOk result (λ a. inserted (is_full (table_of db.old t)) db.old t values.now ≡ outcome_shown a db.new) }
    ensures full { IfOk result (λ a. a ≡ None → db.new ≡ db.old) }
    ensures err { OnErr result (db.new ≡ db.old) }
{
    if takes_no_row(&db.tables.as_slice()[t.0 as usize]) {
        return Ok(None);
    }
    match copied(alloc, values) {
        Ok(copy) => match put_row(alloc, db, t, copy) {
            Ok(()) => Ok(Some(Answer::Inserted)),
            Err(out) => Err(out),
        },
        Err(out) => Err(out),
    }
}

fn ask_answer(alloc: Global, db: &PlainDb, ask: &Ask) -> Result<Answer, OutOfMemory>
    requires is_there { ask.now.table.0 < length db.now.tables }
    requires narrow { IsNarrow ask.now.verb }
    ensures { IfOk result (λ a. a ≡ answer_about value_at ask.now.verb (selected value_at ask.now (table_of db.now ask.now.table).rows)) }
{
    let rows = db.tables.as_slice()[ask.table.0 as usize].rows.as_slice();
    let positions = chosen_rows(alloc, ask, rows)?;
    answer_of(alloc, &ask.verb, rows, &positions)
}

/// Leaves what a statement that asks leaves.
pub(crate) fn leave_after(alloc: Global, db: &mut PlainDb, ask: &Ask)
    requires is_there { ask.now.table.0 < length db.old.tables }
    requires numbered { IsNumbered (table_of db.old ask.now.table) }
    ensures { db.new
        ≡ left_by ask.now.verb ask.now.table (selected value_at ask.now (table_of db.old ask.now.table).rows) db.old }
{
    match &ask.verb {
        Verb::Rows {
            columns: _,
            order: _,
            limit: _,
        } => {}
        Verb::Count => {}
        Verb::Min(_) => {}
        Verb::Max(_) => {}
        Verb::Delete => take_rows_out(alloc, db, ask.table, ask.tests.as_slice()),
    }
}

/// The answer of a statement, with what it leaves in `db`: `None` exactly where an INSERT meets a full table, and
/// then `db` is unchanged. On `OutOfMemory` it is unchanged too.
///
/// The statement's table is there, its rows are numbered in order below its next number, and a SELECT lists at most 8
/// columns.
pub fn answer(alloc: Global, db: &mut PlainDb, act: &Act) -> Result<Option<Answer>, OutOfMemory>
    requires { IsAnswerable db.old act.now }
    ensures outcome { IfOk result (λ a. outcome_of db.old act.now ≡ outcome_shown a db.new) }
    ensures full { IfOk result (λ a. a ≡ None → db.new ≡ db.old) }
    ensures err { OnErr result (db.new ≡ db.old) }
{
    match act {
        Act::Insert { table, values } => insert_answer(alloc, db, *table, values.as_slice()),
        Act::Ask(ask) => match ask_answer(alloc, db, ask) {
            Ok(a) => {
                leave_after(alloc, db, ask);
                Ok(Some(a))
            }
            Err(out) => Err(out),
        },
    }
}
