//! What statements changed, taken back: a transaction runs on the current version and leaves it as it was.

ghost use Rattle.std.specs.Prelude.{◌≡◌, IfOk, OnOk};
ghost use Rattle.workload.specs.declared.script.Answer.{Answer as AnswerValue};
ghost use Rattle.workload.specs.declared.plain.PlainDb.{PlainDb as PlainDbValue};
ghost use Rattle.workload.specs.Outcome.{outcome_of, answered, asked};
ghost use Rattle.workload.specs.Selection.{selected};
ghost use Rattle.workload.specs.Outcome.{value_at};
ghost use Rattle.workload.specs.PlainDatabase.{table_of};
ghost use Rattle.plain_db.specs.Answerable.{IsAnswerable};
ghost use Rattle.plain_db.specs.TakingBack.{undo_by, undone, all_undone};

use crate::copying::copied_passing;
use crate::tables::{put_rows_back, take_last_out};
use mope_base::{Items, OutOfMemory, TableNo};
use std::alloc::Global;
use workload::{Act, Ask, PlainDb, PlainRow, Verb};

/// What takes a statement back that was answered.
#[derive(Drop)]
pub(crate) enum Undo {
    /// It changed nothing.
    Nothing,
    /// The table's last row goes, and its number is the next again.
    Insert(TableNo),
    /// These rows stand in the table again.
    Delete(TableNo, Items<PlainRow>),
}

/// What will take a statement back, if it is answered.
pub(crate) fn undo_of(alloc: Global, db: &PlainDb, act: &Act) -> Result<Undo, OutOfMemory>
    requires { IsAnswerable db.now act.now }
    ensures { IfOk result (λ undo. (a : AnswerValue) (new : PlainDbValue) → outcome_of db.now act.now ≡ answered a new → undone undo new ≡ db.now) }
{
    match act {
        Act::Insert { table, values: _ } => Ok(Undo::Insert(*table)),
        Act::Ask(ask) => undo_of_ask(alloc, db, ask),
    }
}

fn undo_of_ask(alloc: Global, db: &PlainDb, ask: &Ask) -> Result<Undo, OutOfMemory>
    requires { IsAnswerable db.now (Act.Ask ask.now) }
    ensures { IfOk result (λ undo. (a : AnswerValue) (new : PlainDbValue)
        → asked db.now ask.now (selected value_at ask.now (table_of db.now ask.now.table).rows) ≡ answered a new
        → undone undo new ≡ db.now) }
{
    match &ask.verb {
        Verb::Rows {
            columns: _,
            order: _,
            limit: _,
        } => Ok(Undo::Nothing),
        Verb::Count => Ok(Undo::Nothing),
        Verb::Min(_) => Ok(Undo::Nothing),
        Verb::Max(_) => Ok(Undo::Nothing),
        Verb::Delete => {
            let rows = db.tables.as_slice()[ask.table.0 as usize].rows.as_slice();
            let taken = copied_passing(alloc, rows, ask.tests.as_slice())?;
            Ok(undo_delete(ask.table, taken))
        }
    }
}

fn undo_delete(t: TableNo, rows: Items<PlainRow>) -> Undo
    ensures { result ≡ undo_by t rows }
{
    if rows.as_slice().is_empty() {
        Undo::Nothing
    } else {
        Undo::Delete(t, rows)
    }
}

fn take_one_back(alloc: Global, db: &mut PlainDb, undo: Undo) -> Result<(), OutOfMemory>
    ensures { OnOk result (db.new ≡ undone undo db.old) }
{
    match undo {
        Undo::Nothing => Ok(()),
        Undo::Insert(t) => {
            take_last_out(alloc, db, t);
            Ok(())
        }
        Undo::Delete(t, rows) => put_rows_back(alloc, db, t, rows),
    }
}

/// Takes statements back, the last first.
pub(crate) fn take_back(
    alloc: Global,
    db: &mut PlainDb,
    undos: Vec<Undo>,
) -> Result<(), OutOfMemory>
    ensures { OnOk result (db.new ≡ all_undone undos.items db.old) }
{
    let mut left = undos;
    'undos: while let Some(undo) = left.pop() {
        take_one_back(alloc, db, undo)?;
    }
    Ok(())
}
