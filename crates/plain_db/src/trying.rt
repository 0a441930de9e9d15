//! A transaction's statements, tried on the current version at its begin, and done again at its commit.

ghost use Rattle.std.specs.Prelude.{◌≡◌, ◌++◌, ◌∷◌, [], length, Some, None, IfOk, OnOk, IsTrue, MatchOption, if◌then◌else◌};
ghost use Rattle.mope_base.specs.Lists.{Each};
ghost use Rattle.workload.specs.declared.plain.PlainDb.{PlainDb as PlainDbValue};
ghost use Rattle.workload.specs.Outcome.{outcome_of};
ghost use Rattle.workload.specs.Transaction.{table_named, is_op, going, started, after_act, trial_of, work_of, Work};
ghost use Rattle.workload.specs.History.{effect_on};
ghost use Rattle.plain_db.specs.Answerable.{IsAnswerable};
ghost use Rattle.plain_db.specs.Running.{PieceFits, piece_after};
ghost use Rattle.plain_db.specs.TakingBack.{all_undone};
ghost use Rattle.plain_db.specs.Trying.{ShowsWork, Goes, Stops, AllNumbered, Fits, left_of, meets_full};

use crate::answering::{answer, leave_after};
use crate::taking_back::{Undo, take_back, undo_of};
use mope_base::{Items, OutOfMemory, TableNo};
use std::alloc::Global;
use workload::{Act, Answer, Piece, PlainDb};

/// What a transaction did: its answers, and the tables that its ops and its statements name.
#[derive(Drop)]
pub(crate) struct Tried {
    pub answers: Items<Answer>,
    pub ops: Items<TableNo>,
    pub touched: Items<TableNo>,
}

pub(crate) fn table_of_act(act: &Act) -> TableNo
    ensures { result ≡ table_named act.now }
{
    match act {
        Act::Insert { table, values: _ } => *table,
        Act::Ask(ask) => ask.table,
    }
}

fn changes(a: &Answer) -> bool
    ensures { result ≡ is_op a.now }
{
    match a {
        Answer::Inserted => true,
        Answer::Deleted(count) => 0 < *count,
        Answer::Count(_) => false,
        Answer::Min(_) => false,
        Answer::Max(_) => false,
        Answer::Rows {
            width: _,
            values: _,
        } => false,
    }
}

fn push_op(ops: &mut Items<TableNo>, t: TableNo, is_one: bool) -> Result<(), OutOfMemory>
    ensures { OnOk result (ops.new ≡ ops.old ++ (if is_one then t ∷ [] else [])) }
{
    if is_one {
        ops.push(t)?;
    }
    Ok(())
}

/// One statement more. The table is named whose INSERT met the full table.
fn try_one(
    alloc: Global,
    db: &mut PlainDb,
    tried: &mut Tried,
    undos: &mut Vec<Undo>,
    act: &Act,
) -> Result<Option<TableNo>, OutOfMemory>
    requires { IsAnswerable db.old act.now }
    ensures goes { IfOk result (λ full.
        (work : Work) → ShowsWork tried.old work → db.old ≡ work.copy
        → MatchOption full (Goes tried.new (after_act (going work) act.now))
        (λ t. Stops t tried.new (after_act (going work) act.now))) }
    ensures left { OnOk result (db.new ≡ left_of db.old (outcome_of db.old act.now)) }
    ensures back { OnOk result (all_undone undos.new.items db.new ≡ all_undone undos.old.items db.old) }
{
    let t = table_of_act(act);
    let undo = undo_of(alloc, db, act)?;
    match answer(alloc, db, act)? {
        None => Ok(Some(t)),
        Some(a) => {
            push_op(&mut tried.ops, t, changes(&a))?;
            tried.answers.push(a)?;
            tried.touched.push(t)?;
            undos.push(undo)?;
            Ok(None)
        }
    }
}

fn start(alloc: Global) -> Tried
    ensures { (db : PlainDbValue) → ShowsWork result (started db) }
{
    Tried {
        answers: Items::new(alloc),
        ops: Items::new(alloc),
        touched: Items::new(alloc),
    }
}

/// A transaction's statements on `db`, what takes them back, and the table whose INSERT met the full table, if one did.
fn try_acts(
    alloc: Global,
    db: &mut PlainDb,
    acts: &[Act],
) -> Result<(Tried, Vec<Undo>, Option<TableNo>), OutOfMemory>
    requires numbered { AllNumbered db.old }
    requires fit { Each (Fits (length db.old.tables)) acts.now }
    ensures goes { IfOk result (λ done.
        MatchOption done.2 (Goes done.0 (trial_of db.old acts.now)) (λ t. Stops t done.0 (trial_of db.old acts.now))) }
    ensures back { IfOk result (λ done. all_undone done.1.items db.new ≡ db.old) }
{
    let mut tried = start(alloc);
    let mut undos = Vec::new(alloc);
    'acts: for i in 0..acts.len() {
        let full = try_one(alloc, db, &mut tried, &mut undos, &acts[i])?;
        if let Some(t) = full {
            return Ok((tried, undos, Some(t)));
        }
    }
    Ok((tried, undos, None))
}

/// What a transaction does on `db`, which stays as it is, and the table whose INSERT met the full table, if one did.
pub(crate) fn try_all(
    alloc: Global,
    db: &mut PlainDb,
    acts: &[Act],
) -> Result<(Tried, Option<TableNo>), OutOfMemory>
    requires numbered { AllNumbered db.old }
    requires fit { Each (Fits (length db.old.tables)) acts.now }
    ensures goes { IfOk result (λ done.
        MatchOption done.1 (Goes done.0 (trial_of db.old acts.now)) (λ t. Stops t done.0 (trial_of db.old acts.now))) }
    ensures back { OnOk result (db.new ≡ db.old) }
{
    let (tried, undos, full) = try_acts(alloc, db, acts)?;
    take_back(alloc, db, undos)?;
    Ok((tried, full))
}

/// Does one statement again without its answer. True where it is an INSERT that meets the full table.
fn redo_one(alloc: Global, db: &mut PlainDb, act: &Act) -> Result<bool, OutOfMemory>
    requires { IsAnswerable db.old act.now }
    ensures left { OnOk result (db.new ≡ left_of db.old (outcome_of db.old act.now)) }
    ensures full { IfOk result (λ full. full ≡ meets_full (outcome_of db.old act.now)) }
{
    match act {
        Act::Insert {
            table: _,
            values: _,
        } => Ok(answer(alloc, db, act)?.is_none()),
        Act::Ask(ask) => {
            leave_after(alloc, db, ask);
            Ok(false)
        }
    }
}

/// Does a transaction's statements again, up to the first that meets a full table.
fn redo_all(alloc: Global, db: &mut PlainDb, acts: &[Act]) -> Result<(), OutOfMemory>
    requires numbered { AllNumbered db.old }
    requires fit { Each (Fits (length db.old.tables)) acts.now }
    ensures { OnOk result (db.new ≡ (work_of (trial_of db.old acts.now)).copy) }
{
    'acts: for i in 0..acts.len() {
        if redo_one(alloc, db, &acts[i])? {
            return Ok(());
        }
    }
    Ok(())
}

fn redo_piece(alloc: Global, db: &mut PlainDb, piece: &Piece) -> Result<(), OutOfMemory>
    requires numbered { AllNumbered db.old }
    requires fit { PieceFits (length db.old.tables) piece.now }
    ensures { OnOk result (db.new ≡ effect_on piece.now db.old) }
{
    match piece {
        Piece::Txn { acts, rollback: _ } => redo_all(alloc, db, acts.as_slice()),
        Piece::Rebuild {
            table: _,
            column: _,
        } => Ok(()),
    }
}

/// Does a transaction of a script again, for its effect on `db` alone.
pub(crate) fn redo(
    alloc: Global,
    db: &mut PlainDb,
    script: &[Piece],
    ended: usize,
) -> Result<(), OutOfMemory>
    requires numbered { AllNumbered db.old }
    requires fit { Each (PieceFits (length db.old.tables)) script.now }
    ensures { OnOk result (db.new ≡ effect_on (piece_after script.now ended) db.old) }
{
    if ended < script.len() {
        redo_piece(alloc, db, &script[ended])
    } else {
        Ok(())
    }
}
