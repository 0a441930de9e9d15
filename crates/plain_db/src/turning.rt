//! The turns of one session: a begin, a commit, an install.

ghost use Rattle.std.specs.Prelude.{◌≡◌, ◌<◌, ◌≤◌, ◌^◌, ◌+◌, suc, max, Bool, ltb, length, get_or, drop, map, List, [], Some, None, OnOk};
ghost use Rattle.workload.specs.declared.script.Act.{Act};
ghost use Rattle.mope_base.specs.Lists.{Each};
ghost use Rattle.plain_db.specs.declared.state.Place.{Place as PlaceValue};
ghost use Rattle.workload.specs.Transaction.{wish_of, wish_after, work_of, trial_of};
ghost use Rattle.plain_db.specs.Trying.{AllNumbered, Fits};
ghost use Rattle.plain_db.specs.Running.{newer_in, wish_shown, wish_by, ended_state, BegunBy, committed_state, changed_in, installed_state, SettledBy, BeganBy, StateFits, PieceFits, piece_after, ready_standing};
ghost use Rattle.plain_db.specs.Turned.{TurnedBy};

use crate::committing::{newer_than, stamp};
use crate::state::{Place, Standing, State, moved, replace_at, with_done};
use crate::trying::{Tried, redo, try_all};
use mope_base::{Items, OutOfMemory, SessionNo, TableNo};
use std::alloc::Global;
use workload::{Act, Answer, End, Piece};

/// A turn that ends a transaction.
fn end_txn(
    alloc: Global,
    state: &mut State,
    s: SessionNo,
    k: usize,
    ended: usize,
    base: u64,
    end: End,
    answers: Items<Answer>,
) -> Result<(), OutOfMemory>
    requires here { k < length state.old.places }
    requires few { ended + 1 < 2 ^ 32 }
    ensures { OnOk result (state.new ≡ ended_state state.old s k ended base end answers) }
{
    let place = Place {
        ended: ended + 1,
        standing: Standing::Ready,
    };
    moved(alloc, state, s, k, place)?;
    with_done(state, s, (ended + 1) as u32, base, end, answers)
}

/// The end of a transaction at its begin, unless it will commit.
fn end_at_begin(full: Option<TableNo>, rollback: bool, ops: &[TableNo]) -> Option<End>
    ensures { wish_shown result ≡ wish_by full rollback ops.now }
{
    match full {
        Some(t) => Some(End::Full(t)),
        None => {
            if rollback {
                Some(End::RolledBack)
            } else if ops.is_empty() {
                Some(End::Read)
            } else {
                None
            }
        }
    }
}

/// The begin of a transaction on the current version.
fn begin_txn(
    alloc: Global,
    state: &mut State,
    s: SessionNo,
    k: usize,
    ended: usize,
    acts: &[Act],
    rollback: bool,
) -> Result<(), OutOfMemory>
    requires here { k < length state.old.places }
    requires few { ended + 1 < 2 ^ 32 }
    requires numbered { AllNumbered state.old.current }
    requires fit { Each (Fits (length state.old.current.tables)) acts.now }
    ensures { OnOk result (let trial = trial_of state.old.current acts.now in
        BegunBy (wish_of rollback trial) state.old state.new s k ended (work_of trial)) }
{
    let (tried, full) = try_all(alloc, &mut state.current, acts)?;
    let base = state.version;
    match end_at_begin(full, rollback, tried.ops.as_slice()) {
        Some(e) => end_txn(alloc, state, s, k, ended, base, e, tried.answers),
        None => {
            let standing = Standing::Committing { base, work: tried };
            moved(alloc, state, s, k, Place { ended, standing })
        }
    }
}

/// The commit that makes a version.
fn make_version(
    alloc: Global,
    state: &mut State,
    s: SessionNo,
    k: usize,
    ended: usize,
    base: u64,
    work: Tried,
    script: &[Piece],
) -> Result<(), OutOfMemory>
    requires here { k < length state.old.places }
    requires few { ended + 1 < 2 ^ 32 }
    requires few_versions { state.old.version < 2 ^ 63 }
    requires numbered { AllNumbered state.old.current }
    requires fit { Each (PieceFits (length state.old.current.tables)) script.now }
    ensures { OnOk result (state.new ≡ committed_state None state.old s k ended base work (piece_after script.now ended)) }
{
    let Tried {
        answers,
        ops,
        touched: _,
    } = work;
    let number = state.version + 1;
    redo(alloc, &mut state.current, script, ended)?;
    stamp(alloc, &mut state.written, ops.as_slice(), number);
    state.version = number;
    end_txn(
        alloc,
        state,
        s,
        k,
        ended,
        base,
        End::Committed(number),
        answers,
    )
}

/// The commit turn of a transaction that began on `base`.
fn commit(
    alloc: Global,
    state: &mut State,
    s: SessionNo,
    k: usize,
    ended: usize,
    base: u64,
    work: Tried,
    script: &[Piece],
) -> Result<(), OutOfMemory>
    requires here { k < length state.old.places }
    requires few { ended + 1 < 2 ^ 32 }
    requires few_stamps { length state.old.written ≤ 256 }
    requires few_versions { state.old.version < 2 ^ 63 }
    requires numbered { AllNumbered state.old.current }
    requires fit { Each (PieceFits (length state.old.current.tables)) script.now }
    ensures { OnOk result (state.new
        ≡ committed_state (newer_in 0 state.old.written base work.touched) state.old s k ended base work (piece_after script.now ended)) }
{
    match newer_than(state.written.as_slice(), base, work.touched.as_slice()) {
        Some((t, number)) => end_txn(
            alloc,
            state,
            s,
            k,
            ended,
            base,
            End::Conflict(t, number),
            work.answers,
        ),
        None => make_version(alloc, state, s, k, ended, base, work, script),
    }
}

fn stamp_of(stamps: &[u64], t: TableNo) -> u64
    ensures { result ≡ get_or stamps.now t.0 0 }
{
    let i = t.0 as usize;
    if i < stamps.len() { stamps[i] } else { 0 }
}

fn last_change_of(state: &State, t: TableNo) -> u64
    ensures { result ≡ changed_in state.now t }
{
    let written = stamp_of(state.written.as_slice(), t);
    let laid = stamp_of(state.laid.as_slice(), t);
    if laid < written { written } else { laid }
}

/// The install turn of a rebuild that began on `base`.
fn install(
    alloc: Global,
    state: &mut State,
    s: SessionNo,
    k: usize,
    ended: usize,
    base: u64,
    t: TableNo,
) -> Result<(), OutOfMemory>
    requires here { k < length state.old.places }
    requires few { ended + 1 < 2 ^ 32 }
    requires is_there { t.0 < length state.old.laid }
    requires few_versions { state.old.version < 2 ^ 63 }
    ensures { OnOk result (state.new ≡ installed_state (ltb base (changed_in state.old t)) state.old s k ended base t) }
{
    let newer = last_change_of(state, t);
    if base < newer {
        return end_txn(
            alloc,
            state,
            s,
            k,
            ended,
            base,
            End::Stale(t, newer),
            Items::new(alloc),
        );
    }
    let number = state.version + 1;
    replace_at(alloc, &mut state.laid, t.0 as usize, number);
    state.version = number;
    end_txn(
        alloc,
        state,
        s,
        k,
        ended,
        base,
        End::Installed(number),
        Items::new(alloc),
    )
}

/// The commit or install that a session owes, if it owes one.
pub(crate) fn settle(
    alloc: Global,
    state: &mut State,
    s: SessionNo,
    k: usize,
    script: &[Piece],
) -> Result<(), OutOfMemory>
    requires here { k < length state.old.places }
    requires fits { StateFits (length state.old.current.tables) state.old }
    requires fit { Each (PieceFits (length state.old.current.tables)) script.now }
    ensures { (d : PlaceValue) → let place = get_or state.old.places k d in
        OnOk result (SettledBy script.now place.standing state.old state.new s k place.ended) }
{
    let empty = Place {
        ended: 0,
        standing: Standing::Ready,
    };
    let Place { ended, standing } = replace_at(alloc, &mut state.places, k, empty);
    match standing {
        Standing::Ready => {
            let place = Place {
                ended,
                standing: Standing::Ready,
            };
            replace_at(alloc, &mut state.places, k, place);
            Ok(())
        }
        Standing::Committing { base, work } => {
            commit(alloc, state, s, k, ended, base, work, script)
        }
        Standing::Installing { base, table } => install(alloc, state, s, k, ended, base, table),
    }
}

/// The begin of a session's next transaction, if one is left.
fn begin(
    alloc: Global,
    state: &mut State,
    s: SessionNo,
    k: usize,
    ended: usize,
    script: &[Piece],
) -> Result<(), OutOfMemory>
    requires here { k < length state.old.places }
    requires numbered { AllNumbered state.old.current }
    requires short { length script.now < 2 ^ 32 }
    requires fit { Each (PieceFits (length state.old.current.tables)) script.now }
    ensures { OnOk result (BeganBy (drop ended script.now) state.old state.new s k ended) }
{
    if ended < script.len() {
        match &script[ended] {
            Piece::Txn { acts, rollback } => begin_txn(
                alloc,
                state,
                s,
                k,
                ended,
                acts.as_slice(),
                *rollback,
            ),
            Piece::Rebuild { table, column: _ } => {
                let standing = Standing::Installing {
                    base: state.version,
                    table: *table,
                };
                moved(alloc, state, s, k, Place { ended, standing })
            }
        }
    } else {
        Ok(())
    }
}

fn is_ready(standing: &Standing) -> bool
    ensures { result ≡ ready_standing standing.now }
{
    match standing {
        Standing::Ready => true,
        Standing::Committing { base: _, work: _ } => false,
        Standing::Installing { base: _, table: _ } => false,
    }
}

/// The next turn of a session; none if it has ended.
pub(crate) fn turn_at(
    alloc: Global,
    state: &mut State,
    s: SessionNo,
    k: usize,
    script: &[Piece],
) -> Result<(), OutOfMemory>
    requires here { k < length state.old.places }
    requires fits { StateFits (length state.old.current.tables) state.old }
    requires short { length script.now < 2 ^ 32 }
    requires fit { Each (PieceFits (length state.old.current.tables)) script.now }
    ensures { (d : PlaceValue) → let place = get_or state.old.places k d in
        OnOk result (TurnedBy script.now place.standing state.old state.new s k place.ended) }
{
    let place = &state.places.as_slice()[k];
    let ended = place.ended;
    if is_ready(&place.standing) {
        begin(alloc, state, s, k, ended, script)
    } else {
        settle(alloc, state, s, k, script)
    }
}
