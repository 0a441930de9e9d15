//! A run: the list of turns, then what each session finishes.

ghost use Rattle.std.specs.Prelude.{◌≡◌, ◌<◌, suc, ◌⊎◌, length, get_or, replicate, MatchOption, OnOk, IfOk};
ghost use Rattle.workload.specs.Validity.{IsValid};
ghost use Rattle.workload.specs.Run.{Run, initial, take_turn, take_turns, settled, finished_session, finished_sessions, session_numbers, run, turns_taken};
ghost use Rattle.workload.specs.History.{history};
ghost use Rattle.workload.specs.PlainDatabase.{empty_table};
ghost use Rattle.plain_db.specs.Running.{ShowsRun, first_place};
ghost use Rattle.plain_db.specs.Reached.{IsReached};
ghost use Rattle.plain_db.specs.declared.state.Place.{Place as PlaceValue};

use crate::history::in_history_order;
use crate::state::{Place, Standing, State};
use crate::tables::no_rows;
use crate::turning::{settle, turn_at};
use mope_base::{Items, OutOfMemory, SessionNo};
use std::alloc::Global;
use workload::{DoneTxn, PlainDb, PlainTable, Workload};

/// The index of a session, if there is one of this number.
fn index_of(state: &State, s: SessionNo) -> Option<usize>
    ensures { MatchOption result ((s.0 ≡ 0) ⊎ (length state.now.places < s.0))
        (λ k. (s.0 ≡ suc k) × (k < length state.now.places)) }
{
    let number = s.0 as usize;
    if number == 0 {
        None
    } else if state.places.as_slice().len() < number {
        None
    } else {
        Some(number - 1)
    }
}

/// The next turn of a session; none if it has ended or doesn't exist.
fn turn(alloc: Global, w: &Workload, state: &mut State, s: SessionNo) -> Result<(), OutOfMemory>
    requires valid { IsValid w.now }
    requires reached { (r : Run) × ShowsRun w.now state.old r × IsReached w.now r }
    ensures { (r : Run) → ShowsRun w.now state.old r → IsReached w.now r
        → OnOk result (ShowsRun w.now state.new (take_turn r s)) }
{
    let _taken = state.taken.as_slice().len();
    match index_of(state, s) {
        None => Ok(()),
        Some(k) => turn_at(alloc, state, s, k, w.sessions.as_slice()[k].as_slice()),
    }
}

/// The commit or install that a session owes, if it owes one.
fn settle_session(
    alloc: Global,
    w: &Workload,
    state: &mut State,
    s: SessionNo,
    k: usize,
) -> Result<(), OutOfMemory>
    requires valid { IsValid w.now }
    requires session { s.0 ≡ suc k }
    requires here { k < length w.now.sessions }
    requires reached { (r : Run) × ShowsRun w.now state.old r × IsReached w.now r }
    ensures { (r : Run) → ShowsRun w.now state.old r → IsReached w.now r
        → OnOk result (ShowsRun w.now state.new (settled r s)) }
{
    let _taken = state.taken.as_slice().len();
    settle(alloc, state, s, k, w.sessions.as_slice()[k].as_slice())
}

/// The list of turns, from the start on.
fn take_all(
    alloc: Global,
    w: &Workload,
    state: &mut State,
    turns: &[SessionNo],
) -> Result<(), OutOfMemory>
    requires valid { IsValid w.now }
    requires start { ShowsRun w.now state.old (initial w.now) }
    ensures { OnOk result (ShowsRun w.now state.new (take_turns (initial w.now) turns.now)) }
{
    'turns: for i in 0..turns.len() {
        turn(alloc, w, state, turns[i])?;
    }
    Ok(())
}

fn ended_of(state: &State, k: usize) -> usize
    requires { k < length state.now.places }
    ensures { (d : PlaceValue) → result ≡ (get_or state.now.places k d).ended }
{
    state.places.as_slice()[k].ended
}

/// A session finishes: what it owes, and then each transaction that it hasn't begun.
fn finish_session(
    alloc: Global,
    w: &Workload,
    state: &mut State,
    s: SessionNo,
    k: usize,
) -> Result<(), OutOfMemory>
    requires valid { IsValid w.now }
    requires session { s.0 ≡ suc k }
    requires here { k < length w.now.sessions }
    requires reached { (r : Run) × ShowsRun w.now state.old r × IsReached w.now r }
    ensures { (r : Run) → ShowsRun w.now state.old r → IsReached w.now r
        → OnOk result (ShowsRun w.now state.new (finished_session r s)) }
{
    settle_session(alloc, w, state, s, k)?;
    let first = ended_of(state, k);
    let count = w.sessions.as_slice()[k].as_slice().len();
    'pieces: for i in first..count {
        turn(alloc, w, state, s)?;
        settle_session(alloc, w, state, s, k)?;
    }
    Ok(())
}

/// Each session finishes, in the order of their numbers.
fn finish_all(alloc: Global, w: &Workload, state: &mut State) -> Result<(), OutOfMemory>
    requires valid { IsValid w.now }
    requires reached { (r : Run) × ShowsRun w.now state.old r × IsReached w.now r }
    ensures { (r : Run) → ShowsRun w.now state.old r → IsReached w.now r
        → OnOk result (ShowsRun w.now state.new (finished_sessions r (session_numbers 1 w.now.sessions))) }
{
    let count = w.sessions.as_slice().len();
    'sessions: for k in 0..count {
        finish_session(alloc, w, state, SessionNo((k + 1) as u8), k)?;
    }
    Ok(())
}

fn empty_tables(alloc: Global, count: usize) -> Result<Items<PlainTable>, OutOfMemory>
    ensures { IfOk result (λ tables. tables ≡ replicate count empty_table) }
{
    let mut tables = Vec::new(alloc);
    'tables: for _i in 0..count {
        tables.push(no_rows(alloc))?;
    }
    Ok(Items::from_vec(tables))
}

fn zeros(alloc: Global, count: usize) -> Result<Items<u64>, OutOfMemory>
    ensures { IfOk result (λ numbers. numbers ≡ replicate count 0) }
{
    let mut numbers = Vec::new(alloc);
    'numbers: for _i in 0..count {
        numbers.push(0)?;
    }
    Ok(Items::from_vec(numbers))
}

fn first_places(alloc: Global, count: usize) -> Result<Items<Place>, OutOfMemory>
    ensures { IfOk result (λ places. places ≡ replicate count first_place) }
{
    let mut places = Vec::new(alloc);
    'places: for _i in 0..count {
        places.push(Place {
            ended: 0,
            standing: Standing::Ready,
        })?;
    }
    Ok(Items::from_vec(places))
}

fn start(alloc: Global, w: &Workload) -> Result<State, OutOfMemory>
    ensures { IfOk result (λ state. ShowsRun w.now state (initial w.now)) }
{
    let count = w.tables.as_slice().len();
    let tables = empty_tables(alloc, count)?;
    let written = zeros(alloc, count)?;
    let laid = zeros(alloc, count)?;
    let places = first_places(alloc, w.sessions.as_slice().len())?;
    Ok(State {
        version: 0,
        current: PlainDb { tables },
        written,
        laid,
        places,
        taken: Items::new(alloc),
        done: Items::new(alloc),
    })
}

/// The run of a valid workload under these turns: the sessions of the turns that were taken, and the finished
/// transactions in the order of the history.
pub fn run_turns(
    alloc: Global,
    w: &Workload,
    turns: &[SessionNo],
) -> Result<(Items<SessionNo>, Items<DoneTxn>), OutOfMemory>
    requires { IsValid w.now }
    ensures turns { IfOk result (λ given. given.0 ≡ turns_taken (run w.now turns.now)) }
    ensures history { IfOk result (λ given. given.1 ≡ history (run w.now turns.now)) }
{
    let mut state = start(alloc, w)?;
    take_all(alloc, w, &mut state, turns)?;
    finish_all(alloc, w, &mut state)?;
    let State {
        version: _,
        current: _,
        written: _,
        laid: _,
        places: _,
        taken,
        done,
    } = state;
    Ok((taken, in_history_order(done)?))
}
