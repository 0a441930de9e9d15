//! Scripts over a table of one column, and proxies that have them.

ghost use Rattle.std.specs.Prelude.{◌≡◌, ◌≤◌, ◌<◌, ◌+◌, ◌^◌, length, IsTrue, MatchOption};
ghost use Rattle.std.specs.List.{sum_by};
ghost use Rattle.workload.specs.Validity.{inserted_numbers, numbers_inserted};

use crate::{Proxy, Settings};
use mope_base::{ColNo, Items, Mode, OutOfMemory, SessionNo, TableNo};
use sql_text::Test;
use std::alloc::Global;
use std::mem;
use value_cipher::Key;
use workload::{Act, Ask, Piece, Verb};

/// The table, its column, and the key.
const T: TableNo = TableNo(0);

const A: ColNo = ColNo(0);

pub(super) const KEY: Key = Key { bytes: [0; 32] };

/// A line of a script: a statement, the end of a transaction, or a REBUILD.
#[derive(Clone, Copy)]
pub(super) enum Line {
    Insert(u64),
    Rows(Test),
    Count(Test),
    Min(Test),
    Max(Test),
    Delete(Test),
    Commit,
    Rollback,
    Rebuild,
}

fn rows(alloc: Global) -> Result<Verb, OutOfMemory> {
    let mut columns = Items::new(alloc);
    columns.push(A)?;
    Ok(Verb::Rows {
        columns,
        order: Some((A, false)),
        limit: None,
    })
}

fn insert(alloc: Global, value: u64) -> Result<Act, OutOfMemory> {
    let mut values = Items::new(alloc);
    values.push(value)?;
    Ok(Act::Insert { table: T, values })
}

fn ask(alloc: Global, verb: Verb, test: Test) -> Result<Act, OutOfMemory> {
    let mut tests = Items::new(alloc);
    tests.push((A, test))?;
    Ok(Act::Ask(Ask {
        table: T,
        verb,
        tests,
    }))
}

/// The statement of a line, if it is one.
fn act_of(alloc: Global, line: Line) -> Result<Option<Act>, OutOfMemory> {
    let act = match line {
        Line::Insert(value) => insert(alloc, value)?,
        Line::Rows(test) => ask(alloc, rows(alloc)?, test)?,
        Line::Count(test) => ask(alloc, Verb::Count, test)?,
        Line::Min(test) => ask(alloc, Verb::Min(A), test)?,
        Line::Max(test) => ask(alloc, Verb::Max(A), test)?,
        Line::Delete(test) => ask(alloc, Verb::Delete, test)?,
        _ => return Ok(None),
    };
    Ok(Some(act))
}

/// The transaction of these statements that ends by a line.
fn piece_of(line: Line, acts: Items<Act>) -> Piece {
    match line {
        Line::Rebuild => Piece::Rebuild {
            table: T,
            column: A,
        },
        Line::Rollback => Piece::Txn {
            acts,
            rollback: true,
        },
        _ => Piece::Txn {
            acts,
            rollback: false,
        },
    }
}

fn script_of(alloc: Global, lines: &[Line]) -> Result<Items<Piece>, OutOfMemory> {
    let mut script = Items::new(alloc);
    let mut acts = Items::new(alloc);
    'lines: for line in lines {
        match act_of(alloc, *line)? {
            Some(act) => acts.push(act)?,
            None => script.push(piece_of(*line, mem::replace(&mut acts, Items::new(alloc))))?,
        }
    }
    Ok(script)
}

/// What is left of `most` after the numbers of a statement.
#[tactic(auto, unfolding(workload::specs::Validity::inserted_numbers))]
fn left_by_act(most: u64, act: &Act) -> Option<u64>
    ensures { MatchOption result (Unit {0}) (λ left. left + inserted_numbers act.now ≡ most) }
{
    match act {
        Act::Insert { table: _, values } => most.checked_sub(values.as_slice().len() as u64),
        Act::Ask(_) => Some(most),
    }
}

fn left_by_acts(most: u64, acts: &[Act]) -> Option<u64>
    ensures { MatchOption result (Unit {0}) (λ left. left + sum_by inserted_numbers acts.now ≡ most) }
{
    let mut left = most;
    'acts: for i in 0..acts.len() {
        left = left_by_act(left, &acts[i])?;
    }
    Some(left)
}

#[tactic(auto, unfolding(workload::specs::Validity::numbers_inserted))]
fn left_by_piece(most: u64, piece: &Piece) -> Option<u64>
    ensures { MatchOption result (Unit {0}) (λ left. left + numbers_inserted piece.now ≡ most) }
{
    match piece {
        Piece::Txn { acts, rollback: _ } => left_by_acts(most, acts.as_slice()),
        Piece::Rebuild {
            table: _,
            column: _,
        } => Some(most),
    }
}

/// Whether the INSERTs of a script have at most so many numbers.
fn has_few_numbers(most: u64, pieces: &[Piece]) -> bool
    ensures { IsTrue result → sum_by numbers_inserted pieces.now ≤ most }
{
    let mut left = most;
    'pieces: for i in 0..pieces.len() {
        match left_by_piece(left, &pieces[i]) {
            Some(rest) => left = rest,
            None => return false,
        }
    }
    true
}

/// Whether a script is one that a proxy takes.
fn is_small(script: &Items<Piece>) -> bool
    ensures pieces { IsTrue result → length script.now < 2 ^ 32 }
    ensures numbers { IsTrue result → sum_by numbers_inserted script.now < 2 ^ 32 }
{
    let pieces = script.as_slice();
    pieces.len() < 1 << 32 && has_few_numbers((1 << 32) - 1, pieces)
}

/// A proxy of session 1 with the script of these lines, which keeps its exchanges. A script that isn't small ends the test.
pub(super) fn proxy_of(alloc: Global, lines: &[Line]) -> Result<Proxy, OutOfMemory> {
    let script = script_of(alloc, lines)?;
    if !is_small(&script) {
        return Err(OutOfMemory);
    }
    let settings = Settings {
        key: KEY,
        first: 0,
        mode: Mode::Ordinary,
        keep: true,
    };
    Ok(Proxy::new(alloc, settings, SessionNo(1), script))
}
