//! Copies of scripts: a workload is read, and stays as it is.
ghost use Rattle.std.specs.Prelude.{◌≡◌, IfOk};

use mope_base::{Items, OutOfMemory};
use std::alloc::Global;
use workload::{Act, Ask, Piece, Verb};

fn copy_verb(alloc: Global, verb: &Verb) -> Result<Verb, OutOfMemory>
    ensures { IfOk result (λ copy. copy ≡ verb.now) }
{
    match verb {
        Verb::Rows {
            columns,
            order,
            limit,
        } => {
            let columns = Items::from_vec(columns.as_slice().to_vec(alloc)?);
            Ok(Verb::Rows {
                columns,
                order: *order,
                limit: *limit,
            })
        }
        Verb::Count => Ok(Verb::Count),
        Verb::Min(column) => Ok(Verb::Min(*column)),
        Verb::Max(column) => Ok(Verb::Max(*column)),
        Verb::Delete => Ok(Verb::Delete),
    }
}

fn copy_ask(alloc: Global, ask: &Ask) -> Result<Ask, OutOfMemory>
    ensures { IfOk result (λ copy. copy ≡ ask.now) }
{
    let verb = copy_verb(alloc, &ask.verb)?;
    let tests = Items::from_vec(ask.tests.as_slice().to_vec(alloc)?);
    Ok(Ask {
        table: ask.table,
        verb,
        tests,
    })
}

fn copy_act(alloc: Global, act: &Act) -> Result<Act, OutOfMemory>
    ensures { IfOk result (λ copy. copy ≡ act.now) }
{
    match act {
        Act::Insert { table, values } => {
            let values = Items::from_vec(values.as_slice().to_vec(alloc)?);
            Ok(Act::Insert {
                table: *table,
                values,
            })
        }
        Act::Ask(ask) => {
            let ask = copy_ask(alloc, ask)?;
            Ok(Act::Ask(ask))
        }
    }
}

fn copy_acts(alloc: Global, acts: &[Act]) -> Result<Items<Act>, OutOfMemory>
    ensures { IfOk result (λ copies. copies ≡ acts.now) }
{
    let mut copies = Vec::with_capacity(alloc, acts.len())?;
    'acts: for i in 0..acts.len() {
        let act = copy_act(alloc, &acts[i])?;
        copies.push(act)?;
    }
    Ok(Items::from_vec(copies))
}

fn copy_piece(alloc: Global, piece: &Piece) -> Result<Piece, OutOfMemory>
    ensures { IfOk result (λ copy. copy ≡ piece.now) }
{
    match piece {
        Piece::Txn { acts, rollback } => {
            let acts = copy_acts(alloc, acts.as_slice())?;
            Ok(Piece::Txn {
                acts,
                rollback: *rollback,
            })
        }
        Piece::Rebuild { table, column } => Ok(Piece::Rebuild {
            table: *table,
            column: *column,
        }),
    }
}

/// A script like this one.
pub(crate) fn copy_script(alloc: Global, script: &[Piece]) -> Result<Items<Piece>, OutOfMemory>
    ensures { IfOk result (λ copy. copy ≡ script.now) }
{
    let mut copies = Vec::with_capacity(alloc, script.len())?;
    'pieces: for i in 0..script.len() {
        let piece = copy_piece(alloc, &script[i])?;
        copies.push(piece)?;
    }
    Ok(Items::from_vec(copies))
}
