//! The versions that commits and installs make, and the turns that tell of them.
ghost use Rattle.std.specs.Prelude.{◌≡◌, ◌<◌, ◌≤◌, ◌^◌, ◌++◌, ◌+◌, ◌∷◌, [], suc, length, IfOk, OnErr, OnOk, vec_capacity};
ghost use Rattle.versions.specs.Changes.{install_changes, ops_changes};
ghost use Rattle.versions.specs.Operations.{HasColumn, OpsFit, rank_ops, with_install, with_ops};
ghost use Rattle.versions.specs.declared.turn.TurnKind.TheVariants.{Committed, Installed};

use crate::copies::copied_ops;
use mope_base::{ColNo, Items, OutOfMemory, TableNo};
use std::alloc::Global;
use versions::{ColumnChange, Op, Snapshot, Turn, TurnKind, Version, apply_ops, apply_rebuild};

/// A new version with its number, what the turn did that makes it, and all that it changed.
#[derive(Drop)]
pub(crate) struct Made {
    pub(crate) version: Snapshot,
    pub(crate) number: u64,
    pub(crate) what: TurnKind,
    pub(crate) changes: Items<ColumnChange>,
}

/// What operations make of a version. They must fit it, and its number must be below 2^63.
pub(crate) fn make_commit(alloc: Global, current: &Version, ops: &[Op]) -> Result<Made, OutOfMemory>
    requires fit { OpsFit (rank_ops ops.now) current.now }
    requires number { current.now.number < 2 ^ 63 }
    ensures version { IfOk result (λ made. made.version ≡ with_ops (rank_ops ops.now) current.now) }
    ensures number { IfOk result (λ made. made.number ≡ suc current.now.number) }
    ensures what { IfOk result (λ made. made.what ≡ Committed (suc current.now.number) ops.now) }
    ensures changes { IfOk result (λ made. made.changes ≡ ops_changes (rank_ops ops.now) current.now) }
{
    let (version, changes) = apply_ops(alloc, current, ops)?;
    let number = version.number();
    let ops = copied_ops(alloc, ops)?;
    let version = Version::share(alloc, version)?;
    Ok(Made {
        version,
        number,
        what: TurnKind::Committed { number, ops },
        changes,
    })
}

/// What the balanced tree of a column makes of a version. There must be that column, and the version's number must be below 2^63.
pub(crate) fn make_install(
    alloc: Global,
    current: &Version,
    table: TableNo,
    column: ColNo,
) -> Result<Made, OutOfMemory>
    requires there { HasColumn table.0 column.0 current.now }
    requires number { current.now.number < 2 ^ 63 }
    ensures version { IfOk result (λ made. made.version ≡ with_install table.0 column.0 current.now) }
    ensures number { IfOk result (λ made. made.number ≡ suc current.now.number) }
    ensures what { IfOk result (λ made. made.what ≡ Installed (suc current.now.number) table column) }
    ensures changes { IfOk result (λ made. made.changes ≡ install_changes table.0 column.0 current.now) }
{
    let (version, changes) = apply_rebuild(alloc, current, table, column)?;
    let number = version.number();
    let version = Version::share(alloc, version)?;
    Ok(Made {
        version,
        number,
        what: TurnKind::Installed {
            number,
            table,
            column,
        },
        changes,
    })
}

/// No list holds 2^63 elements, so there is no place for one more turn where there are 2^63 - 1. Below that, the number of the
/// current version is below 2^63.
const MOST_TURNS: usize = usize::MAX / 2;

/// Answers want of memory where no list could hold one turn more.
pub(crate) fn check_room(turns: &Vec<Turn>) -> Result<(), OutOfMemory>
    ensures room { OnOk result (length turns.now.items + 1 < 2 ^ 63) }
{
    if turns.len() < MOST_TURNS {
        Ok(())
    } else {
        Err(OutOfMemory)
    }
}

/// Adds a turn at the end. On an error the list is as it was, and has the same room.
pub(crate) fn add_turn(turns: &mut Vec<Turn>, turn: Turn) -> Result<(), OutOfMemory>
    ensures added { OnOk result (turns.new.items ≡ turns.old.items ++ turn ∷ []) }
    ensures room { vec_capacity turns.old ≤ vec_capacity turns.new }
    ensures items { OnErr result (turns.new.items ≡ turns.old.items) }
    ensures same_room { OnErr result (vec_capacity turns.new ≡ vec_capacity turns.old) }
{
    match turns.reserve(1) {
        Ok(()) => {}
        Err(_) => return Err(OutOfMemory),
    }
    turns.push_reserved(turn);
    Ok(())
}
