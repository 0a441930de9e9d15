//! The lines of turns.

ghost use Rattle.std.specs.Prelude.{◌≡◌, ◌++◌, flat_map, OnOk};
ghost use Rattle.report.specs.ViewText.{change_lines, changed_by, numbered_from, turn_line, turn_lines, what_text};

use crate::appending::{push_bytes, push_number};
use crate::changes::push_changes;
use crate::transactions::push_table;
use mope_base::OutOfMemory;
use versions::{Turn, TurnKind};
use workload::Workload;

/// Appends the lines of each turn, numbered from 1.
pub(crate) fn push_turns(
    text: &mut Vec<u8>,
    w: &Workload,
    turns: &[Turn],
) -> Result<(), OutOfMemory>
    ensures { OnOk result (text.new.items ≡ text.old.items ++ numbered_from (turn_lines w.now) 1 turns.now) }
{
    'turns: for (index, turn) in turns.iter().enumerate() {
        push_turn(text, w, index as u64 + 1, turn)?;
    }
    Ok(())
}

/// Appends the line of a turn and those of the columns that it changed.
fn push_turn(text: &mut Vec<u8>, w: &Workload, number: u64, turn: &Turn) -> Result<(), OutOfMemory>
    ensures { OnOk result (text.new.items ≡ text.old.items ++ turn_lines w.now number turn.now) }
{
    push_turn_line(text, w, number, turn)?;
    push_changed(text, w, turn)?;
    Ok(())
}

/// Appends the line that says whose turn it was and what it did.
fn push_turn_line(
    text: &mut Vec<u8>,
    w: &Workload,
    number: u64,
    turn: &Turn,
) -> Result<(), OutOfMemory>
    ensures { OnOk result (text.new.items ≡ text.old.items ++ turn_line w.now number turn.now) }
{
    push_number(text, b"turn ", number)?;
    push_number(text, b" session ", turn.session.0 as u64)?;
    push_bytes(text, b" ")?;
    push_what(text, w, &turn.what)?;
    push_bytes(text, b"\n")?;
    Ok(())
}

/// Appends what a turn did.
fn push_what(text: &mut Vec<u8>, w: &Workload, what: &TurnKind) -> Result<(), OutOfMemory>
    ensures { OnOk result (text.new.items ≡ text.old.items ++ what_text w.now what.now) }
{
    match what {
        TurnKind::Began(number) => push_number(text, b"begin ", *number),
        TurnKind::Committed { number, .. } => push_number(text, b"commit ", *number),
        TurnKind::Conflict { table, number } => {
            push_table(text, b"conflict ", w, *table)?;
            push_number(text, b" ", *number)
        }
        TurnKind::Installed { number, .. } => push_number(text, b"install ", *number),
        TurnKind::Stale { table, number } => {
            push_table(text, b"stale ", w, *table)?;
            push_number(text, b" ", *number)
        }
    }
}

/// Appends the lines of the columns that a turn changed: only a commit and an install change some.
fn push_changed(text: &mut Vec<u8>, w: &Workload, turn: &Turn) -> Result<(), OutOfMemory>
    ensures { OnOk result (text.new.items ≡ text.old.items ++ flat_map (change_lines w.now) (changed_by turn.now.what turn.now.changes)) }
{
    match turn.what {
        TurnKind::Committed { .. } => push_changes(text, w, turn.changes.as_slice()),
        TurnKind::Installed { .. } => push_changes(text, w, turn.changes.as_slice()),
        TurnKind::Began(_) => Ok(()),
        TurnKind::Conflict { .. } => Ok(()),
        TurnKind::Stale { .. } => Ok(()),
    }
}
