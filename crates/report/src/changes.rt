//! The lines of what became of the codes of columns.

ghost use Rattle.std.specs.Prelude.{◌≡◌, ◌++◌, flat_map, OnOk};
ghost use Rattle.report.specs.ViewText.{change_lines, code_line, column_line, column_name, column_of, map_line, sum_lines};

use crate::appending::push_bytes;
use crate::hexadecimal::push_code;
use crate::transactions::push_table;
use mope_base::{ColNo, OutOfMemory, TableNo};
use summary::{Recode, Summary};
use versions::ColumnChange;
use workload::{Decl, Workload};

/// Appends the lines of each changed column.
pub(crate) fn push_changes(
    text: &mut Vec<u8>,
    w: &Workload,
    changes: &[ColumnChange],
) -> Result<(), OutOfMemory>
    ensures { OnOk result (text.new.items ≡ text.old.items ++ flat_map (change_lines w.now) changes.now) }
{
    'changes: for change in changes {
        push_change(text, w, change)?;
    }
    Ok(())
}

/// Appends the lines of a column, unless all its codes stayed.
fn push_change(text: &mut Vec<u8>, w: &Workload, change: &ColumnChange) -> Result<(), OutOfMemory>
    ensures { OnOk result (text.new.items ≡ text.old.items ++ change_lines w.now change.now) }
{
    if change.summary.is_empty() {
        return Ok(());
    }
    push_column_line(text, w, change.table, change.column)?;
    push_summary(text, &change.summary)?;
    Ok(())
}

/// Appends a line with the names of a table and of its column.
fn push_column_line(
    text: &mut Vec<u8>,
    w: &Workload,
    table: TableNo,
    column: ColNo,
) -> Result<(), OutOfMemory>
    ensures { OnOk result (text.new.items ≡ text.old.items ++ column_line w.now table column) }
{
    push_table(text, b"column ", w, table)?;
    push_bytes(text, b" ")?;
    push_column(text, w, table, column)?;
    push_bytes(text, b"\n")?;
    Ok(())
}

/// Appends the name of a column, as its table declares it.
fn push_column(
    text: &mut Vec<u8>,
    w: &Workload,
    table: TableNo,
    column: ColNo,
) -> Result<(), OutOfMemory>
    ensures { OnOk result (text.new.items ≡ text.old.items ++ column_name w.now table column) }
{
    match w.tables.as_slice().get(table.0 as usize) {
        Some(declared) => push_column_of(text, declared, column),
        None => Ok(()),
    }
}

/// Appends the name of a column of a table.
fn push_column_of(text: &mut Vec<u8>, declared: &Decl, column: ColNo) -> Result<(), OutOfMemory>
    ensures { OnOk result (text.new.items ≡ text.old.items ++ column_of declared.now column) }
{
    match declared.columns.as_slice().get(column.0 as usize) {
        Some(name) => push_bytes(text, name.bytes.as_slice()),
        None => Ok(()),
    }
}

/// Appends a line for each code that was dropped, that changed and that is new.
fn push_summary(text: &mut Vec<u8>, summary: &Summary) -> Result<(), OutOfMemory>
    ensures { OnOk result (text.new.items ≡ text.old.items ++ sum_lines summary.now) }
{
    push_codes(text, b"drop ", summary.dropped())?;
    push_recodes(text, summary.moved())?;
    push_codes(text, b"new ", summary.added())?;
    Ok(())
}

/// Appends a line with a word for each code.
fn push_codes(text: &mut Vec<u8>, before: &[u8], codes: &[u64]) -> Result<(), OutOfMemory>
    ensures { OnOk result (text.new.items ≡ text.old.items ++ flat_map (code_line before.now) codes.now) }
{
    'codes: for code in codes {
        push_code_line(text, before, *code)?;
    }
    Ok(())
}

/// Appends a line with a word and a code.
fn push_code_line(text: &mut Vec<u8>, before: &[u8], code: u64) -> Result<(), OutOfMemory>
    ensures { OnOk result (text.new.items ≡ text.old.items ++ code_line before.now code) }
{
    push_code(text, before, code)?;
    push_bytes(text, b"\n")
}

/// Appends a line for each code that changed.
fn push_recodes(text: &mut Vec<u8>, moved: &[Recode]) -> Result<(), OutOfMemory>
    ensures { OnOk result (text.new.items ≡ text.old.items ++ flat_map map_line moved.now) }
{
    'moved: for recode in moved {
        push_recode(text, *recode)?;
    }
    Ok(())
}

/// Appends a line with an old code and the new one.
fn push_recode(text: &mut Vec<u8>, recode: Recode) -> Result<(), OutOfMemory>
    ensures { OnOk result (text.new.items ≡ text.old.items ++ map_line recode) }
{
    push_code(text, b"map ", recode.old)?;
    push_code(text, b" ", recode.new)?;
    push_bytes(text, b"\n")?;
    Ok(())
}
