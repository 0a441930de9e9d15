//! The list of what became of the codes of each column.
ghost use Rattle.std.specs.Prelude.{◌≡◌, ◌++◌, ◌<◌, [], OnOk, length};
ghost use Rattle.table_model.specs.Operations.{ops_steps, shelf_at};
ghost use Rattle.versions.specs.Changes.{column_changes, listed};
ghost use Rattle.versions.specs.Drafts.{IsDraft};
ghost use Rattle.versions.specs.Operations.{rank_ops};

use crate::change::ColumnChange;
use crate::composing::composed_log;
use crate::draft::Draft;
use crate::op::Op;
use crate::version::Version;
use mope_base::{ColNo, OutOfMemory, TableNo};
use std::alloc::Global;
use summary::Summary;

/// Lists what became of the codes of a column, unless they all stay.
pub fn push_change(
    changes: &mut Vec<ColumnChange>,
    table: TableNo,
    column: ColNo,
    summary: Summary,
) -> Result<(), OutOfMemory>
    ensures { OnOk result (changes.new.items ≡ changes.old.items ++ listed table.0 column.0 summary []) }
{
    if summary.is_empty() {
        return Ok(());
    }
    changes.push(ColumnChange {
        table,
        column,
        summary,
    })?;
    Ok(())
}

/// Lists the columns of a table whose codes didn't all stay under the operations of a draft.
pub fn push_changes(
    alloc: Global,
    changes: &mut Vec<ColumnChange>,
    version: &Version,
    table: TableNo,
    ops: &[Op],
    draft: &Draft,
) -> Result<(), OutOfMemory>
    requires there { table.0 < length version.now.shelves }
    requires draft { IsDraft version.now table.0 (rank_ops ops.now) draft.now.table draft.now.log.items }
    ensures { OnOk result (changes.new.items ≡ changes.old.items ++ column_changes version.now.same_time table.0 0 (ops_steps version.now.same_time table.0 (rank_ops ops.now) version.now.shelves) (shelf_at version.now.shelves table.0).columns) }
{
    let found = version.table(table).unwrap();
    'columns: for column in 0..found.columns() {
        let summary = composed_log(alloc, &draft.log, column as usize)?;
        push_change(changes, table, ColNo(column), summary)?;
    }
    let _ops = ops.len();
    Ok(())
}
