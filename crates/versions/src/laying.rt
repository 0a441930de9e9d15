//! The version that an install makes of one.
ghost use Rattle.std.specs.Arc.{arc_value};
ghost use Rattle.std.specs.Prelude.{◌≡◌, ◌++◌, ◌<◌, ◌==◌, ◌^◌, [], ◌∷◌, IfOk, OnOk, length};
ghost use Rattle.table_model.specs.Operations.{shelf_at, steps_if};
ghost use Rattle.table_model.specs.Steps.{only};
ghost use Rattle.tree_model.specs.Columns.{Lay};
ghost use Rattle.versions.specs.Changes.{column_changes, install_changes};
ghost use Rattle.versions.specs.Databases.{IsMember, table_at};
ghost use Rattle.versions.specs.Operations.{HasColumn, with_install};

use crate::change::ColumnChange;
use crate::listing::push_change;
use crate::version::Version;
use enc_table::{Stamps, Table};
use mope_base::{ColNo, Items, OutOfMemory, TableNo};
use std::alloc::Global;
use std::sync::Arc;
use summary::Summary;

/// The table of the next version that has the column.
fn laid(
    alloc: Global,
    version: &Version,
    table: TableNo,
    column: ColNo,
    changes: &mut Vec<ColumnChange>,
) -> Result<Arc<Table, Global>, OutOfMemory>
    requires number { version.now.number < 2 ^ 63 }
    requires there { HasColumn table.0 column.0 version.now }
    ensures value { IfOk result (λ share. arc_value share ≡ table_at (with_install table.0 column.0 version.now) table.0) }
    ensures member { IfOk result (λ share. IsMember version.now.same_time version.now.limit (arc_value share)) }
    ensures changes { OnOk result (changes.new.items ≡ changes.old.items ++ column_changes version.now.same_time table.0 0 (only column.0 (Lay ∷ [])) (shelf_at version.now.shelves table.0).columns) }
{
    let mut copy = version.copy_of(table)?;
    let change = copy.rebuild_column(column)?;
    let summary = Summary::of_change(alloc, &change)?;
    push_change(changes, table, column, summary)?;
    let stamps = copy.stamps();
    copy.stamp(Stamps {
        written: stamps.written,
        laid: version.number() + 1,
    });
    let _columns = copy.columns();
    let share = Arc::new(alloc, copy)?;
    Ok(share)
}

/// A table of the next version: each but the one that has the column is the same in both.
fn table_after(
    alloc: Global,
    version: &Version,
    at: TableNo,
    table: TableNo,
    column: ColNo,
    changes: &mut Vec<ColumnChange>,
) -> Result<Arc<Table, Global>, OutOfMemory>
    requires number { version.now.number < 2 ^ 63 }
    requires there { HasColumn table.0 column.0 version.now }
    requires within { at.0 < length version.now.shelves }
    ensures value { IfOk result (λ share. arc_value share ≡ table_at (with_install table.0 column.0 version.now) at.0) }
    ensures member { IfOk result (λ share. IsMember version.now.same_time version.now.limit (arc_value share)) }
    ensures changes { OnOk result (changes.new.items ≡ changes.old.items ++ column_changes version.now.same_time at.0 0 (steps_if (at.0 == table.0) (only column.0 (Lay ∷ []))) (shelf_at version.now.shelves at.0).columns) }
{
    if at == table {
        let share = laid(alloc, version, at, column, changes)?;
        return Ok(share);
    }
    let share = version.share_of(at)?;
    Ok(share)
}

/// The version in which the tree of a column is balanced with all its items, and what became of the codes of that column, if
/// any code moved. The number is one higher, and the table was last laid by it; its rows stay.
///
/// There must be that table and that column. The version's number must be below 2^63.
pub fn apply_rebuild(
    alloc: Global,
    version: &Version,
    table: TableNo,
    column: ColNo,
) -> Result<(Version, Items<ColumnChange>), OutOfMemory>
    requires there { HasColumn table.0 column.0 version.now }
    requires number { version.now.number < 2 ^ 63 }
    ensures version { IfOk result (λ made. made.0 ≡ with_install table.0 column.0 version.now) }
    ensures changes { IfOk result (λ made. made.1 ≡ install_changes table.0 column.0 version.now) }
{
    let mut tables = Vec::new(alloc);
    let mut changes = Vec::new(alloc);
    'tables: for at in 0..version.tables() {
        let made = table_after(
            alloc,
            version,
            TableNo(at as u8),
            table,
            column,
            &mut changes,
        )?;
        tables.push(made)?;
    }
    Ok((version.next(tables), Items::from_vec(changes)))
}
