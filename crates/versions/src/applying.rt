//! The version that a commit makes of one.
ghost use Rattle.std.specs.Arc.{arc_value};
ghost use Rattle.std.specs.Prelude.{◌≡◌, ◌++◌, ◌<◌, ◌^◌, IfOk, OnOk, length, true};
ghost use Rattle.table_model.specs.Operations.{ops_steps, shelf_at};
ghost use Rattle.versions.specs.Changes.{column_changes, ops_changes};
ghost use Rattle.versions.specs.Databases.{IsMember, table_at};
ghost use Rattle.versions.specs.Drafts.{is_written};
ghost use Rattle.versions.specs.Operations.{OpsFit, rank_ops, with_ops};

use crate::change::ColumnChange;
use crate::draft::drafted;
use crate::listing::push_changes;
use crate::op::Op;
use crate::version::Version;
use enc_table::{Stamps, Table};
use mope_base::{Items, OutOfMemory, TableNo};
use std::alloc::Global;
use std::sync::Arc;

/// Whether one of the operations is on a table.
fn is_written(ops: &[Op], table: TableNo) -> bool
    ensures { result ≡ is_written (rank_ops ops.now) table.0 }
{
    'ops: for op in ops {
        if op.table() == table {
            return true;
        }
    }
    false
}

/// A table of the next version, which some of the operations are on.
fn written(
    alloc: Global,
    version: &Version,
    table: TableNo,
    ops: &[Op],
    changes: &mut Vec<ColumnChange>,
) -> Result<Arc<Table, Global>, OutOfMemory>
    requires fit { OpsFit (rank_ops ops.now) version.now }
    requires number { version.now.number < 2 ^ 63 }
    requires there { table.0 < length version.now.shelves }
    requires named { is_written (rank_ops ops.now) table.0 ≡ true }
    ensures value { IfOk result (λ share. arc_value share ≡ table_at (with_ops (rank_ops ops.now) version.now) table.0) }
    ensures member { IfOk result (λ share. IsMember version.now.same_time version.now.limit (arc_value share)) }
    ensures changes { OnOk result (changes.new.items ≡ changes.old.items ++ column_changes version.now.same_time table.0 0 (ops_steps version.now.same_time table.0 (rank_ops ops.now) version.now.shelves) (shelf_at version.now.shelves table.0).columns) }
{
    let mut draft = drafted(alloc, version, table, ops)?;
    push_changes(alloc, changes, version, table, ops, &draft)?;
    let stamps = draft.table.stamps();
    draft.table.stamp(Stamps {
        written: version.number() + 1,
        laid: stamps.laid,
    });
    let _columns = draft.table.columns();
    let share = Arc::new(alloc, draft.table)?;
    Ok(share)
}

/// A table of the next version: one that no operation is on is the same in both.
fn table_after(
    alloc: Global,
    version: &Version,
    table: TableNo,
    ops: &[Op],
    changes: &mut Vec<ColumnChange>,
) -> Result<Arc<Table, Global>, OutOfMemory>
    requires fit { OpsFit (rank_ops ops.now) version.now }
    requires number { version.now.number < 2 ^ 63 }
    requires there { table.0 < length version.now.shelves }
    ensures value { IfOk result (λ share. arc_value share ≡ table_at (with_ops (rank_ops ops.now) version.now) table.0) }
    ensures member { IfOk result (λ share. IsMember version.now.same_time version.now.limit (arc_value share)) }
    ensures changes { OnOk result (changes.new.items ≡ changes.old.items ++ column_changes version.now.same_time table.0 0 (ops_steps version.now.same_time table.0 (rank_ops ops.now) version.now.shelves) (shelf_at version.now.shelves table.0).columns) }
{
    if is_written(ops, table) {
        let share = written(alloc, version, table, ops, changes)?;
        return Ok(share);
    }
    let share = version.share_of(table)?;
    Ok(share)
}

/// The version after these operations, in their order, and what became of the codes of each column: by table and then column,
/// and without the columns whose codes all stay. The number is one higher, and each table with an operation was last written
/// by it.
///
/// Each operation's table, places, rows and widths must be there when its turn comes, a deletion's rows must increase and be at
/// least one, and no table may pass its limit of rows. The version's number must be below 2^63.
pub fn apply_ops(
    alloc: Global,
    version: &Version,
    ops: &[Op],
) -> Result<(Version, Items<ColumnChange>), OutOfMemory>
    requires fit { OpsFit (rank_ops ops.now) version.now }
    requires number { version.now.number < 2 ^ 63 }
    ensures version { IfOk result (λ made. made.0 ≡ with_ops (rank_ops ops.now) version.now) }
    ensures changes { IfOk result (λ made. made.1 ≡ ops_changes (rank_ops ops.now) version.now) }
{
    let mut tables = Vec::new(alloc);
    let mut changes = Vec::new(alloc);
    'tables: for at in 0..version.tables() {
        let table = table_after(alloc, version, TableNo(at as u8), ops, &mut changes)?;
        tables.push(table)?;
    }
    Ok((version.next(tables), Items::from_vec(changes)))
}
