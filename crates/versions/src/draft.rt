//! A table of the next version in the making.
ghost use Rattle.enc_table.specs.Seen.{with_shelf};
ghost use Rattle.enc_table.specs.Sums.{delete_sums, sums};
ghost use Rattle.std.specs.Prelude.{◌≡◌, ◌+◌, ◌++◌, ◌<◌, ◌^◌, [], ◌∷◌, IfOk, OnOk, get_or, length, take};
ghost use Rattle.table_model.specs.Changes.{delete_rows, insert_row};
ghost use Rattle.table_model.specs.Fitting.{AllAmong, AllPlaced};
ghost use Rattle.table_model.specs.Soundness.{kept_numbers};
ghost use Rattle.table_model.specs.Steps.{adds};
ghost use Rattle.tree_model.specs.Places.{IsIncreasing};
ghost use Rattle.versions.specs.Drafts.{IsDraft};
ghost use Rattle.versions.specs.Operations.{OpsFit, rank_ops};
ghost use Rattle.versions.specs.Summed.{noted, one_at};
ghost use Rattle.versions.specs.declared.draft.Logged.TheVariants.{Row, Rows};

use crate::op::Op;
use crate::version::Version;
use enc_table::{Table, TableStop};
use mope_base::{Body, Items, OutOfMemory, TableNo};
use ope_tree::{Change, Place};
use std::alloc::Global;

/// What an operation did to the codes of each column of its table.
#[derive(Drop)]
pub enum Logged {
    /// Of a new row: one change for each column.
    Row(Items<Change>),
    /// Of rows that went: for each column one change for each row.
    Rows(Items<Items<Change>>),
}

impl Logged {
    /// The changes of a column, and none where there is no such column.
    pub fn noted(&self, column: usize) -> &[Change]
        ensures { result.now ≡ noted self.now column }
    {
        match self {
            Logged::Row(changes) => one_at(changes.as_slice(), column),
            Logged::Rows(lists) => list_at(lists.as_slice(), column),
        }
    }
}

/// The one at a place, and none where there are fewer.
fn one_at(changes: &[Change], place: usize) -> &[Change]
    ensures { result.now ≡ one_at changes.now place }
{
    if place < changes.len() {
        &changes[place..=place]
    } else {
        &changes[..0]
    }
}

/// The list at a place, and an empty one where there are fewer.
fn list_at(lists: &[Items<Change>], place: usize) -> &[Change]
    ensures { result.now ≡ get_or lists.now place [] }
{
    match lists.get(place) {
        Some(list) => list.as_slice(),
        None => &[],
    }
}

/// A copy of a table, after some operations on it, and what these did.
#[derive(Drop)]
pub struct Draft {
    pub table: Table,
    pub log: Vec<Logged>,
}

/// One row more.
fn insert(draft: &mut Draft, places: &[Place], bodies: &[Body]) -> Result<(), OutOfMemory>
    requires placed { AllPlaced draft.old.table.shelf.columns places.now }
    requires wide { length bodies.now ≡ length draft.old.table.shelf.columns }
    requires room { length draft.old.table.shelf.kept < draft.old.table.limit }
    requires number { draft.old.table.shelf.next < 2 ^ 63 }
    ensures table { OnOk result (draft.new.table ≡ with_shelf (insert_row draft.old.table.same_time places.now bodies.now draft.old.table.shelf) draft.old.table) }
    ensures log { OnOk result (draft.new.log.items ≡ draft.old.log.items ++ Row (sums draft.old.table.same_time (adds places.now bodies.now) draft.old.table.shelf.columns) ∷ []) }
{
    let changes = match draft.table.insert_row(places, bodies) {
        Ok(changes) => changes,
        Err(TableStop::Full) => unreachable!(),
        Err(TableStop::OutOfMemory) => return Err(OutOfMemory),
    };
    draft.log.push(Logged::Row(changes))?;
    Ok(())
}

/// Rows fewer.
fn delete(draft: &mut Draft, rows: &[u64]) -> Result<(), OutOfMemory>
    requires rise { IsIncreasing rows.now }
    requires live { AllAmong (kept_numbers draft.old.table.shelf.kept) rows.now }
    ensures table { OnOk result (draft.new.table ≡ with_shelf (delete_rows draft.old.table.same_time rows.now draft.old.table.shelf) draft.old.table) }
    ensures log { OnOk result (draft.new.log.items ≡ draft.old.log.items ++ Rows (delete_sums draft.old.table.same_time rows.now draft.old.table.shelf) ∷ []) }
{
    let changes = draft.table.delete_rows(rows)?;
    draft.log.push(Logged::Rows(changes))?;
    Ok(())
}

/// One of a list of operations, whose earlier ones the draft has; one on another table changes nothing.
fn apply_op(
    draft: &mut Draft,
    version: &Version,
    table: TableNo,
    ops: &[Op],
    at: usize,
) -> Result<(), OutOfMemory>
    requires within { at < length ops.now }
    requires fit { OpsFit (rank_ops ops.now) version.now }
    requires there { table.0 < length version.now.shelves }
    requires draft { IsDraft version.now table.0 (rank_ops (take at ops.now)) draft.old.table draft.old.log.items }
    ensures { OnOk result (IsDraft version.now table.0 (rank_ops (take (at + 1) ops.now)) draft.new.table draft.new.log.items) }
{
    let _database = version.tables();
    match &ops[at] {
        Op::Insert {
            table: named,
            places,
            bodies,
        } if *named == table => {
            insert(draft, places.as_slice(), bodies.as_slice())?;
            Ok(())
        }
        Op::Delete { table: named, rows } if *named == table => {
            delete(draft, rows.as_slice())?;
            Ok(())
        }
        _ => Ok(()),
    }
}

/// A copy of a table of a version, after those of the operations that are on it.
pub fn drafted(
    alloc: Global,
    version: &Version,
    table: TableNo,
    ops: &[Op],
) -> Result<Draft, OutOfMemory>
    requires fit { OpsFit (rank_ops ops.now) version.now }
    requires there { table.0 < length version.now.shelves }
    ensures { IfOk result (λ draft. IsDraft version.now table.0 (rank_ops ops.now) draft.table draft.log.items) }
{
    let _database = version.tables();
    let mut draft = Draft {
        table: version.copy_of(table)?,
        log: Vec::new(alloc),
    };
    'ops: for at in 0..ops.len() {
        apply_op(&mut draft, version, table, ops, at)?;
    }
    Ok(draft)
}
