//! The table itself.
ghost use Rattle.enc_table.specs.Seen.{IsFull, IsTable, new_table, with_stamps};
ghost use Rattle.mope_base.specs.Modes.{is_same_time};
ghost use Rattle.std.specs.Prelude.{◌≡◌, ◌<◌, ◌≤◌, ◌↔◌, IfOk, IsTrue, MatchOption, Some, drop, false, length, slice_get, take};
ghost use Rattle.table_model.specs.Soundness.{kept_numbers};
ghost use Rattle.tree_model.specs.Places.{holds};

use crate::positions::position_of;
use crate::stamps::Stamps;
use crate::stored_rows::StoredRows;
use mope_base::{Mode, OutOfMemory};
use std::alloc::Global;
use std::marker::Model;

/// A table of sealed rows: for each column a sealed value of each row, a tree of the values as items, and an index of the rows
/// by the codes of their items.
///
/// Contracts see its shelf, in which a row knows its items by their ranks; its mode; its limit of rows; its stamps; and whether
/// it is spent: after want of memory it has no rows and no items, and each later call that can answer want of memory does.
#[derive(Drop)]
pub struct Table {
    pub(crate) alloc: Global,
    pub(crate) mode: Mode,
    pub(crate) limit: u32,
    pub(crate) stamps: Stamps,
    pub(crate) next: u64,
    pub(crate) rows: StoredRows,
    pub(crate) spent: bool,
}

impl Model for Table {
    ghost use Rattle.enc_table.specs.Fields.{AreFields, seen_in};
    ghost use Rattle.enc_table.specs.Seen.{Seen, seen_code};
    ghost use Rattle.mope_base.specs.Modes.{is_same_time};

    ghost Value = { Seen };

    ghost coded = { seen_code };

    ghost view = { λ t. seen_in (is_same_time t.mode) t.limit t.stamps t.next t.rows.numbers t.rows.columns.items t.spent };

    ghost invariant = { λ t. AreFields (is_same_time t.mode) t.limit t.stamps t.next t.rows.numbers t.rows.columns.items t.spent };
}

impl Table {
    /// A table of 1 to 8 columns without rows, in this mode, and with a limit of rows of at most 1,048,576. The first row will
    /// have the number 1.
    pub fn new(alloc: Global, columns: u8, mode: Mode, limit: u32) -> Result<Table, OutOfMemory>
        requires some { 1 ≤ columns }
        requires narrow { columns ≤ 8 }
        requires low { limit ≤ 1048576 }
        ensures { IfOk result (λ table. table ≡ new_table columns (is_same_time mode) limit) }
    {
        Ok(Table {
            alloc,
            mode,
            limit,
            stamps: Stamps {
                written: 0,
                laid: 0,
            },
            next: 1,
            rows: StoredRows::new(alloc, columns)?,
            spent: false,
        })
    }

    /// How many columns it has.
    pub fn columns(&self) -> u8
        ensures value { result ≡ length self.now.shelf.columns }
        ensures table { IsTable self.now }
    {
        self.rows.columns.len() as u8
    }

    /// How many rows it has.
    pub fn rows(&self) -> usize
        ensures value { result ≡ length self.now.shelf.kept }
        ensures table { IsTable self.now }
    {
        self.rows.numbers.len()
    }

    /// The number that the next row will have.
    pub fn next(&self) -> u64
        ensures { result ≡ self.now.shelf.next }
    {
        self.next
    }

    /// When it was last changed.
    pub fn stamps(&self) -> Stamps
        ensures { result ≡ self.now.stamps }
    {
        self.stamps
    }

    /// What becomes of items without rows.
    pub fn mode(&self) -> Mode
        ensures { is_same_time result ≡ self.now.same_time }
    {
        self.mode
    }

    /// How many rows it may have.
    pub fn limit(&self) -> u32
        ensures { result ≡ self.now.limit }
    {
        self.limit
    }

    /// Whether there is no room for one row more: it has as many rows as it may, or there is no number for a further one.
    pub fn full(&self) -> bool
        ensures { IsTrue result ↔ IsFull self.now }
    {
        self.limit as usize <= self.rows.numbers.len() || 1 << 63 <= self.next
    }

    /// The number of the row at a position, in the order of the numbers: `None` exactly where there are no more rows than that.
    pub fn row_at(&self, position: usize) -> Option<u64>
        ensures { result ≡ slice_get (kept_numbers self.now.shelf.kept) position }
    {
        self.rows.numbers.get(position).copied()
    }

    /// The position of the row of a number: `None` exactly where there is no such row.
    pub fn position(&self, row: u64) -> Option<usize>
        ensures { MatchOption result
            (holds row (kept_numbers self.now.shelf.kept) ≡ false)
            (λ position. slice_get (kept_numbers self.now.shelf.kept) position ≡ Some row) }
    {
        position_of(&self.rows.numbers, row)
    }

    /// The numbers of some rows from a position on, in order, and of at least one where there is one: those of one page.
    pub fn numbers_from(&self, position: usize) -> &[u64]
        ensures run { result.now ≡ take (length result.now) (drop position (kept_numbers self.now.shelf.kept)) }
        ensures some { position < length self.now.shelf.kept → 0 < length result.now }
    {
        self.rows.numbers.run_at(position)
    }

    /// Sets when it was last changed.
    pub fn stamp(&mut self, stamps: Stamps)
        ensures { self.new ≡ with_stamps stamps self.old }
    {
        self.stamps = stamps;
    }
}
