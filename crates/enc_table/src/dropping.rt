//! One row fewer in each column.
ghost use Rattle.enc_table.specs.Fields.{AreDropped, FitDrops, after_each, drop_sums};
ghost use Rattle.enc_table.specs.Stored.{no_column};
ghost use Rattle.mope_base.specs.Modes.{is_same_time};
ghost use Rattle.std.specs.Prelude.{◌≡◌, [], OnErr, OnOk, Some, length, remove, replicate, slice_get};

use crate::columns::Column;
use crate::stored_rows::StoredRows;
use cow_pages::Paged;
use mope_base::{Items, Mode, OutOfMemory};
use ope_tree::Change;
use std::alloc::Global;

/// In each column one row fewer: that of a number at a position, which is no longer among the numbers. What becomes of the codes
/// of each column goes to the end of its list of changes.
fn drop_from_each(
    columns: &mut Vec<Column>,
    changes: &mut Vec<Items<Change>>,
    numbers: &Paged<u64>,
    position: usize,
    number: u64,
    mode: Mode,
) -> Result<(), OutOfMemory>
    requires wide { length changes.old.items ≡ length columns.old.items }
    requires fits { FitDrops (is_same_time mode) numbers.now position number columns.old.items }
    ensures many { length columns.new.items ≡ length columns.old.items }
    ensures columns { OnOk result (AreDropped (is_same_time mode) numbers.now position columns.old.items columns.new.items) }
    ensures changes { OnOk result (changes.new.items ≡ after_each changes.old.items (drop_sums (is_same_time mode) position columns.old.items)) }
{
    'columns: for at in 0..columns.len() {
        match columns[at].drop_row(numbers, position, number, mode) {
            Ok(change) => match changes[at].push(change) {
                Ok(()) => {}
                Err(_) => return Err(OutOfMemory),
            },
            Err(_) => return Err(OutOfMemory),
        }
    }
    Ok(())
}

impl StoredRows {
    /// The number at a position out, and in each column that row. What becomes of the codes of each column goes to the end of its
    /// list of changes.
    pub fn drop_row(
        &mut self,
        alloc: Global,
        position: usize,
        number: u64,
        mode: Mode,
        changes: &mut Vec<Items<Change>>,
    ) -> Result<(), OutOfMemory>
        requires there { slice_get self.old.numbers position ≡ Some number }
        requires wide { length changes.old.items ≡ length self.old.columns.items }
        requires fits { FitDrops (is_same_time mode) (remove self.old.numbers position) position number self.old.columns.items }
        ensures many { length self.new.columns.items ≡ length self.old.columns.items }
        ensures numbers { OnOk result (self.new.numbers ≡ remove self.old.numbers position) }
        ensures columns { OnOk result (AreDropped (is_same_time mode) (remove self.old.numbers position) position self.old.columns.items self.new.columns.items) }
        ensures changes { OnOk result (changes.new.items ≡ after_each changes.old.items (drop_sums (is_same_time mode) position self.old.columns.items)) }
        ensures no_numbers { OnErr result (self.new.numbers ≡ []) }
        ensures no_columns { OnErr result (self.new.columns.items ≡ replicate (length self.old.columns.items) no_column) }
    {
        if self.numbers.remove(position).is_err() {
            self.clear(alloc);
            return Err(OutOfMemory);
        }
        match drop_from_each(
            &mut self.columns,
            changes,
            &self.numbers,
            position,
            number,
            mode,
        ) {
            Ok(()) => Ok(()),
            Err(_) => {
                self.clear(alloc);
                Err(OutOfMemory)
            }
        }
    }
}
