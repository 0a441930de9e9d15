//! Rows fewer in a table.
ghost use Rattle.enc_table.specs.Fields.{after_each};
ghost use Rattle.enc_table.specs.Seen.{spent_table, with_shelf};
ghost use Rattle.enc_table.specs.Sums.{delete_sums, sums};
ghost use Rattle.std.specs.Prelude.{◌≡◌, [], IfOk, IsErr, OnErr, OnOk, length, replicate, true};
ghost use Rattle.table_model.specs.Changes.{delete_row, delete_rows, ranks_of};
ghost use Rattle.table_model.specs.Fitting.{AllAmong};
ghost use Rattle.table_model.specs.Soundness.{kept_numbers};
ghost use Rattle.table_model.specs.Steps.{drops};
ghost use Rattle.tree_model.specs.Places.{IsIncreasing, holds};

use crate::positions::position_of;
use crate::table::Table;
use mope_base::{Items, OutOfMemory};
use ope_tree::Change;
use std::alloc::Global;

/// So many empty lists of changes.
fn no_changes(alloc: Global, width: usize) -> Result<Vec<Items<Change>>, OutOfMemory>
    ensures { IfOk result (λ changes. changes.items ≡ replicate width []) }
{
    let mut changes = Vec::new(alloc);
    'columns: for _at in 0..width {
        changes.push(Items::new(alloc))?;
    }
    Ok(changes)
}

impl Table {
    /// One row fewer. What becomes of the codes of each column goes to the end of its list of changes.
    fn delete_row(&mut self, row: u64, changes: &mut Vec<Items<Change>>) -> Result<(), OutOfMemory>
        requires live { holds row (kept_numbers self.old.shelf.kept) ≡ true }
        requires wide { length changes.old.items ≡ length self.old.shelf.columns }
        ensures table { OnOk result (self.new ≡ with_shelf (delete_row self.old.same_time row self.old.shelf) self.old) }
        ensures changes { OnOk result (changes.new.items ≡ after_each changes.old.items (sums self.old.same_time (drops (ranks_of row self.old.shelf.kept)) self.old.shelf.columns)) }
        ensures spent { OnErr result (self.new ≡ spent_table self.old) }
    {
        let position = position_of(&self.rows.numbers, row).unwrap();
        match self
            .rows
            .drop_row(self.alloc, position, row, self.mode, changes)
        {
            Ok(()) => Ok(()),
            Err(_) => {
                self.spent = true;
                Err(OutOfMemory)
            }
        }
    }

    /// Rows fewer, one after the other, and of each in each column one row fewer at its item. It answers for each column what
    /// each row's deletion did to its codes, in order.
    ///
    /// The numbers must increase and be those of rows. After `OutOfMemory` the table is spent.
    pub fn delete_rows(&mut self, rows: &[u64]) -> Result<Items<Items<Change>>, OutOfMemory>
        requires rise { IsIncreasing rows.now }
        requires live { AllAmong (kept_numbers self.old.shelf.kept) rows.now }
        ensures table { OnOk result (self.new ≡ with_shelf (delete_rows self.old.same_time rows.now self.old.shelf) self.old) }
        ensures changes { IfOk result (λ changes. changes ≡ delete_sums self.old.same_time rows.now self.old.shelf) }
        ensures spent { OnErr result (self.new ≡ spent_table self.old) }
        ensures refused { self.old.spent ≡ true → IsErr result }
    {
        if self.spent {
            return Err(OutOfMemory);
        }
        let Ok(mut changes) = no_changes(self.alloc, self.rows.columns.len()) else {
            self.spend();
            return Err(OutOfMemory);
        };
        'rows: for row in rows {
            match self.delete_row(*row, &mut changes) {
                Ok(()) => {}
                Err(_) => return Err(OutOfMemory),
            }
        }
        Ok(Items::from_vec(changes))
    }
}
