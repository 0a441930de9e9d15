//! One row more in each column.
ghost use Rattle.enc_table.specs.Fields.{AreAdded, FitAdds};
ghost use Rattle.enc_table.specs.Stored.{no_column, trees_in};
ghost use Rattle.enc_table.specs.Sums.{sums};
ghost use Rattle.std.specs.Prelude.{◌≡◌, Bool, [], ◌∷◌, ◌++◌, IfOk, OnErr, OnOk, length, replicate};
ghost use Rattle.table_model.specs.Steps.{adds};

use crate::columns::Column;
use crate::stored_rows::StoredRows;
use cow_pages::Paged;
use mope_base::{Body, Items, OutOfMemory};
use ope_tree::{Change, Place};
use std::alloc::Global;

/// In each column one row more, at its place.
fn add_to_each(
    columns: &mut Vec<Column>,
    alloc: Global,
    numbers: &Paged<u64>,
    number: u64,
    places: &[Place],
    bodies: &[Body],
) -> Result<Items<Change>, OutOfMemory>
    requires placed { length places.now ≡ length columns.old.items }
    requires wide { length bodies.now ≡ length columns.old.items }
    requires fits { FitAdds numbers.now number places.now columns.old.items }
    ensures many { length columns.new.items ≡ length columns.old.items }
    ensures columns { (same_time : Bool) → OnOk result (AreAdded same_time numbers.now number places.now bodies.now columns.old.items columns.new.items) }
    ensures changes { (same_time : Bool) → IfOk result (λ changes. changes ≡ sums same_time (adds places.now bodies.now) (trees_in columns.old.items)) }
{
    let mut changes = Items::new(alloc);
    'columns: for at in 0..columns.len() {
        match columns[at].add_row(numbers, number, places[at], bodies[at]) {
            Ok(change) => match changes.push(change) {
                Ok(()) => {}
                Err(_) => return Err(OutOfMemory),
            },
            Err(_) => return Err(OutOfMemory),
        }
    }
    Ok(changes)
}

impl StoredRows {
    /// The number of a row more, and in each column that row at its place. It answers what became of the codes of each column.
    pub fn add_row(
        &mut self,
        alloc: Global,
        number: u64,
        places: &[Place],
        bodies: &[Body],
    ) -> Result<Items<Change>, OutOfMemory>
        requires placed { length places.now ≡ length self.old.columns.items }
        requires wide { length bodies.now ≡ length self.old.columns.items }
        requires fits { FitAdds self.old.numbers number places.now self.old.columns.items }
        ensures many { length self.new.columns.items ≡ length self.old.columns.items }
        ensures numbers { OnOk result (self.new.numbers ≡ self.old.numbers ++ number ∷ []) }
        ensures columns { (same_time : Bool) → OnOk result (AreAdded same_time self.old.numbers number places.now bodies.now self.old.columns.items self.new.columns.items) }
        ensures changes { (same_time : Bool) → IfOk result (λ changes. changes ≡ sums same_time (adds places.now bodies.now) (trees_in self.old.columns.items)) }
        ensures no_numbers { OnErr result (self.new.numbers ≡ []) }
        ensures no_columns { OnErr result (self.new.columns.items ≡ replicate (length self.old.columns.items) no_column) }
    {
        match add_to_each(
            &mut self.columns,
            alloc,
            &self.numbers,
            number,
            places,
            bodies,
        ) {
            Ok(changes) => match self.numbers.push(number) {
                Ok(()) => Ok(changes),
                Err(_) => {
                    self.clear(alloc);
                    Err(OutOfMemory)
                }
            },
            Err(_) => {
                self.clear(alloc);
                Err(OutOfMemory)
            }
        }
    }
}
