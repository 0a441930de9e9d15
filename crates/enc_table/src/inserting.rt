//! A row more in a table.
ghost use Rattle.enc_table.specs.Seen.{IsFull, spent_table, with_shelf};
ghost use Rattle.enc_table.specs.Sums.{sums};
ghost use Rattle.enc_table.specs.declared.stop.TableStop.TheVariants.{Full, OutOfMemory as NoMemory};
ghost use Rattle.std.specs.Prelude.{◌≡◌, ◌↔◌, IfOk, IsErr, IsErrOf, OnOk, length, true};
ghost use Rattle.table_model.specs.Changes.{insert_row};
ghost use Rattle.table_model.specs.Fitting.{AllPlaced};
ghost use Rattle.table_model.specs.Steps.{adds};

use crate::stop::TableStop;
use crate::table::Table;
use mope_base::{Body, Items};
use ope_tree::{Change, Place};

impl Table {
    /// One row more, with the number `next`: in each column one row more at a place, with this sealed value. It answers what
    /// became of the codes of each column.
    ///
    /// There must be one place and one value for each column, and each place must be one of its column's tree. A full table
    /// answers `Full` and is as it was; after `OutOfMemory` the table is spent.
    pub fn insert_row(
        &mut self,
        places: &[Place],
        bodies: &[Body],
    ) -> Result<Items<Change>, TableStop>
        requires placed { AllPlaced self.old.shelf.columns places.now }
        requires wide { length bodies.now ≡ length self.old.shelf.columns }
        ensures full { IsErrOf result Full ↔ IsFull self.old }
        ensures unchanged { IsErrOf result Full → self.new ≡ self.old }
        ensures table { OnOk result (self.new ≡ with_shelf (insert_row self.old.same_time places.now bodies.now self.old.shelf) self.old) }
        ensures changes { IfOk result (λ changes. changes ≡ sums self.old.same_time (adds places.now bodies.now) self.old.shelf.columns) }
        ensures spent { IsErrOf result NoMemory → self.new ≡ spent_table self.old }
        ensures refused { self.old.spent ≡ true → IsErr result }
    {
        if self.full() {
            return Err(TableStop::Full);
        }
        if self.spent {
            return Err(TableStop::OutOfMemory);
        }
        match self.rows.add_row(self.alloc, self.next, places, bodies) {
            Ok(changes) => {
                self.next += 1;
                Ok(changes)
            }
            Err(_) => {
                self.spent = true;
                Err(TableStop::OutOfMemory)
            }
        }
    }
}
