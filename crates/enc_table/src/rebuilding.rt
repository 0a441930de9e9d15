//! A balanced tree for one of a table's columns.
ghost use Rattle.enc_table.specs.Seen.{spent_table, with_shelf};
ghost use Rattle.path_code.specs.Sums.{sum_of};
ghost use Rattle.std.specs.Prelude.{◌≡◌, ◌<◌, [], ◌∷◌, IfOk, IsErr, OnErr, OnOk, length, true};
ghost use Rattle.table_model.specs.Changes.{lay_column};
ghost use Rattle.table_model.specs.Soundness.{column_at};
ghost use Rattle.tree_model.specs.Columns.{Lay};

use crate::table::Table;
use mope_base::{ColNo, OutOfMemory};
use ope_tree::Change;

impl Table {
    /// The tree of a column becomes balanced, with all its items. It answers what became of the column's codes.
    ///
    /// There must be that column. After `OutOfMemory` the table is spent.
    pub fn rebuild_column(&mut self, column: ColNo) -> Result<Change, OutOfMemory>
        requires { column.0 < length self.old.shelf.columns }
        ensures table { OnOk result (self.new ≡ with_shelf (lay_column self.old.same_time column.0 self.old.shelf) self.old) }
        ensures change { IfOk result (λ change. change ≡ sum_of self.old.same_time (Lay ∷ []) (column_at self.old.shelf.columns column.0)) }
        ensures spent { OnErr result (self.new ≡ spent_table self.old) }
        ensures refused { self.old.spent ≡ true → IsErr result }
    {
        if self.spent {
            return Err(OutOfMemory);
        }
        match self.rows.lay_column(self.alloc, column.0 as usize) {
            Ok(change) => Ok(change),
            Err(_) => {
                self.spent = true;
                Err(OutOfMemory)
            }
        }
    }
}
