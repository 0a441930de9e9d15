//! A balanced tree for one of the columns.
ghost use Rattle.enc_table.specs.Held.{IsHeld, IsLaid};
ghost use Rattle.enc_table.specs.Stored.{no_column, stored_at};
ghost use Rattle.path_code.specs.Sums.{sum_of};
ghost use Rattle.std.specs.Prelude.{◌≡◌, ◌<◌, Bool, [], ◌∷◌, IfOk, OnErr, OnOk, length, replicate, set};
ghost use Rattle.tree_model.specs.Columns.{Lay};
ghost use Rattle.tree_model.specs.Places.{IsIncreasing};

use crate::stored_rows::StoredRows;
use mope_base::OutOfMemory;
use ope_tree::Change;
use std::alloc::Global;

impl StoredRows {
    /// The tree of one of the columns becomes balanced. It answers what became of the column's codes.
    pub fn lay_column(&mut self, alloc: Global, at: usize) -> Result<Change, OutOfMemory>
        requires within { at < length self.old.columns.items }
        requires held { IsHeld self.old.numbers (stored_at self.old.columns.items at) }
        requires rise { IsIncreasing self.old.numbers }
        ensures many { length self.new.columns.items ≡ length self.old.columns.items }
        ensures numbers { OnOk result (self.new.numbers ≡ self.old.numbers) }
        ensures others { OnOk result (self.new.columns.items ≡ set self.old.columns.items at (stored_at self.new.columns.items at)) }
        ensures column { (same_time : Bool) → OnOk result (IsLaid same_time self.old.numbers (stored_at self.old.columns.items at) (stored_at self.new.columns.items at)) }
        ensures change { (same_time : Bool) → IfOk result (λ change. change ≡ sum_of same_time (Lay ∷ []) (stored_at self.old.columns.items at).tree.column) }
        ensures no_numbers { OnErr result (self.new.numbers ≡ []) }
        ensures no_columns { OnErr result (self.new.columns.items ≡ replicate (length self.old.columns.items) no_column) }
    {
        match self.columns[at].lay(&self.numbers) {
            Ok(change) => Ok(change),
            Err(_) => {
                self.clear(alloc);
                Err(OutOfMemory)
            }
        }
    }
}
