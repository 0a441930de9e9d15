//! A second table that is the same, and what is left of one after want of memory.
ghost use Rattle.enc_table.specs.Seen.{spent_table};
ghost use Rattle.std.specs.Prelude.{◌≡◌, IfOk, IsErr, true};

use crate::table::Table;
use mope_base::OutOfMemory;

impl Table {
    /// A second table that is the same, and shares all pages with this one: its cost is some links for each column. A spent
    /// table has no copy: the answer is `OutOfMemory`.
    pub fn copy(&self) -> Result<Table, OutOfMemory>
        ensures same { IfOk result (λ copy. copy ≡ self.now) }
        ensures refused { self.now.spent ≡ true → IsErr result }
    {
        if self.spent {
            return Err(OutOfMemory);
        }
        let rows = self.rows.copy(self.alloc)?;
        Ok(Table {
            alloc: self.alloc,
            mode: self.mode,
            limit: self.limit,
            stamps: self.stamps,
            next: self.next,
            rows,
            spent: false,
        })
    }

    /// Takes all rows and items out after want of memory.
    pub(crate) fn spend(&mut self)
        ensures { self.new ≡ spent_table self.old }
    {
        self.rows.clear(self.alloc);
        self.spent = true;
    }
}
