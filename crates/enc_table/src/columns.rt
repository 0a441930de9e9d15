//! A column of a table: the cells of its rows, its tree and its index.
ghost use Rattle.enc_table.specs.Held.{FitsAdd, FitsDrop, HasBecome, IsAdded, IsDropped, IsHeld, IsLaid, drop_at};
ghost use Rattle.enc_table.specs.Stored.{bodies_in, no_column, ranks_in};
ghost use Rattle.mope_base.specs.Modes.{is_same_time};
ghost use Rattle.path_code.specs.Sums.{sum_of};
ghost use Rattle.std.specs.Prelude.{◌≡◌, ℕ, Bool, List, [], ◌∷◌, IfOk, OnOk};
ghost use Rattle.tree_model.specs.Columns.{Add, Lay};
ghost use Rattle.tree_model.specs.Places.{IsIncreasing};

use crate::carrying::carry;
use crate::cell::Cell;
use crate::ranks::{code_at_place, rank_of};
use column_index::{Entry, Index};
use cow_pages::Paged;
use mope_base::{Body, Mode, OutOfMemory};
use ope_tree::{Change, Place, Tree};
use std::alloc::Global;

/// What a table stores of a column: the cell of each row in the order of the rows, the tree of its items, and its rows in the
/// order of their codes. After an error of a call with `&mut self` nothing is said of it.
#[derive(Drop)]
pub struct Column {
    pub cells: Paged<Cell>,
    pub tree: Tree,
    pub index: Index,
}

impl Column {
    /// No rows and no items. It takes no memory.
    pub fn new(alloc: Global) -> Column
        ensures { result ≡ no_column }
    {
        Column {
            cells: Paged::new(alloc),
            tree: Tree::new(alloc),
            index: Index::new(alloc),
        }
    }

    /// A second column that is the same. It costs some links.
    pub fn copy(&self) -> Result<Column, OutOfMemory>
        ensures { (numbers : List ℕ) → IsHeld numbers self.now → IfOk result (λ copy. HasBecome numbers self.now.tree.column (bodies_in self.now) (ranks_in self.now) copy) }
    {
        let tree = self.tree.copy()?;
        let index = self.index.copy()?;
        match self.cells.share() {
            Ok(cells) => Ok(Column { cells, tree, index }),
            Err(_) => Err(OutOfMemory),
        }
    }

    /// One row more, with the last number, at a place.
    pub fn add_row(
        &mut self,
        numbers: &Paged<u64>,
        number: u64,
        place: Place,
        body: Body,
    ) -> Result<Change, OutOfMemory>
        requires { FitsAdd numbers.now number place self.old }
        ensures column { (same_time : Bool) → OnOk result (IsAdded same_time numbers.now number place body self.old self.new) }
        ensures change { (same_time : Bool) → IfOk result (λ change. change ≡ sum_of same_time (Add place body ∷ []) self.old.tree.column) }
    {
        let change = self.tree.insert_at(place, body)?;
        carry(&mut self.cells, &mut self.index, numbers, change.moved())?;
        let code = code_at_place(&self.tree, place);
        if self.cells.push(Cell { body, code }).is_err() {
            return Err(OutOfMemory);
        }
        self.index.insert(Entry {
            enc: code,
            row: number,
        })?;
        Ok(change)
    }

    /// One row fewer: that of a number at a position, which is no longer among the numbers.
    pub fn drop_row(
        &mut self,
        numbers: &Paged<u64>,
        position: usize,
        number: u64,
        mode: Mode,
    ) -> Result<Change, OutOfMemory>
        requires { FitsDrop (is_same_time mode) numbers.now position number self.old }
        ensures column { OnOk result (IsDropped (is_same_time mode) numbers.now position self.old self.new) }
        ensures change { IfOk result (λ change. change ≡ sum_of (is_same_time mode) (drop_at self.old position) self.old.tree.column) }
    {
        let code = match self.cells.remove(position) {
            Ok(cell) => cell.code,
            Err(_) => return Err(OutOfMemory),
        };
        self.index.remove(Entry {
            enc: code,
            row: number,
        })?;
        let rank = rank_of(&self.tree, code);
        let change = self.tree.drop_one(rank, mode)?;
        carry(&mut self.cells, &mut self.index, numbers, change.moved())?;
        Ok(change)
    }

    /// The tree becomes balanced, with all its items.
    pub fn lay(&mut self, numbers: &Paged<u64>) -> Result<Change, OutOfMemory>
        requires held { IsHeld numbers.now self.old }
        requires rise { IsIncreasing numbers.now }
        ensures column { (same_time : Bool) → OnOk result (IsLaid same_time numbers.now self.old self.new) }
        ensures change { (same_time : Bool) → IfOk result (λ change. change ≡ sum_of same_time (Lay ∷ []) self.old.tree.column) }
    {
        let change = self.tree.rebuild()?;
        carry(&mut self.cells, &mut self.index, numbers, change.moved())?;
        Ok(change)
    }
}
