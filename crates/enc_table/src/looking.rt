//! What a table's rows have in its columns.
ghost use Rattle.column_index.specs.Seen.{index_of};
ghost use Rattle.enc_table.specs.Fields.{AreHeld, IsCellOf};
ghost use Rattle.enc_table.specs.Rows.{body_at, cells_at, code_at, index_at};
ghost use Rattle.enc_table.specs.Seen.{IsTable};
ghost use Rattle.std.specs.Prelude.{◌≡◌, ◌<◌, ◌≤◌, ◌↔◌, ◌⊎◌, IfSome, IsSome, MatchOption, drop, false, length, take};
ghost use Rattle.table_model.specs.Soundness.{column_at};
ghost use Rattle.tree_model.specs.Places.{IsIncreasing, holds};

use crate::cell::Cell;
use crate::positions::position_of;
use crate::stored_rows::StoredRows;
use crate::table::Table;
use column_index::Index;
use mope_base::{Body, ColNo};
use ope_tree::Tree;

impl StoredRows {
    /// The cell of the row of a number in a column: `None` exactly where there is no such row or no such column.
    pub fn cell(&self, row: u64, column: usize) -> Option<Cell>
        requires held { AreHeld self.now.numbers self.now.columns.items }
        requires rise { IsIncreasing self.now.numbers }
        ensures { MatchOption result
            ((holds row self.now.numbers ≡ false) ⊎ (length self.now.columns.items ≤ column))
            (λ cell. IsCellOf self.now.numbers self.now.columns.items row column cell) }
    {
        let Some(position) = position_of(&self.numbers, row) else {
            return None;
        };
        let Some(stored) = self.columns.get(column) else {
            return None;
        };
        stored.cells.get(position).copied()
    }
}

impl Table {
    /// The cells in a column of some rows from a position on, in order, and of at least one where there is one: those of one
    /// page. There must be that column.
    pub fn cells_from(&self, column: ColNo, position: usize) -> &[Cell]
        requires { column.0 < length self.now.shelf.columns }
        ensures run { result.now ≡ take (length result.now) (drop position (cells_at column.0 self.now.shelf)) }
        ensures some { position < length self.now.shelf.kept → 0 < length result.now }
    {
        self.rows.columns[column.0 as usize].cells.run_at(position)
    }

    /// The sealed value of a row in a column: `None` exactly where there is no such row or no such column.
    pub fn body(&self, row: u64, column: ColNo) -> Option<Body>
        ensures { result ≡ body_at row column.0 self.now.shelf }
    {
        match self.rows.cell(row, column.0 as usize) {
            None => None,
            Some(cell) => Some(cell.body),
        }
    }

    /// The code of a row's item in a column: `None` exactly where there is no such row or no such column.
    pub fn code(&self, row: u64, column: ColNo) -> Option<u64>
        ensures { result ≡ code_at row column.0 self.now.shelf }
    {
        match self.rows.cell(row, column.0 as usize) {
            None => None,
            Some(cell) => Some(cell.code),
        }
    }

    /// The tree of a column: `None` exactly where there is no such column.
    pub fn tree(&self, column: ColNo) -> Option<&Tree>
        ensures there { IsSome result ↔ (column.0 < length self.now.shelf.columns) }
        ensures column { IfSome result (λ tree. tree.now.column ≡ column_at self.now.shelf.columns column.0) }
        ensures fresh { IfSome result (λ tree. tree.now.spent ≡ false) }
        ensures table { IsTable self.now }
    {
        match self.rows.columns.get(column.0 as usize) {
            None => None,
            Some(column) => Some(&column.tree),
        }
    }

    /// The index of a column: `None` exactly where there is no such column.
    pub fn index(&self, column: ColNo) -> Option<&Index>
        ensures there { IsSome result ↔ (column.0 < length self.now.shelf.columns) }
        ensures entries { IfSome result (λ index. index.now ≡ index_of (index_at column.0 self.now.shelf)) }
        ensures table { IsTable self.now }
    {
        match self.rows.columns.get(column.0 as usize) {
            None => None,
            Some(column) => Some(&column.index),
        }
    }
}
