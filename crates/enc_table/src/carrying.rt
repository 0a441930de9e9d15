//! Rows that get new codes: in the cells and in the index, and no others.
ghost use Rattle.code_changes.specs.Changes.{new_code};
ghost use Rattle.column_index.specs.Entries.{codes_in as codes_of, sorted};
ghost use Rattle.column_index.specs.Recoding.{KeepsOrder};
ghost use Rattle.column_index.specs.Seen.{index_of};
ghost use Rattle.enc_table.specs.Held.{entries_of, moved_cell};
ghost use Rattle.enc_table.specs.Marking.{has_code, is_number, marked};
ghost use Rattle.enc_table.specs.Stored.{codes_in};
ghost use Rattle.std.specs.Prelude.{◌≡◌, ◌+◌, ◌≤◌, IfOk, OnOk, length, map, slice_get};
ghost use Rattle.tree_model.specs.Places.{IsIncreasing, below};

use crate::cell::Cell;
use crate::positions::position_of;
use column_index::Index;
use cow_pages::Paged;
use mope_base::OutOfMemory;
use path_code::Recode;

/// The cell at a position: `None` exactly where there are no more cells than that.
pub fn cell_at(cells: &Paged<Cell>, position: usize) -> Option<Cell>
    ensures { result ≡ slice_get cells.now position }
{
    cells.get(position).copied()
}

/// Gives the row of a number, if it is there, another code.
fn recode_row(
    cells: &mut Paged<Cell>,
    numbers: &Paged<u64>,
    number: u64,
    code: u64,
) -> Result<(), OutOfMemory>
    requires many { length cells.old ≡ length numbers.now }
    requires rise { IsIncreasing numbers.now }
    ensures { OnOk result (cells.new ≡ marked (is_number number) code numbers.now cells.old) }
{
    let Some(position) = position_of(numbers, number) else {
        return Ok(());
    };
    let cell = cell_at(cells, position).unwrap();
    let moved = Cell {
        body: cell.body,
        code,
    };
    match cells.set(position, moved) {
        Ok(()) => Ok(()),
        Err(_) => Err(OutOfMemory),
    }
}

/// Where the entries of a code begin. They don't begin before `place`, and mostly there.
fn start_of(index: &Index, place: usize, code: u64) -> usize
    requires { place ≤ below code (codes_of index.now.entries) }
    ensures { result ≡ below code (codes_of index.now.entries) }
{
    if place >= index.len() {
        return place;
    }
    let entry = index.at(place).unwrap();
    if entry.enc < code {
        return index.range(code, code).0;
    }
    place
}

/// Gives the rows of one code another one, and answers where its entries end. They are told by the index, which still has the
/// old codes.
fn recode_one(
    cells: &mut Paged<Cell>,
    index: &Index,
    numbers: &Paged<u64>,
    start: usize,
    pair: Recode,
) -> Result<usize, OutOfMemory>
    requires start { start ≡ below pair.old (codes_of index.now.entries) }
    requires many { length cells.old ≡ length numbers.now }
    requires rise { IsIncreasing numbers.now }
    ensures end { IfOk result (λ end. end ≡ below (pair.old + 1) (codes_of index.now.entries)) }
    ensures cells { OnOk result (cells.new ≡ marked (has_code index.now.entries pair.old) pair.new numbers.now cells.old) }
{
    let count = index.len();
    'entries: for place in start..count {
        let entry = index.at(place).unwrap();
        if entry.enc != pair.old {
            return Ok(place);
        }
        recode_row(cells, numbers, entry.row, pair.new)?;
    }
    Ok(count)
}

/// Gives the rows of moved codes their new ones. The entries of codes that stand side by side in the index are found without a
/// search.
fn recode(
    cells: &mut Paged<Cell>,
    index: &Index,
    numbers: &Paged<u64>,
    moved: &[Recode],
) -> Result<(), OutOfMemory>
    requires indexed { index.now ≡ index_of (sorted (entries_of (codes_in cells.old) numbers.now)) }
    requires many { length cells.old ≡ length numbers.now }
    requires rise { IsIncreasing numbers.now }
    requires olds { IsIncreasing (map (λ pair. pair.old) moved.now) }
    ensures { OnOk result (cells.new ≡ map (moved_cell (new_code moved.now)) cells.old) }
{
    let mut end = 0;
    'pairs: for pair in moved {
        let start = start_of(index, end, pair.old);
        end = recode_one(cells, index, numbers, start, *pair)?;
    }
    Ok(())
}

/// Gives the rows of moved codes their new ones, in their cells and in the index.
pub fn carry(
    cells: &mut Paged<Cell>,
    index: &mut Index,
    numbers: &Paged<u64>,
    moved: &[Recode],
) -> Result<(), OutOfMemory>
    requires indexed { index.old ≡ index_of (sorted (entries_of (codes_in cells.old) numbers.now)) }
    requires many { length cells.old ≡ length numbers.now }
    requires rise { IsIncreasing numbers.now }
    requires olds { IsIncreasing (map (λ pair. pair.old) moved.now) }
    requires in_order { KeepsOrder (new_code moved.now) (codes_in cells.old) }
    ensures cells { OnOk result (cells.new ≡ map (moved_cell (new_code moved.now)) cells.old) }
    ensures index { OnOk result (index.new ≡ index_of (sorted (entries_of (map (new_code moved.now) (codes_in cells.old)) numbers.now))) }
{
    recode(cells, index, numbers, moved)?;
    index.remap(moved)?;
    Ok(())
}
