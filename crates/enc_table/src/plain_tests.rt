//! Pseudo-random operations on a table of three columns, beside a plain list of its rows.
use super::*;
use crate::tests::{delete, insert};
use mope_base::{Body, ColNo, Mode, OutOfMemory};
use ope_tree::{Place, Tree};
use std::alloc::Global;

// A row: its number, and its value in each column.
#[derive(Clone, Copy)]
struct Plain {
    number: u64,
    values: [u64; 3],
}

const COLUMNS: [ColNo; 3] = [ColNo(0), ColNo(1), ColNo(2)];

impl Plain {
    // What it has in a column. The number tells it from the same value of another row.
    fn body(&self, column: ColNo) -> Body {
        let value = self.values.get(column.0 as usize).copied();
        Body {
            nonce: self.number,
            masked: value.unwrap_or(0),
        }
    }
}

// The next of a sequence of pseudo-random numbers.
fn next(state: &mut u64) -> u64 {
    *state = state
        .wrapping_mul(6_364_136_223_846_793_005)
        .wrapping_add(1_442_695_040_888_963_407);
    *state >> 33
}

// Where a value stands among the items of a tree.
fn place_of(tree: &Tree, value: u64) -> Place {
    for rank in 0..tree.len() {
        let Some((body, _count)) = tree.item(rank) else {
            return Place::Gap(rank);
        };
        if body.masked == value {
            return Place::Found(rank);
        }
        if body.masked > value {
            return Place::Gap(rank);
        }
    }
    Place::Gap(tree.len())
}

fn place_in(table: &Table, row: &Plain, column: ColNo) -> Place {
    match table.tree(column) {
        Some(tree) => place_of(tree, row.body(column).masked),
        None => Place::Gap(0),
    }
}

// One row more, with few values in the first column and many in the last.
fn add(table: &mut Table, rows: &mut Vec<Plain>, state: &mut u64) -> Result<(), OutOfMemory> {
    let values = [next(state) % 5, next(state) % 12, next(state) % 1000];
    let row = Plain {
        number: table.next(),
        values,
    };
    let places = [
        place_in(table, &row, COLUMNS[0]),
        place_in(table, &row, COLUMNS[1]),
        place_in(table, &row, COLUMNS[2]),
    ];
    let bodies = [
        row.body(COLUMNS[0]),
        row.body(COLUMNS[1]),
        row.body(COLUMNS[2]),
    ];
    let Ok(_changes) = insert(table, &places, &bodies) else {
        return Err(OutOfMemory);
    };
    rows.push(row)?;
    Ok(())
}

// Some rows out: about so many of a hundred.
fn remove(
    alloc: Global,
    table: &mut Table,
    rows: &mut Vec<Plain>,
    state: &mut u64,
    percent: u64,
) -> Result<(), OutOfMemory> {
    let mut gone = Vec::new(alloc);
    let mut kept = Vec::new(alloc);
    for row in rows.iter() {
        if next(state) % 100 < percent {
            gone.push(row.number)?;
        } else {
            kept.push(*row)?;
        }
    }
    delete(table, &gone)?;
    *rows = kept;
    Ok(())
}

// The tree of a column becomes balanced.
fn balance(table: &mut Table, column: ColNo) -> Result<(), OutOfMemory> {
    if table.columns() <= column.0 {
        return Err(OutOfMemory);
    }
    table.rebuild_column(column)?;
    Ok(())
}

// How many rows have a value in a column.
fn count_of(rows: &[Plain], column: ColNo, value: u64) -> usize {
    let mut count: usize = 0;
    for row in rows {
        if row.body(column).masked == value {
            count = count.wrapping_add(1);
        }
    }
    count
}

// Whether a row has its body and the code of its value's item, and whether the item and the index count the rows of the value.
fn has_cell(table: &Table, rows: &[Plain], row: &Plain, column: ColNo) -> bool {
    let (Some(tree), Some(index)) = (table.tree(column), table.index(column)) else {
        return false;
    };
    let body = row.body(column);
    let Place::Found(rank) = place_of(tree, body.masked) else {
        return false;
    };
    let (Some(code), Some((_, count))) = (tree.code_of(Place::Found(rank)), tree.item(rank)) else {
        return false;
    };
    table.body(row.number, column) == Some(body)
        && table.code(row.number, column) == Some(code)
        && count as usize == count_of(rows, column, body.masked)
        && index.count(code, code) == count as usize
}

fn has_cells(table: &Table, rows: &[Plain], row: &Plain) -> bool {
    has_cell(table, rows, row, COLUMNS[0])
        && has_cell(table, rows, row, COLUMNS[1])
        && has_cell(table, rows, row, COLUMNS[2])
}

// Whether the table has these rows in this order.
fn has_rows(table: &Table, rows: &[Plain]) -> bool {
    for (position, row) in rows.iter().enumerate() {
        if table.row_at(position) != Some(row.number) {
            return false;
        }
        if table.position(row.number) != Some(position) {
            return false;
        }
        if !has_cells(table, rows, row) {
            return false;
        }
    }
    table.rows() == rows.len()
}

// Whether the values of a column's items rise, and in same-time mode each has a row.
fn items_rise(table: &Table, column: ColNo) -> bool {
    let Some(tree) = table.tree(column) else {
        return false;
    };
    let fewest = match table.mode() {
        Mode::Ordinary => 0,
        Mode::SameTime => 1,
    };
    let mut before = None;
    for rank in 0..tree.len() {
        let Some((body, count)) = tree.item(rank) else {
            return false;
        };
        if count < fewest || Some(body.masked) <= before {
            return false;
        }
        before = Some(body.masked);
    }
    true
}

// Whether a column's index has each row once, in the order of the codes.
fn index_rises(table: &Table, column: ColNo) -> bool {
    let Some(index) = table.index(column) else {
        return false;
    };
    let mut before = None;
    for place in 0..index.len() {
        let Some(entry) = index.at(place) else {
            return false;
        };
        if Some((entry.enc, entry.row)) <= before {
            return false;
        }
        before = Some((entry.enc, entry.row));
    }
    index.len() == table.rows()
}

fn rises(table: &Table, column: ColNo) -> bool {
    items_rise(table, column) && index_rises(table, column)
}

fn agree(table: &Table, rows: &[Plain]) -> bool {
    has_rows(table, rows)
        && rises(table, COLUMNS[0])
        && rises(table, COLUMNS[1])
        && rises(table, COLUMNS[2])
}

// One turn: a row more, sometimes rows out, and sometimes a balanced tree. It tells whether all agrees.
fn take_turn(
    alloc: Global,
    table: &mut Table,
    rows: &mut Vec<Plain>,
    state: &mut u64,
    turn: u32,
) -> Result<bool, OutOfMemory> {
    add(table, rows, state)?;
    if turn % 17 == 16 {
        remove(alloc, table, rows, state, 50)?;
    }
    if turn % 29 == 28 {
        balance(table, COLUMNS[1])?;
    }
    Ok(agree(table, rows))
}

fn take_turns(
    alloc: Global,
    table: &mut Table,
    rows: &mut Vec<Plain>,
    state: &mut u64,
) -> Result<bool, OutOfMemory> {
    for turn in 0..75 {
        if !take_turn(alloc, table, rows, state, turn)? {
            return Ok(false);
        }
    }
    Ok(true)
}

// Rows come and go until none is left. A copy made on the way stays as it is.
fn goes_beside_plain_rows(alloc: Global, mode: Mode) -> Result<bool, OutOfMemory> {
    let mut table = Table::new(alloc, 3, mode, 65_536)?;
    let mut rows = Vec::new(alloc);
    let mut state = 1;
    let first = take_turns(alloc, &mut table, &mut rows, &mut state)?;
    let copy = table.copy()?;
    let copied = rows.clone()?;
    let second = take_turns(alloc, &mut table, &mut rows, &mut state)?;
    remove(alloc, &mut table, &mut rows, &mut state, 100)?;
    let ended = rows.is_empty() && agree(&table, &rows);
    let stayed = !copied.is_empty() && agree(&copy, &copied);
    Ok(first && second && ended && stayed)
}

#[test]
fn beside_plain_rows_in_ordinary_mode(rt: HostRuntime) -> Result<(), OutOfMemory> {
    assert_eq!(rt; goes_beside_plain_rows(rt.alloc(), Mode::Ordinary)?, true);
    Ok(())
}

#[test]
fn beside_plain_rows_in_same_time_mode(rt: HostRuntime) -> Result<(), OutOfMemory> {
    assert_eq!(rt; goes_beside_plain_rows(rt.alloc(), Mode::SameTime)?, true);
    Ok(())
}
