//! The rows of a query in its order.
ghost use Rattle.column_index.specs.Entries.{sorted};
ghost use Rattle.column_index.specs.declared.entry.Entry.{Entry};
ghost use Rattle.std.specs.Option.{option_to_list};
ghost use Rattle.sql_plan.specs.Plans.{HasBounds, HasOrder, rows_found};
ghost use Rattle.sql_plan.specs.Walks.{IsSpan, key_by, key_of, keyed, keyed_rows, rows_of, up_to, within};
ghost use Rattle.std.specs.Ordering.{is_lt};
ghost use Rattle.std.specs.Prelude.{◌≡◌, ◌<◌, ◌≤◌, List, ◌++◌, IfOk, OnOk, ℕ, length, map, not, take};
ghost use Rattle.table_model.specs.Soundness.{kept_numbers};
ghost use Rattle.workload.specs.Selection.{first_of};

use crate::bounds::Query;
use crate::spans::span;
use crate::walking::{code_of, entry_within};
use column_index::{Entry, Index};
use enc_table::Table;
use mope_base::{ColNo, OutOfMemory};
use std::alloc::Global;
use std::cmp::Ordering;

/// How an entry stands to another: by code, and by row where the codes are equal.
fn compared(a: &Entry, b: &Entry) -> Ordering
    ensures { is_lt result ≡ not (up_to b.now a.now) }
{
    a.enc.cmp(&b.enc).then(a.row.cmp(&b.row))
}

/// The entries in order.
fn in_order(mut entries: Vec<Entry>) -> Result<Vec<Entry>, OutOfMemory>
    ensures { IfOk result (λ ordered. ordered.items ≡ sorted entries.items) }
{
    entries.sort_by(compared)?;
    Ok(entries)
}

/// A code turned round, where the order goes downwards.
fn key_by(down: bool, code: u64) -> u64
    ensures { result ≡ key_by down code }
{
    if down { u64::MAX - code } else { code }
}

/// What a row is put in order by.
fn key_of(table: &Table, order: Option<(ColNo, bool)>, row: u64) -> u64
    ensures { result ≡ key_of table.now.shelf order row }
{
    match order {
        Some((column, down)) => key_by(down, code_of(table, column, row)),
        None => 0,
    }
}

/// Adds an entry, with what its row is put in order by in the place of its code.
fn push_keyed(
    found: &mut Vec<Entry>,
    table: &Table,
    order: Option<(ColNo, bool)>,
    entry: Option<Entry>,
) -> Result<(), OutOfMemory>
    ensures { OnOk result (found.new.items ≡ found.old.items ++ keyed_rows table.now.shelf order (option_to_list entry)) }
{
    let Some(entry) = entry else {
        return Ok(());
    };
    let enc = key_of(table, order, entry.row);
    found.push(Entry {
        enc,
        row: entry.row,
    })?;
    Ok(())
}

/// The entries of the rows within all bounds, each with what it is put in order by in the place of its code.
fn collect(
    alloc: Global,
    table: &Table,
    index: &Index,
    query: &Query,
    places: (usize, usize),
) -> Result<Vec<Entry>, OutOfMemory>
    requires { IsSpan table.now.shelf query.now.bounds index.now.entries places.0 places.1 }
    ensures { IfOk result (λ found. found.items ≡ keyed_rows table.now.shelf query.now.order (within table.now.shelf query.now.bounds index.now.entries)) }
{
    let (first, end) = places;
    let bounds = query.bounds.as_slice();
    let mut found = Vec::new(alloc);
    'places: for place in first..end {
        let entry = entry_within(table, index, bounds, place);
        push_keyed(&mut found, table, query.order, entry)?;
    }
    Ok(found)
}

/// How many of so many are under a limit.
fn kept_of(limit: Option<u64>, count: usize) -> usize
    ensures few { result ≤ count }
    ensures cut { (xs : List ℕ) → length xs ≡ count → take result xs ≡ first_of limit xs }
{
    match limit {
        Some(limit) if limit < count as u64 => limit as usize,
        _ => count,
    }
}

/// The rows of entries.
fn rows_in(alloc: Global, entries: &[Entry]) -> Result<Vec<u64>, OutOfMemory>
    ensures { IfOk result (λ rows. rows.items ≡ map (λ (e : Entry). e.row) entries.now) }
{
    let rows = entries.iter().map(|entry| entry.row).collect(alloc)?;
    Ok(rows)
}

/// The rows of the first entries that are under a limit.
fn cut(alloc: Global, entries: &[Entry], limit: Option<u64>) -> Result<Vec<u64>, OutOfMemory>
    ensures { IfOk result (λ rows. rows.items ≡ first_of limit (rows_of entries.now)) }
{
    let count = kept_of(limit, entries.len());
    let rows = rows_in(alloc, &entries[..count])?;
    Ok(rows)
}

/// The rows of a query, by the index of a column.
pub(crate) fn rows_by(
    alloc: Global,
    table: &Table,
    query: &Query,
    column: ColNo,
) -> Result<Vec<u64>, OutOfMemory>
    requires there { column.0 < length table.now.shelf.columns }
    requires bounds { HasBounds table.now.shelf query.now.bounds }
    requires order { HasOrder table.now.shelf query.now.order }
    ensures { IfOk result (λ rows. rows.items ≡ rows_found table.now.shelf query.now) }
{
    let Some(index) = table.index(column) else {
        return Err(OutOfMemory);
    };
    let places = span(table, index, query.bounds.as_slice(), column);
    let found = collect(alloc, table, index, query, places)?;
    let ordered = in_order(found)?;
    let rows = cut(alloc, &ordered, query.limit)?;
    Ok(rows)
}

/// Adds the rows of a page.
fn push_rows(rows: &mut Vec<u64>, page: &[u64]) -> Result<(), OutOfMemory>
    ensures { OnOk result (rows.new.items ≡ rows.old.items ++ page.now) }
{
    rows.extend_from_slice(page)?;
    Ok(())
}

/// The numbers of the first rows of a table that are under a limit.
pub(crate) fn first_rows(
    alloc: Global,
    table: &Table,
    limit: Option<u64>,
) -> Result<Vec<u64>, OutOfMemory>
    ensures { IfOk result (λ rows. rows.items ≡ first_of limit (kept_numbers table.now.shelf.kept)) }
{
    let count = kept_of(limit, table.rows());
    let mut rows = Vec::new(alloc);
    'pages: while rows.len() < count {
        let page = table.numbers_from(rows.len());
        let part = page.len().min(count - rows.len());
        push_rows(&mut rows, &page[..part])?;
    }
    Ok(rows)
}
