//! The answers to a query.
ghost use Rattle.sql_plan.specs.Bounds.{IsFirstLeast};
ghost use Rattle.sql_plan.specs.Plans.{HasBounds, HasOrder, extreme_found, passing, passing_counts, rows_found};
ghost use Rattle.std.specs.Prelude.{◌≡◌, ◌<◌, [], ◌∷◌, IfOk, IfSome, IsSome, IsTrue, MatchOption, None, length};

use crate::bounds::{Bound, Query};
use crate::ordering::{first_rows, rows_by};
use crate::spans::{all_on, count_on, span};
use crate::walking::{count_within, first_from, greatest_in};
use enc_table::Table;
use mope_base::{ColNo, Items, OutOfMemory};
use std::alloc::Global;

/// How many rows are within a bound by itself: two searches in an index.
fn count_one(table: &Table, bound: &Bound) -> u64
    requires { bound.now.column.0 < length table.now.shelf.columns }
    ensures { result ≡ length (passing table.now.shelf (bound.now ∷ [])) }
{
    match table.index(bound.column) {
        Some(index) => index.count(bound.lo, bound.hi) as u64,
        None => 0,
    }
}

/// The place of the first bound with the fewest rows.
fn fewest_at(table: &Table, bounds: &[Bound]) -> usize
    requires some { 0 < length bounds.now }
    requires there { HasBounds table.now.shelf bounds.now }
    ensures inside { result < length bounds.now }
    ensures least { IsFirstLeast (passing_counts table.now.shelf bounds.now) result }
{
    let mut fewest = count_one(table, &bounds[0]);
    let mut best = 0;
    'bounds: for place in 1..bounds.len() {
        let count = count_one(table, &bounds[place]);
        if count < fewest {
            fewest = count;
            best = place;
        }
    }
    best
}

/// The place of the bound with the fewest rows, the first of such: `None` exactly where there are no bounds. The bounds' columns
/// must be there. It looks at no row: each bound costs two searches in an index.
pub fn choose(table: &Table, query: &Query) -> Option<usize>
    requires { HasBounds table.now.shelf query.now.bounds }
    ensures { MatchOption result
        (query.now.bounds ≡ [])
        (λ place. IsFirstLeast (passing_counts table.now.shelf query.now.bounds) place) }
{
    let bounds = query.bounds.as_slice();
    if bounds.is_empty() {
        return None;
    }
    Some(fewest_at(table, bounds))
}

/// The column by whose index the rows of a query are found: that of the chosen bound, or without bounds that of the order.
fn column_by(table: &Table, query: &Query) -> Option<ColNo>
    requires bounds { HasBounds table.now.shelf query.now.bounds }
    requires order { HasOrder table.now.shelf query.now.order }
    ensures there { IfSome result (λ column. column.0 < length table.now.shelf.columns) }
    ensures bounds { result ≡ None → query.now.bounds ≡ [] }
    ensures order { result ≡ None → query.now.order ≡ None }
{
    let bounds = query.bounds.as_slice();
    if !bounds.is_empty() {
        let place = fewest_at(table, bounds);
        return Some(bounds[place].column);
    }
    match query.order {
        Some((column, _)) => Some(column),
        None => None,
    }
}

/// The numbers of the rows within the bounds, in the query's order and under its limit. The columns of the bounds and of the
/// order must be there.
pub fn rows(alloc: Global, table: &Table, query: &Query) -> Result<Items<u64>, OutOfMemory>
    requires bounds { HasBounds table.now.shelf query.now.bounds }
    requires order { HasOrder table.now.shelf query.now.order }
    ensures { IfOk result (λ numbers. numbers ≡ rows_found table.now.shelf query.now) }
{
    match column_by(table, query) {
        Some(column) => {
            let numbers = rows_by(alloc, table, query, column)?;
            Ok(Items::from_vec(numbers))
        }
        None => {
            let numbers = first_rows(alloc, table, query.limit)?;
            Ok(Items::from_vec(numbers))
        }
    }
}

/// How many rows are within bounds on several columns, by a walk through the index of one of them.
fn count_by(table: &Table, bounds: &[Bound], column: ColNo) -> u64
    requires there { column.0 < length table.now.shelf.columns }
    requires bounds { HasBounds table.now.shelf bounds.now }
    ensures { result ≡ length (passing table.now.shelf bounds.now) }
{
    match table.index(column) {
        Some(index) => {
            let (first, end) = span(table, index, bounds, column);
            count_within(table, index, bounds, first, end)
        }
        None => 0,
    }
}

/// How many rows are within the bounds, whatever the limit. The bounds' columns must be there. Where all bounds are on one
/// column, as where there is one bound, it looks at no row.
pub fn count(table: &Table, query: &Query) -> u64
    requires { HasBounds table.now.shelf query.now.bounds }
    ensures { result ≡ length (passing table.now.shelf query.now.bounds) }
{
    let bounds = query.bounds.as_slice();
    if bounds.is_empty() {
        return table.rows() as u64;
    }
    let column = bounds[0].column;
    if all_on(bounds, column) {
        return count_on(table, bounds, column);
    }
    let place = fewest_at(table, bounds);
    count_by(table, bounds, bounds[place].column)
}

/// Of the rows within the bounds the number of the one with the least code in a column, or the greatest, and the lowest number
/// among equals: `None` exactly where no row is within the bounds. The columns must be there.
pub fn extreme(table: &Table, query: &Query, column: ColNo, greatest: bool) -> Option<u64>
    requires bounds { HasBounds table.now.shelf query.now.bounds }
    requires column { column.0 < length table.now.shelf.columns }
    ensures { result ≡ extreme_found table.now.shelf query.now.bounds column greatest }
{
    let bounds = query.bounds.as_slice();
    let Some(index) = table.index(column) else {
        return None;
    };
    let (first, end) = span(table, index, bounds, column);
    if greatest {
        return greatest_in(table, index, bounds, first, end);
    }
    match first_from(table, index, bounds, first, end) {
        Some(entry) => Some(entry.row),
        None => None,
    }
}
