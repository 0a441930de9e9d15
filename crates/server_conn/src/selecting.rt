//! The rows that a selection is about.
ghost use Rattle.server_conn.specs.Asking.{FitsTable, IsKnown, IsMarkOn, bodies_by, bounds_by, codes_in, query_by};
ghost use Rattle.server_conn.specs.Inside.{mark_of};
ghost use Rattle.server_conn.specs.Serving.{code_at_mark, order_by, tests_of};
ghost use Rattle.sql_plan.specs.Bounds.{bound_of, test_by};
ghost use Rattle.std.specs.Prelude.{◌≡◌, ◌<◌, ◌≤◌, [], ◌∷◌, ◌++◌, IfOk, OnOk, flat_map, length, true};
ghost use Rattle.std.specs.List.{All};
ghost use Rattle.table_model.specs.Soundness.{kept_numbers};
ghost use Rattle.tree_model.specs.Places.{holds};

use crate::txn::Mark;
use enc_table::Table;
use mope_base::{Body, ColNo, Items, OutOfMemory};
use sql_plan::{Bound, Query, bound};
use std::alloc::Global;
use walk_proto::Asked;

/// The code of a place, which must be one of its column's tree.
fn code_at(table: &Table, mark: &Mark) -> u64
    requires { IsMarkOn table.now.shelf mark.now }
    ensures value { result ≡ code_at_mark table.now.shelf (mark_of mark.now) }
    ensures some { 1 ≤ result }
{
    let tree = table.tree(mark.column).unwrap();
    tree.code_of(mark.place).unwrap()
}

/// The bound of a condition with one place.
fn bound_at(table: &Table, cond: (u8, u8), mark: &Mark) -> Bound
    requires known { cond.1 < 5 }
    requires mark { IsMarkOn table.now.shelf mark.now }
    ensures { result ≡ bound_of (record { 0 = cond.0 }) (test_by cond.1 (code_at_mark table.now.shelf (mark_of mark.now)) (code_at_mark table.now.shelf (mark_of mark.now))) }
{
    let code = code_at(table, mark);
    bound(ColNo(cond.0), cond.1, code, code)
}

/// The bound of BETWEEN two places.
fn bound_between(table: &Table, column: u8, low: &Mark, high: &Mark) -> Bound
    requires low { IsMarkOn table.now.shelf low.now }
    requires high { IsMarkOn table.now.shelf high.now }
    ensures { result ≡ bound_of (record { 0 = column }) (test_by 5 (code_at_mark table.now.shelf (mark_of low.now)) (code_at_mark table.now.shelf (mark_of high.now))) }
{
    bound(ColNo(column), 5, code_at(table, low), code_at(table, high))
}

/// Appends the bounds of conditions, whose places these are.
fn push_bounds(
    table: &Table,
    conds: &[(u8, u8)],
    marks: &[Mark],
    bounds: &mut Vec<Bound>,
) -> Result<(), OutOfMemory>
    requires { FitsTable table.now.shelf marks.now conds.now }
    ensures { OnOk result (bounds.new.items ≡ bounds.old.items ++ bounds_by (tests_of conds.now (codes_in table.now.shelf marks.now))) }
{
    match conds {
        [] => Ok(()),
        [cond, rest @ ..] => {
            if cond.1 == 5 {
                bounds.push(bound_between(table, cond.0, &marks[0], &marks[1]))?;
                push_bounds(table, rest, &marks[2..], bounds)?;
                return Ok(());
            }
            bounds.push(bound_at(table, *cond, &marks[0]))?;
            push_bounds(table, rest, &marks[1..], bounds)?;
            Ok(())
        }
    }
}

/// The order that a selection asks for.
fn order_of(order: u8, column: u8) -> Option<(ColNo, bool)>
    ensures { result ≡ order_by order column }
{
    if order == 0 {
        return None;
    }
    if order == 1 {
        return Some((ColNo(column), false));
    }
    Some((ColNo(column), true))
}

/// A selection as a query of a table, whose places these are.
pub fn query_of(
    alloc: Global,
    table: &Table,
    marks: &[Mark],
    asked: &Asked,
) -> Result<Query, OutOfMemory>
    requires { FitsTable table.now.shelf marks.now asked.now.conds }
    ensures { IfOk result (λ query. query ≡ query_by asked.now (codes_in table.now.shelf marks.now)) }
{
    let mut bounds = Vec::new(alloc);
    push_bounds(table, asked.conds.as_slice(), marks, &mut bounds)?;
    Ok(Query {
        bounds: Items::from_vec(bounds),
        order: order_of(asked.order, asked.order_column),
        limit: asked.limit,
    })
}

/// Appends the bodies of a row, which must be there, in some columns.
fn push_row(
    table: &Table,
    row: u64,
    columns: &[u8],
    bodies: &mut Vec<Body>,
) -> Result<(), OutOfMemory>
    requires row { holds row (kept_numbers table.now.shelf.kept) ≡ true }
    requires columns { All (λ column. column < length table.now.shelf.columns) columns.now }
    ensures { OnOk result (bodies.new.items ≡ bodies.old.items ++ bodies_by table.now.shelf columns.now row) }
{
    let _width = table.columns();
    'columns: for column in columns {
        bodies.push(table.body(row, ColNo(*column)).unwrap())?;
    }
    Ok(())
}

/// The bodies of rows, which must be there, in some columns, row after row.
pub fn bodies_of(
    alloc: Global,
    table: &Table,
    rows: &[u64],
    columns: &[u8],
) -> Result<Items<Body>, OutOfMemory>
    requires rows { All (λ row. holds row (kept_numbers table.now.shelf.kept) ≡ true) rows.now }
    requires columns { All (λ column. column < length table.now.shelf.columns) columns.now }
    ensures { IfOk result (λ bodies. bodies ≡ flat_map (bodies_by table.now.shelf columns.now) rows.now) }
{
    let mut bodies = Vec::new(alloc);
    'rows: for row in rows {
        push_row(table, *row, columns, &mut bodies)?;
    }
    Ok(Items::from_vec(bodies))
}
