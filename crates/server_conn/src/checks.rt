//! The checks of requests, in their order: the first that fails tells the reason of the refusal.
ghost use Rattle.server_conn.specs.Checks.{alone_if, are_of, columns_named, constants_of, fits_row, is_fresh, is_full, lacks_column, lacks_table, own, refusal};
ghost use Rattle.server_conn.specs.Inside.{IsTxn, held_in, lacks_in, mark_of, shelves_in};
ghost use Rattle.std.specs.Prelude.{◌≡◌, ◌==◌, ◌&&◌, ◌||◌, ◌-◌, ◌<◌, ◌≤◌, ◌∷◌, ℕ, List, drop, is_some, leb, length, map, true};
ghost use Rattle.std.specs.List.{range_with_len};
ghost use Rattle.walk_proto.specs.declared.messages.Request.TheVariants as request;

use crate::txn::{Mark, Txn};
use mope_base::{Body, ColNo, TableNo};
use walk_proto::Asked;

/// A table that takes no further row.
pub const FULL: u8 = 0;
/// No transaction was begun.
pub const NO_TRANSACTION: u8 = 1;
/// A transaction goes on.
pub const IN_TRANSACTION: u8 = 2;
/// A walk is open.
pub const WALK_OPEN: u8 = 3;
/// No walk is open.
pub const NO_WALK: u8 = 4;
/// There is no such table.
pub const UNKNOWN_TABLE: u8 = 5;
/// There is no such column.
pub const UNKNOWN_COLUMN: u8 = 6;
/// The places aren't those that the request wants.
pub const WRONG_PLACES: u8 = 7;

/// How many places a transaction keeps at most.
const MOST_MARKS: usize = 16;

/// Whether a walk is open.
fn has_walk(txn: &Txn) -> bool
    ensures { result ≡ is_some (held_in txn.now).walk }
{
    txn.walk.is_some()
}

fn lacks_table(txn: &Txn, table: TableNo) -> bool
    requires { IsTxn txn.now }
    ensures { result ≡ lacks_table (held_in txn.now) table }
{
    txn.tables() <= table.0 as usize
}

/// The width of a table, which must be there.
fn width(txn: &Txn, table: TableNo) -> u8
    requires txn { IsTxn txn.now }
    requires there { table.0 < length (shelves_in txn.now) }
    ensures { result ≡ length (own (held_in txn.now) table).columns }
{
    let found = txn.table(table).unwrap();
    found.columns()
}

fn lacks_column(txn: &Txn, table: TableNo, column: ColNo) -> bool
    requires txn { IsTxn txn.now }
    requires there { table.0 < length (shelves_in txn.now) }
    ensures { result ≡ lacks_column (held_in txn.now) table column.0 }
{
    width(txn, table) <= column.0
}

/// Whether a condition is on a column that there isn't.
#[tactic(auto, unfolding(crate::specs::Inside::lacks_in))]
fn lacks_cond(width: u8, conds: &[(u8, u8)]) -> bool
    ensures { result ≡ lacks_in width (map (λ (cond : ℕ × ℕ). cond.0) conds.now) }
{
    match conds {
        [] => false,
        [cond, rest @ ..] => {
            if width <= cond.0 {
                return true;
            }
            lacks_cond(width, rest)
        }
    }
}

#[tactic(auto, unfolding(crate::specs::Inside::lacks_in))]
fn lacks_listed(width: u8, columns: &[u8]) -> bool
    ensures { result ≡ lacks_in width columns.now }
{
    match columns {
        [] => false,
        [column, rest @ ..] => {
            if width <= *column {
                return true;
            }
            lacks_listed(width, rest)
        }
    }
}

/// Whether a verb has a column of which it gives the least or the greatest body.
fn has_target(verb: u8) -> bool
    ensures { result ≡ ((verb == 2) || (verb == 3)) }
{
    verb == 2 || verb == 3
}

/// Whether a number that is a column's, where the flag says so, is none.
#[tactic(auto, unfolding(crate::specs::Inside::lacks_in, crate::specs::Checks::alone_if))]
fn lacks_alone(named: bool, width: u8, column: u8) -> bool
    ensures { result ≡ lacks_in width (alone_if named column) }
{
    if named {
        return width <= column;
    }
    false
}

/// Whether a selection names a column that there isn't.
fn lacks_named(width: u8, asked: &Asked) -> bool
    ensures { result ≡ lacks_in width (columns_named asked.now) }
{
    if lacks_cond(width, asked.conds.as_slice()) {
        return true;
    }
    if lacks_alone(has_target(asked.verb), width, asked.target) {
        return true;
    }
    if lacks_alone(asked.order != 0, width, asked.order_column) {
        return true;
    }
    lacks_listed(width, asked.columns.as_slice())
}

/// Whether a place is of a column of a table.
#[tactic(auto, unfolding(crate::specs::Inside::mark_of))]
fn is_of(mark: &Mark, table: TableNo, column: u8) -> bool
    ensures { result ≡ (((mark_of mark.now).table == table.0) && ((mark_of mark.now).column == column)) }
{
    mark.table.0 == table.0 && mark.column.0 == column
}

/// Whether the places are of the columns of a table in order, from one on.
fn are_of_columns(table: TableNo, from: u8, width: u8, marks: &[Mark]) -> bool
    requires { from ≤ width }
    ensures { result ≡ are_of table.0 (range_with_len from (width - from)) (map mark_of marks.now) }
{
    match marks {
        [] => from == width,
        [mark, rest @ ..] => {
            if from == width {
                return false;
            }
            if !is_of(mark, table, from) {
                return false;
            }
            are_of_columns(table, from + 1, width, rest)
        }
    }
}

/// Whether the first place is of a column.
fn begins_with(table: TableNo, column: u8, marks: &[Mark]) -> bool
    ensures some { result ≡ true → 0 < length marks.now }
    ensures first { (columns : List ℕ) → are_of table.0 (column ∷ columns) (map mark_of marks.now) ≡ (result && are_of table.0 columns (map mark_of (drop 1 marks.now))) }
{
    match marks {
        [] => false,
        [first, ..] => is_of(first, table, column),
    }
}

/// Whether the places are those of the conditions in order: two for BETWEEN.
fn are_of_conds(table: TableNo, conds: &[(u8, u8)], marks: &[Mark]) -> bool
    ensures { result ≡ are_of table.0 (constants_of conds.now) (map mark_of marks.now) }
{
    match conds {
        [] => marks.is_empty(),
        [cond, rest @ ..] => {
            if !begins_with(table, cond.0, marks) {
                return false;
            }
            if cond.1 != 5 {
                return are_of_conds(table, rest, &marks[1..]);
            }
            if !begins_with(table, cond.0, &marks[1..]) {
                return false;
            }
            are_of_conds(table, rest, &marks[2..])
        }
    }
}

/// Whether the places are one for each column of the table, and the bodies as many.
fn fits_row(txn: &Txn, table: TableNo, bodies: &[Body]) -> bool
    requires txn { IsTxn txn.now }
    requires there { table.0 < length (shelves_in txn.now) }
    ensures { result ≡ fits_row (held_in txn.now) table bodies.now }
{
    let width = width(txn, table);
    if !are_of_columns(table, 0, width, txn.marks.as_slice()) {
        return false;
    }
    bodies.len() == width as usize
}

/// Whether a table takes no further row.
fn is_full(txn: &Txn, table: TableNo) -> bool
    requires txn { IsTxn txn.now }
    requires there { table.0 < length (shelves_in txn.now) }
    ensures { result ≡ is_full (held_in txn.now) table }
{
    let found = txn.table(table).unwrap();
    found.full()
}

/// Whether no place more is kept.
fn has_all_marks(txn: &Txn) -> bool
    ensures { result ≡ leb 16 (length (held_in txn.now).marks) }
{
    MOST_MARKS <= txn.marks.len()
}

/// Why a walk may not begin.
pub fn walk_refusal(txn: &Txn, table: TableNo, column: ColNo) -> Option<u8>
    requires { IsTxn txn.now }
    ensures { result ≡ refusal (request.WalkStart table column) (held_in txn.now) }
{
    if has_walk(txn) {
        return Some(WALK_OPEN);
    }
    if lacks_table(txn, table) {
        return Some(UNKNOWN_TABLE);
    }
    if lacks_column(txn, table, column) {
        return Some(UNKNOWN_COLUMN);
    }
    if has_all_marks(txn) {
        return Some(WRONG_PLACES);
    }
    None
}

/// Why a row may not be inserted.
pub fn insert_refusal(txn: &Txn, table: TableNo, bodies: &[Body]) -> Option<u8>
    requires { IsTxn txn.now }
    ensures { result ≡ refusal (request.Insert table bodies.now) (held_in txn.now) }
{
    if has_walk(txn) {
        return Some(WALK_OPEN);
    }
    if lacks_table(txn, table) {
        return Some(UNKNOWN_TABLE);
    }
    if !fits_row(txn, table, bodies) {
        return Some(WRONG_PLACES);
    }
    if is_full(txn, table) {
        return Some(FULL);
    }
    None
}

/// Why rows may not be selected.
pub fn query_refusal(txn: &Txn, asked: &Asked) -> Option<u8>
    requires { IsTxn txn.now }
    ensures { result ≡ refusal (request.Query asked.now) (held_in txn.now) }
{
    if has_walk(txn) {
        return Some(WALK_OPEN);
    }
    if lacks_table(txn, asked.table) {
        return Some(UNKNOWN_TABLE);
    }
    if lacks_named(width(txn, asked.table), asked) {
        return Some(UNKNOWN_COLUMN);
    }
    if !are_of_conds(asked.table, asked.conds.as_slice(), txn.marks.as_slice()) {
        return Some(WRONG_PLACES);
    }
    None
}

/// Why the transaction may not end.
pub fn end_refusal(txn: &Txn, commit: bool) -> Option<u8>
    ensures { result ≡ refusal (request.End commit) (held_in txn.now) }
{
    if has_walk(txn) {
        return Some(WALK_OPEN);
    }
    None
}

/// Whether nothing was done in the transaction yet.
fn is_fresh(txn: &Txn) -> bool
    ensures { result ≡ is_fresh (held_in txn.now).marks (held_in txn.now).ops (held_in txn.now).touched }
{
    if !txn.marks.as_slice().is_empty() {
        return false;
    }
    if !txn.ops.as_slice().is_empty() {
        return false;
    }
    txn.touched.as_slice().is_empty()
}

/// Why a tree may not be balanced.
pub fn rebuild_refusal(txn: &Txn, table: TableNo, column: ColNo) -> Option<u8>
    requires { IsTxn txn.now }
    ensures { result ≡ refusal (request.Rebuild table column) (held_in txn.now) }
{
    if has_walk(txn) {
        return Some(WALK_OPEN);
    }
    if lacks_table(txn, table) {
        return Some(UNKNOWN_TABLE);
    }
    if lacks_column(txn, table, column) {
        return Some(UNKNOWN_COLUMN);
    }
    if !is_fresh(txn) {
        return Some(IN_TRANSACTION);
    }
    None
}
