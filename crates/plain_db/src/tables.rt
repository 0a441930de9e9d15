//! Changes of one table: a row more, or the rows that pass taken out.

ghost use Rattle.std.specs.Prelude.{◌≡◌, ◌<◌, ◌^◌, length, map, filter, false, not, IfOk, OnOk, OnErr};
ghost use Rattle.std.specs.Ordering.{is_lt};
ghost use Rattle.workload.specs.PlainDatabase.{empty_table, table_of, with_table, is_full, with_row, table_without};
ghost use Rattle.workload.specs.Selection.{passes};
ghost use Rattle.workload.specs.Outcome.{value_at};
ghost use Rattle.plain_db.specs.Answerable.{IsNumbered};
ghost use Rattle.plain_db.specs.TakingBack.{by_number, without_last, with_rows};

use crate::rows::passes_all;
use mope_base::{ColNo, Items, OutOfMemory, TableNo};
use sql_text::Test;
use std::alloc::Global;
use std::cmp::Ordering;
use std::mem;
use workload::{PlainDb, PlainRow, PlainTable};

/// The most rows that a table has.
const ROW_LIMIT: usize = 65_536;

/// The number from which on no row is numbered.
const NUMBER_LIMIT: u64 = 1 << 63;

/// Whether a table takes no further row.
pub(crate) fn takes_no_row(table: &PlainTable) -> bool
    ensures { result ≡ is_full table.now }
{
    table.rows.as_slice().len() >= ROW_LIMIT || table.next >= NUMBER_LIMIT
}

/// Puts `table` in the place of that number's, and gives out the one that stood there.
pub(crate) fn exchange(alloc: Global, db: &mut PlainDb, t: TableNo, table: PlainTable) -> PlainTable
    requires { t.0 < length db.old.tables }
    ensures given { result ≡ table_of db.old t }
    ensures left { db.new ≡ with_table db.old t table }
{
    let mut tables = mem::replace(&mut db.tables, Items::new(alloc)).into_vec();
    let given = mem::replace(&mut tables[t.0 as usize], table);
    db.tables = Items::from_vec(tables);
    given
}

pub(crate) fn no_rows(alloc: Global) -> PlainTable
    ensures { result ≡ empty_table }
{
    PlainTable {
        rows: Items::new(alloc),
        next: 1,
    }
}

fn push_row(table: &mut PlainTable, values: Items<u64>) -> Result<(), OutOfMemory>
    requires { is_full table.old ≡ false }
    ensures ok { OnOk result (table.new ≡ with_row table.old values) }
    ensures err { OnErr result (table.new ≡ table.old) }
{
    let number = table.next;
    match table.rows.push(PlainRow { number, values }) {
        Ok(()) => {
            table.next = number + 1;
            Ok(())
        }
        Err(out) => Err(out),
    }
}

/// Adds a row of these values. On `OutOfMemory` the database is as it was.
pub(crate) fn put_row(
    alloc: Global,
    db: &mut PlainDb,
    t: TableNo,
    values: Items<u64>,
) -> Result<(), OutOfMemory>
    requires is_there { t.0 < length db.old.tables }
    requires has_room { is_full (table_of db.old t) ≡ false }
    ensures ok { OnOk result (db.new ≡ with_table db.old t (with_row (table_of db.old t) values)) }
    ensures err { OnErr result (db.new ≡ db.old) }
{
    let mut table = exchange(alloc, db, t, no_rows(alloc));
    let pushed = push_row(&mut table, values);
    exchange(alloc, db, t, table);
    pushed
}

fn without_passing(table: PlainTable, tests: &[(ColNo, Test)]) -> PlainTable
    requires { IsNumbered table }
    ensures { result ≡ table_without table (map (λ row. row.number) (filter (passes value_at tests.now) table.rows)) }
{
    let PlainTable { rows, next } = table;
    let mut rows = rows.into_vec();
    rows.retain(|row| !passes_all(row, tests));
    PlainTable {
        rows: Items::from_vec(rows),
        next,
    }
}

/// Takes the rows out that meet every test. The next row's number stays.
pub(crate) fn take_rows_out(alloc: Global, db: &mut PlainDb, t: TableNo, tests: &[(ColNo, Test)])
    requires is_there { t.0 < length db.old.tables }
    requires numbered { IsNumbered (table_of db.old t) }
    ensures { db.new
        ≡ with_table db.old t (table_without (table_of db.old t)
        (map (λ row. row.number) (filter (passes value_at tests.now) (table_of db.old t).rows))) }
{
    let table = exchange(alloc, db, t, no_rows(alloc));
    exchange(alloc, db, t, without_passing(table, tests));
}

fn without_last_row(table: PlainTable) -> PlainTable
    ensures { result ≡ without_last table }
{
    let PlainTable { rows, next } = table;
    let mut rows = rows.into_vec();
    rows.pop();
    PlainTable {
        rows: Items::from_vec(rows),
        next: next.saturating_sub(1),
    }
}

/// Takes the last row out of a table. Its number is the next again.
pub(crate) fn take_last_out(alloc: Global, db: &mut PlainDb, t: TableNo)
    ensures { db.new ≡ with_table db.old t (without_last (table_of db.old t)) }
{
    if (t.0 as usize) < db.tables.as_slice().len() {
        let table = exchange(alloc, db, t, no_rows(alloc));
        exchange(alloc, db, t, without_last_row(table));
    }
}

fn compared(a: &PlainRow, b: &PlainRow) -> Ordering
    ensures { is_lt result ≡ not (by_number b.now a.now) }
{
    a.number.cmp(&b.number)
}

fn with_rows_back(table: PlainTable, back: Items<PlainRow>) -> Result<PlainTable, OutOfMemory>
    ensures { IfOk result (λ whole. whole ≡ with_rows table back) }
{
    let PlainTable { rows, next } = table;
    let mut rows = rows.into_vec();
    let mut back = back.into_vec();
    rows.append(&mut back)?;
    rows.sort_by(compared)?;
    Ok(PlainTable {
        rows: Items::from_vec(rows),
        next,
    })
}

/// Puts rows into a table again, each at the place of its number.
pub(crate) fn put_rows_back(
    alloc: Global,
    db: &mut PlainDb,
    t: TableNo,
    back: Items<PlainRow>,
) -> Result<(), OutOfMemory>
    ensures { OnOk result (db.new ≡ with_table db.old t (with_rows (table_of db.old t) back)) }
{
    if (t.0 as usize) < db.tables.as_slice().len() {
        let table = exchange(alloc, db, t, no_rows(alloc));
        exchange(alloc, db, t, with_rows_back(table, back)?);
    }
    Ok(())
}
