//! Statements, with their tables and columns numbered.
ghost use Rattle.std.specs.Prelude.{◌≡◌, ◌<◌, ◌≤◌, None, Some, length, IfOk, IfErr};
ghost use Rattle.workload_file.specs.Naming.{column_of, table_of};
ghost use Rattle.workload_file.specs.Resolving.{columns_in, behind, first_columns, tests_in, order_in, rows_in, verb_in, bound, inserted, deleted, selected, rebuilt};

use crate::names::Names;
use crate::stops::FileReason;
use crate::tables::Tables;
use mope_base::{ColNo, Items, OutOfMemory, TableNo};
use sql_text::{Cond, Name, Order, Test, What};
use std::alloc::Global;
use workload::{Act, Ask, Piece, Verb};

/// The number of a column, if the table has it.
fn column_of(columns: &Names, name: &Name) -> Option<ColNo>
    ensures { result ≡ column_of columns.now name.now }
{
    match columns.number_of(name) {
        Some(number) => Some(ColNo(number)),
        None => None,
    }
}

/// The numbers of columns, behind others, if the table has each.
#[tactic(auto, using(crate::proofs::NamingLemmas::behind_both, crate::proofs::NamingLemmas::behind_end), unfolding(crate::specs::Resolving::columns_in, crate::specs::Resolving::each_found, crate::specs::Resolving::both, crate::specs::Resolving::behind))]
fn columns_after(
    alloc: Global,
    columns: &Names,
    numbers: Items<ColNo>,
    names: &[Name],
) -> Result<Option<Items<ColNo>>, OutOfMemory>
    ensures { IfOk result (λ found. found ≡ behind numbers (columns_in columns.now names.now)) }
{
    match names {
        [] => Ok(Some(numbers)),
        [name, rest @ ..] => match column_of(columns, name) {
            Some(number) => {
                let mut numbers = numbers;
                numbers.push(number)?;
                columns_after(alloc, columns, numbers, rest)
            }
            None => Ok(None),
        },
    }
}

/// The numbers of all columns.
#[tactic(auto, using(crate::proofs::NamingLemmas::first_columns_more), unfolding(crate::specs::Resolving::first_columns))]
fn every_column(alloc: Global, columns: &Names) -> Result<Items<ColNo>, OutOfMemory>
    ensures { IfOk result (λ numbers. numbers ≡ first_columns (length columns.now)) }
{
    let count = columns.len();
    let mut numbers = Vec::new(alloc);
    'columns: for i in 0..count {
        numbers.push(ColNo(i as u8))?;
    }
    Ok(Items::from_vec(numbers))
}

/// The conditions, behind others, if the table has their columns.
#[tactic(auto, using(crate::proofs::NamingLemmas::behind_both, crate::proofs::NamingLemmas::behind_end), unfolding(crate::specs::Resolving::tests_in, crate::specs::Resolving::test_in, crate::specs::Resolving::each_found, crate::specs::Resolving::both, crate::specs::Resolving::behind))]
fn tests_after(
    alloc: Global,
    columns: &Names,
    tests: Items<(ColNo, Test)>,
    conds: &[Cond],
) -> Result<Option<Items<(ColNo, Test)>>, OutOfMemory>
    ensures { IfOk result (λ found. found ≡ behind tests (tests_in columns.now conds.now)) }
{
    match conds {
        [] => Ok(Some(tests)),
        [cond, rest @ ..] => match column_of(columns, &cond.column) {
            Some(number) => {
                let mut tests = tests;
                tests.push((number, cond.test))?;
                tests_after(alloc, columns, tests, rest)
            }
            None => Ok(None),
        },
    }
}

/// The conditions, if the table has their columns.
#[tactic(auto, using(crate::proofs::NamingLemmas::behind_nothing))]
fn tests_in(
    alloc: Global,
    columns: &Names,
    conds: &[Cond],
) -> Result<Option<Items<(ColNo, Test)>>, OutOfMemory>
    ensures { IfOk result (λ found. found ≡ tests_in columns.now conds.now) }
{
    tests_after(alloc, columns, Items::new(alloc), conds)
}

/// The numbers of columns, if the table has each.
#[tactic(auto, using(crate::proofs::NamingLemmas::behind_nothing))]
fn columns_in(
    alloc: Global,
    columns: &Names,
    names: &[Name],
) -> Result<Option<Items<ColNo>>, OutOfMemory>
    ensures { IfOk result (λ found. found ≡ columns_in columns.now names.now) }
{
    columns_after(alloc, columns, Items::new(alloc), names)
}

/// The order, if the table has its column.
#[tactic(auto, unfolding(crate::specs::Resolving::order_in))]
fn order_in(columns: &Names, order: Option<Order>) -> Option<Option<(ColNo, bool)>>
    ensures { result ≡ order_in columns.now order }
{
    match order {
        None => Some(None),
        Some(order) => match column_of(columns, &order.column) {
            Some(number) => Some(Some((number, order.down))),
            None => None,
        },
    }
}

#[tactic(auto, unfolding(crate::specs::Resolving::rows_in))]
fn rows_in(
    listed: Option<Items<ColNo>>,
    order: Option<Option<(ColNo, bool)>>,
    limit: Option<u64>,
) -> Option<Verb>
    ensures { result ≡ rows_in listed order limit }
{
    match listed {
        None => None,
        Some(columns) => match order {
            None => None,
            Some(order) => Some(Verb::Rows {
                columns,
                order,
                limit,
            }),
        },
    }
}

/// What a SELECT asks, if the table has the columns that it names.
#[tactic(auto, unfolding(crate::specs::Resolving::verb_in))]
fn verb_in(
    alloc: Global,
    columns: &Names,
    what: What,
    order: Option<Order>,
    limit: Option<u64>,
) -> Result<Option<Verb>, OutOfMemory>
    ensures { IfOk result (λ found. found ≡ verb_in columns.now what order limit) }
{
    match what {
        What::All => {
            let every = every_column(alloc, columns)?;
            Ok(rows_in(Some(every), order_in(columns, order), limit))
        }
        What::Columns(names) => {
            let listed = columns_in(alloc, columns, names.as_slice())?;
            Ok(rows_in(listed, order_in(columns, order), limit))
        }
        What::Count => Ok(Some(Verb::Count)),
        What::Min(name) => match column_of(columns, &name) {
            Some(number) => Ok(Some(Verb::Min(number))),
            None => Ok(None),
        },
        What::Max(name) => match column_of(columns, &name) {
            Some(number) => Ok(Some(Verb::Max(number))),
            None => Ok(None),
        },
    }
}

/// A statement, unless a column of it is unknown.
#[tactic(auto, unfolding(crate::specs::Resolving::bound))]
fn bound(
    table: TableNo,
    verb: Option<Verb>,
    tests: Option<Items<(ColNo, Test)>>,
) -> Result<Act, FileReason>
    ensures { result ≡ bound table verb tests }
{
    match verb {
        None => Err(FileReason::UnknownColumn),
        Some(verb) => match tests {
            None => Err(FileReason::UnknownColumn),
            Some(tests) => Ok(Act::Ask(Ask { table, verb, tests })),
        },
    }
}

/// The number of a table, or that it isn't declared.
fn known_table(tables: &Tables, name: &Name) -> Result<TableNo, FileReason>
    ensures found { IfOk result (λ t. table_of tables.now name.now ≡ Some t) }
    ensures within { IfOk result (λ t. t.0 < length tables.now) }
    ensures unknown { IfErr result (λ reason. (table_of tables.now name.now ≡ None) × (reason ≡ FileReason.UnknownTable)) }
{
    match tables.number_of(name) {
        Some(table) => Ok(table),
        None => Err(FileReason::UnknownTable),
    }
}

/// An INSERT, or the reason why the tables have no place for it.
#[tactic(auto, unfolding(crate::specs::Resolving::inserted, crate::specs::Resolving::inserted_in, crate::specs::Resolving::inserted_if))]
pub fn inserted(tables: &Tables, table: &Name, values: Items<u64>) -> Result<Act, FileReason>
    ensures { result ≡ inserted tables.now table.now values }
{
    let table = match known_table(tables, table) {
        Ok(table) => table,
        Err(reason) => return Err(reason),
    };
    if values.as_slice().len() != tables.columns(table).len() {
        return Err(FileReason::WrongWidth);
    }
    Ok(Act::Insert { table, values })
}

/// A DELETE, or the name in it that is unknown.
#[tactic(auto, unfolding(crate::specs::Resolving::deleted, crate::specs::Resolving::deleted_in))]
pub fn deleted(
    alloc: Global,
    tables: &Tables,
    table: &Name,
    conds: &[Cond],
) -> Result<Result<Act, FileReason>, OutOfMemory>
    ensures { IfOk result (λ act. act ≡ deleted tables.now table.now conds.now) }
{
    let table = match known_table(tables, table) {
        Ok(table) => table,
        Err(reason) => return Ok(Err(reason)),
    };
    let tests = tests_in(alloc, tables.columns(table), conds)?;
    Ok(bound(table, Some(Verb::Delete), tests))
}

/// A SELECT, or the name in it that is unknown.
#[tactic(auto, unfolding(crate::specs::Resolving::selected, crate::specs::Resolving::selected_in))]
pub fn selected(
    alloc: Global,
    tables: &Tables,
    table: &Name,
    what: What,
    conds: &[Cond],
    order: Option<Order>,
    limit: Option<u64>,
) -> Result<Result<Act, FileReason>, OutOfMemory>
    ensures { IfOk result (λ act. act ≡ selected tables.now table.now what conds.now order limit) }
{
    let table = match known_table(tables, table) {
        Ok(table) => table,
        Err(reason) => return Ok(Err(reason)),
    };
    let columns = tables.columns(table);
    let verb = verb_in(alloc, columns, what, order, limit)?;
    let tests = tests_in(alloc, columns, conds)?;
    Ok(bound(table, verb, tests))
}

/// A REBUILD, or the name in it that is unknown.
#[tactic(auto, unfolding(crate::specs::Resolving::rebuilt, crate::specs::Resolving::rebuilt_in, crate::specs::Resolving::rebuild_of))]
pub fn rebuilt(tables: &Tables, table: &Name, column: &Name) -> Result<Piece, FileReason>
    ensures { result ≡ rebuilt tables.now table.now column.now }
{
    let table = match known_table(tables, table) {
        Ok(table) => table,
        Err(reason) => return Err(reason),
    };
    match column_of(tables.columns(table), column) {
        Some(column) => Ok(Piece::Rebuild { table, column }),
        None => Err(FileReason::UnknownColumn),
    }
}
