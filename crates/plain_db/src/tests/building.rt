//! Workloads and databases over one table `t`.

use mope_base::{ColNo, Items, OutOfMemory, TableNo};
use sql_text::{Name, Test};
use std::alloc::Global;
use workload::{Act, Ask, Decl, Piece, PlainDb, PlainRow, PlainTable, Verb, Workload};

/// The table, and its first two columns.
pub(super) const T: TableNo = TableNo(0);

pub(super) const A: ColNo = ColNo(0);

pub(super) const B: ColNo = ColNo(1);

fn name(alloc: Global, text: &str) -> Result<Name, OutOfMemory> {
    let bytes = Items::from_vec(text.as_bytes().to_vec(alloc)?);
    Ok(Name { bytes })
}

/// A workload over the table with columns of these names.
pub(super) fn over(
    alloc: Global,
    names: &[&str],
    scripts: Vec<Items<Piece>>,
) -> Result<Workload, OutOfMemory> {
    let mut columns = Items::new(alloc);
    for text in names {
        columns.push(name(alloc, text)?)?;
    }
    let mut tables = Items::new(alloc);
    tables.push(Decl {
        name: name(alloc, "t")?,
        columns,
    })?;
    Ok(Workload {
        tables,
        sessions: Items::from_vec(scripts),
    })
}

pub(super) fn insert(alloc: Global, values: &[u64]) -> Result<Act, OutOfMemory> {
    Ok(Act::Insert {
        table: T,
        values: Items::from_vec(values.to_vec(alloc)?),
    })
}

pub(super) fn ask(alloc: Global, verb: Verb, tests: &[(ColNo, Test)]) -> Result<Act, OutOfMemory> {
    Ok(Act::Ask(Ask {
        table: T,
        verb,
        tests: Items::from_vec(tests.to_vec(alloc)?),
    }))
}

/// A SELECT of one column.
pub(super) fn select(
    alloc: Global,
    column: ColNo,
    order: Option<(ColNo, bool)>,
    limit: Option<u64>,
) -> Result<Verb, OutOfMemory> {
    let mut columns = Items::new(alloc);
    columns.push(column)?;
    Ok(Verb::Rows {
        columns,
        order,
        limit,
    })
}

/// A statement outside BEGIN.
pub(super) fn alone(alloc: Global, act: Act) -> Result<Piece, OutOfMemory> {
    let mut acts = Items::new(alloc);
    acts.push(act)?;
    Ok(Piece::Txn {
        acts,
        rollback: false,
    })
}

/// A script of INSERTs of one value each, each a transaction of its own.
pub(super) fn inserts(alloc: Global, values: &[u64]) -> Result<Items<Piece>, OutOfMemory> {
    let mut script = Items::new(alloc);
    for value in values {
        script.push(alone(alloc, insert(alloc, &[*value])?)?)?;
    }
    Ok(script)
}

/// A script of one transaction that INSERTs 1, 2 and so on, so many values.
pub(super) fn many_inserts(alloc: Global, count: u64) -> Result<Items<Piece>, OutOfMemory> {
    let mut acts = Items::new(alloc);
    for value in 1..=count {
        acts.push(insert(alloc, &[value])?)?;
    }
    let mut script = Items::new(alloc);
    script.push(Piece::Txn {
        acts,
        rollback: false,
    })?;
    Ok(script)
}

/// A script of one REBUILD of the first column.
pub(super) fn rebuild(alloc: Global) -> Result<Items<Piece>, OutOfMemory> {
    let mut script = Items::new(alloc);
    script.push(Piece::Rebuild {
        table: T,
        column: A,
    })?;
    Ok(script)
}

/// The database whose table has the rows 1, 2 and so on, so many.
pub(super) fn filled(alloc: Global, count: u64) -> Result<PlainDb, OutOfMemory> {
    let mut rows = Items::new(alloc);
    for number in 1..=count {
        let values = Items::from_vec([number].to_vec(alloc)?);
        rows.push(PlainRow { number, values })?;
    }
    let next = count.saturating_add(1);
    let mut tables = Items::new(alloc);
    tables.push(PlainTable { rows, next })?;
    Ok(PlainDb { tables })
}
