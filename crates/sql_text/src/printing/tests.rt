//! Tests of canonical lines.
use crate::{Cond, Name, Order, Stmt, Test, What, print};
use mope_base::{Items, OutOfMemory};
use std::alloc::Global;
use std::test::Fail;

fn name(alloc: Global, text: &[u8]) -> Result<Name, OutOfMemory> {
    let bytes = Items::from_vec(text.to_vec(alloc)?);
    Ok(Name { bytes })
}

fn cond(alloc: Global, column: &[u8], test: Test) -> Result<Cond, OutOfMemory> {
    let column = name(alloc, column)?;
    Ok(Cond { column, test })
}

fn rebuild(alloc: Global) -> Result<Stmt, OutOfMemory> {
    let table = name(alloc, b"t")?;
    let column = name(alloc, b"a")?;
    Ok(Stmt::Rebuild { table, column })
}

fn insert(alloc: Global) -> Result<Stmt, OutOfMemory> {
    let table = name(alloc, b"t")?;
    let values = Items::from_vec([1, 2].to_vec(alloc)?);
    Ok(Stmt::Insert { table, values })
}

fn count_between(alloc: Global) -> Result<Stmt, OutOfMemory> {
    let table = name(alloc, b"t")?;
    let mut conds = Items::new(alloc);
    conds.push(cond(alloc, b"a", Test::Between(1, 9))?)?;
    Ok(Stmt::Select {
        what: What::Count,
        table,
        conds,
        order: None,
        limit: None,
    })
}

fn ordered_columns(alloc: Global) -> Result<Stmt, OutOfMemory> {
    let table = name(alloc, b"t")?;
    let mut names = Items::new(alloc);
    names.push(name(alloc, b"a")?)?;
    names.push(name(alloc, b"b")?)?;
    let mut conds = Items::new(alloc);
    conds.push(cond(alloc, b"a", Test::Ge(3))?)?;
    conds.push(cond(alloc, b"b", Test::Eq(4))?)?;
    let column = name(alloc, b"b")?;
    Ok(Stmt::Select {
        what: What::Columns(names),
        table,
        conds,
        order: Some(Order { column, down: true }),
        limit: Some(5),
    })
}

fn is_printed_as(alloc: Global, stmt: &Stmt, line: &[u8]) -> Result<bool, OutOfMemory> {
    Ok(print(alloc, stmt)?.as_slice() == line)
}

#[test]
fn short_statements_as_lines(rt: HostRuntime) -> Result<(), Fail> {
    let alloc = rt.alloc();
    assert!(rt; is_printed_as(alloc, &Stmt::Begin, b"BEGIN")?);
    assert!(rt; is_printed_as(alloc, &rebuild(alloc)?, b"REBUILD t (a)")?);
    assert!(rt; is_printed_as(alloc, &insert(alloc)?, b"INSERT INTO t VALUES (1, 2)")?);
    Ok(())
}

#[test]
fn selects_as_lines(rt: HostRuntime) -> Result<(), Fail> {
    let alloc = rt.alloc();
    let line = b"SELECT COUNT(*) FROM t WHERE a BETWEEN 1 AND 9";
    assert!(rt; is_printed_as(alloc, &count_between(alloc)?, line)?);
    let line = b"SELECT a, b FROM t WHERE a >= 3 AND b = 4 ORDER BY b DESC LIMIT 5";
    assert!(rt; is_printed_as(alloc, &ordered_columns(alloc)?, line)?);
    Ok(())
}
