//! The statements of generated workloads, on the table `g (a, b)`.
ghost use Rattle.std.specs.Prelude.{◌≡◌, IfOk};
ghost use Rattle.workload_file.specs.GeneratedText.{where_is, select_where, insert_of, count_between, greatest_five, least_below, delete_of, count_above, rebuild};

use mope_base::{Items, OutOfMemory};
use sql_text::{Cond, Name, Order, Stmt, Test, What};
use std::alloc::Global;

fn named(alloc: Global, bytes: &[u8]) -> Result<Name, OutOfMemory>
    ensures { IfOk result (λ name. name ≡ record { bytes = bytes.now }) }
{
    Ok(Name {
        bytes: Items::from_vec(bytes.to_vec(alloc)?),
    })
}

/// A list of one condition.
fn where_is(alloc: Global, column: &[u8], test: Test) -> Result<Items<Cond>, OutOfMemory>
    ensures { IfOk result (λ conds. conds ≡ where_is (record { bytes = column.now }) test) }
{
    let column = named(alloc, column)?;
    let mut conds = Items::new(alloc);
    conds.push(Cond { column, test })?;
    Ok(conds)
}

#[tactic(auto, unfolding(crate::specs::GeneratedText::insert_of))]
pub fn insert_of(alloc: Global, p: u64, q: u64) -> Result<Stmt, OutOfMemory>
    ensures { IfOk result (λ statement. statement ≡ insert_of p q) }
{
    let mut values = Items::new(alloc);
    values.push(p)?;
    values.push(q)?;
    Ok(Stmt::Insert {
        table: named(alloc, b"g")?,
        values,
    })
}

/// A SELECT that asks `what` of the rows that meet one test.
fn select(alloc: Global, what: What, column: &[u8], test: Test) -> Result<Stmt, OutOfMemory>
    ensures { IfOk result (λ statement. statement ≡ select_where what (record { bytes = column.now }) test) }
{
    let conds = where_is(alloc, column, test)?;
    Ok(Stmt::Select {
        what,
        table: named(alloc, b"g")?,
        conds,
        order: None,
        limit: None,
    })
}

#[tactic(auto, unfolding(crate::specs::GeneratedText::count_between))]
pub fn count_between(alloc: Global, p: u64, q: u64) -> Result<Stmt, OutOfMemory>
    ensures { IfOk result (λ statement. statement ≡ count_between p q) }
{
    select(alloc, What::Count, b"a", Test::Between(p, q))
}

#[tactic(auto, unfolding(crate::specs::GeneratedText::greatest_five))]
pub fn greatest_five(alloc: Global, p: u64) -> Result<Stmt, OutOfMemory>
    ensures { IfOk result (λ statement. statement ≡ greatest_five p) }
{
    let mut columns = Items::new(alloc);
    columns.push(named(alloc, b"a")?)?;
    columns.push(named(alloc, b"b")?)?;
    Ok(Stmt::Select {
        what: What::Columns(columns),
        table: named(alloc, b"g")?,
        conds: where_is(alloc, b"a", Test::Ge(p))?,
        order: Some(Order {
            column: named(alloc, b"b")?,
            down: true,
        }),
        limit: Some(5),
    })
}

#[tactic(auto, unfolding(crate::specs::GeneratedText::least_below))]
pub fn least_below(alloc: Global, p: u64) -> Result<Stmt, OutOfMemory>
    ensures { IfOk result (λ statement. statement ≡ least_below p) }
{
    let column = named(alloc, b"b")?;
    select(alloc, What::Min(column), b"a", Test::Lt(p))
}

#[tactic(auto, unfolding(crate::specs::GeneratedText::delete_of))]
pub fn delete_of(alloc: Global, p: u64) -> Result<Stmt, OutOfMemory>
    ensures { IfOk result (λ statement. statement ≡ delete_of p) }
{
    let conds = where_is(alloc, b"a", Test::Eq(p))?;
    Ok(Stmt::Delete {
        table: named(alloc, b"g")?,
        conds,
    })
}

#[tactic(auto, unfolding(crate::specs::GeneratedText::count_above))]
pub fn count_above(alloc: Global, q: u64) -> Result<Stmt, OutOfMemory>
    ensures { IfOk result (λ statement. statement ≡ count_above q) }
{
    select(alloc, What::Count, b"b", Test::Gt(q))
}

#[tactic(auto, unfolding(crate::specs::GeneratedText::rebuild))]
pub fn rebuild(alloc: Global) -> Result<Stmt, OutOfMemory>
    ensures { IfOk result (λ statement. statement ≡ rebuild) }
{
    Ok(Stmt::Rebuild {
        table: named(alloc, b"g")?,
        column: named(alloc, b"a")?,
    })
}
