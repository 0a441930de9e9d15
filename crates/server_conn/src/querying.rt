//! Selections, and deletions of what they find.
ghost use Rattle.enc_table.specs.Seen.{IsTable, with_shelf};
ghost use Rattle.server_conn.specs.Asking.{bodies_by, codes_in, extreme_numbers, query_by};
ghost use Rattle.server_conn.specs.Checks.{refusal};
ghost use Rattle.server_conn.specs.Inside.{IsTableOf, IsTxn, held_in, step_by};
ghost use Rattle.server_conn.specs.Serving.{after_statement, queried, reply_about, rows_asked, verb_by, without_numbers};
ghost use Rattle.sql_plan.specs.Plans.{HasBounds, HasOrder, rows_found};
ghost use Rattle.std.specs.List.{All};
ghost use Rattle.std.specs.Prelude.{◌≡◌, ◌≢◌, ◌<◌, ◌≤◌, [], ◌∷◌, IfOk, None, OnOk, flat_map, length};
ghost use Rattle.table_model.specs.Changes.{delete_rows};
ghost use Rattle.table_model.specs.Fitting.{AllAmong};
ghost use Rattle.table_model.specs.Operations.{shelf_at};
ghost use Rattle.table_model.specs.Soundness.{kept_numbers};
ghost use Rattle.tree_model.specs.Places.{IsIncreasing};
ghost use Rattle.walk_proto.specs.Rules.{IsRequest};
ghost use Rattle.walk_proto.specs.declared.messages.Reply.TheVariants as reply;
ghost use Rattle.walk_proto.specs.declared.messages.Request.TheVariants as request;

use crate::came::Came;
use crate::inserting::{note, touch};
use crate::selecting::{bodies_of, query_of};
use crate::txn::Txn;
use enc_table::Table;
use mope_base::{ColNo, Items, OutOfMemory, TableNo};
use sql_plan::{Query, count, extreme, rows};
use std::alloc::Global;
use versions::Op;
use walk_proto::{Asked, Reply};

/// A selection of a transaction as a query, where no check refuses it.
fn query_in(alloc: Global, txn: &Txn, asked: &Asked) -> Result<Query, OutOfMemory>
    requires txn { IsTxn txn.now }
    requires rules { IsRequest (request.Query asked.now) }
    requires checked { refusal (request.Query asked.now) (held_in txn.now) ≡ None }
    ensures { IfOk result (λ query. query ≡ query_by asked.now (codes_in (shelf_at (held_in txn.now).shelves asked.now.table.0) txn.now.marks.items)) }
{
    let table = txn.table(asked.table).unwrap();
    let query = query_of(alloc, table, txn.marks.as_slice(), asked)?;
    Ok(query)
}

/// The columns of the rows that are asked.
fn rows_reply(
    alloc: Global,
    table: &Table,
    query: &Query,
    columns: &[u8],
) -> Result<Reply, OutOfMemory>
    requires bounds { HasBounds table.now.shelf query.now.bounds }
    requires order { HasOrder table.now.shelf query.now.order }
    requires columns { All (λ column. column < length table.now.shelf.columns) columns.now }
    requires narrow { length columns.now ≤ 8 }
    ensures { IfOk result (λ answer. answer ≡ reply.Rows (length columns.now) (flat_map (bodies_by table.now.shelf columns.now) (rows_found table.now.shelf query.now))) }
{
    let _width = table.columns();
    let numbers = rows(alloc, table, query)?;
    let bodies = bodies_of(alloc, table, numbers.as_slice(), columns)?;
    Ok(Reply::Rows {
        width: columns.len() as u8,
        bodies,
    })
}

/// The body of the row with the least or the greatest one in a column.
fn extreme_reply(
    alloc: Global,
    table: &Table,
    query: &Query,
    column: u8,
    greatest: bool,
) -> Result<Reply, OutOfMemory>
    requires bounds { HasBounds table.now.shelf query.now.bounds }
    requires column { column < length table.now.shelf.columns }
    ensures { IfOk result (λ answer. answer ≡ reply.Rows 1 (flat_map (bodies_by table.now.shelf (column ∷ [])) (extreme_numbers table.now.shelf query.now.bounds column greatest))) }
{
    let _width = table.columns();
    let mut bodies = Items::new(alloc);
    match extreme(table, query, ColNo(column), greatest) {
        None => {}
        Some(row) => bodies.push(table.body(row, ColNo(column)).unwrap())?,
    }
    Ok(Reply::Rows { width: 1, bodies })
}

/// The reply to a selection that deletes nothing.
fn reading(alloc: Global, txn: &Txn, asked: &Asked) -> Result<Reply, OutOfMemory>
    requires txn { IsTxn txn.now }
    requires rules { IsRequest (request.Query asked.now) }
    requires checked { refusal (request.Query asked.now) (held_in txn.now) ≡ None }
    requires reads { asked.now.verb ≢ 4 }
    ensures { IfOk result (λ answer. answer ≡ reply_about (verb_by asked.now.verb asked.now) (rows_asked asked.now (held_in txn.now))) }
{
    let query = query_in(alloc, txn, asked)?;
    let table = txn.table(asked.table).unwrap();
    if asked.verb == 0 {
        return rows_reply(alloc, table, &query, asked.columns.as_slice());
    }
    if asked.verb == 1 {
        return Ok(Reply::Count(count(table, &query)));
    }
    extreme_reply(alloc, table, &query, asked.target, asked.verb == 3)
}

/// The numbers of the rows that a deletion finds.
fn doomed(alloc: Global, txn: &Txn, asked: &Asked) -> Result<Items<u64>, OutOfMemory>
    requires txn { IsTxn txn.now }
    requires rules { IsRequest (request.Query asked.now) }
    requires checked { refusal (request.Query asked.now) (held_in txn.now) ≡ None }
    requires deletes { asked.now.verb ≡ 4 }
    ensures rows { IfOk result (λ numbers. numbers ≡ kept_numbers (rows_asked asked.now (held_in txn.now))) }
    ensures rise { IfOk result (λ numbers. IsIncreasing numbers) }
    ensures live { IfOk result (λ numbers. AllAmong (kept_numbers (shelf_at (held_in txn.now).shelves asked.now.table.0).kept) numbers) }
{
    let query = query_in(alloc, txn, asked)?;
    let numbers = rows(alloc, txn.table(asked.table).unwrap(), &query)?;
    Ok(numbers)
}

/// The table without these rows.
fn without_rows(table: Table, numbers: &[u64]) -> Result<Table, OutOfMemory>
    requires rise { IsIncreasing numbers.now }
    requires live { AllAmong (kept_numbers table.shelf.kept) numbers.now }
    ensures table { IfOk result (λ after. after ≡ with_shelf (delete_rows table.same_time numbers.now table.shelf) table) }
    ensures sound { IfOk result (λ after. IsTable after) }
{
    let mut table = table;
    table.delete_rows(numbers)?;
    let _columns = table.columns();
    Ok(table)
}

/// Takes rows out of a table: one or more.
fn delete(txn: &mut Txn, table: TableNo, numbers: Items<u64>) -> Result<(), OutOfMemory>
    requires txn { IsTxn txn.old }
    requires closed { txn.old.walk ≡ None }
    requires there { table.0 < length (held_in txn.old).shelves }
    requires some { 0 < length numbers }
    requires rise { IsIncreasing numbers }
    requires live { AllAmong (kept_numbers (shelf_at (held_in txn.old).shelves table.0).kept) numbers }
    ensures held { OnOk result (held_in txn.new ≡ after_statement table (without_numbers table numbers (held_in txn.old))) }
    ensures txn { OnOk result (IsTxn txn.new) }
{
    let before = txn.take_own(table)?;
    let after = without_rows(before, numbers.as_slice())?;
    txn.put_own(table, after);
    let op = Op::Delete {
        table,
        rows: numbers,
    };
    note(txn, table, op)?;
    Ok(())
}

/// A statement about a table was served that changed nothing.
fn leave(txn: &mut Txn, table: TableNo) -> Result<(), OutOfMemory>
    requires txn { IsTxn txn.old }
    requires closed { txn.old.walk ≡ None }
    ensures held { OnOk result (held_in txn.new ≡ after_statement table (held_in txn.old)) }
    ensures txn { OnOk result (IsTxn txn.new) }
{
    touch(txn, table)?;
    Ok(())
}

/// Deletes rows, if there are any.
fn delete_all(txn: &mut Txn, table: TableNo, numbers: Items<u64>) -> Result<(), OutOfMemory>
    requires txn { IsTxn txn.old }
    requires closed { txn.old.walk ≡ None }
    requires there { table.0 < length (held_in txn.old).shelves }
    requires rise { IsIncreasing numbers }
    requires live { AllAmong (kept_numbers (shelf_at (held_in txn.old).shelves table.0).kept) numbers }
    ensures held { OnOk result (held_in txn.new ≡ after_statement table (without_numbers table numbers (held_in txn.old))) }
    ensures txn { OnOk result (IsTxn txn.new) }
{
    if numbers.as_slice().is_empty() {
        return leave(txn, table);
    }
    delete(txn, table, numbers)
}

/// Deletes the rows that a selection finds.
fn deletion(alloc: Global, txn: &mut Txn, asked: &Asked) -> Result<Came, OutOfMemory>
    requires txn { IsTxn txn.old }
    requires rules { IsRequest (request.Query asked.now) }
    requires checked { refusal (request.Query asked.now) (held_in txn.old) ≡ None }
    requires deletes { asked.now.verb ≡ 4 }
    ensures step { IfOk result (λ came. step_by came (held_in txn.new) ≡ queried asked.now (held_in txn.old)) }
    ensures txn { OnOk result (IsTxn txn.new) }
{
    let numbers = doomed(alloc, txn, asked)?;
    let found = numbers.as_slice().len() as u64;
    delete_all(txn, asked.table, numbers)?;
    Ok(Came::Says(Reply::Count(found)))
}

/// Answers a selection that deletes nothing.
fn selection(alloc: Global, txn: &mut Txn, asked: &Asked) -> Result<Came, OutOfMemory>
    requires txn { IsTxn txn.old }
    requires rules { IsRequest (request.Query asked.now) }
    requires checked { refusal (request.Query asked.now) (held_in txn.old) ≡ None }
    requires reads { asked.now.verb ≢ 4 }
    ensures step { IfOk result (λ came. step_by came (held_in txn.new) ≡ queried asked.now (held_in txn.old)) }
    ensures txn { OnOk result (IsTxn txn.new) }
{
    let reply = reading(alloc, txn, asked)?;
    leave(txn, asked.table)?;
    Ok(Came::Says(reply))
}

/// Answers a selection, or deletes what it finds, where no check refuses that.
pub fn query(alloc: Global, txn: &mut Txn, asked: &Asked) -> Result<Came, OutOfMemory>
    requires txn { IsTxn txn.old }
    requires rules { IsRequest (request.Query asked.now) }
    requires checked { refusal (request.Query asked.now) (held_in txn.old) ≡ None }
    ensures step { IfOk result (λ came. step_by came (held_in txn.new) ≡ queried asked.now (held_in txn.old)) }
    ensures txn { OnOk result (IsTxn txn.new) }
{
    if asked.verb == 4 {
        return deletion(alloc, txn, asked);
    }
    selection(alloc, txn, asked)
}
