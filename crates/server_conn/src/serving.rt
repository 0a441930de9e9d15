//! Requests to a connection that has a transaction.
ghost use Rattle.server_conn.specs.Connections.{holds};
ghost use Rattle.server_conn.specs.Handling.{IsStep};
ghost use Rattle.server_conn.specs.Inside.{IsReadyFor, IsTxn, held_in, refused_by, step_by};
ghost use Rattle.server_conn.specs.Serving.{closed, ended_by, serve};
ghost use Rattle.server_conn.specs.declared.came.Came.TheVariants as came;
ghost use Rattle.std.specs.Prelude.{◌≡◌, IfOk, IsOk, OnOk};
ghost use Rattle.walk_proto.specs.Rules.{IsRequest};
ghost use Rattle.walk_proto.specs.declared.messages.Reply.TheVariants as reply;
ghost use Rattle.walk_proto.specs.declared.messages.Request.TheVariants as request;

use crate::came::{Came, Due};
use crate::checks::{
    FULL, IN_TRANSACTION, NO_WALK, end_refusal, insert_refusal, query_refusal, rebuild_refusal,
    walk_refusal,
};
use crate::inserting::insert;
use crate::querying::query;
use crate::txn::Txn;
use crate::walking::{found, start, step};
use mope_base::{Body, ColNo, OutOfMemory, TableNo};
use std::alloc::Global;
use tree_model::Side;
use walk_proto::{Asked, How, Reply, Request};

/// A refusal: that of a full table, which it names, ends the transaction, and any other changes nothing.
#[tactic(auto, unfolding(crate::specs::Inside::refused_by))]
fn refused(code: u8, table: u8) -> Came
    ensures { result ≡ refused_by code table }
{
    if code == FULL {
        return Came::Ends(Reply::No {
            code,
            value: u32::from(table),
        });
    }
    Came::Says(Reply::No { code, value: 0 })
}

fn serve_walk_start(txn: &mut Txn, table: TableNo, column: ColNo) -> Result<Came, OutOfMemory>
    requires { IsTxn txn.old }
    ensures step { IfOk result (λ c. step_by c (held_in txn.new) ≡ serve (request.WalkStart table column) (holds (held_in txn.old))) }
    ensures txn { OnOk result (IsTxn txn.new) }
{
    match walk_refusal(txn, table, column) {
        Some(code) => Ok(refused(code, 0)),
        None => start(txn, table, column),
    }
}

fn serve_go(txn: &mut Txn, side: Side) -> Came
    requires { IsTxn txn.old }
    ensures step { step_by result (held_in txn.new) ≡ serve (request.Go side) (holds (held_in txn.old)) }
    ensures txn { IsTxn txn.new }
{
    match txn.take_walk() {
        None => refused(NO_WALK, 0),
        Some(walk) => step(txn, walk, side),
    }
}

fn serve_found(txn: &mut Txn) -> Came
    requires { IsTxn txn.old }
    ensures step { step_by result (held_in txn.new) ≡ serve request.Found (holds (held_in txn.old)) }
    ensures txn { IsTxn txn.new }
{
    match txn.take_walk() {
        None => refused(NO_WALK, 0),
        Some(walk) => found(txn, walk),
    }
}

fn serve_insert(
    alloc: Global,
    txn: &mut Txn,
    table: TableNo,
    bodies: &[Body],
) -> Result<Came, OutOfMemory>
    requires { IsTxn txn.old }
    ensures step { IfOk result (λ c. step_by c (held_in txn.new) ≡ serve (request.Insert table bodies.now) (holds (held_in txn.old))) }
    ensures txn { OnOk result (IsTxn txn.new) }
{
    match insert_refusal(txn, table, bodies) {
        Some(code) => Ok(refused(code, table.0)),
        None => insert(alloc, txn, table, bodies),
    }
}

fn serve_query(alloc: Global, txn: &mut Txn, asked: &Asked) -> Result<Came, OutOfMemory>
    requires txn { IsTxn txn.old }
    requires rules { IsRequest (request.Query asked.now) }
    ensures step { IfOk result (λ c. step_by c (held_in txn.new) ≡ serve (request.Query asked.now) (holds (held_in txn.old))) }
    ensures txn { OnOk result (IsTxn txn.new) }
{
    match query_refusal(txn, asked) {
        Some(code) => Ok(refused(code, 0)),
        None => query(alloc, txn, asked),
    }
}

/// The transaction ends without a turn.
fn closed(txn: &Txn) -> Came
    ensures step { step_by result (held_in txn.now) ≡ closed (held_in txn.now) }
    ensures ready { IsReadyFor result txn.now }
{
    Came::Ends(Reply::Ended {
        how: How::Closed,
        table: 0,
        number: txn.base.version().number(),
    })
}

/// The end of a transaction that no check refuses.
fn end(txn: &Txn, commit: bool) -> Came
    ensures step { step_by result (held_in txn.now) ≡ ended_by commit (held_in txn.now) }
    ensures ready { IsReadyFor result txn.now }
{
    if !commit {
        return closed(txn);
    }
    if txn.ops.as_slice().is_empty() {
        return closed(txn);
    }
    Came::Waits(Due::Commit)
}

fn serve_end(txn: &Txn, commit: bool) -> Came
    ensures ready { IsReadyFor result txn.now }
    ensures step { step_by result (held_in txn.now) ≡ serve (request.End commit) (holds (held_in txn.now)) }
{
    match end_refusal(txn, commit) {
        Some(code) => refused(code, 0),
        None => end(txn, commit),
    }
}

fn serve_rebuild(txn: &Txn, table: TableNo, column: ColNo) -> Came
    requires { IsTxn txn.now }
    ensures ready { IsReadyFor result txn.now }
    ensures step { step_by result (held_in txn.now) ≡ serve (request.Rebuild table column) (holds (held_in txn.now)) }
{
    match rebuild_refusal(txn, table, column) {
        Some(code) => refused(code, 0),
        None => Came::Waits(Due::Install { table, column }),
    }
}

/// Serves a request to a transaction. `Go` and `Found` take no memory.
pub fn serve_txn(alloc: Global, txn: &mut Txn, request: &Request) -> Result<Came, OutOfMemory>
    requires txn { IsTxn txn.old }
    requires rules { IsRequest request.now }
    ensures step { IfOk result (λ c. step_by c (held_in txn.new) ≡ serve request.now (holds (held_in txn.old))) }
    ensures txn { OnOk result (IsTxn txn.new) }
    ensures ready { IfOk result (λ c. IsReadyFor c txn.new) }
    ensures walks { IsStep request.now → IsOk result }
{
    match request {
        Request::Begin => Ok(refused(IN_TRANSACTION, 0)),
        Request::WalkStart { table, column } => serve_walk_start(txn, *table, *column),
        Request::Go { side } => Ok(serve_go(txn, *side)),
        Request::Found => Ok(serve_found(txn)),
        Request::Insert { table, bodies } => serve_insert(alloc, txn, *table, bodies.as_slice()),
        Request::Query(asked) => serve_query(alloc, txn, asked),
        Request::End { commit } => Ok(serve_end(txn, *commit)),
        Request::Rebuild { table, column } => Ok(serve_rebuild(txn, *table, *column)),
    }
}
