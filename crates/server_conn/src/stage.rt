//! Where a connection stands.
ghost use Rattle.server_conn.specs.Connections.{Held, holds};
ghost use Rattle.server_conn.specs.Handling.{IsStep, handed, receipt_for, request_for};
ghost use Rattle.server_conn.specs.Inside.{IsReadyFor, IsStage, IsTxn, conn_in, due_of, held_in, step_by, step_due};
ghost use Rattle.server_conn.specs.Serving.{serve, served_idle};
ghost use Rattle.server_conn.specs.declared.receipt.Served.TheVariants as answered;
ghost use Rattle.std.specs.Prelude.{◌≡◌, IfOk, IsOk, Some};
ghost use Rattle.walk_proto.specs.Rules.{IsRequest};
ghost use Rattle.walk_proto.specs.declared.messages.Reply.TheVariants as reply;
ghost use Rattle.walk_proto.specs.declared.messages.Request.{Request as Asks};

use crate::came::{Came, Due};
use crate::checks::{IN_TRANSACTION, NO_TRANSACTION};
use crate::receipt::{Receipt, Served};
use crate::serving::serve_txn;
use crate::txn::Txn;
use mope_base::OutOfMemory;
use std::alloc::Global;
use walk_proto::{Reply, Request};

/// Where a connection stands between two calls.
#[derive(Drop)]
pub enum Stage {
    /// It has no transaction.
    Idle,
    /// A begin turn is awaited.
    Begins,
    /// It has a transaction.
    Holds(Txn),
    /// The transaction's last turn is awaited.
    Awaits(Txn, Due),
}

/// A request that was answered.
#[tactic(auto, unfolding(crate::specs::Handling::receipt_for))]
fn answered(request: Request, reply: Reply) -> Served
    ensures { result ≡ answered.Reply (receipt_for (Some request) reply) }
{
    Served::Reply(Receipt {
        request: Some(request),
        reply,
    })
}

/// A refusal that changes nothing.
#[tactic(auto, unfolding(crate::specs::Handling::receipt_for))]
fn refused(request: Request, code: u8) -> Served
    ensures { result ≡ answered.Reply (receipt_for (Some request) (reply.No code 0)) }
{
    answered(request, Reply::No { code, value: 0 })
}

/// The request by which a turn at the end of a transaction was asked for.
#[tactic(auto, unfolding(crate::specs::Handling::request_for, crate::specs::Inside::due_of))]
pub fn request_for(due: Due) -> Request
    ensures { result ≡ request_for (due_of due) }
{
    match due {
        Due::Commit => Request::End { commit: true },
        Due::Install { table, column } => Request::Rebuild { table, column },
    }
}

/// A turn that is awaited, as it is asked for.
#[tactic(auto, unfolding(crate::specs::Handling::handed, crate::specs::Inside::step_due))]
fn asks_for(due: Due) -> Served
    ensures { (r : Asks) (h : Held) → result ≡ handed r (step_due due h).served }
{
    match due {
        Due::Commit => Served::Commit,
        Due::Install { table, column } => Served::Install { table, column },
    }
}

/// What a request wants where there is no transaction.
#[tactic(auto, unfolding(crate::specs::Handling::handed, crate::specs::Serving::served_idle, crate::specs::Serving::step_to, crate::specs::Inside::conn_in, crate::specs::Inside::IsStage))]
fn serve_idle(request: Request) -> (Stage, Served)
    ensures served { result.1 ≡ handed request (served_idle request).served }
    ensures conn { conn_in result.0 ≡ (served_idle request).conn }
    ensures stage { IsStage result.0 }
{
    match request {
        Request::Begin => (Stage::Begins, Served::Begin),
        other => (Stage::Idle, refused(other, NO_TRANSACTION)),
    }
}

/// Where a connection stands after what came of a request to its transaction, and what it hands out.
#[tactic(auto, unfolding(crate::specs::Handling::handed, crate::specs::Inside::step_by, crate::specs::Inside::step_due, crate::specs::Serving::step_to, crate::specs::Inside::conn_in, crate::specs::Inside::IsStage, crate::specs::Inside::IsReadyFor, crate::specs::Inside::due_of))]
fn settle(txn: Txn, came: Came, request: Request) -> (Stage, Served)
    requires txn { IsTxn txn }
    requires ready { IsReadyFor came txn }
    ensures served { result.1 ≡ handed request (step_by came (held_in txn)).served }
    ensures conn { conn_in result.0 ≡ (step_by came (held_in txn)).conn }
    ensures stage { IsStage result.0 }
{
    match came {
        Came::Says(reply) => (Stage::Holds(txn), answered(request, reply)),
        Came::Ends(reply) => (Stage::Idle, answered(request, reply)),
        Came::Waits(due) => (Stage::Awaits(txn, due), asks_for(due)),
    }
}

/// A request to a connection that has a transaction.
fn serve_held(alloc: Global, txn: Txn, request: Request) -> Result<(Stage, Served), OutOfMemory>
    requires txn { IsTxn txn }
    requires rules { IsRequest request }
    ensures served { IfOk result (λ next. next.1 ≡ handed request (serve request (holds (held_in txn))).served) }
    ensures conn { IfOk result (λ next. conn_in next.0 ≡ (serve request (holds (held_in txn))).conn) }
    ensures stage { IfOk result (λ next. IsStage next.0) }
    ensures walks { IsStep request → IsOk result }
{
    let mut txn = txn;
    match serve_txn(alloc, &mut txn, &request) {
        Ok(came) => Ok(settle(txn, came, request)),
        Err(_) => Err(OutOfMemory),
    }
}

/// A request to a connection, wherever it stands: where it stands then, and what it hands out.
pub fn serve_stage(
    alloc: Global,
    stage: Stage,
    request: Request,
) -> Result<(Stage, Served), OutOfMemory>
    requires stage { IsStage stage }
    requires rules { IsRequest request }
    ensures served { IfOk result (λ next. next.1 ≡ handed request (serve request (conn_in stage)).served) }
    ensures conn { IfOk result (λ next. conn_in next.0 ≡ (serve request (conn_in stage)).conn) }
    ensures stage { IfOk result (λ next. IsStage next.0) }
    ensures walks { IsStep request → IsOk result }
{
    match stage {
        Stage::Idle => Ok(serve_idle(request)),
        Stage::Begins => Ok((Stage::Begins, refused(request, IN_TRANSACTION))),
        Stage::Awaits(txn, due) => Ok((Stage::Awaits(txn, due), refused(request, IN_TRANSACTION))),
        Stage::Holds(txn) => serve_held(alloc, txn, request),
    }
}
