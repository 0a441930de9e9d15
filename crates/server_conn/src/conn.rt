//! The connection itself.
ghost use Rattle.server_conn.specs.Connections.{Held, begins, idle};
ghost use Rattle.server_conn.specs.Handling.{CanEnd, IsDone, IsDueBy, IsStep, asked_by, fault_reply, handed, handed_fault, held_by, receipt_for, running, spent_conn};
ghost use Rattle.server_conn.specs.Serving.{began, ended, serve, step_to};
ghost use Rattle.server_conn.specs.declared.receipt.Served.TheVariants as answered;
ghost use Rattle.std.specs.Prelude.{◌≡◌, ◌↔◌, Ok, IfOk, IfSome, IsErr, IsOk, IsSome, None, OnErr, OnOk, Some, false, min, true};
ghost use Rattle.walk_proto.specs.Faults.{request_fault};
ghost use Rattle.walk_proto.specs.Rules.{IsRequest};
ghost use Rattle.walk_proto.specs.Shapes.{RequestFits};
ghost use Rattle.walk_proto.specs.Spelling.{request_bytes};
ghost use Rattle.walk_proto.specs.declared.faults.WireStop.{WireStop as Fault};
ghost use Rattle.walk_proto.specs.declared.messages.Reply.{Reply as Said};
ghost use Rattle.walk_proto.specs.declared.messages.Reply.TheVariants as reply;
ghost use Rattle.walk_proto.specs.declared.messages.Request.{Request as Asks};

use crate::receipt::{Receipt, Served};
use crate::stage::{Stage, request_for, serve_stage};
use crate::txn::Txn;
use mope_base::OutOfMemory;
use std::alloc::Global;
use std::marker::Model;
use std::mem;
use versions::{Ending, Snapshot};
use walk_proto::{How, Reply, Request, WireStop, read_request};

/// The server's side of one session's connection.
///
/// Contracts see where it stands, with all that its transaction is, and whether it is spent: after want of memory it has no
/// transaction, and each later call that can answer want of memory does.
#[derive(Drop)]
pub struct Conn {
    alloc: Global,
    stage: Stage,
    spent: bool,
}

impl Model for Conn {
    ghost use Rattle.server_conn.specs.Handling.{Seen};

    ghost Value = { Seen };

    ghost use Rattle.server_conn.specs.Stored.{seen_code};

    ghost coded = { seen_code };

    ghost use Rattle.server_conn.specs.Inside.{IsConn, conn_in};

    ghost view = { λ c. record { conn = conn_in c.stage; spent = c.spent } };

    ghost invariant = { λ c. IsConn c.stage c.spent };
}

/// An offset as a reply tells it. No fault of bytes that come has one of more than 32 bits.
fn told_offset(offset: usize) -> u32
    ensures { result ≡ min offset 4294967295 }
{
    if offset < u32::MAX as usize {
        return offset as u32;
    }
    u32::MAX
}

/// The refusal of bytes for their first fault, which has an offset.
#[tactic(auto, unfolding(crate::specs::Handling::receipt_for))]
fn fault_receipt(code: u8, offset: usize) -> Served
    ensures { result ≡ answered.Reply (receipt_for None (reply.No code (min offset 4294967295))) }
{
    Served::Reply(Receipt {
        request: None,
        reply: Reply::No {
            code,
            value: told_offset(offset),
        },
    })
}

/// The refusal of bytes that spell no request: `None` exactly where they weren't read for want of memory.
#[tactic(auto, unfolding(crate::specs::Handling::fault_reply, crate::specs::Handling::handed_fault))]
fn wire_fault(stop: WireStop) -> Option<Served>
    ensures { result ≡ handed_fault (fault_reply stop) }
{
    match stop {
        WireStop::Short(offset) => Some(fault_receipt(8, offset)),
        WireStop::Kind(offset) => Some(fault_receipt(9, offset)),
        WireStop::Length(offset) => Some(fault_receipt(10, offset)),
        WireStop::Value(offset) => Some(fault_receipt(11, offset)),
        WireStop::OutOfMemory => None,
    }
}

impl Conn {
    /// A connection without a transaction. It takes no memory.
    #[tactic(auto, unfolding(crate::specs::Handling::running, crate::specs::Inside::conn_in, crate::specs::Inside::IsStage))]
    pub fn new(alloc: Global) -> Conn
        ensures { result ≡ running idle }
    {
        Conn {
            alloc,
            stage: Stage::Idle,
            spent: false,
        }
    }

    /// Gives the transaction up, for want of memory.
    fn lose(&mut self)
        ensures { self.new ≡ spent_conn }
    {
        self.stage = Stage::Idle;
        self.spent = true;
    }

    /// Serves a request that some bytes spell: it answers it, or refuses it for the first reason that there is, or asks for a
    /// turn. After `OutOfMemory` the connection is spent. `Go` and `Found` take no memory.
    pub fn serve(&mut self, request: Request) -> Result<Served, OutOfMemory>
        requires { IsRequest request }
        ensures served { IfOk result (λ served. served ≡ handed request (serve request self.old.conn).served) }
        ensures conn { OnOk result (self.new ≡ running (serve request self.old.conn).conn) }
        ensures spent { OnErr result (self.new ≡ spent_conn) }
        ensures stays_spent { self.old.spent ≡ true → IsErr result }
        ensures walks { self.old.spent ≡ false → IsStep request → IsOk result }
    {
        if self.spent {
            return Err(OutOfMemory);
        }
        let stage = mem::replace(&mut self.stage, Stage::Idle);
        match serve_stage(self.alloc, stage, request) {
            Ok((next, served)) => {
                self.stage = next;
                Ok(served)
            }
            Err(_) => {
                self.lose();
                Err(OutOfMemory)
            }
        }
    }

    /// Serves the request that bytes spell. Bytes that spell none are refused for their first fault, and change nothing. After
    /// `OutOfMemory` the connection is spent.
    pub fn serve_bytes(&mut self, bytes: &[u8]) -> Result<Served, OutOfMemory>
        ensures served { (r : Asks) → IsRequest r → RequestFits r → bytes.now ≡ request_bytes r
            → IfOk result (λ served. served ≡ handed r (serve r self.old.conn).served) }
        ensures conn { (r : Asks) → IsRequest r → RequestFits r → bytes.now ≡ request_bytes r
            → OnOk result (self.new ≡ running (serve r self.old.conn).conn) }
        ensures fault { self.old.spent ≡ false → (stop : Fault) (said : Said) → request_fault bytes.now ≡ Some stop
            → fault_reply stop ≡ Some said → result ≡ Ok (answered.Reply (receipt_for None said)) }
        ensures unchanged { (stop : Fault) → request_fault bytes.now ≡ Some stop → self.new ≡ self.old }
        ensures spent { OnErr result (self.new ≡ spent_conn) }
        ensures stays_spent { self.old.spent ≡ true → IsErr result }
    {
        if self.spent {
            return Err(OutOfMemory);
        }
        match read_request(self.alloc, bytes) {
            Ok(request) => self.serve(request),
            Err(stop) => match wire_fault(stop) {
                Some(served) => Ok(served),
                None => {
                    self.lose();
                    Err(OutOfMemory)
                }
            },
        }
    }

    /// The begin turn that was awaited was taken on a version. It takes no memory.
    pub fn began(&mut self, snapshot: Snapshot) -> Receipt
        requires { self.old.conn ≡ begins }
        ensures request { result.request ≡ asked_by self.old.conn }
        ensures step { began snapshot ≡ step_to result.reply self.new.conn }
        ensures fresh { self.new.spent ≡ false }
    {
        let number = snapshot.version().number();
        self.stage = Stage::Holds(Txn::on(self.alloc, snapshot));
        Receipt {
            request: Some(Request::Begin),
            reply: Reply::Ended {
                how: How::Began,
                table: 0,
                number,
            },
        }
    }

    /// What the transaction hands over at its end: `None` exactly where there is no transaction. Its operations fit its
    /// version, each is on a table that it touched, and where a turn is awaited it can be taken.
    pub fn ending(&self) -> Option<Ending<'_>>
        ensures there { IsSome result ↔ IsSome (held_by self.now.conn) }
        ensures base { (h : Held) → held_by self.now.conn ≡ Some h → IfSome result (λ e. e.base.now ≡ h.base) }
        ensures touched { (h : Held) → held_by self.now.conn ≡ Some h → IfSome result (λ e. e.touched.now ≡ h.touched) }
        ensures ops { (h : Held) → held_by self.now.conn ≡ Some h → IfSome result (λ e. e.ops.now ≡ h.ops) }
        ensures fits { (h : Held) → held_by self.now.conn ≡ Some h → IsDone h.base h.touched h.ops }
        ensures due { IsDueBy self.now.conn }
    {
        match &self.stage {
            Stage::Idle => None,
            Stage::Begins => None,
            Stage::Holds(txn) => Some(txn.ending()),
            Stage::Awaits(txn, _) => Some(txn.ending()),
        }
    }

    /// The commit or install turn that was awaited was taken, and ended so. It takes no memory.
    pub fn ended(&mut self, how: How, table: u8, number: u64) -> Receipt
        requires { CanEnd self.old.conn how table }
        ensures request { result.request ≡ asked_by self.old.conn }
        ensures step { ended how table number ≡ step_to result.reply self.new.conn }
        ensures fresh { self.new.spent ≡ false }
    {
        let request = match mem::replace(&mut self.stage, Stage::Idle) {
            Stage::Awaits(_, due) => request_for(due),
            _ => unreachable!(),
        };
        Receipt {
            request: Some(request),
            reply: Reply::Ended { how, table, number },
        }
    }
}
