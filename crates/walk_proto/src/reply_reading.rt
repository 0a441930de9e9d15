//! Bytes as replies.
ghost use Rattle.std.specs.Prelude.{◌≡◌, ◌≤◌, ◌+◌, ◌*◌, length, drop, None, IfErr, IfOk, OnOk};
ghost use Rattle.byteorder.specs.Endian.{big_number};
ghost use Rattle.walk_proto.specs.Faults.{at, reply_fault};
ghost use Rattle.walk_proto.specs.Laws.{IsReadAs};
ghost use Rattle.walk_proto.specs.declared.messages.Reply.{Reply};
ghost use Rattle.walk_proto.specs.Rules.{IsReply};
ghost use Rattle.walk_proto.specs.Shapes.{ReplyFits, ReplyShape, fault_in};
ghost use Rattle.walk_proto.specs.Spelling.{reply_bytes};

use crate::faults::{WireStop, reply_fault};
use crate::messages::Reply;
use crate::parts::{bodies_of, body_of, how_of};
use case_tables::take_fields;
use mope_base::{Items, OutOfMemory};
use std::alloc::Global;

/// The reply that the bytes spell, or their first fault. Memory is asked for only where they spell
/// one.
pub fn read_reply(alloc: Global, bytes: &[u8]) -> Result<Reply, WireStop>
    ensures spelled { IfOk result (λ r. bytes.now ≡ reply_bytes r) }
    ensures rules { IfOk result (λ r. IsReply r) }
    ensures fits { IfOk result (λ r. ReplyFits r) }
    ensures faultless { OnOk result (reply_fault bytes.now ≡ None) }
    ensures fault { IfErr result (λ stop. reply_fault bytes.now ≡ fault_in stop) }
    ensures complete { (r : Reply) → IsReply r → ReplyFits r
        → bytes.now ≡ reply_bytes r → IsReadAs r result }
{
    match reply_fault(bytes) {
        Some(fault) => Err(fault),
        None => Ok(reply_of(alloc, bytes)?),
    }
}

#[tactic(auto, unfolding(crate::specs::Spelling::reply_bytes), using(crate::proofs::Lists::nil_at_end, crate::proofs::Lists::cons_first))]
fn reply_of(alloc: Global, bytes: &[u8]) -> Result<Reply, OutOfMemory>
    requires { ReplyShape bytes.now }
    ensures spelled { IfOk result (λ r. bytes.now ≡ reply_bytes r) }
    ensures fits { IfOk result (λ r. ReplyFits r) }
{
    let kind = bytes[0];
    if kind == 11 {
        return rows_of(alloc, bytes);
    }
    if kind == 9 {
        return Ok(node_of(bytes));
    }
    if kind == 10 {
        return Ok(Reply::Placed);
    }
    if kind == 12 {
        return Ok(count_of(bytes));
    }
    if kind == 13 {
        return Ok(ended_of(bytes));
    }
    Ok(no_of(bytes))
}

#[tactic(auto, unfolding(crate::specs::Spelling::reply_bytes, crate::specs::Shapes::BodiesFit), using(crate::proofs::Lists::nil_at_end, crate::proofs::Lists::cons_first))]
fn node_of(bytes: &[u8]) -> Reply
    requires kind { at bytes.now 0 ≡ 9 }
    requires long { length bytes.now ≡ 17 }
    ensures spelled { bytes.now ≡ reply_bytes result }
    ensures fits { ReplyFits result }
{
    let (body, _rest) = body_of(&bytes[1..]);
    Reply::Node(body)
}

#[tactic(auto, unfolding(crate::specs::Spelling::reply_bytes), using(crate::proofs::Lists::nil_at_end, crate::proofs::Lists::cons_first))]
fn rows_of(alloc: Global, bytes: &[u8]) -> Result<Reply, OutOfMemory>
    requires kind { at bytes.now 0 ≡ 11 }
    requires head { 6 ≤ length bytes.now }
    requires long { length bytes.now ≡ 6 + big_number 4 (drop 2 bytes.now) * 16 }
    ensures spelled { IfOk result (λ r. bytes.now ≡ reply_bytes r) }
    ensures fits { IfOk result (λ r. ReplyFits r) }
{
    take_fields!(bytes; _kind: u8, width: u8, count: u32);
    let bodies = bodies_of(alloc, count as usize, bytes)?;
    Ok(Reply::Rows {
        width,
        bodies: Items::from_vec(bodies),
    })
}

#[tactic(auto, unfolding(crate::specs::Spelling::reply_bytes), using(crate::proofs::Lists::nil_at_end, crate::proofs::Lists::cons_first))]
fn count_of(bytes: &[u8]) -> Reply
    requires kind { at bytes.now 0 ≡ 12 }
    requires long { length bytes.now ≡ 9 }
    ensures spelled { bytes.now ≡ reply_bytes result }
    ensures fits { ReplyFits result }
{
    take_fields!(bytes; _kind: u8, number: u64);
    Reply::Count(number)
}

#[tactic(auto, unfolding(crate::specs::Spelling::reply_bytes), using(crate::proofs::Lists::nil_at_end, crate::proofs::Lists::cons_first))]
fn ended_of(bytes: &[u8]) -> Reply
    requires kind { at bytes.now 0 ≡ 13 }
    requires long { length bytes.now ≡ 11 }
    requires how { at bytes.now 1 ≤ 5 }
    ensures spelled { bytes.now ≡ reply_bytes result }
    ensures fits { ReplyFits result }
{
    take_fields!(bytes; _kind: u8, how: u8, table: u8, number: u64);
    Reply::Ended {
        how: how_of(how),
        table,
        number,
    }
}

#[tactic(auto, unfolding(crate::specs::Spelling::reply_bytes), using(crate::proofs::Lists::nil_at_end, crate::proofs::Lists::cons_first))]
fn no_of(bytes: &[u8]) -> Reply
    requires kind { at bytes.now 0 ≡ 14 }
    requires long { length bytes.now ≡ 6 }
    ensures spelled { bytes.now ≡ reply_bytes result }
    ensures fits { ReplyFits result }
{
    take_fields!(bytes; _kind: u8, code: u8, value: u32);
    Reply::No { code, value }
}
