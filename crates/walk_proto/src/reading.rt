//! Bytes as requests.
ghost use Rattle.std.specs.Prelude.{◌≡◌, ◌≢◌, ◌<◌, ◌+◌, ◌*◌, ◌^◌, [], ◌∷◌, length, None, IfErr, IfOk, IfSome, OnOk};
ghost use Rattle.walk_proto.specs.Faults.{at, request_fault};
ghost use Rattle.walk_proto.specs.Laws.{IsReadAs};
ghost use Rattle.walk_proto.specs.declared.messages.Request.{Request};
ghost use Rattle.walk_proto.specs.Rules.{IsRequest};
ghost use Rattle.walk_proto.specs.Shapes.{QueryShape, RequestFits, RequestShape, fault_in};
ghost use Rattle.walk_proto.specs.Spelling.{asked_bytes, request_bytes};

use crate::faults::{WireStop, request_fault};
use crate::messages::{Asked, Request};
use crate::parts::{bodies_of, columns_of, conds_of, limit_of, side_of};
use case_tables::take_fields;
use mope_base::{ColNo, Items, OutOfMemory, TableNo};
use std::alloc::Global;

/// The request that the bytes spell, or their first fault. Memory is asked for only where they spell
/// one.
pub fn read_request(alloc: Global, bytes: &[u8]) -> Result<Request, WireStop>
    ensures spelled { IfOk result (λ r. bytes.now ≡ request_bytes r) }
    ensures rules { IfOk result (λ r. IsRequest r) }
    ensures fits { IfOk result (λ r. RequestFits r) }
    ensures faultless { OnOk result (request_fault bytes.now ≡ None) }
    ensures fault { IfErr result (λ stop. request_fault bytes.now ≡ fault_in stop) }
    ensures complete { (r : Request) → IsRequest r → RequestFits r
        → bytes.now ≡ request_bytes r → IsReadAs r result }
{
    match request_fault(bytes) {
        Some(fault) => Err(fault),
        None => Ok(request_of(alloc, bytes)?),
    }
}

#[tactic(auto, unfolding(crate::specs::Spelling::request_bytes), using(crate::proofs::Lists::nil_at_end, crate::proofs::Lists::cons_first))]
fn request_of(alloc: Global, bytes: &[u8]) -> Result<Request, OutOfMemory>
    requires { RequestShape bytes.now }
    ensures spelled { IfOk result (λ r. bytes.now ≡ request_bytes r) }
    ensures fits { IfOk result (λ r. RequestFits r) }
{
    let kind = bytes[0];
    if kind == 5 {
        return insert_of(alloc, bytes);
    }
    if kind == 6 {
        return Ok(Request::Query(asked_of(alloc, bytes)?));
    }
    Ok(short_request_of(bytes))
}

/// A request whose kind alone gives its length.
#[tactic(auto, unfolding(crate::specs::Spelling::request_bytes), using(crate::proofs::Lists::nil_at_end, crate::proofs::Lists::cons_first))]
fn short_request_of(bytes: &[u8]) -> Request
    requires shape { RequestShape bytes.now }
    requires no_insert { at bytes.now 0 ≢ 5 }
    requires no_query { at bytes.now 0 ≢ 6 }
    ensures spelled { bytes.now ≡ request_bytes result }
    ensures fits { RequestFits result }
{
    let kind = bytes[0];
    if kind == 1 {
        return Request::Begin;
    }
    if kind == 2 {
        let (table, column) = table_and_column(bytes);
        return Request::WalkStart { table, column };
    }
    if kind == 3 {
        return Request::Go {
            side: side_of(bytes[1]),
        };
    }
    if kind == 4 {
        return Request::Found;
    }
    if kind == 7 {
        return Request::End {
            commit: bytes[1] == 1,
        };
    }
    let (table, column) = table_and_column(bytes);
    Request::Rebuild { table, column }
}

#[tactic(auto, using(crate::proofs::Lists::nil_at_end, crate::proofs::Lists::cons_first))]
fn table_and_column(bytes: &[u8]) -> (TableNo, ColNo)
    requires { length bytes.now ≡ 3 }
    ensures { bytes.now ≡ at bytes.now 0 ∷ result.0.0 ∷ result.1.0 ∷ [] }
{
    take_fields!(bytes; _kind: u8, table: u8, column: u8);
    (TableNo(table), ColNo(column))
}

#[tactic(auto, unfolding(crate::specs::Spelling::request_bytes), using(crate::proofs::Lists::nil_at_end, crate::proofs::Lists::cons_first))]
fn insert_of(alloc: Global, bytes: &[u8]) -> Result<Request, OutOfMemory>
    requires kind { at bytes.now 0 ≡ 5 }
    requires long { length bytes.now ≡ 3 + at bytes.now 2 * 16 }
    ensures spelled { IfOk result (λ r. bytes.now ≡ request_bytes r) }
    ensures fits { IfOk result (λ r. RequestFits r) }
{
    let bodies = bodies_of(alloc, usize::from(bytes[2]), &bytes[3..])?;
    Ok(Request::Insert {
        table: TableNo(bytes[1]),
        bodies: Items::from_vec(bodies),
    })
}

fn asked_of(alloc: Global, bytes: &[u8]) -> Result<Asked, OutOfMemory>
    requires kind { at bytes.now 0 ≡ 6 }
    requires shape { QueryShape bytes.now }
    ensures spelled { IfOk result (λ asked. bytes.now ≡ 6 ∷ asked_bytes asked) }
    ensures fits { IfOk result (λ asked. IfSome asked.limit (λ limit. limit < 2 ^ 64)) }
{
    let limit = limit_of(&bytes[6..15]);
    let columns = columns_of(alloc, &bytes[15..24])?;
    let conds = conds_of(alloc, &bytes[24..])?;
    Ok(Asked {
        table: TableNo(bytes[1]),
        verb: bytes[2],
        target: bytes[3],
        order: bytes[4],
        order_column: bytes[5],
        limit,
        columns,
        conds,
    })
}
