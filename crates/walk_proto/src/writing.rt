//! Messages as bytes.
ghost use Rattle.std.specs.Prelude.{◌≡◌, ◌≤◌, ◌<◌, ◌^◌, ◌++◌, [], ◌∷◌, length, IfOk, IfSome, IsTrue, None, OnOk};
ghost use Rattle.byteorder.specs.Endian.{big_bytes};
ghost use Rattle.std.specs.List.{flat_map};
ghost use Rattle.walk_proto.specs.Faults.{reply_fault, request_fault};
ghost use Rattle.walk_proto.specs.Rules.{IsReply, IsRequest, is_asked};
ghost use Rattle.walk_proto.specs.Shapes.{BodiesFit, ReplyFits, RequestFits};
ghost use Rattle.walk_proto.specs.Spelling.{asked_bytes, body_bytes, columns_bytes, conds_bytes, how_byte, limit_bytes, reply_bytes, request_bytes, side_byte};

use crate::messages::{Asked, How, Reply, Request};
use crate::rules::how_byte;
use case_tables::put_fields;
use mope_base::{Body, Items, OutOfMemory};
use path_code::Side;
use std::alloc::Global;

/// Room for a message of a body, and for one of a query with few conditions, so that these are written without growing.
const ROOM: usize = 32;

/// The bytes of a request. It must be one that some bytes give. What is written has no fault, and
/// `read_request` gives the request again.
pub fn write_request(alloc: Global, r: &Request) -> Result<Items<u8>, OutOfMemory>
    requires { IsRequest r.now }
    ensures spelled { IfOk result (λ bytes. bytes ≡ request_bytes r.now) }
    ensures faultless { IfOk result (λ bytes. request_fault bytes ≡ None) }
    ensures fits { OnOk result (RequestFits r.now) }
{
    let mut out = Vec::with_capacity(alloc, ROOM)?;
    put_request(&mut out, r)?;
    Ok(Items::from_vec(out))
}

/// The bytes of a reply. It must be one that some bytes give. What is written has no fault, and
/// `read_reply` gives the reply again.
pub fn write_reply(alloc: Global, r: &Reply) -> Result<Items<u8>, OutOfMemory>
    requires { IsReply r.now }
    ensures spelled { IfOk result (λ bytes. bytes ≡ reply_bytes r.now) }
    ensures faultless { IfOk result (λ bytes. reply_fault bytes ≡ None) }
    ensures fits { OnOk result (ReplyFits r.now) }
{
    let mut out = Vec::with_capacity(alloc, ROOM)?;
    put_reply(&mut out, r)?;
    Ok(Items::from_vec(out))
}

#[tactic(auto, unfolding(crate::specs::Spelling::request_bytes))]
fn put_request(out: &mut Vec<u8>, r: &Request) -> Result<(), OutOfMemory>
    requires { IsRequest r.now }
    ensures spelled { OnOk result (out.new.items ≡ out.old.items ++ request_bytes r.now) }
    ensures fits { OnOk result (RequestFits r.now) }
{
    match r {
        Request::Begin => {
            put_fields!(out; 1u8);
        }
        Request::WalkStart { table, column } => {
            put_fields!(out; 2u8, table.0, column.0);
        }
        Request::Go { side } => {
            put_fields!(out; 3u8, side_byte(*side));
        }
        Request::Found => {
            put_fields!(out; 4u8);
        }
        Request::Insert { table, bodies } => {
            let bodies = bodies.as_slice();
            put_fields!(out; 5u8, table.0, bodies.len() as u8);
            put_bodies(out, bodies)?;
        }
        Request::Query(asked) => {
            put_fields!(out; 6u8);
            put_asked(out, asked)?;
        }
        Request::End { commit } => {
            put_fields!(out; 7u8, u8::from(*commit));
        }
        Request::Rebuild { table, column } => {
            put_fields!(out; 8u8, table.0, column.0);
        }
    }
    Ok(())
}

#[tactic(auto, unfolding(crate::specs::Spelling::reply_bytes), using(crate::proofs::RowsFit::rows_fit))]
fn put_reply(out: &mut Vec<u8>, r: &Reply) -> Result<(), OutOfMemory>
    requires { IsReply r.now }
    ensures spelled { OnOk result (out.new.items ≡ out.old.items ++ reply_bytes r.now) }
    ensures fits { OnOk result (ReplyFits r.now) }
{
    match r {
        Reply::Node(body) => {
            put_fields!(out; 9u8);
            put_body(out, body)?;
        }
        Reply::Placed => {
            put_fields!(out; 10u8);
        }
        Reply::Rows { width, bodies } => {
            let bodies = bodies.as_slice();
            put_fields!(out; 11u8, *width, bodies.len() as u32);
            put_bodies(out, bodies)?;
        }
        Reply::Count(number) => {
            put_fields!(out; 12u8, *number);
        }
        Reply::Ended { how, table, number } => {
            put_ended(out, *how, *table, *number)?;
        }
        Reply::No { code, value } => {
            put_fields!(out; 14u8, *code, *value);
        }
    }
    Ok(())
}

fn side_byte(side: Side) -> u8
    ensures { result ≡ side_byte side }
{
    match side {
        Side::Left => 0,
        Side::Right => 1,
    }
}

#[tactic(auto, unfolding(crate::specs::Spelling::body_bytes, crate::specs::Shapes::BodiesFit))]
fn put_body(out: &mut Vec<u8>, body: &Body) -> Result<(), OutOfMemory>
    ensures spelled { OnOk result (out.new.items ≡ out.old.items ++ body_bytes body.now) }
    ensures fits { OnOk result (BodiesFit (body.now ∷ [])) }
{
    put_fields!(out; body.nonce, body.masked);
    Ok(())
}

fn put_bodies(out: &mut Vec<u8>, bodies: &[Body]) -> Result<(), OutOfMemory>
    ensures spelled { OnOk result (out.new.items ≡ out.old.items ++ flat_map body_bytes bodies.now) }
    ensures fits { OnOk result (BodiesFit bodies.now) }
{
    'bodies: for body in bodies {
        put_body(out, body)?;
    }
    Ok(())
}

#[tactic(auto, unfolding(crate::specs::Spelling::asked_bytes), using(crate::proofs::AskedParts::asked_fits))]
fn put_asked(out: &mut Vec<u8>, asked: &Asked) -> Result<(), OutOfMemory>
    requires { IsTrue (is_asked asked.now) }
    ensures spelled { OnOk result (out.new.items ≡ out.old.items ++ asked_bytes asked.now) }
    ensures fits { OnOk result (IfSome asked.now.limit (λ limit. limit < 2 ^ 64)) }
{
    put_fields!(out; asked.table.0, asked.verb, asked.target, asked.order, asked.order_column);
    put_limit(out, asked.limit)?;
    put_columns(out, asked.columns.as_slice())?;
    put_conds(out, asked.conds.as_slice())?;
    Ok(())
}

#[tactic(auto, unfolding(crate::specs::Spelling::limit_bytes))]
fn put_limit(out: &mut Vec<u8>, limit: Option<u64>) -> Result<(), OutOfMemory>
    ensures spelled { OnOk result (out.new.items ≡ out.old.items ++ limit_bytes limit) }
    ensures fits { OnOk result (IfSome limit (λ number. number < 2 ^ 64)) }
{
    match limit {
        Some(number) => {
            put_fields!(out; 1u8, number);
        }
        None => {
            put_fields!(out; 0u8, 0u64);
        }
    }
    Ok(())
}

fn put_ended(out: &mut Vec<u8>, how: How, table: u8, number: u64) -> Result<(), OutOfMemory>
    ensures { OnOk result (out.new.items ≡ out.old.items ++
        13 ∷ how_byte how ∷ table ∷ big_bytes 8 number) }
{
    let how = how_byte(how);
    put_fields!(out; 13u8, how, table, number);
    Ok(())
}

#[tactic(auto, unfolding(crate::specs::Spelling::column_bytes, crate::specs::Spelling::columns_bytes))]
fn put_columns(out: &mut Vec<u8>, columns: &[u8]) -> Result<(), OutOfMemory>
    requires { length columns.now ≤ 8 }
    ensures { OnOk result (out.new.items ≡ out.old.items ++ columns_bytes columns.now) }
{
    put_fields!(out; columns.len() as u8);
    out.extend_from_slice(columns)?;
    out.extend_from_slice(&[0; 8][columns.len()..])?;
    Ok(())
}

#[tactic(auto, unfolding(crate::specs::Spelling::conds_bytes))]
fn put_conds(out: &mut Vec<u8>, conds: &[(u8, u8)]) -> Result<(), OutOfMemory>
    requires { length conds.now ≤ 8 }
    ensures { OnOk result (out.new.items ≡ out.old.items ++ conds_bytes conds.now) }
{
    put_fields!(out; conds.len() as u8);
    'conds: for (column, op) in conds {
        put_fields!(out; *column, *op);
    }
    Ok(())
}
