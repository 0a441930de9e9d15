//! Parts of messages, read off the front of bytes.
ghost use Rattle.std.specs.Prelude.{◌≡◌, ◌<◌, ◌≤◌, ◌+◌, ◌-◌, ◌*◌, ◌^◌, ◌++◌, length, drop, replicate, IfOk, IfSome};
ghost use Rattle.std.specs.List.{flat_map};
ghost use Rattle.byteorder.specs.Endian.{big_number};
ghost use Rattle.walk_proto.specs.Faults.{at};
ghost use Rattle.walk_proto.specs.Shapes.{BodiesFit};
ghost use Rattle.walk_proto.specs.Spelling.{body_bytes, columns_bytes, cond_bytes, conds_bytes, how_byte, limit_bytes, side_byte};

use crate::messages::How;
use case_tables::take_fields;
use mope_base::{Body, Items, OutOfMemory};
use path_code::Side;
use std::alloc::Global;

pub(crate) fn side_of(byte: u8) -> Side
    requires { byte ≤ 1 }
    ensures { side_byte result ≡ byte }
{
    if byte == 0 { Side::Left } else { Side::Right }
}

pub(crate) fn how_of(byte: u8) -> How
    requires { byte ≤ 5 }
    ensures { how_byte result ≡ byte }
{
    match byte {
        0 => How::Began,
        1 => How::Closed,
        2 => How::Committed,
        3 => How::Conflict,
        4 => How::Installed,
        _ => How::Stale,
    }
}

#[tactic(auto, unfolding(crate::specs::Spelling::body_bytes), using(crate::proofs::Lists::nil_at_end, crate::proofs::Lists::cons_first))]
pub(crate) fn body_of(bytes: &[u8]) -> (Body, &[u8])
    requires { 16 ≤ length bytes.now }
    ensures spelled { bytes.now ≡ body_bytes result.0 ++ result.1.now }
    ensures rest { length bytes.now ≡ 16 + length result.1.now }
    ensures nonce_fits { result.0.nonce < 2 ^ 64 }
    ensures masked_fits { result.0.masked < 2 ^ 64 }
{
    take_fields!(bytes; nonce: u64, masked: u64);
    (Body { nonce, masked }, bytes)
}

#[tactic(auto, unfolding(crate::specs::Shapes::BodiesFit), using(crate::proofs::Fitting::fits_push))]
pub(crate) fn bodies_of(alloc: Global, count: usize, bytes: &[u8]) -> Result<Vec<Body>, OutOfMemory>
    requires { length bytes.now ≡ count * 16 }
    ensures spelled { IfOk result (λ bodies. bytes.now ≡ flat_map body_bytes bodies.items) }
    ensures counted { IfOk result (λ bodies. length bodies.items ≡ count) }
    ensures fits { IfOk result (λ bodies. BodiesFit bodies.items) }
{
    let mut bodies = Vec::new(alloc);
    let mut rest = bytes;
    'bodies: while bodies.len() < count {
        let (body, after) = body_of(rest);
        bodies.push(body)?;
        rest = after;
    }
    Ok(bodies)
}

#[tactic(auto, unfolding(crate::specs::Spelling::limit_bytes), using(crate::proofs::Lists::nil_at_end, crate::proofs::Lists::cons_first))]
pub(crate) fn limit_of(bytes: &[u8]) -> Option<u64>
    requires long { length bytes.now ≡ 9 }
    requires limited { at bytes.now 0 ≤ 1 }
    requires unlimited { at bytes.now 0 ≡ 0 → big_number 8 (drop 1 bytes.now) ≡ 0 }
    ensures spelled { bytes.now ≡ limit_bytes result }
    ensures fits { IfSome result (λ limit. limit < 2 ^ 64) }
{
    take_fields!(bytes; limited: u8, limit: u64);
    if limited == 0 { None } else { Some(limit) }
}

#[tactic(auto, unfolding(crate::specs::Spelling::columns_bytes, crate::specs::Spelling::column_bytes), using(crate::proofs::Lists::nil_at_end, crate::proofs::Lists::cons_first))]
pub(crate) fn columns_of(alloc: Global, bytes: &[u8]) -> Result<Items<u8>, OutOfMemory>
    requires long { length bytes.now ≡ 9 }
    requires narrow { at bytes.now 0 ≤ 8 }
    requires zeros { drop (at bytes.now 0) (drop 1 bytes.now) ≡ replicate (8 - at bytes.now 0) 0 }
    ensures { IfOk result (λ columns. bytes.now ≡ columns_bytes columns) }
{
    take_fields!(bytes; width: u8);
    let columns = bytes[..usize::from(width)].to_vec(alloc)?;
    Ok(Items::from_vec(columns))
}

#[tactic(auto, unfolding(crate::specs::Spelling::conds_bytes), using(crate::proofs::Lists::nil_at_end, crate::proofs::Lists::cons_first))]
pub(crate) fn conds_of(alloc: Global, bytes: &[u8]) -> Result<Items<(u8, u8)>, OutOfMemory>
    requires some { 1 ≤ length bytes.now }
    requires long { length bytes.now ≡ 1 + at bytes.now 0 * 2 }
    ensures { IfOk result (λ conds. bytes.now ≡ conds_bytes conds) }
{
    take_fields!(bytes; count: u8);
    let conds = pairs_of(alloc, usize::from(count), bytes)?;
    Ok(Items::from_vec(conds))
}

fn pair_of(bytes: &[u8]) -> ((u8, u8), &[u8])
    requires { 2 ≤ length bytes.now }
    ensures spelled { bytes.now ≡ cond_bytes result.0 ++ result.1.now }
    ensures rest { length bytes.now ≡ 2 + length result.1.now }
{
    take_fields!(bytes; column: u8, op: u8);
    ((column, op), bytes)
}

fn pairs_of(alloc: Global, count: usize, bytes: &[u8]) -> Result<Vec<(u8, u8)>, OutOfMemory>
    requires { length bytes.now ≡ count * 2 }
    ensures spelled { IfOk result (λ pairs. bytes.now ≡ flat_map cond_bytes pairs.items) }
    ensures counted { IfOk result (λ pairs. length pairs.items ≡ count) }
{
    let mut pairs = Vec::new(alloc);
    let mut rest = bytes;
    'pairs: while pairs.len() < count {
        let (pair, after) = pair_of(rest);
        pairs.push(pair)?;
        rest = after;
    }
    Ok(pairs)
}
