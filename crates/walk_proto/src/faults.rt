//! The first fault of bytes that spell no message.
ghost use Rattle.std.specs.Prelude.{◌≡◌, ◌+◌, ◌++◌, ◌^◌, ◌<◌, ◌≤◌, length, IfOk};
ghost use Rattle.case_tables.specs.Tables.{cut};
ghost use Rattle.walk_proto.specs.Faults.{HasFields, bit_fields, column_fields, ended_fields, fault_by, fields_of, first_wrong, insert_fields, no_fields, op_fields, query_column_fields, query_cond_fields, query_fields, query_head_fields, reply_fault, request_fault, rows_fields};
ghost use Rattle.walk_proto.specs.Kinds.{reply_kinds, request_kinds};

use crate::rules::{
    is_wrong_column, is_wrong_ended_table, is_wrong_limit, is_wrong_limited, is_wrong_no_value,
    is_wrong_order, is_wrong_order_column, is_wrong_query_width, is_wrong_target, is_wrong_width,
};
use crate::table::first_cut;
use byteorder::{BigEndian, ByteOrder};
use case_tables::{Cut, Kind};
use mope_base::OutOfMemory;

/// Why bytes were not read as a message. Faults are looked for in this order.
#[derive(Clone, Copy, Debug, PartialEq, Eq)]
pub enum WireStop {
    /// Bytes are missing. There are only so many.
    Short(usize),
    /// No message of this direction has the kind at this offset, which is 0.
    Kind(usize),
    /// There are more bytes than the message has, which is so long.
    Length(usize),
    /// The value of the field that begins at this offset is wrong.
    Value(usize),
    OutOfMemory,
}

impl From<OutOfMemory> for WireStop {
    ghost use Rattle.std.specs.Prelude.{◌≡◌};
    ghost use Rattle.walk_proto.specs.declared.faults.WireStop.TheVariants.{OutOfMemory as NoMemory};

    ghost from_gives = { λ _ e. e ≡ NoMemory };

    fn from(_e: OutOfMemory) -> WireStop {
        WireStop::OutOfMemory
    }
}

fn request_cut(bytes: &[u8]) -> Result<Kind, Cut>
    ensures first_fault { result ≡ cut request_kinds bytes.now }
    ensures fields { IfOk result (λ _. HasFields bytes.now) }
{
    let [first, ..] = bytes else {
        return Err(Cut::Short(0));
    };
    if *first < 1 {
        return Err(Cut::Kind(0));
    }
    if *first > 8 {
        return Err(Cut::Kind(0));
    }
    first_cut(bytes)
}

fn reply_cut(bytes: &[u8]) -> Result<Kind, Cut>
    ensures first_fault { result ≡ cut reply_kinds bytes.now }
    ensures fields { IfOk result (λ _. HasFields bytes.now) }
{
    let [first, ..] = bytes else {
        return Err(Cut::Short(0));
    };
    if *first < 9 {
        return Err(Cut::Kind(0));
    }
    first_cut(bytes)
}

/// The fault of bytes in which the table of kinds found one, or else the first wrong field.
#[tactic(auto, unfolding(crate::specs::Faults::fault_by, crate::specs::Faults::value_fault))]
fn fault_by(cut: Result<Kind, Cut>, bytes: &[u8]) -> Option<WireStop>
    requires { IfOk cut (λ _. HasFields bytes.now) }
    ensures { result ≡ fault_by cut bytes.now }
{
    match cut {
        Err(Cut::Short(offset)) => Some(WireStop::Short(offset)),
        Err(Cut::Kind(offset)) => Some(WireStop::Kind(offset)),
        Err(Cut::Length(offset)) => Some(WireStop::Length(offset)),
        Ok(_) => first_wrong(bytes).map(WireStop::Value),
    }
}

/// The first fault of bytes that are to be a request.
#[tactic(auto, unfolding(crate::specs::Faults::request_fault))]
pub(crate) fn request_fault(bytes: &[u8]) -> Option<WireStop>
    ensures { result ≡ request_fault bytes.now }
{
    fault_by(request_cut(bytes), bytes)
}

/// The first fault of bytes that are to be a reply.
#[tactic(auto, unfolding(crate::specs::Faults::reply_fault))]
pub(crate) fn reply_fault(bytes: &[u8]) -> Option<WireStop>
    ensures { result ≡ reply_fault bytes.now }
{
    fault_by(reply_cut(bytes), bytes)
}

#[tactic(auto, unfolding(crate::specs::Faults::first_wrong))]
fn first_wrong(bytes: &[u8]) -> Option<usize>
    requires { HasFields bytes.now }
    ensures { result ≡ first_wrong (fields_of bytes.now) }
{
    let kind = bytes[0];
    if kind == 3 {
        return wrong_bit(bytes);
    }
    if kind == 5 {
        return wrong_insert(bytes);
    }
    if kind == 6 {
        return wrong_query(bytes);
    }
    if kind == 7 {
        return wrong_bit(bytes);
    }
    if kind == 11 {
        return wrong_rows(bytes);
    }
    if kind == 13 {
        return wrong_ended(bytes);
    }
    if kind == 14 {
        return wrong_no(bytes);
    }
    None
}

#[tactic(auto, unfolding(crate::specs::Faults::first_wrong, crate::specs::Faults::bit_fields))]
fn wrong_bit(bytes: &[u8]) -> Option<usize>
    requires { 2 ≤ length bytes.now }
    ensures { result ≡ first_wrong (bit_fields bytes.now) }
{
    if bytes[1] > 1 {
        return Some(1);
    }
    None
}

#[tactic(auto, unfolding(crate::specs::Faults::first_wrong, crate::specs::Faults::insert_fields))]
fn wrong_insert(bytes: &[u8]) -> Option<usize>
    requires { 3 ≤ length bytes.now }
    ensures { result ≡ first_wrong (insert_fields bytes.now) }
{
    if is_wrong_width(bytes[2]) {
        return Some(2);
    }
    None
}

fn wrong_query(bytes: &[u8]) -> Option<usize>
    requires { 25 ≤ length bytes.now }
    ensures { result ≡ first_wrong (query_fields bytes.now) }
{
    match wrong_query_head(bytes) {
        Some(offset) => Some(offset),
        None => wrong_query_tail(bytes),
    }
}

fn wrong_query_tail(bytes: &[u8]) -> Option<usize>
    requires { 25 ≤ length bytes.now }
    ensures { result ≡ first_wrong (query_column_fields bytes.now ++ query_cond_fields bytes.now) }
{
    match wrong_query_column(bytes) {
        Some(offset) => Some(offset),
        None => wrong_query_cond(bytes),
    }
}

#[tactic(auto, unfolding(crate::specs::Faults::query_column_fields))]
fn wrong_query_column(bytes: &[u8]) -> Option<usize>
    requires { 25 ≤ length bytes.now }
    ensures { result ≡ first_wrong (query_column_fields bytes.now) }
{
    wrong_column(bytes[15], 0, &bytes[16..24])
}

#[tactic(auto, unfolding(crate::specs::Faults::first_wrong, crate::specs::Faults::query_cond_fields))]
fn wrong_query_cond(bytes: &[u8]) -> Option<usize>
    requires { 25 ≤ length bytes.now }
    ensures { result ≡ first_wrong (query_cond_fields bytes.now) }
{
    if bytes[24] > 8 {
        return Some(24);
    }
    wrong_op(25, &bytes[25..])
}

#[tactic(auto, unfolding(crate::specs::Faults::first_wrong, crate::specs::Faults::query_head_fields))]
fn wrong_query_head(bytes: &[u8]) -> Option<usize>
    requires { 25 ≤ length bytes.now }
    ensures { result ≡ first_wrong (query_head_fields bytes.now) }
{
    let verb = bytes[2];
    if verb > 4 {
        return Some(2);
    }
    if is_wrong_target(verb, bytes[3]) {
        return Some(3);
    }
    if is_wrong_order(verb, bytes[4]) {
        return Some(4);
    }
    if is_wrong_order_column(bytes[4], bytes[5]) {
        return Some(5);
    }
    if is_wrong_limited(verb, bytes[6]) {
        return Some(6);
    }
    if is_wrong_limit(bytes[6], BigEndian::read_u64(&bytes[7..])) {
        return Some(7);
    }
    if is_wrong_query_width(verb, bytes[15]) {
        return Some(15);
    }
    None
}

#[tactic(auto, unfolding(crate::specs::Faults::first_wrong, crate::specs::Faults::column_fields))]
fn wrong_column(width: u8, place: usize, columns: &[u8]) -> Option<usize>
    requires { place + length columns.now ≤ 8 }
    ensures { result ≡ first_wrong (column_fields width place columns.now) }
{
    match columns {
        [] => None,
        [column, rest @ ..] => {
            if is_wrong_column(width, place, *column) {
                return Some(16 + place);
            }
            wrong_column(width, place + 1, rest)
        }
    }
}

#[tactic(auto, unfolding(crate::specs::Faults::first_wrong, crate::specs::Faults::op_fields))]
fn wrong_op(offset: usize, conds: &[u8]) -> Option<usize>
    requires { offset + length conds.now < 2 ^ 64 }
    ensures { result ≡ first_wrong (op_fields offset conds.now) }
{
    match conds {
        [] => None,
        [_] => None,
        [_, op, rest @ ..] => {
            if *op > 5 {
                return Some(offset + 1);
            }
            wrong_op(offset + 2, rest)
        }
    }
}

#[tactic(auto, unfolding(crate::specs::Faults::first_wrong, crate::specs::Faults::rows_fields))]
fn wrong_rows(bytes: &[u8]) -> Option<usize>
    requires { 6 ≤ length bytes.now }
    ensures { result ≡ first_wrong (rows_fields bytes.now) }
{
    let width = bytes[1];
    if is_wrong_width(width) {
        return Some(1);
    }
    if !BigEndian::read_u32(&bytes[2..]).is_multiple_of(u32::from(width)) {
        return Some(2);
    }
    None
}

#[tactic(auto, unfolding(crate::specs::Faults::first_wrong, crate::specs::Faults::ended_fields))]
fn wrong_ended(bytes: &[u8]) -> Option<usize>
    requires { 11 ≤ length bytes.now }
    ensures { result ≡ first_wrong (ended_fields bytes.now) }
{
    if bytes[1] > 5 {
        return Some(1);
    }
    if is_wrong_ended_table(bytes[1], bytes[2]) {
        return Some(2);
    }
    None
}

#[tactic(auto, unfolding(crate::specs::Faults::first_wrong, crate::specs::Faults::no_fields))]
fn wrong_no(bytes: &[u8]) -> Option<usize>
    requires { 6 ≤ length bytes.now }
    ensures { result ≡ first_wrong (no_fields bytes.now) }
{
    if bytes[1] > 11 {
        return Some(1);
    }
    if is_wrong_no_value(bytes[1], BigEndian::read_u32(&bytes[2..])) {
        return Some(2);
    }
    None
}
