//! The rules of single fields, each with the fields that it depends on, and those of a whole reply.
ghost use Rattle.std.specs.Prelude.{◌≡◌, ◌↔◌, IsTrue};
ghost use Rattle.walk_proto.specs.Rules as rules;
ghost use Rattle.walk_proto.specs.Spelling as spelling;

use crate::messages::{How, Reply};

/// Whether a count of bodies or columns is none that a row can have.
pub(crate) fn is_wrong_width(width: u8) -> bool
    ensures { result ≡ rules.is_wrong_width width }
{
    width == 0 || width > 8
}

/// Only verbs 2 and 3 have a target.
pub(crate) fn is_wrong_target(verb: u8, target: u8) -> bool
    ensures { result ≡ rules.is_wrong_target verb target }
{
    target != 0 && !(verb == 2 || verb == 3)
}

/// Only verb 0 has an order.
pub(crate) fn is_wrong_order(verb: u8, order: u8) -> bool
    ensures { result ≡ rules.is_wrong_order verb order }
{
    order > 2 || (order != 0 && verb != 0)
}

pub(crate) fn is_wrong_order_column(order: u8, column: u8) -> bool
    ensures { result ≡ rules.is_wrong_order_column order column }
{
    column != 0 && order == 0
}

/// Only verb 0 has a limit.
pub(crate) fn is_wrong_limited(verb: u8, limited: u8) -> bool
    ensures { result ≡ rules.is_wrong_limited verb limited }
{
    limited > 1 || (limited != 0 && verb != 0)
}

pub(crate) fn is_wrong_limit(limited: u8, limit: u64) -> bool
    ensures { result ≡ rules.is_wrong_limit limited limit }
{
    limit != 0 && limited == 0
}

/// Verb 0 gives columns, and no other verb does.
pub(crate) fn is_wrong_query_width(verb: u8, width: u8) -> bool
    ensures { result ≡ rules.is_wrong_query_width verb width }
{
    if verb == 0 {
        is_wrong_width(width)
    } else {
        width != 0
    }
}

/// Past the width each column is 0.
pub(crate) fn is_wrong_column(width: u8, place: usize, column: u8) -> bool
    ensures { result ≡ rules.is_wrong_column width place column }
{
    usize::from(width) <= place && column != 0
}

/// Only Conflict and Stale have a table.
pub(crate) fn is_wrong_ended_table(how: u8, table: u8) -> bool
    ensures { result ≡ rules.is_wrong_ended_table how table }
{
    table != 0 && !(how == 3 || how == 5)
}

/// Codes 1 to 7 have no value.
pub(crate) fn is_wrong_no_value(code: u8, value: u32) -> bool
    ensures { result ≡ rules.is_wrong_no_value code value }
{
    value != 0 && (1 <= code && code <= 7)
}

pub(crate) fn how_byte(how: How) -> u8
    ensures { result ≡ spelling.how_byte how }
{
    match how {
        How::Began => 0,
        How::Closed => 1,
        How::Committed => 2,
        How::Conflict => 3,
        How::Installed => 4,
        How::Stale => 5,
    }
}

/// Whether so many bodies are rows of this width, and can be counted in a message.
#[tactic(auto, unfolding(crate::specs::Rules::is_rows))]
fn is_rows(width: u8, count: usize) -> bool
    ensures { result ≡ rules.is_rows width count }
{
    if is_wrong_width(width) {
        return false;
    }
    count.is_multiple_of(usize::from(width)) && count < 1 << 32
}

/// Whether some bytes give the reply. A `Reply` can hold more: rows that aren't whole, a table where
/// none stood against a transaction, a code that says nothing.
#[tactic(auto, unfolding(crate::specs::Rules::is_ended, crate::specs::Rules::is_no))]
pub fn is_reply(reply: &Reply) -> bool
    ensures { IsTrue result ↔ rules.IsReply reply.now }
{
    match reply {
        Reply::Node(_) => true,
        Reply::Placed => true,
        Reply::Rows { width, bodies } => is_rows(*width, bodies.as_slice().len()),
        Reply::Count(_) => true,
        Reply::Ended { how, table, .. } => !is_wrong_ended_table(how_byte(*how), *table),
        Reply::No { code, value } => *code <= 11 && !is_wrong_no_value(*code, *value),
    }
}
