//! Replies opened as answers, and copied.

ghost use Rattle.std.specs.Prelude.{◌≡◌, map, IfOk};
ghost use Rattle.value_cipher.specs.Cipher.{unseal_of};
ghost use Rattle.proxy.specs.Client as client;

use crate::pads::Pads;
use mope_base::{Body, Items, OutOfMemory, TableNo};
use std::alloc::Global;
use walk_proto::{How, Reply};
use workload::{Answer, End, Verb};

/// The values of bodies.
fn opened_all(alloc: Global, pads: &mut Pads, bodies: &[Body]) -> Result<Items<u64>, OutOfMemory>
    ensures values { IfOk result (λ values. values ≡ map (unseal_of pads.old) bodies.now) }
    ensures stays { pads.new ≡ pads.old }
{
    let mut values = Vec::new(alloc);
    'bodies: for i in 0..bodies.len() {
        values.push(pads.unseal(bodies[i]))?;
    }
    Ok(Items::from_vec(values))
}

/// The value of the first body.
#[tactic(auto, unfolding(crate::specs::Client::first_value))]
fn first_opened(pads: &mut Pads, bodies: &[Body]) -> Option<u64>
    ensures value { result ≡ client.first_value (map (unseal_of pads.old) bodies.now) }
    ensures stays { pads.new ≡ pads.old }
{
    if bodies.is_empty() {
        return None;
    }
    Some(pads.unseal(bodies[0]))
}

#[tactic(auto, unfolding(crate::specs::Client::rows_answer))]
fn rows_answer(
    alloc: Global,
    pads: &mut Pads,
    verb: &Verb,
    width: u8,
    bodies: &[Body],
) -> Result<Option<Answer>, OutOfMemory>
    ensures answer { IfOk result (λ a. a ≡ client.rows_answer pads.old verb.now width bodies.now) }
    ensures stays { pads.new ≡ pads.old }
{
    match verb {
        Verb::Rows {
            columns: _,
            order: _,
            limit: _,
        } => {
            let values = opened_all(alloc, pads, bodies)?;
            Ok(Some(Answer::Rows { width, values }))
        }
        Verb::Count => Ok(None),
        Verb::Min(_) => Ok(Some(Answer::Min(first_opened(pads, bodies)))),
        Verb::Max(_) => Ok(Some(Answer::Max(first_opened(pads, bodies)))),
        Verb::Delete => Ok(None),
    }
}

#[tactic(auto, unfolding(crate::specs::Client::count_answer))]
fn count_answer(verb: &Verb, number: u64) -> Option<Answer>
    ensures { result ≡ client.count_answer verb.now number }
{
    match verb {
        Verb::Rows {
            columns: _,
            order: _,
            limit: _,
        } => None,
        Verb::Count => Some(Answer::Count(number)),
        Verb::Min(_) => None,
        Verb::Max(_) => None,
        Verb::Delete => Some(Answer::Deleted(number)),
    }
}

/// The answer that a reply gives to a verb.
#[tactic(auto, unfolding(crate::specs::Client::answer_in))]
pub(crate) fn answer_in(
    alloc: Global,
    pads: &mut Pads,
    verb: &Verb,
    reply: &Reply,
) -> Result<Option<Answer>, OutOfMemory>
    ensures answer { IfOk result (λ a. a ≡ client.answer_in pads.old verb.now reply.now) }
    ensures stays { pads.new ≡ pads.old }
{
    match reply {
        Reply::Node(_) => Ok(None),
        Reply::Placed => Ok(None),
        Reply::Rows { width, bodies } => rows_answer(alloc, pads, verb, *width, bodies.as_slice()),
        Reply::Count(number) => Ok(count_answer(verb, *number)),
        Reply::Ended {
            how: _,
            table: _,
            number: _,
        } => Ok(None),
        Reply::No { code: _, value: _ } => Ok(None),
    }
}

/// An end without a turn.
#[tactic(auto, unfolding(crate::specs::Client::closed_by))]
pub(crate) fn closed(rollback: bool) -> End
    ensures { result ≡ client.closed_by rollback }
{
    if rollback { End::RolledBack } else { End::Read }
}

/// The end that a server tells.
#[tactic(auto, unfolding(crate::specs::Client::end_told))]
pub(crate) fn end_told(rollback: bool, how: How, table: u8, number: u64) -> End
    ensures { result ≡ client.end_told rollback how table number }
{
    match how {
        How::Began => closed(rollback),
        How::Closed => closed(rollback),
        How::Committed => End::Committed(number),
        How::Conflict => End::Conflict(TableNo(table), number),
        How::Installed => End::Installed(number),
        How::Stale => End::Stale(TableNo(table), number),
    }
}

/// A reply once more.
pub(crate) fn copied(alloc: Global, reply: &Reply) -> Result<Reply, OutOfMemory>
    ensures { IfOk result (λ copy. copy ≡ reply.now) }
{
    match reply {
        Reply::Node(body) => Ok(Reply::Node(*body)),
        Reply::Placed => Ok(Reply::Placed),
        Reply::Rows { width, bodies } => {
            let bodies = Items::from_vec(bodies.as_slice().to_vec(alloc)?);
            let width = *width;
            Ok(Reply::Rows { width, bodies })
        }
        Reply::Count(number) => Ok(Reply::Count(*number)),
        Reply::Ended { how, table, number } => Ok(Reply::Ended {
            how: *how,
            table: *table,
            number: *number,
        }),
        Reply::No { code, value } => Ok(Reply::No {
            code: *code,
            value: *value,
        }),
    }
}
