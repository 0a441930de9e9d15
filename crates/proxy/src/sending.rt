//! Requests as a client makes them.

ghost use Rattle.std.specs.Prelude.{◌≡◌, ◌≤◌, ◌<◌, ◌+◌, ◌^◌, map, length, IfOk};
ghost use Rattle.value_cipher.specs.Cipher.{sealed};
ghost use Rattle.proxy.specs.Client.{cells_from, step_for};
ghost use Rattle.proxy.specs.Standing.{setting_by};
ghost use Rattle.proxy.specs.Tasks as tasks;

use crate::doing::Stop;
use crate::pads::Pads;
use mope_base::{Body, ColNo, Items, OutOfMemory, SessionNo, TableNo};
use path_code::Side;
use sql_text::Test;
use std::alloc::Global;
use value_cipher::nonce_of;
use walk_proto::{Asked, Request};
use workload::{Ask, Verb};

/// The values of a row, sealed under the nonces after those of `count` other values.
pub(crate) fn sealed_row(
    alloc: Global,
    pads: &mut Pads,
    first: u64,
    session: SessionNo,
    count: u32,
    values: &[u64],
) -> Result<Items<Body>, OutOfMemory>
    requires first { first ≤ 2 ^ 63 }
    requires session_from { 1 ≤ session.0 }
    requires session_to { session.0 ≤ 64 }
    requires room { count + length values.now < 2 ^ 32 }
    ensures bodies { IfOk result (λ bodies.
        bodies ≡ map (sealed pads.old) (cells_from (setting_by pads.old first session) count values.now)) }
    ensures stays { pads.new ≡ pads.old }
{
    let mut bodies = Vec::new(alloc);
    'values: for i in 0..values.len() {
        let nonce = nonce_of(first, session.0, count + i as u32);
        bodies.push(pads.seal(nonce, values[i]))?;
    }
    Ok(Items::from_vec(bodies))
}

/// The step of a walk for a constant, from where the walk stands.
#[tactic(auto, unfolding(crate::specs::Client::step_for, crate::specs::Client::step_by))]
pub(crate) fn walk_step(constant: u64, stop: Option<Stop>, table: TableNo, column: ColNo) -> Request
    ensures { result ≡ step_for constant stop table column }
{
    match stop {
        None => Request::WalkStart { table, column },
        Some(stop) => {
            if constant == stop.value {
                Request::Found
            } else if constant < stop.value {
                Request::Go { side: Side::Left }
            } else {
                Request::Go { side: Side::Right }
            }
        }
    }
}

#[tactic(auto, unfolding(crate::specs::Tasks::verb_byte))]
fn verb_byte(verb: &Verb) -> u8
    ensures { result ≡ tasks.verb_byte verb.now }
{
    match verb {
        Verb::Rows {
            columns: _,
            order: _,
            limit: _,
        } => 0,
        Verb::Count => 1,
        Verb::Min(_) => 2,
        Verb::Max(_) => 3,
        Verb::Delete => 4,
    }
}

#[tactic(auto, unfolding(crate::specs::Tasks::target_byte))]
fn target_byte(verb: &Verb) -> u8
    ensures { result ≡ tasks.target_byte verb.now }
{
    match verb {
        Verb::Rows {
            columns: _,
            order: _,
            limit: _,
        } => 0,
        Verb::Count => 0,
        Verb::Min(column) => column.0,
        Verb::Max(column) => column.0,
        Verb::Delete => 0,
    }
}

#[tactic(auto, unfolding(crate::specs::Tasks::order_in))]
fn order_in(verb: &Verb) -> Option<(ColNo, bool)>
    ensures { result ≡ tasks.order_in verb.now }
{
    match verb {
        Verb::Rows {
            columns: _,
            order,
            limit: _,
        } => *order,
        Verb::Count => None,
        Verb::Min(_) => None,
        Verb::Max(_) => None,
        Verb::Delete => None,
    }
}

#[tactic(auto, unfolding(crate::specs::Tasks::order_byte, crate::specs::Tasks::order_column_byte, crate::specs::Tasks::direction_byte))]
fn order_bytes(order: Option<(ColNo, bool)>) -> (u8, u8)
    ensures { result ≡ (tasks.order_byte order, tasks.order_column_byte order) }
{
    match order {
        None => (0, 0),
        Some((column, false)) => (1, column.0),
        Some((column, true)) => (2, column.0),
    }
}

#[tactic(auto, unfolding(crate::specs::Tasks::limit_in))]
fn limit_in(verb: &Verb) -> Option<u64>
    ensures { result ≡ tasks.limit_in verb.now }
{
    match verb {
        Verb::Rows {
            columns: _,
            order: _,
            limit,
        } => *limit,
        Verb::Count => None,
        Verb::Min(_) => None,
        Verb::Max(_) => None,
        Verb::Delete => None,
    }
}

fn column_list(alloc: Global, columns: &[ColNo]) -> Result<Items<u8>, OutOfMemory>
    ensures { IfOk result (λ bytes. bytes ≡ map (λ column. column.0) columns.now) }
{
    Ok(Items::from_vec(columns.iter().map(|column| column.0).collect(alloc)?))
}

#[tactic(auto, unfolding(crate::specs::Tasks::column_bytes))]
fn column_bytes(alloc: Global, verb: &Verb) -> Result<Items<u8>, OutOfMemory>
    ensures { IfOk result (λ bytes. bytes ≡ tasks.column_bytes verb.now) }
{
    match verb {
        Verb::Rows {
            columns,
            order: _,
            limit: _,
        } => column_list(alloc, columns.as_slice()),
        Verb::Count => Ok(Items::new(alloc)),
        Verb::Min(_) => Ok(Items::new(alloc)),
        Verb::Max(_) => Ok(Items::new(alloc)),
        Verb::Delete => Ok(Items::new(alloc)),
    }
}

#[tactic(auto, unfolding(crate::specs::Tasks::test_byte))]
fn test_byte(test: Test) -> u8
    ensures { result ≡ tasks.test_byte test }
{
    match test {
        Test::Eq(_) => 0,
        Test::Lt(_) => 1,
        Test::Le(_) => 2,
        Test::Gt(_) => 3,
        Test::Ge(_) => 4,
        Test::Between(_, _) => 5,
    }
}

fn cond_list(alloc: Global, tests: &[(ColNo, Test)]) -> Result<Items<(u8, u8)>, OutOfMemory>
    ensures { IfOk result (λ conds. conds ≡ map tasks.cond_bytes tests.now) }
{
    let mut conds = Vec::new(alloc);
    'tests: for i in 0..tests.len() {
        let (column, test) = tests[i];
        conds.push((column.0, test_byte(test)))?;
    }
    Ok(Items::from_vec(conds))
}

/// A statement without its constants.
#[tactic(auto, unfolding(crate::specs::Tasks::asked_of))]
pub(crate) fn asked(alloc: Global, ask: &Ask) -> Result<Asked, OutOfMemory>
    ensures { IfOk result (λ asked. asked ≡ tasks.asked_of ask.now) }
{
    let (order, order_column) = order_bytes(order_in(&ask.verb));
    let columns = column_bytes(alloc, &ask.verb)?;
    let conds = cond_list(alloc, ask.tests.as_slice())?;
    Ok(Asked {
        table: ask.table,
        verb: verb_byte(&ask.verb),
        target: target_byte(&ask.verb),
        order,
        order_column,
        limit: limit_in(&ask.verb),
        columns,
        conds,
    })
}
