//! Which replies are allowed.

ghost use Rattle.std.specs.Prelude.{◌≡◌, map};
ghost use Rattle.workload.specs.Run.{names};
ghost use Rattle.workload.specs.Transaction.{table_named};
ghost use Rattle.proxy.specs.Allowed as rules;

use crate::doing::Stop;
use mope_base::TableNo;
use walk_proto::{How, Reply, is_reply};
use workload::{Act, Verb};

/// The most steps down that a walk takes.
const MOST_STEPS: u8 = 63;

/// Whether some bytes give a reply.
#[tactic(auto, unfolding(crate::specs::Allowed::is_spelled))]
pub(crate) fn is_spelled(reply: &Reply) -> bool
    ensures { result ≡ rules.is_spelled reply.now }
{
    is_reply(reply)
}

/// Whether a walk may come to a further item.
#[tactic(auto, unfolding(crate::specs::Allowed::may_lead_on))]
pub(crate) fn may_lead_on(constant: u64, stop: Option<Stop>) -> bool
    ensures { result ≡ rules.may_lead_on constant stop }
{
    match stop {
        None => true,
        Some(stop) => constant != stop.value && stop.steps < MOST_STEPS - 1,
    }
}

#[tactic(auto, unfolding(crate::specs::Allowed::opens_with, crate::specs::Allowed::is_begin))]
pub(crate) fn opens_with(reply: &Reply) -> bool
    ensures { result ≡ rules.opens_with reply.now }
{
    match reply {
        Reply::Ended {
            how: How::Began,
            table: _,
            number: _,
        } => true,
        _ => false,
    }
}

#[tactic(auto, unfolding(crate::specs::Allowed::leads_with))]
pub(crate) fn leads_with(constant: u64, stop: Option<Stop>, reply: &Reply) -> bool
    ensures { result ≡ rules.leads_with constant stop reply.now }
{
    match reply {
        Reply::Node(_) => may_lead_on(constant, stop),
        Reply::Placed => true,
        _ => false,
    }
}

#[tactic(auto, unfolding(crate::specs::Allowed::puts_with))]
pub(crate) fn puts_with(table: TableNo, reply: &Reply) -> bool
    ensures { result ≡ rules.puts_with table reply.now }
{
    match reply {
        Reply::Count(number) => *number == 1,
        Reply::No { code, value } => *code == 0 && *value == u32::from(table.0),
        _ => false,
    }
}

#[tactic(auto, unfolding(crate::specs::Allowed::fits_rows))]
fn fits_rows(verb: &Verb, width: u8, count: usize) -> bool
    ensures { result ≡ rules.fits_rows verb.now width count }
{
    match verb {
        Verb::Rows {
            columns,
            order: _,
            limit: _,
        } => usize::from(width) == columns.as_slice().len(),
        Verb::Count => false,
        Verb::Min(_) => width == 1 && count <= 1,
        Verb::Max(_) => width == 1 && count <= 1,
        Verb::Delete => false,
    }
}

#[tactic(auto, unfolding(crate::specs::Allowed::fits_count))]
fn fits_count(verb: &Verb) -> bool
    ensures { result ≡ rules.fits_count verb.now }
{
    match verb {
        Verb::Rows {
            columns: _,
            order: _,
            limit: _,
        } => false,
        Verb::Count => true,
        Verb::Min(_) => false,
        Verb::Max(_) => false,
        Verb::Delete => true,
    }
}

#[tactic(auto, unfolding(crate::specs::Allowed::answers_with))]
pub(crate) fn answers_with(verb: &Verb, reply: &Reply) -> bool
    ensures { result ≡ rules.answers_with verb.now reply.now }
{
    match reply {
        Reply::Rows { width, bodies } => fits_rows(verb, *width, bodies.as_slice().len()),
        Reply::Count(_) => fits_count(verb),
        _ => false,
    }
}

/// Whether a statement names a table.
fn is_named(acts: &[Act], table: u8) -> bool
    ensures { result ≡ names (map table_named acts.now) table }
{
    'acts: for i in 0..acts.len() {
        if table_of(&acts[i]).0 == table {
            return true;
        }
    }
    false
}

/// The table that a statement names.
#[tactic(auto, unfolding(workload::specs::Transaction::table_named))]
pub(crate) fn table_of(act: &Act) -> TableNo
    ensures { result ≡ table_named act.now }
{
    match act {
        Act::Insert { table, values: _ } => *table,
        Act::Ask(ask) => ask.table,
    }
}

#[tactic(auto, unfolding(crate::specs::Allowed::is_end, crate::specs::Allowed::is_commit_end))]
fn is_end(rollback: bool, acts: &[Act], how: How, table: u8) -> bool
    ensures { result ≡ rules.is_end rollback (map table_named acts.now) how table }
{
    match how {
        How::Began => false,
        How::Closed => true,
        How::Committed => !rollback,
        How::Conflict => !rollback && is_named(acts, table),
        How::Installed => false,
        How::Stale => false,
    }
}

#[tactic(auto, unfolding(crate::specs::Allowed::closes_with))]
pub(crate) fn closes_with(rollback: bool, acts: &[Act], reply: &Reply) -> bool
    ensures { result ≡ rules.closes_with rollback (map table_named acts.now) reply.now }
{
    match reply {
        Reply::Ended {
            how,
            table,
            number: _,
        } => is_end(rollback, acts, *how, *table),
        _ => false,
    }
}

#[tactic(auto, unfolding(crate::specs::Allowed::is_install_end))]
fn is_install_end(table: TableNo, how: How, named: u8) -> bool
    ensures { result ≡ rules.is_install_end table how named }
{
    match how {
        How::Began => false,
        How::Closed => false,
        How::Committed => false,
        How::Conflict => false,
        How::Installed => true,
        How::Stale => named == table.0,
    }
}

#[tactic(auto, unfolding(crate::specs::Allowed::rebuilds_with))]
pub(crate) fn rebuilds_with(table: TableNo, reply: &Reply) -> bool
    ensures { result ≡ rules.rebuilds_with table reply.now }
{
    match reply {
        Reply::Ended {
            how,
            table: named,
            number: _,
        } => is_install_end(table, *how, *named),
        _ => false,
    }
}
