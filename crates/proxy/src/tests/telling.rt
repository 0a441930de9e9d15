//! What a script comes to, as text.

use crate::{Exchange, Finished, Want};
use mope_base::OutOfMemory;
use path_code::Side;
use std::alloc::Global;
use walk_proto::{Reply, Request};
use workload::DoneTxn;

/// A line for each transaction: its place, base, end and answers.
fn push_txns(text: &mut String, txns: &[DoneTxn]) -> Result<(), OutOfMemory> {
    'txns: for txn in txns {
        let answers = txn.answers.as_slice();
        writeln!(
            text,
            "{} at {} {:?} {answers:?}",
            txn.place, txn.base, txn.end
        )?;
    }
    Ok(())
}

fn kind(request: &Request) -> &str {
    match request {
        Request::Begin => "begin",
        Request::WalkStart {
            table: _,
            column: _,
        } => " walk",
        Request::Go { side: Side::Left } => " left",
        Request::Go { side: Side::Right } => " right",
        Request::Found => " found",
        Request::Insert {
            table: _,
            bodies: _,
        } => " insert",
        Request::Query(_) => " query",
        Request::End { commit: _ } => " end\n",
        Request::Rebuild {
            table: _,
            column: _,
        } => " rebuild\n",
    }
}

/// The kinds of the requests, a line for each transaction.
fn push_requests(text: &mut String, log: &[Exchange]) -> Result<(), OutOfMemory> {
    'exchanges: for exchange in log {
        text.push_str(kind(&exchange.request))?;
    }
    Ok(())
}

/// The transactions of a script, the requests that the proxy kept, and those that the link kept.
pub(super) fn told(
    alloc: Global,
    done: &Finished,
    log: &[Exchange],
) -> Result<String, OutOfMemory> {
    let mut text = String::new(alloc);
    push_txns(&mut text, done.txns.as_slice())?;
    push_requests(&mut text, done.log.as_slice())?;
    push_requests(&mut text, log)?;
    Ok(text)
}

/// A reply that isn't allowed to what a proxy wants of the server, and the number of the exchange.
pub(super) fn strange(
    alloc: Global,
    want: Want,
    got: &Reply,
    number: usize,
) -> Result<String, OutOfMemory> {
    Ok(format!(in alloc; "{want:?} {got:?} at {number}")?)
}
