//! A link to a server that is a sorted list, which lies from some exchange on.

ghost use Rattle.std.specs.Prelude.{◌≡◌, [], ◌∷◌, ◌++◌, IfOk, OnOk, OnErr};

use super::scripts::KEY;
use super::server::SortedList;
use crate::Exchange;
use crate::opening::copied;
use mope_base::{Items, OutOfMemory};
use std::alloc::Global;
use value_cipher::seal;
use walk_proto::{Asked, How, Link, Reply, Request};

/// A reply other than rows.
#[derive(Clone, Copy)]
pub(super) enum Plain {
    Node,
    Placed,
    Count(u64),
    Ended(How, u8),
    No(u8, u32),
}

/// A reply with a node's value 7, and with the version 1.
pub(super) fn reply_of(plain: Plain) -> Reply {
    match plain {
        Plain::Node => Reply::Node(seal(&KEY, 9, 7)),
        Plain::Placed => Reply::Placed,
        Plain::Count(number) => Reply::Count(number),
        Plain::Ended(how, table) => Reply::Ended {
            how,
            table,
            number: 1,
        },
        Plain::No(code, value) => Reply::No { code, value },
    }
}

fn copied_asked(alloc: Global, asked: &Asked) -> Result<Asked, OutOfMemory>
    ensures { IfOk result (λ copy. copy ≡ asked.now) }
{
    let columns = Items::from_vec(asked.columns.as_slice().to_vec(alloc)?);
    let conds = Items::from_vec(asked.conds.as_slice().to_vec(alloc)?);
    Ok(Asked {
        table: asked.table,
        verb: asked.verb,
        target: asked.target,
        order: asked.order,
        order_column: asked.order_column,
        limit: asked.limit,
        columns,
        conds,
    })
}

fn copied_request(alloc: Global, request: &Request) -> Result<Request, OutOfMemory>
    ensures { IfOk result (λ copy. copy ≡ request.now) }
{
    match request {
        Request::Begin => Ok(Request::Begin),
        Request::WalkStart { table, column } => Ok(Request::WalkStart {
            table: *table,
            column: *column,
        }),
        Request::Go { side } => Ok(Request::Go { side: *side }),
        Request::Found => Ok(Request::Found),
        Request::Insert { table, bodies } => {
            let bodies = Items::from_vec(bodies.as_slice().to_vec(alloc)?);
            let table = *table;
            Ok(Request::Insert { table, bodies })
        }
        Request::Query(asked) => Ok(Request::Query(copied_asked(alloc, asked)?)),
        Request::End { commit } => Ok(Request::End { commit: *commit }),
        Request::Rebuild { table, column } => Ok(Request::Rebuild {
            table: *table,
            column: *column,
        }),
    }
}

/// Writes an exchange down, and gives its reply.
fn noted(
    alloc: Global,
    log: &mut Items<Exchange>,
    request: &Request,
    got: &Reply,
) -> Result<(), OutOfMemory>
    ensures ok { OnOk result (log.new ≡ log.old ++ (record { request = request.now; reply = got.now }) ∷ []) }
    ensures err { OnErr result (log.new ≡ log.old) }
{
    let reply = copied(alloc, got)?;
    let request = copied_request(alloc, request)?;
    log.push(Exchange { request, reply })
}

/// A link to a sorted list, which answers so many requests; to all later ones it gives the same lie. It keeps all exchanges.
#[derive(Drop)]
pub(super) struct ToList {
    alloc: Global,
    list: SortedList,
    honest: usize,
    lie: Plain,
    pub(super) log: Items<Exchange>,
}

impl ToList {
    pub(super) fn new(alloc: Global, honest: usize, lie: Plain) -> ToList {
        ToList {
            alloc,
            list: SortedList::new(alloc),
            honest,
            lie,
            log: Items::new(alloc),
        }
    }
}

/// What a list replies to a request, or the lie.
fn replied(
    alloc: Global,
    list: &mut SortedList,
    honest: bool,
    lie: Plain,
    request: &Request,
) -> Result<Reply, OutOfMemory> {
    if honest {
        list.reply_to(alloc, request)
    } else {
        Ok(reply_of(lie))
    }
}

impl Link for ToList {
    ghost exchanges = { λ l. l.log };

    fn exchange(&mut self, request: &Request) -> Result<Reply, OutOfMemory> {
        let honest = self.log.as_slice().len() < self.honest;
        let reply = replied(self.alloc, &mut self.list, honest, self.lie, request)?;
        noted(self.alloc, &mut self.log, request, &reply)?;
        Ok(reply)
    }
}
