//! Scripts driven over a server that is a sorted list and over one that lies, and the public calls with ample memory.

mod links;
mod scripts;
mod server;
mod telling;

use crate::{Driven, Proxy, Step, Want, drive};
use links::{Plain, ToList, reply_of};
use mope_base::OutOfMemory;
use scripts::{Line, proxy_of};
use sql_text::Test;
use std::alloc::Global;
use std::test::Fail;
use telling::{strange, told};
use walk_proto::{How, Reply};

/// What a script comes to, as text, over a link that lies after so many honest replies.
fn driven(alloc: Global, lines: &[Line], honest: usize, lie: Plain) -> Result<String, OutOfMemory> {
    let mut link = ToList::new(alloc, honest, lie);
    match drive(proxy_of(alloc, lines)?, &mut link)? {
        Driven::Finished(done) => told(alloc, &done, link.log.as_slice()),
        Driven::Strange { want, got } => strange(alloc, want, &got, link.log.as_slice().len()),
    }
}

/// Whether a proxy says that it wanted to begin and got Placed.
fn is_stuck(proxy: &mut Proxy, reply: Option<&Reply>) -> Result<bool, OutOfMemory> {
    match proxy.next(reply)? {
        Step::Strange {
            want: Want::Begin,
            got: Reply::Placed,
        } => Ok(true),
        _ => Ok(false),
    }
}

/// Whether it says so again, whatever reply comes after it and where none does.
fn stays_stuck(proxy: &mut Proxy, replies: &[Plain]) -> Result<bool, OutOfMemory> {
    'replies: for plain in replies {
        if !is_stuck(proxy, Some(&reply_of(*plain)))? {
            return Ok(false);
        }
    }
    is_stuck(proxy, None)
}

/// How many transactions ended and how many exchanges were kept, if a proxy says that its script has ended.
fn ended(proxy: Proxy) -> Result<Option<(usize, usize)>, OutOfMemory> {
    let mut proxy = proxy;
    let step = proxy.next(None)?;
    match step {
        Step::Done => {
            let done = proxy.finish();
            Ok(Some((done.txns.as_slice().len(), done.log.as_slice().len())))
        }
        _ => Ok(None),
    }
}

/// Transactions with a statement of every kind, a REBUILD, and one that is rolled back.
const EVERY_STATEMENT: [Line; 22] = [
    Line::Insert(5),
    Line::Insert(9),
    Line::Insert(5),
    Line::Rows(Test::Ge(5)),
    Line::Commit,
    Line::Count(Test::Between(4, 8)),
    Line::Commit,
    Line::Min(Test::Gt(5)),
    Line::Commit,
    Line::Max(Test::Lt(9)),
    Line::Commit,
    Line::Min(Test::Lt(5)),
    Line::Commit,
    Line::Rebuild,
    Line::Delete(Test::Eq(9)),
    Line::Commit,
    Line::Insert(7),
    Line::Count(Test::Le(9)),
    Line::Rollback,
    Line::Count(Test::Le(9)),
    Line::Commit,
    Line::Rollback,
];

/// What those come to over a table that is empty; and the requests that this takes, where a walk comes to the middle of what
/// is left, as the proxy and the link have kept them.
const TOLD: &str =
    "1 at 0 Committed(1) [Inserted, Inserted, Inserted, Rows { width: 1, values: Items { items: [5, 5, 9] } }]
2 at 1 Read [Count(2)]
3 at 1 Read [Min(Some(9))]
4 at 1 Read [Max(Some(5))]
5 at 1 Read [Min(None)]
6 at 1 Installed(2) []
7 at 2 Committed(3) [Deleted(1)]
8 at 3 RolledBack [Inserted, Count(3)]
9 at 3 Read [Count(2)]
10 at 3 RolledBack []
begin walk insert walk right insert walk left found insert walk found query end
begin walk left left walk right left query end
begin walk found query end
begin walk right found query end
begin walk found query end
begin rebuild
begin walk right found query end
begin walk right insert walk right right query end
begin walk right query end
begin end
begin walk insert walk right insert walk left found insert walk found query end
begin walk left left walk right left query end
begin walk found query end
begin walk right found query end
begin walk found query end
begin rebuild
begin walk right found query end
begin walk right insert walk right right query end
begin walk right query end
begin end
";

#[test]
fn every_statement(rt: HostRuntime) -> Result<(), Fail> {
    let text = driven(rt.alloc(), &EVERY_STATEMENT, 1_000, Plain::Placed)?;
    assert_eq!(rt; text.as_str(), TOLD);
    Ok(())
}

#[test]
fn strange_reply(rt: HostRuntime) -> Result<(), Fail> {
    let text = driven(rt.alloc(), &[Line::Rebuild], 0, Plain::Placed)?;
    assert_eq!(rt; text.as_str(), "Begin Placed at 1");
    Ok(())
}

/// After so many honest replies to an INSERT and a REBUILD, each of these is strange.
const LIES: [(usize, Plain, Want); 23] = [
    (0, Plain::Placed, Want::Begin),
    (0, Plain::Count(1), Want::Begin),
    (0, Plain::Node, Want::Begin),
    (0, Plain::Ended(How::Committed, 0), Want::Begin),
    (0, Plain::Ended(How::Began, 1), Want::Begin),
    (1, Plain::Count(1), Want::Walk),
    (1, Plain::Ended(How::Began, 0), Want::Walk),
    (1, Plain::No(0, 0), Want::Walk),
    (2, Plain::Placed, Want::Act),
    (2, Plain::Count(0), Want::Act),
    (2, Plain::Count(2), Want::Act),
    (2, Plain::No(0, 1), Want::Act),
    (2, Plain::No(8, 0), Want::Act),
    (3, Plain::Placed, Want::End),
    (3, Plain::Ended(How::Began, 0), Want::End),
    (3, Plain::Ended(How::Conflict, 1), Want::End),
    (3, Plain::Ended(How::Installed, 0), Want::End),
    (3, Plain::Ended(How::Stale, 0), Want::End),
    (4, Plain::Placed, Want::Begin),
    (5, Plain::Count(1), Want::Rebuild),
    (5, Plain::Ended(How::Closed, 0), Want::Rebuild),
    (5, Plain::Ended(How::Committed, 0), Want::Rebuild),
    (5, Plain::Ended(How::Stale, 1), Want::Rebuild),
];

/// Whether a lie is strange, after so many honest replies to some lines, to a proxy that wants this.
fn is_strange(
    alloc: Global,
    lines: &[Line],
    honest: usize,
    lie: Plain,
    want: Want,
) -> Result<bool, OutOfMemory> {
    let text = driven(alloc, lines, honest, lie)?;
    let wanted = strange(alloc, want, &reply_of(lie), honest.saturating_add(1))?;
    Ok(text.as_str() == wanted.as_str())
}

#[test]
fn lies_at_each_want(rt: HostRuntime) -> Result<(), Fail> {
    let lines = [Line::Insert(5), Line::Commit, Line::Rebuild];
    'lies: for (honest, lie, want) in LIES {
        let holds = is_strange(rt.alloc(), &lines, honest, lie, want)?;
        assert!(rt; holds, "{want:?} after {honest} replies");
    }
    Ok(())
}

// A walk takes 63 steps down at most: the server lies from its start on, and an item after them is strange.
#[test]
fn walk_without_end(rt: HostRuntime) -> Result<(), Fail> {
    let text = driven(rt.alloc(), &[Line::Insert(5), Line::Commit], 1, Plain::Node)?;
    let wanted = strange(rt.alloc(), Want::Walk, &reply_of(Plain::Node), 2 + 63)?;
    assert_eq!(rt; text.as_str(), wanted.as_str());
    Ok(())
}

/// Whether a proxy is stuck before a reply, after Placed, and after further replies.
fn stuck_at(proxy: Proxy) -> Result<(bool, bool, bool), OutOfMemory> {
    let mut proxy = proxy;
    let before = is_stuck(&mut proxy, None)?;
    let after = is_stuck(&mut proxy, Some(&Reply::Placed))?;
    let later = stays_stuck(&mut proxy, &[Plain::Ended(How::Began, 0), Plain::Count(1)])?;
    Ok((before, after, later))
}

// What is strange once stays so.
#[test]
fn strange_again(rt: HostRuntime) -> Result<(), Fail> {
    let stuck = stuck_at(proxy_of(rt.alloc(), &[Line::Rebuild])?)?;
    assert_eq!(rt; stuck, (false, true, true));
    Ok(())
}

// A script without transactions has ended before the first reply.
#[test]
fn empty_script(rt: HostRuntime) -> Result<(), Fail> {
    let proxy = proxy_of(rt.alloc(), &[])?;
    assert_eq!(rt; ended(proxy)?, Some((0, 0)));
    Ok(())
}
