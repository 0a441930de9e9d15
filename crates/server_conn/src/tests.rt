//! Refusals without a transaction, and what a watch is shown.
use crate::{Conn, ListWatch, Receipt, Served, Watch};
use mope_base::{OutOfMemory, SessionNo};
use walk_proto::{Reply, Request};

// The code and the value of a refusal.
fn refusal_in(served: &Served) -> Option<(u8, u32)> {
    match served {
        Served::Reply(receipt) => refusal_of(receipt.reply()),
        _ => None,
    }
}

fn refusal_of(reply: &Reply) -> Option<(u8, u32)> {
    match reply {
        Reply::No { code, value } => Some((*code, *value)),
        _ => None,
    }
}

// The refusal of a message, if it is refused.
fn refusal(conn: &mut Conn, message: &[u8]) -> Result<Option<(u8, u32)>, OutOfMemory> {
    let served = conn.serve_bytes(message)?;
    Ok(refusal_in(&served))
}

// Whether each of some messages is refused by this code.
fn refuses(conn: &mut Conn, messages: &[&[u8]], code: u8) -> Result<bool, OutOfMemory> {
    'messages: for message in messages {
        if refusal(conn, message)? != Some((code, 0)) {
            return Ok(false);
        }
    }
    Ok(true)
}

// A message of each kind but that of a begin: a walk's start, its steps and its end, a row of one column, COUNT, the two
// ends, and the balancing of a tree.
const OTHERS: &[&[u8]] = &[
    &[2, 0, 0],
    &[3, 0],
    &[3, 1],
    &[4],
    &[5, 0, 1, 0, 0, 0, 0, 0, 0, 0, 4, 0, 0, 0, 0, 0, 0, 0, 6],
    &[
        6, 0, 1, 0, 0, 0, 0, 0, 0, 0, 0, 0, 0, 0, 0, 0, 0, 0, 0, 0, 0, 0, 0, 0, 1, 0, 0,
    ],
    &[7, 0],
    &[7, 1],
    &[8, 0, 0],
];

// Whether a connection without a transaction refuses each of these by the code 1, and a message that ends too early by its
// offset, and has no transaction afterwards.
fn refuses_all(conn: &mut Conn) -> Result<bool, OutOfMemory> {
    let others = refuses(conn, OTHERS, 1)?;
    let short = refusal(conn, &[3])?;
    Ok(others && short == Some((8, 1)) && conn.ending().is_none())
}

// Whether the message of a begin asks for a begin turn.
fn asks_begin(conn: &mut Conn) -> Result<bool, OutOfMemory> {
    match conn.serve_bytes(&[1])? {
        Served::Begin => Ok(true),
        _ => Ok(false),
    }
}

// Whether a connection that waits for its begin turn refuses every message by the code 2.
fn waits_for_begin(conn: &mut Conn) -> Result<bool, OutOfMemory> {
    let others = refuses(conn, OTHERS, 2)?;
    let begin = refusal(conn, &[1])?;
    Ok(others && begin == Some((2, 0)) && conn.ending().is_none())
}

#[test]
fn no_transaction(rt: HostRuntime) -> Result<(), OutOfMemory> {
    let mut conn = Conn::new(rt.alloc());
    assert!(rt; refuses_all(&mut conn)?);
    assert!(rt; refuses_all(&mut conn)?);
    assert!(rt; asks_begin(&mut conn)?);
    assert!(rt; waits_for_begin(&mut conn)?);
    Ok(())
}

// Shows a watch the answer to a message that is answered at once.
fn show(
    watch: &mut ListWatch,
    session: SessionNo,
    conn: &mut Conn,
    message: &[u8],
) -> Result<(), OutOfMemory> {
    match conn.serve_bytes(message)? {
        Served::Reply(receipt) => watch.saw(session, receipt),
        _ => Err(OutOfMemory),
    }
}

// Whether an exchange is that of a session, and has this refusal.
fn is_exchange(shown: &(SessionNo, Receipt), session: SessionNo, code: u8, value: u32) -> bool {
    shown.0 == session && refusal_of(shown.1.reply()) == Some((code, value))
}

// Whether a watch has the two exchanges that it was shown, in order, the first of bytes that spell no request.
fn has_two(watch: &ListWatch) -> bool {
    match watch.seen() {
        [first, second] => {
            is_exchange(first, SessionNo(7), 8, 3)
                && first.1.request().is_none()
                && is_exchange(second, SessionNo(1), 1, 0)
                && matches!(second.1.request(), Some(Request::Found))
        }
        _ => false,
    }
}

#[test]
fn list_watch(rt: HostRuntime) -> Result<(), OutOfMemory> {
    let mut conn = Conn::new(rt.alloc());
    let mut watch = ListWatch::new(rt.alloc());
    assert_eq!(rt; watch.seen().len(), 0);
    show(&mut watch, SessionNo(7), &mut conn, &[5, 0, 1])?;
    assert_eq!(rt; watch.seen().len(), 1);
    show(&mut watch, SessionNo(1), &mut conn, &[4])?;
    assert!(rt; has_two(&watch));
    Ok(())
}
