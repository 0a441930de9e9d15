//! The turns of a transaction's begin and of its end, and what is answered after them.
use crate::refusal_tests::{answers, begun, go_so, hands_over, told_reply};
use crate::{Conn, Receipt, Served};
use mope_base::{ColNo, OutOfMemory, TableNo};
use std::alloc::Global;
use walk_proto::{How, Request};

// Whether an exchange was answered by this end of a transaction.
fn is_ended(
    alloc: Global,
    receipt: &Receipt,
    how: u64,
    table: u64,
    number: u64,
) -> Result<bool, OutOfMemory> {
    let told = told_reply(alloc, receipt.reply())?;
    Ok(told.as_slice() == [13, how, table, number].as_slice())
}

// Asks for the commit of a transaction, and where its turn is awaited, takes it at a number.
fn committed(conn: &mut Conn, number: u64) -> Result<Option<Receipt>, OutOfMemory> {
    match conn.serve(Request::End { commit: true })? {
        Served::Commit => Ok(Some(conn.ended(How::Committed, 0, number))),
        _ => Ok(None),
    }
}

// Asks for a balanced tree, and where its turn is awaited, it comes too late for a change at a number.
fn stale(conn: &mut Conn, number: u64) -> Result<Option<Receipt>, OutOfMemory> {
    let request = Request::Rebuild {
        table: TableNo(1),
        column: ColNo(0),
    };
    match conn.serve(request)? {
        Served::Install { .. } => Ok(Some(conn.ended(How::Stale, 1, number))),
        _ => Ok(None),
    }
}

// The deletion of all rows of the second table, and an insertion into it.
const CHANGES: &[(&[u8], &[u64])] = &[
    (&[2, 1, 0], &[10]),
    (
        &[5, 1, 1, 0, 0, 0, 0, 0, 0, 0, 4, 0, 0, 0, 0, 0, 0, 0, 6],
        &[12, 1],
    ),
    (
        &[
            6, 1, 4, 0, 0, 0, 0, 0, 0, 0, 0, 0, 0, 0, 0, 0, 0, 0, 0, 0, 0, 0, 0, 0, 0,
        ],
        &[12, 1],
    ),
];

// Whether a connection has no transaction, and begins one anew when it is asked to.
fn is_idle(alloc: Global, conn: &mut Conn) -> Result<bool, OutOfMemory> {
    let none = conn.ending().is_none();
    let refused = answers(alloc, conn, &[7, 1], &[14, 1, 0])?;
    let begins = answers(alloc, conn, &[1], &[1])?;
    Ok(none && refused && begins)
}

#[test]
fn commit(rt: HostRuntime) -> Result<(), OutOfMemory> {
    let mut conn = begun(rt.alloc(), 1_024)?;
    assert!(rt; go_so(rt.alloc(), &mut conn, CHANGES)?);
    assert!(rt; hands_over(&conn, 2, 2));
    let Some(receipt) = committed(&mut conn, 5)? else {
        return Err(OutOfMemory);
    };
    assert!(rt; is_ended(rt.alloc(), &receipt, 2, 0, 5)?);
    assert!(rt; matches!(receipt.request(), Some(Request::End { commit: true })));
    assert!(rt; is_idle(rt.alloc(), &mut conn)?);
    Ok(())
}

#[test]
fn rebuild(rt: HostRuntime) -> Result<(), OutOfMemory> {
    let mut conn = begun(rt.alloc(), 1_024)?;
    let Some(receipt) = stale(&mut conn, 3)? else {
        return Err(OutOfMemory);
    };
    assert!(rt; is_ended(rt.alloc(), &receipt, 5, 1, 3)?);
    assert!(rt; matches!(receipt.request(), Some(Request::Rebuild { .. })));
    assert!(rt; is_idle(rt.alloc(), &mut conn)?);
    Ok(())
}

// The message of a balanced tree, which asks for a turn; and messages that are refused while it is awaited.
const REBUILD: &[(&[u8], &[u64])] = &[
    (&[8, 0, 2], &[8, 0, 2]),
    (&[8, 0, 2], &[14, 2, 0]),
    (&[7, 0], &[14, 2, 0]),
    (&[4], &[14, 2, 0]),
    (&[8, 0], &[14, 8, 2]),
];

#[test]
fn waits_for_install(rt: HostRuntime) -> Result<(), OutOfMemory> {
    let mut conn = begun(rt.alloc(), 1_024)?;
    assert!(rt; go_so(rt.alloc(), &mut conn, REBUILD)?);
    assert!(rt; hands_over(&conn, 0, 0));
    Ok(())
}
