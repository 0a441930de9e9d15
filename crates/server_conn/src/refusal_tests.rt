//! Messages that are refused, each as if it hadn't been sent.
ghost use Rattle.server_conn.specs.Connections.{begins, idle};
ghost use Rattle.server_conn.specs.Handling.{running};
ghost use Rattle.std.specs.Prelude.{◌≡◌, OnOk};

use crate::{Conn, Served};
use mope_base::{Body, Mode, OutOfMemory};
use std::alloc::Global;
use versions::{Snapshot, Version};
use walk_proto::{How, Reply, Request};

fn how_number(how: How) -> u64 {
    match how {
        How::Began => 0,
        How::Closed => 1,
        How::Committed => 2,
        How::Conflict => 3,
        How::Installed => 4,
        How::Stale => 5,
    }
}

fn push_masked(out: &mut Vec<u64>, bodies: &[Body]) -> Result<(), OutOfMemory> {
    'bodies: for body in bodies {
        out.push(body.masked)?;
    }
    Ok(())
}

// A reply as its kind and its parts.
pub(crate) fn told_reply(alloc: Global, reply: &Reply) -> Result<Vec<u64>, OutOfMemory> {
    let mut out = Vec::new(alloc);
    match reply {
        Reply::Node(body) => {
            out.push(9)?;
            out.push(body.masked)?;
        }
        Reply::Placed => out.push(10)?,
        Reply::Rows { width, bodies } => {
            out.push(11)?;
            out.push(u64::from(*width))?;
            push_masked(&mut out, bodies.as_slice())?;
        }
        Reply::Count(number) => {
            out.push(12)?;
            out.push(*number)?;
        }
        Reply::Ended { how, table, number } => {
            out.push(13)?;
            out.push(how_number(*how))?;
            out.push(u64::from(*table))?;
            out.push(*number)?;
        }
        Reply::No { code, value } => {
            out.push(14)?;
            out.push(u64::from(*code))?;
            out.push(u64::from(*value))?;
        }
    }
    Ok(out)
}

// What comes of a message: its reply, or the kind of the request whose turn is awaited.
fn told(alloc: Global, served: &Served) -> Result<Vec<u64>, OutOfMemory> {
    let mut out = Vec::new(alloc);
    match served {
        Served::Reply(receipt) => return told_reply(alloc, receipt.reply()),
        Served::Begin => out.push(1)?,
        Served::Commit => out.push(7)?,
        Served::Install { table, column } => {
            out.push(8)?;
            out.push(u64::from(table.0))?;
            out.push(u64::from(column.0))?;
        }
    }
    Ok(out)
}

// Sends a message.
pub(crate) fn send(
    alloc: Global,
    conn: &mut Conn,
    message: &[u8],
) -> Result<Vec<u64>, OutOfMemory> {
    let served = conn.serve_bytes(message)?;
    told(alloc, &served)
}

// A version of a table of three columns and one of one column, with room for so many rows in each.
fn first(alloc: Global, limit: u32) -> Result<Snapshot, OutOfMemory> {
    let version = Version::first(alloc, &[3, 1], Mode::Ordinary, limit.min(1_024))?;
    Version::share(alloc, version)
}

// Asks for a begin turn.
#[tactic(auto, unfolding(walk_proto::specs::Rules::IsRequest, crate::specs::Serving::serve, crate::specs::Serving::served_idle, crate::specs::Handling::running))]
fn begins(conn: &mut Conn) -> Result<(), OutOfMemory>
    requires { conn.old ≡ running idle }
    ensures { OnOk result (conn.new.conn ≡ begins) }
{
    conn.serve(Request::Begin)?;
    Ok(())
}

// A connection with a transaction at its begin.
pub(crate) fn begun(alloc: Global, limit: u32) -> Result<Conn, OutOfMemory> {
    let snapshot = first(alloc, limit)?;
    let mut conn = Conn::new(alloc);
    begins(&mut conn)?;
    conn.began(snapshot);
    Ok(conn)
}

// A row of the first table.
const ROW: &[u8] = &[
    5, 0, 3, 0, 0, 0, 0, 0, 0, 0, 1, 0, 0, 0, 0, 0, 0, 0, 7, 0, 0, 0, 0, 0, 0, 0, 2, 0, 0, 0, 0, 0,
    0, 0, 8, 0, 0, 0, 0, 0, 0, 0, 3, 0, 0, 0, 0, 0, 0, 0, 9,
];

// The same without its last body.
const SHORT_ROW: &[u8] = &[
    5, 0, 2, 0, 0, 0, 0, 0, 0, 0, 1, 0, 0, 0, 0, 0, 0, 0, 7, 0, 0, 0, 0, 0, 0, 0, 2, 0, 0, 0, 0, 0,
    0, 0, 8,
];

// A row of the second table.
const ROW_OF_ONE: &[u8] = &[5, 1, 1, 0, 0, 0, 0, 0, 0, 0, 4, 0, 0, 0, 0, 0, 0, 0, 6];

// A row of a third table, which there isn't.
const ROW_OF_NONE: &[u8] = &[5, 2, 1, 0, 0, 0, 0, 0, 0, 0, 4, 0, 0, 0, 0, 0, 0, 0, 6];

// COUNT where the first column is equal to a number.
const COUNT_EQUAL: &[u8] = &[
    6, 0, 1, 0, 0, 0, 0, 0, 0, 0, 0, 0, 0, 0, 0, 0, 0, 0, 0, 0, 0, 0, 0, 0, 1, 0, 0,
];

// The same of the second column.
const COUNT_SECOND: &[u8] = &[
    6, 0, 1, 0, 0, 0, 0, 0, 0, 0, 0, 0, 0, 0, 0, 0, 0, 0, 0, 0, 0, 0, 0, 0, 1, 1, 0,
];

// The same of the fourth column, which there isn't.
const COUNT_FOURTH: &[u8] = &[
    6, 0, 1, 0, 0, 0, 0, 0, 0, 0, 0, 0, 0, 0, 0, 0, 0, 0, 0, 0, 0, 0, 0, 0, 1, 3, 0,
];

// The same of a third table.
const COUNT_OF_NONE: &[u8] = &[
    6, 2, 1, 0, 0, 0, 0, 0, 0, 0, 0, 0, 0, 0, 0, 0, 0, 0, 0, 0, 0, 0, 0, 0, 1, 0, 0,
];

// The greatest of the fourth column.
const MAX_FOURTH: &[u8] = &[
    6, 0, 3, 3, 0, 0, 0, 0, 0, 0, 0, 0, 0, 0, 0, 0, 0, 0, 0, 0, 0, 0, 0, 0, 0,
];

// The first column of all rows, upwards by the fourth.
const BY_FOURTH: &[u8] = &[
    6, 0, 0, 0, 1, 3, 0, 0, 0, 0, 0, 0, 0, 0, 0, 1, 0, 0, 0, 0, 0, 0, 0, 0, 0,
];

// The fourth column of all rows.
const FOURTH: &[u8] = &[
    6, 0, 0, 0, 0, 0, 0, 0, 0, 0, 0, 0, 0, 0, 0, 1, 3, 0, 0, 0, 0, 0, 0, 0, 0,
];

// The least of the third column where the first is BETWEEN two numbers.
const MIN_BETWEEN: &[u8] = &[
    6, 0, 2, 2, 0, 0, 0, 0, 0, 0, 0, 0, 0, 0, 0, 0, 0, 0, 0, 0, 0, 0, 0, 0, 1, 0, 5,
];

// DELETE of all rows.
const DELETE_ALL: &[u8] = &[
    6, 0, 4, 0, 0, 0, 0, 0, 0, 0, 0, 0, 0, 0, 0, 0, 0, 0, 0, 0, 0, 0, 0, 0, 0,
];

// The messages of a transaction and their answers.
const TALK: &[(&[u8], &[u64])] = &[
    (&[2, 0, 0], &[10]),
    (&[2, 0, 1], &[10]),
    (&[2, 0, 2], &[10]),
    (ROW, &[12, 1]),
    (&[2, 0, 0], &[9, 7]),
    (&[4], &[10]),
    (COUNT_EQUAL, &[12, 1]),
    (&[2, 0, 0], &[9, 7]),
    (&[3, 0], &[10]),
    (&[2, 0, 0], &[9, 7]),
    (&[3, 1], &[10]),
    (MIN_BETWEEN, &[11, 1, 9]),
    (DELETE_ALL, &[12, 1]),
    (&[2, 1, 0], &[10]),
    (ROW_OF_ONE, &[12, 1]),
    (&[7, 1], &[7]),
];

// Messages that are refused after so many of the transaction's, and the code and the value of the refusal.
const REFUSED: &[(usize, &[u8], u64, u64)] = &[
    // a transaction goes on
    (0, &[1], 2, 0),
    (5, &[1], 2, 0),
    // a walk is open
    (5, &[2, 0, 0], 3, 0),
    (5, ROW, 3, 0),
    (5, COUNT_EQUAL, 3, 0),
    (5, &[7, 0], 3, 0),
    (5, &[7, 1], 3, 0),
    (5, &[8, 0, 0], 3, 0),
    // no walk is open
    (0, &[3, 0], 4, 0),
    (3, &[3, 1], 4, 0),
    (0, &[4], 4, 0),
    (6, &[4], 4, 0),
    // there is no such table
    (0, &[2, 2, 0], 5, 0),
    (3, ROW_OF_NONE, 5, 0),
    (6, COUNT_OF_NONE, 5, 0),
    (0, &[8, 2, 0], 5, 0),
    // there is no such column
    (0, &[2, 0, 3], 6, 0),
    (0, &[2, 1, 1], 6, 0),
    (6, COUNT_FOURTH, 6, 0),
    (0, MAX_FOURTH, 6, 0),
    (0, BY_FOURTH, 6, 0),
    (0, FOURTH, 6, 0),
    (0, &[8, 0, 3], 6, 0),
    // the places are others
    (0, ROW, 7, 0),
    (2, ROW, 7, 0),
    (3, SHORT_ROW, 7, 0),
    (3, ROW_OF_ONE, 7, 0),
    (6, ROW, 7, 0),
    (0, COUNT_EQUAL, 7, 0),
    (6, COUNT_SECOND, 7, 0),
    (9, MIN_BETWEEN, 7, 0),
    (11, COUNT_EQUAL, 7, 0),
    (6, DELETE_ALL, 7, 0),
    (14, COUNT_EQUAL, 7, 0),
    (14, ROW, 7, 0),
    // a tree is balanced in a transaction of its own
    (1, &[8, 0, 0], 2, 0),
    (4, &[8, 0, 0], 2, 0),
    (7, &[8, 1, 0], 2, 0),
    (12, &[8, 1, 0], 2, 0),
    // the bytes are no message
    (0, &[], 8, 0),
    (5, &[5, 0, 1], 8, 3),
    (5, &[0], 9, 0),
    (0, &[9], 9, 0),
    (5, &[4, 0], 10, 1),
    (5, &[3, 2], 11, 1),
    (13, &[7, 2], 11, 1),
    // a turn is awaited
    (16, &[1], 2, 0),
    (16, &[2, 0, 0], 2, 0),
    (16, &[3, 0], 2, 0),
    (16, &[4], 2, 0),
    (16, ROW, 2, 0),
    (16, COUNT_EQUAL, 2, 0),
    (16, &[7, 0], 2, 0),
    (16, &[7, 1], 2, 0),
    (16, &[8, 0, 0], 2, 0),
    (16, &[0], 9, 0),
];

// Whether a message gets this answer.
pub(crate) fn answers(
    alloc: Global,
    conn: &mut Conn,
    message: &[u8],
    want: &[u64],
) -> Result<bool, OutOfMemory> {
    let got = send(alloc, conn, message)?;
    Ok(got.as_slice() == want)
}

// Whether messages get these answers, one after another.
pub(crate) fn go_so(
    alloc: Global,
    conn: &mut Conn,
    talk: &[(&[u8], &[u64])],
) -> Result<bool, OutOfMemory> {
    'talk: for (message, want) in talk {
        if !answers(alloc, conn, message, want)? {
            return Ok(false);
        }
    }
    Ok(true)
}

// Whether a transaction hands over so many operations, and the tables of so many statements.
pub(crate) fn hands_over(conn: &Conn, ops: usize, statements: usize) -> bool {
    match conn.ending() {
        None => false,
        Some(ending) => ending.ops.len() == ops && ending.touched.len() == statements,
    }
}

// Whether a message after so many messages is refused for this reason, and the transaction goes on as if it hadn't been sent:
// the later messages get the same answers, and it has the three operations of its five statements.
fn is_refused(
    alloc: Global,
    talk: &[(&[u8], &[u64])],
    after: usize,
    message: &[u8],
    refusal: [u64; 2],
) -> Result<bool, OutOfMemory> {
    let mut conn = begun(alloc, 1_024)?;
    let (earlier, later) = talk.split_at(after.min(talk.len()));
    let before = go_so(alloc, &mut conn, earlier)?;
    let refused = answers(alloc, &mut conn, message, &[14, refusal[0], refusal[1]])?;
    let afterwards = go_so(alloc, &mut conn, later)?;
    Ok(before && refused && afterwards && hands_over(&conn, 3, 5))
}

// The first of these messages that isn't refused so, with the number of messages before it.
fn first_other(
    alloc: Global,
    talk: &[(&[u8], &[u64])],
    refused: &'static [(usize, &[u8], u64, u64)],
) -> Result<Option<usize>, OutOfMemory> {
    'refused: for (at, (after, message, code, value)) in refused.iter().enumerate() {
        if !is_refused(alloc, talk, *after, message, [*code, *value])? {
            return Ok(Some(at));
        }
    }
    Ok(None)
}

#[test]
fn refused_as_if_not_sent(rt: HostRuntime) -> Result<(), OutOfMemory> {
    assert_eq!(rt; first_other(rt.alloc(), TALK, REFUSED)?, None);
    Ok(())
}

// The messages of a transaction that meets a full table, and two more.
const FULL: &[(&[u8], &[u64])] = &[
    (&[2, 1, 0], &[10]),
    (ROW_OF_ONE, &[12, 1]),
    (&[2, 1, 0], &[9, 6]),
    (&[3, 1], &[10]),
    (ROW_OF_ONE, &[14, 0, 1]),
    (&[7, 1], &[14, 1, 0]),
    (&[1], &[1]),
];

// Whether a connection has no transaction after these messages, where each table has room for so many rows.
fn ends_so(alloc: Global, talk: &[(&[u8], &[u64])], limit: u32) -> Result<bool, OutOfMemory> {
    let mut conn = begun(alloc, limit)?;
    Ok(go_so(alloc, &mut conn, talk)? && conn.ending().is_none())
}

#[test]
fn full_table(rt: HostRuntime) -> Result<(), OutOfMemory> {
    assert!(rt; ends_so(rt.alloc(), FULL, 1)?);
    Ok(())
}

// Whether the same place is found so often, then no place more, and then the transaction ends.
fn finds_so_often(alloc: Global, count: u32) -> Result<bool, OutOfMemory> {
    let mut conn = begun(alloc, 1_024)?;
    'places: for _place in 0..count {
        if !answers(alloc, &mut conn, &[2, 1, 0], &[10])? {
            return Ok(false);
        }
    }
    let one_more = answers(alloc, &mut conn, &[2, 1, 0], &[14, 7, 0])?;
    let step = answers(alloc, &mut conn, &[3, 0], &[14, 4, 0])?;
    let end = answers(alloc, &mut conn, &[7, 1], &[13, 1, 0, 0])?;
    Ok(one_more && step && end && conn.ending().is_none())
}

#[test]
fn sixteen_places(rt: HostRuntime) -> Result<(), OutOfMemory> {
    assert!(rt; finds_so_often(rt.alloc(), 16)?);
    Ok(())
}
