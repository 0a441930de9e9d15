//! Tests of messages as bytes.
ghost use Rattle.std.specs.Prelude.{◌≡◌, IfOk};

use crate::{How, Reply, WireStop, is_reply, read_reply, read_request, write_reply, write_request};
use mope_base::{Body, Items, OutOfMemory};
use std::alloc::Global;
use std::process::Abort;
use std::test::Fail;

fn request_again(alloc: Global, bytes: &[u8]) -> Result<Items<u8>, WireStop>
    ensures { IfOk result (λ again. again ≡ bytes.now) }
{
    let r = read_request(alloc, bytes)?;
    Ok(write_request(alloc, &r)?)
}

fn reply_again(alloc: Global, bytes: &[u8]) -> Result<Items<u8>, WireStop>
    ensures { IfOk result (λ again. again ≡ bytes.now) }
{
    let r = read_reply(alloc, bytes)?;
    Ok(write_reply(alloc, &r)?)
}

// The requests of a session that inserts a row and counts it, and one more of each other form.
#[test]
fn requests_read_and_written_again(rt: HostRuntime) {
    for bytes in [
        &b"\x01"[..],
        &b"\x02\x00\x00"[..],
        &b"\x05\x00\x01\x00\x00\x00\x00\x00\x00\x00\x00\x90\x3d\xf1\xa0\xad\xe0\xb8\x73"[..],
        &b"\x07\x01"[..],
        &b"\x03\x00"[..],
        &b"\x03\x01"[..],
        &b"\x06\x00\x01\x00\x00\x00\x00\x00\x00\x00\x00\x00\x00\x00\x00\x00\x00\x00\x00\x00\x00\x00\x00\x00\x01\x00\x05"[..],
        &b"\x04"[..],
        &b"\x07\x00"[..],
        &b"\x08\x01\x05"[..],
        &b"\x06\x03\x00\x00\x02\x07\x01\xff\xff\xff\xff\xff\xff\xff\xfe\x08\x07\x06\x05\x04\x03\x02\x01\x00\x02\x01\x05\x02\x00"[..],
    ] {
        let again = request_again(rt.alloc(), bytes).expect(&rt, "a request");
        assert_eq!(rt; again.as_slice(), bytes);
    }
}

// The replies of that session, and one more of each other form.
#[test]
fn replies_read_and_written_again(rt: HostRuntime) {
    for bytes in [
        &b"\x0d\x00\x00\x00\x00\x00\x00\x00\x00\x00\x00"[..],
        &b"\x0a"[..],
        &b"\x0c\x00\x00\x00\x00\x00\x00\x00\x01"[..],
        &b"\x0d\x02\x00\x00\x00\x00\x00\x00\x00\x00\x01"[..],
        &b"\x0d\x00\x00\x00\x00\x00\x00\x00\x00\x00\x01"[..],
        &b"\x09\x00\x00\x00\x00\x00\x00\x00\x00\x90\x3d\xf1\xa0\xad\xe0\xb8\x73"[..],
        &b"\x0d\x01\x00\x00\x00\x00\x00\x00\x00\x00\x01"[..],
        &b"\x0b\x02\x00\x00\x00\x02\x00\x00\x00\x00\x00\x00\x00\x01\x00\x00\x00\x00\x00\x00\x00\x02\x00\x00\x00\x00\x00\x00\x00\x03\x00\x00\x00\x00\x00\x00\x00\x04"[..],
        &b"\x0b\x01\x00\x00\x00\x00"[..],
        &b"\x0d\x05\x02\x00\x00\x00\x00\x00\x00\x00\x09"[..],
        &b"\x0e\x08\x00\x00\x00\x0a"[..],
        &b"\x0e\x07\x00\x00\x00\x00"[..],
        &b"\x0e\x00\x00\x00\x00\x03"[..],
    ] {
        let again = reply_again(rt.alloc(), bytes).expect(&rt, "a reply");
        assert_eq!(rt; again.as_slice(), bytes);
    }
}

fn request_fault(alloc: Global, bytes: &[u8]) -> Option<WireStop> {
    read_request(alloc, bytes).err()
}

fn reply_fault(alloc: Global, bytes: &[u8]) -> Option<WireStop> {
    read_reply(alloc, bytes).err()
}

#[test]
fn wire_faults(rt: HostRuntime) {
    for (bytes, want) in [
        (
            &b"\x05\x00\x01\x00\x00\x00\x00\x00\x00\x00"[..],
            WireStop::Short(10),
        ),
        (&b"\x00"[..], WireStop::Kind(0)),
        (&b"\x04\x00"[..], WireStop::Length(1)),
        (&b"\x03\x02"[..], WireStop::Value(1)),
    ] {
        assert_eq!(rt;
            request_fault(rt.alloc(), bytes),
            Some(want),
            "at {bytes:?}"
        );
    }
}

/// The faults of a message of zeros of this kind, one byte too short and one byte too long.
fn faults_of_lengths(alloc: Global, kind: u8, head: usize) -> (Option<WireStop>, Option<WireStop>) {
    let mut bytes = [0; 26];
    bytes[0] = kind;
    let head = head.min(25);
    let short = &bytes[..head.saturating_sub(1)];
    let long = &bytes[..head + 1];
    if kind < 9 {
        (request_fault(alloc, short), request_fault(alloc, long))
    } else {
        (reply_fault(alloc, short), reply_fault(alloc, long))
    }
}

#[test]
fn lengths_of_each_kind(rt: HostRuntime) {
    for (kind, head) in [
        (1u8, 1usize),
        (2, 3),
        (3, 2),
        (4, 1),
        (5, 3),
        (6, 25),
        (7, 2),
        (8, 3),
        (9, 17),
        (10, 1),
        (11, 6),
        (12, 9),
        (13, 11),
        (14, 6),
    ] {
        let (short, long) = faults_of_lengths(rt.alloc(), kind, head);
        assert_eq!(rt;
            short,
            Some(WireStop::Short(head.saturating_sub(1))),
            "kind {kind}"
        );
        assert_eq!(rt; long, Some(WireStop::Length(head)), "kind {kind}");
    }
}

/// The fault of a Query of verb 0 and one column, with these bytes changed.
fn query_fault(alloc: Global, changes: &[(usize, u8)]) -> Option<WireStop> {
    let mut bytes = [0u8; 43];
    bytes[0] = 6;
    bytes[15] = 1;
    for (offset, byte) in changes {
        if let Some(place) = bytes.get_mut(*offset) {
            *place = *byte;
        }
    }
    let conds = usize::from(bytes[24]).min(9);
    request_fault(alloc, &bytes[..25 + 2 * conds])
}

#[test]
fn faults_of_each_query_field(rt: HostRuntime) {
    for (changes, want) in [
        (&[(0usize, 6u8)][..], None),
        (&[(2usize, 5u8)][..], Some(WireStop::Value(2))),
        (&[(2usize, 5u8), (3, 1)][..], Some(WireStop::Value(2))),
        (&[(3usize, 1u8)][..], Some(WireStop::Value(3))),
        (&[(2usize, 2u8), (3, 1), (15, 0)][..], None),
        (&[(4usize, 3u8)][..], Some(WireStop::Value(4))),
        (
            &[(2usize, 1u8), (4, 1), (15, 0)][..],
            Some(WireStop::Value(4)),
        ),
        (&[(5usize, 1u8)][..], Some(WireStop::Value(5))),
        (&[(4usize, 2u8), (5, 1)][..], None),
        (&[(6usize, 2u8)][..], Some(WireStop::Value(6))),
        (
            &[(2usize, 4u8), (6, 1), (15, 0)][..],
            Some(WireStop::Value(6)),
        ),
        (&[(14usize, 1u8)][..], Some(WireStop::Value(7))),
        (&[(6usize, 1u8), (7, 1)][..], None),
        (&[(15usize, 0u8)][..], Some(WireStop::Value(15))),
        (&[(15usize, 9u8)][..], Some(WireStop::Value(15))),
        (&[(2usize, 1u8)][..], Some(WireStop::Value(15))),
        (&[(17usize, 1u8)][..], Some(WireStop::Value(17))),
        (&[(23usize, 1u8)][..], Some(WireStop::Value(23))),
        (&[(15usize, 8u8), (23, 1)][..], None),
        (&[(24usize, 9u8)][..], Some(WireStop::Value(24))),
        (&[(24usize, 1u8), (26, 6)][..], Some(WireStop::Value(26))),
        (
            &[(24usize, 2u8), (26, 5), (28, 6)][..],
            Some(WireStop::Value(28)),
        ),
    ] {
        assert_eq!(rt; query_fault(rt.alloc(), changes), want, "at {changes:?}");
    }
}

#[test]
fn faults_of_other_request_fields(rt: HostRuntime) {
    for (bytes, want) in [
        (&b""[..], WireStop::Short(0)),
        (&b"\x09"[..], WireStop::Kind(0)),
        (&b"\x03\x02"[..], WireStop::Value(1)),
        (&b"\x07\x02"[..], WireStop::Value(1)),
        (&b"\x05\x00\x00"[..], WireStop::Value(2)),
    ] {
        assert_eq!(rt;
            request_fault(rt.alloc(), bytes),
            Some(want),
            "at {bytes:?}"
        );
    }
    let mut nine_bodies = [0; 147];
    nine_bodies[0] = 5;
    nine_bodies[2] = 9;
    let fault = request_fault(rt.alloc(), &nine_bodies);
    assert_eq!(rt; fault, Some(WireStop::Value(2)));
}

#[test]
fn faults_of_each_reply_field(rt: HostRuntime) {
    for (bytes, want) in [
        (&b""[..], WireStop::Short(0)),
        (&b"\x08"[..], WireStop::Kind(0)),
        (&b"\x0f"[..], WireStop::Kind(0)),
        (&b"\x0b\x00\x00\x00\x00\x00"[..], WireStop::Value(1)),
        (&b"\x0b\x09\x00\x00\x00\x00"[..], WireStop::Value(1)),
        (
            &b"\x0b\x02\x00\x00\x00\x01\x00\x00\x00\x00\x00\x00\x00\x00\x00\x00\x00\x00\x00\x00\x00\x00"[..],
            WireStop::Value(2),
        ),
        (
            &b"\x0d\x06\x00\x00\x00\x00\x00\x00\x00\x00\x00"[..],
            WireStop::Value(1),
        ),
        (
            &b"\x0d\x00\x01\x00\x00\x00\x00\x00\x00\x00\x00"[..],
            WireStop::Value(2),
        ),
        (
            &b"\x0d\x04\x01\x00\x00\x00\x00\x00\x00\x00\x00"[..],
            WireStop::Value(2),
        ),
        (&b"\x0e\x0c\x00\x00\x00\x00"[..], WireStop::Value(1)),
        (&b"\x0e\x01\x00\x00\x00\x01"[..], WireStop::Value(2)),
        (&b"\x0e\x07\x01\x00\x00\x00"[..], WireStop::Value(2)),
    ] {
        assert_eq!(rt; reply_fault(rt.alloc(), bytes), Some(want), "at {bytes:?}");
    }
}

fn rows(alloc: Global, width: u8, count: usize) -> Result<Reply, OutOfMemory> {
    let body = Body {
        nonce: 7,
        masked: u64::MAX,
    };
    let bodies = Items::from_vec(vec![in alloc; body; count]?);
    Ok(Reply::Rows { width, bodies })
}

fn ended(how: How, table: u8) -> Reply {
    Reply::Ended {
        how,
        table,
        number: u64::MAX,
    }
}

// Replies that a program can make, and whether some bytes give them.
#[test]
fn replies_that_some_bytes_give(rt: HostRuntime) {
    let node = Body {
        nonce: u64::MAX,
        masked: 0,
    };
    for (reply, given) in [
        (Reply::Node(node), true),
        (Reply::Placed, true),
        (Reply::Count(u64::MAX), true),
        (ended(How::Began, 0), true),
        (ended(How::Closed, 1), false),
        (ended(How::Committed, 1), false),
        (ended(How::Conflict, 15), true),
        (ended(How::Installed, 1), false),
        (ended(How::Stale, 255), true),
        (Reply::No { code: 0, value: 3 }, true),
        (Reply::No { code: 1, value: 1 }, false),
        (Reply::No { code: 7, value: 0 }, true),
        (Reply::No { code: 7, value: 9 }, false),
        (Reply::No { code: 8, value: 9 }, true),
        (
            Reply::No {
                code: 11,
                value: u32::MAX,
            },
            true,
        ),
        (Reply::No { code: 12, value: 0 }, false),
    ] {
        assert_eq!(rt; is_reply(&reply), given, "at {reply:?}");
    }
    for (width, count, given) in [
        (0, 0, false),
        (1, 0, true),
        (1, 5, true),
        (3, 6, true),
        (3, 7, false),
        (8, 8, true),
        (9, 9, false),
    ] {
        let reply = rows(rt.alloc(), width, count).expect(&rt, "memory");
        assert_eq!(rt; is_reply(&reply), given, "at {width} and {count}");
    }
}
