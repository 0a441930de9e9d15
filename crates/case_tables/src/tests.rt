//! Tests of tables of kinds and of fields, with ample memory.
use crate::{Cut, Field, Kind, check_kinds, cut_within, put_fields, take_fields};
use std::alloc::{AllocError, Global};
use std::process::Abort;
use std::test::Fail;

const PLAIN: Kind = Kind {
    number: 3,
    head: 2,
    count: 0,
    unit: 0,
};

const SHORT_LIST: Kind = Kind {
    number: 5,
    head: 3,
    count: 1,
    unit: 16,
};

const LONG_LIST: Kind = Kind {
    number: 11,
    head: 6,
    count: 4,
    unit: 2,
};

#[test]
fn rows_that_no_message_can_have(rt: HostRuntime) {
    for (row, fits) in [
        (PLAIN, true),
        (Kind { head: 1, ..PLAIN }, true),
        (Kind { head: 0, ..PLAIN }, false),
        (Kind { unit: 1, ..PLAIN }, false),
        (SHORT_LIST, true),
        (
            Kind {
                head: 1,
                ..SHORT_LIST
            },
            false,
        ),
        (
            Kind {
                unit: 0,
                ..SHORT_LIST
            },
            false,
        ),
        (
            Kind {
                count: 2,
                ..SHORT_LIST
            },
            false,
        ),
        (
            Kind {
                head: 5,
                ..LONG_LIST
            },
            true,
        ),
        (
            Kind {
                head: 4,
                ..LONG_LIST
            },
            false,
        ),
    ] {
        assert_eq!(rt; check_kinds([row]).is_some(), fits, "at {row:?}");
    }
    assert!(rt; check_kinds([PLAIN, LONG_LIST, PLAIN]).is_none());
}

#[test]
fn first_faults_of_bytes(rt: HostRuntime) {
    let kinds = check_kinds([PLAIN, SHORT_LIST, LONG_LIST]).expect(&rt, "these rows make a table");
    assert_eq!(rt; kinds.kind_of(5), Some(SHORT_LIST));
    assert_eq!(rt; kinds.kind_of(4), None);
    for (bytes, want) in [
        (&b""[..], Err(Cut::Short(0))),
        (&b"\x04"[..], Err(Cut::Kind(0))),
        (&b"\x03"[..], Err(Cut::Short(1))),
        (&b"\x03\x07"[..], Ok(PLAIN)),
        (&b"\x03\x07\x00"[..], Err(Cut::Length(2))),
        (
            &b"\x05\x00\x01\x00\x00\x00\x00\x00\x00\x00"[..],
            Err(Cut::Short(10)),
        ),
        (
            &b"\x0b\x00\x00\x00\x00\x02\x01\x02\x03"[..],
            Err(Cut::Short(9)),
        ),
        (
            &b"\x0b\x00\x00\x00\x00\x02\x01\x02\x03\x04"[..],
            Ok(LONG_LIST),
        ),
        (
            &b"\x0b\x00\x00\x00\x00\x02\x01\x02\x03\x04\x05\x06"[..],
            Err(Cut::Length(10)),
        ),
    ] {
        assert_eq!(rt; kinds.check(bytes), want, "at {bytes:?}");
    }
}

#[test]
fn first_faults_by_one_row(rt: HostRuntime) {
    for (bytes, want) in [
        (&b"\x05\x00"[..], Err(Cut::Short(2))),
        (&b"\x05\x00\x01\x00"[..], Err(Cut::Short(4))),
        (&b"\x05\x00\x00"[..], Ok(SHORT_LIST)),
        (&b"\x05\x00\x00\x00"[..], Err(Cut::Length(3))),
    ] {
        assert_eq!(rt; cut_within(&SHORT_LIST, bytes), want, "at {bytes:?}");
    }
}

fn three_fields(out: &mut Vec<u8>, number: u8, low: u32, high: u64) -> Result<(), AllocError> {
    put_fields!(out; number, low, high);
    Ok(())
}

#[test]
fn fields_in_order(rt: HostRuntime) {
    let mut out = Vec::new(rt.alloc());
    let done = three_fields(&mut out, 7, 0x0102_0304, 0x0506_0708_090a_0b0c);
    assert!(rt; done.is_ok());
    let bytes = out.as_slice();
    assert_eq!(rt;
        bytes,
        &b"\x07\x01\x02\x03\x04\x05\x06\x07\x08\x09\x0a\x0b\x0c"[..]
    );
    assert!(rt; bytes.len() == 13);
    take_fields!(bytes; number: u8, low: u32, high: u64);
    assert_eq!(rt;
        (number, low, high),
        (7, 0x0102_0304, 0x0506_0708_090a_0b0c)
    );
    assert!(rt; bytes.is_empty());
}
