//! Tests of the parser.
ghost use Rattle.std.specs.Prelude.{◌≡◌, IfOk, length};

use crate::{Frame, ParseStop, Reason, is_blank_line, parse, print, read_frame};
use mope_base::{Items, OutOfMemory};
use std::alloc::Global;

/// The canonical line of the statement that a line spells.
fn again(alloc: Global, line: &[u8]) -> Result<Items<u8>, ParseStop> {
    let stmt = parse(alloc, line)?;
    Ok(print(alloc, &stmt)?)
}

// Lines, each with the canonical line of its statement.
#[test]
fn lines_with_their_statements(rt: HostRuntime) {
    for (line, canonical) in [
        (&b"begin"[..], &b"BEGIN"[..]),
        (&b"\tCommit ;"[..], &b"COMMIT"[..]),
        (&b"ROLLBACK"[..], &b"ROLLBACK"[..]),
        (&b"rebuild T(a);"[..], &b"REBUILD T (a)"[..]),
        (
            &b"INSERT INTO t VALUES (1, 2)"[..],
            &b"INSERT INTO t VALUES (1, 2)"[..],
        ),
        (
            &b"insert into t values(0,18446744073709551615)"[..],
            &b"INSERT INTO t VALUES (0, 18446744073709551615)"[..],
        ),
        (&b"DELETE FROM t"[..], &b"DELETE FROM t"[..]),
        (
            &b"SELECT COUNT(*) FROM t WHERE a BETWEEN 1 AND 9"[..],
            &b"SELECT COUNT(*) FROM t WHERE a BETWEEN 1 AND 9"[..],
        ),
        (
            &b"select*from a23456789_123456789_123456789_12 order by b asc limit 0;"[..],
            &b"SELECT * FROM a23456789_123456789_123456789_12 ORDER BY b LIMIT 0"[..],
        ),
        (
            &b"SELECT a,b FROM t WHERE a>=1 AND b<2 AND a>3 AND b<=4 AND c=5 AND a=1 AND b=2 AND c<9 ORDER BY a DESC"[..],
            &b"SELECT a, b FROM t WHERE a >= 1 AND b < 2 AND a > 3 AND b <= 4 AND c = 5 AND a = 1 AND b = 2 AND c < 9 ORDER BY a DESC"[..],
        ),
        (
            &b"SELECT Min ( set ) FROM update"[..],
            &b"SELECT MIN(set) FROM update"[..],
        ),
    ] {
        let text = again(rt.alloc(), line).expect(&rt, "a statement");
        assert_eq!(rt; text.as_slice(), canonical);
    }
}

/// The reason why a line is no statement, and where.
fn fault(alloc: Global, line: &[u8]) -> Option<(usize, Reason)> {
    match parse(alloc, line) {
        Err(ParseStop::Bad { at, reason }) => Some((at, reason)),
        _ => None,
    }
}

// Lines whose bytes or tokens are at fault. The fault comes before any of syntax.
#[test]
fn lines_with_token_faults(rt: HostRuntime) {
    for (line, at, reason) in [
        (&b"BEGIN\x0b"[..], 5, Reason::BadByte),
        (&b"COMMIT;\r"[..], 7, Reason::BadByte),
        (&b"SELECT 07 \xc3\xa4"[..], 10, Reason::BadByte),
        (&b"SELECT ?"[..], 7, Reason::BadToken),
        (&b"INSERT INTO t VALUES (07)"[..], 22, Reason::BadToken),
        (&b"SELECT a FROM t LIMIT 5x"[..], 22, Reason::BadToken),
        (
            &b"DELETE FROM a23456789_123456789_123456789_123"[..],
            12,
            Reason::BadToken,
        ),
        (&b"FROM FROM 00"[..], 10, Reason::BadToken),
        (
            &b"SELECT * FROM t LIMIT 18446744073709551616"[..],
            22,
            Reason::TooLarge,
        ),
        (&b"18446744073709551616 ?"[..], 0, Reason::TooLarge),
        (&b"< 99999999999999999999"[..], 2, Reason::TooLarge),
    ] {
        assert_eq!(rt; fault(rt.alloc(), line), Some((at, reason)), "at {line:?}");
    }
}

// Lines whose tokens spell no statement, or one that is too long.
#[test]
fn lines_with_statements_at_fault(rt: HostRuntime) {
    for (line, at, reason) in [
        (&b""[..], 0, Reason::Syntax),
        (&b"BEGIN;;"[..], 6, Reason::Syntax),
        (&b"update t"[..], 0, Reason::Syntax),
        (&b"SELECT FROM t"[..], 7, Reason::Syntax),
        (&b"INSERT INTO t VALUES ()"[..], 22, Reason::Syntax),
        (&b"SELECT * FROM t WHERE a "[..], 24, Reason::Syntax),
        (&b"SELECT COUNT(*) FROM t LIMIT 1"[..], 23, Reason::Syntax),
        (&b"SELECT a,b,c,d,e,f,g,h,i FROM t"[..], 23, Reason::TooMany),
        (
            &b"DELETE FROM t WHERE a=1 AND a=1 AND a=1 AND a=1 AND a=1 AND a=1 AND a=1 AND a=1 AND a=1"[..],
            84,
            Reason::TooMany,
        ),
        (
            &b"SELECT a,b,c,d,e,f,g,h,i,j FROM t WHERE a=1 AND a=1 AND a=1 AND a=1 AND a=1 AND a=1 AND a=1 AND a=1 AND a=1;"[..],
            23,
            Reason::TooMany,
        ),
    ] {
        assert_eq!(rt; fault(rt.alloc(), line), Some((at, reason)), "at {line:?}");
    }
}

fn spaces(alloc: Global, count: usize) -> Result<Vec<u8>, OutOfMemory>
    ensures { IfOk result (λ line. length line.items ≡ count) }
{
    Ok(vec![in alloc; b' '; count]?)
}

// A line of 8 MB is read in a time that grows as its length does.
#[test]
fn line_of_spaces(rt: HostRuntime) {
    let line = spaces(rt.alloc(), 8_388_608).expect(&rt, "memory");
    assert_eq!(rt;
        fault(rt.alloc(), line.as_slice()),
        Some((8_388_608, Reason::Syntax))
    );
}

/// The frame that a line spells, as a text.
fn shown(alloc: Global, line: &[u8]) -> Result<Vec<u8>, OutOfMemory> {
    let mut text = Vec::new(alloc);
    match read_frame(alloc, line)? {
        None => text.extend_from_slice(b"none")?,
        Some(Frame::Header) => text.extend_from_slice(b"header")?,
        Some(Frame::Session) => text.extend_from_slice(b"session")?,
        Some(Frame::End) => text.extend_from_slice(b"end")?,
        Some(Frame::Table { name, columns }) => {
            text.extend_from_slice(b"table ")?;
            text.extend_from_slice(name.bytes.as_slice())?;
            for column in columns.as_slice() {
                text.push(b' ')?;
                text.extend_from_slice(column.bytes.as_slice())?;
            }
        }
    }
    Ok(text)
}

// Lines that frame statements, and others that nearly do.
#[test]
fn lines_with_their_frames(rt: HostRuntime) {
    for (line, frame) in [
        (&b"mope 1"[..], &b"header"[..]),
        (&b" \tMOPE\t1  "[..], &b"header"[..]),
        (&b"Mope 1;"[..], &b"none"[..]),
        (&b"mope 2"[..], &b"none"[..]),
        (&b"mope 01"[..], &b"none"[..]),
        (&b"mope1"[..], &b"none"[..]),
        (&b"mope"[..], &b"none"[..]),
        (&b"mope 1 1"[..], &b"none"[..]),
        (&b"TABLE t (a)"[..], &b"table t a"[..]),
        (&b"table T(a,B_2)"[..], &b"table T a B_2"[..]),
        (&b"TABLE t ( t , t )"[..], &b"table t t t"[..]),
        (
            &b"TABLE t (a, b, c, d, e, f, g, h, i)"[..],
            &b"table t a b c d e f g h i"[..],
        ),
        (
            &b"TABLE a23456789_123456789_123456789_12 (a)"[..],
            &b"table a23456789_123456789_123456789_12 a"[..],
        ),
        (
            &b"TABLE a23456789_123456789_123456789_123 (a)"[..],
            &b"none"[..],
        ),
        (&b"TABLE t"[..], &b"none"[..]),
        (&b"TABLE t a"[..], &b"none"[..]),
        (&b"TABLE t ()"[..], &b"none"[..]),
        (&b"TABLE t (a"[..], &b"none"[..]),
        (&b"TABLE t (a,)"[..], &b"none"[..]),
        (&b"TABLE t (a b)"[..], &b"none"[..]),
        (&b"TABLE t (7)"[..], &b"none"[..]),
        (&b"TABLE t (a);"[..], &b"none"[..]),
        (&b"TABLE t (a) ?"[..], &b"none"[..]),
        (&b"TABLE table (a)"[..], &b"none"[..]),
        (&b"TABLE t (from)"[..], &b"none"[..]),
        (&b"SESSION"[..], &b"session"[..]),
        (&b"\tsesSION "[..], &b"session"[..]),
        (&b"SESSION 1"[..], &b"none"[..]),
        (&b"SESSION;"[..], &b"none"[..]),
        (&b"END"[..], &b"end"[..]),
        (&b"end\t"[..], &b"end"[..]),
        (&b"END END"[..], &b"none"[..]),
        (&b"END\r"[..], &b"none"[..]),
        (&b""[..], &b"none"[..]),
        (&b" \t"[..], &b"none"[..]),
        (&b"COMMIT"[..], &b"none"[..]),
    ] {
        let text = shown(rt.alloc(), line).expect(&rt, "memory");
        assert_eq!(rt; text.as_slice(), frame, "at {line:?}");
    }
}

#[test]
fn blank_lines(rt: HostRuntime) {
    for (line, blank) in [
        (&b""[..], true),
        (&b" \t  "[..], true),
        (&b" ;"[..], false),
        (&b"\r"[..], false),
        (&b"\x0b"[..], false),
        (&b"END"[..], false),
    ] {
        assert_eq!(rt; is_blank_line(line), blank, "at {line:?}");
    }
}
