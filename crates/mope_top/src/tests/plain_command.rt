//! The command `plain` on worked examples, next to `replay` where both tell the same; and the text of `generate`.
use super::{Device, HEAD, REPLAY, ends, gives};
use mope_base::Status;
use std::fmt::Write;
use std::test::Fail;

/// Lines of one session behind the head, and what `plain` tells of them, as `replay` does but for the nonce.
static TOLD: [(&str, &str); 5] = [
    (
        "SELECT COUNT(*) FROM t\nSELECT MIN(a) FROM t\nEND\n",
        "turns 1,1\nsession 1 transaction 1 at 0 read\ncount 0\nsession 1 transaction 2 at 0 read\nmin none\n",
    ),
    (
        "INSERT INTO t VALUES (7)\nSELECT COUNT(*) FROM t WHERE a BETWEEN 9 AND 5\nEND\n",
        "turns 1,1,1\nsession 1 transaction 1 at 0 committed 1\ninserted 1\nsession 1 transaction 2 at 1 read\ncount 0\n",
    ),
    (
        "INSERT INTO t VALUES (3)\nSELECT * FROM t WHERE a >= 1 LIMIT 0\nEND\n",
        "turns 1,1,1\nsession 1 transaction 1 at 0 committed 1\ninserted 1\nsession 1 transaction 2 at 1 read\nrows 0\n",
    ),
    (
        "BEGIN\nINSERT INTO t VALUES (4)\nSELECT COUNT(*) FROM t\nROLLBACK\nSELECT COUNT(*) FROM t\nEND\n",
        "turns 1,1\nsession 1 transaction 1 at 0 rolled-back\ninserted 1\ncount 1\nsession 1 transaction 2 at 0 read\ncount 0\n",
    ),
    (
        "BEGIN\nINSERT INTO t VALUES (4)\nINSERT INTO t VALUES (6)\nDELETE FROM t WHERE a < 5\nROLLBACK\nINSERT INTO t VALUES (6)\nBEGIN\nDELETE FROM t WHERE a = 6\nINSERT INTO t VALUES (2)\nSELECT * FROM t\nCOMMIT\nSELECT * FROM t\nEND\n",
        "turns 1,1,1,1,1,1\nsession 1 transaction 1 at 0 rolled-back\ninserted 1\ninserted 1\ndeleted 1\nsession 1 transaction 2 at 0 committed 1\ninserted 1\nsession 1 transaction 3 at 1 committed 2\ndeleted 1\ninserted 1\nrows 1\nrow 2\nsession 1 transaction 4 at 2 read\nrows 1\nrow 2\n",
    ),
];

#[test]
fn empty_table_inverted_between_limit_zero_rollback(rt: HostRuntime) -> Result<(), Fail> {
    for (lines, report) in TOLD {
        let input = format!(in rt.alloc(); "{HEAD}{lines}")?;
        let replayed = format!(in rt.alloc(); "{report}nonce 4294967296\n")?;
        assert!(rt;
            gives(&rt, "plain", &input, Status::Done, report)?
                && gives(&rt, REPLAY, &input, Status::Done, &replayed)?,
            "at {lines}"
        );
    }
    Ok(())
}

#[test]
fn empty_workload(rt: HostRuntime) -> Result<(), Fail> {
    assert!(rt; gives(&rt, "plain", "mope 1\nEND\n", Status::Done, "turns\n")?);
    Ok(())
}

#[test]
fn ties_by_row_number(rt: HostRuntime) -> Result<(), Fail> {
    let input =
        "mope 1\nTABLE t (a, b)\nSESSION\nBEGIN\nINSERT INTO t VALUES (3, 1)\nINSERT INTO t VALUES (5, 2)\nINSERT INTO t VALUES (5, 3)\nINSERT INTO t VALUES (5, 4)\nCOMMIT\nSELECT b FROM t ORDER BY a DESC LIMIT 2\nEND\n";
    let report =
        "turns 1,1,1\nsession 1 transaction 1 at 0 committed 1\ninserted 1\ninserted 1\ninserted 1\ninserted 1\nsession 1 transaction 2 at 1 read\nrows 2\nrow 2\nrow 3\n";
    assert!(rt; gives(&rt, "plain", input, Status::Done, report)?);
    Ok(())
}

#[test]
fn plain_turns(rt: HostRuntime) -> Result<(), Fail> {
    let input =
        "mope 1\nTABLE t (a)\nSESSION\nINSERT INTO t VALUES (5)\nSESSION\nINSERT INTO t VALUES (6)\nEND\n";
    let report =
        "turns 1,2,1,2\nsession 2 transaction 1 at 0 conflict t 1\ninserted 1\nsession 1 transaction 1 at 0 committed 1\ninserted 1\n";
    assert!(rt; gives(&rt, "plain --turns 1,2,1,2", input, Status::Done, report)?);
    Ok(())
}

#[test]
fn full_table(rt: HostRuntime) -> Result<(), Fail> {
    let mut input = format!(in rt.alloc(); "{HEAD}BEGIN\n")?;
    let mut report = format!(in rt.alloc(); "turns 1\nsession 1 transaction 1 at 0 full t\n")?;
    for n in 1..65_537_u32 {
        write!(input, "INSERT INTO t VALUES ({n})\n")?;
        report.push_str("inserted 1\n")?;
    }
    input.push_str("INSERT INTO t VALUES (65537)\nCOMMIT\nEND\n")?;
    assert!(rt; gives(&rt, "plain", &input, Status::Done, &report)?);
    Ok(())
}

/// Inputs that `plain` and `replay` refuse, and the lines that say so.
static REFUSED: [(&str, &str); 8] = [
    (
        "mope 1\nTABLE t (a)\nSESSION\nCOMMIT\nEND\n",
        "error line 4: transaction\n",
    ),
    (
        "mope 1\nTABLE t (a)\nSESSION\nSELECT * FROM u\nEND\n",
        "error line 4: unknown table\n",
    ),
    (
        "mope 1\nTABLE t (a)\nSESSION\nINSERT INTO t VALUES (1, 2)\nEND\n",
        "error line 4: wrong width\n",
    ),
    (
        "mope 1\nTABLE t (a)\nSESSION\nINSERT INTO t VALUES (18446744073709551616)\nEND\n",
        "error line 4: number too large\n",
    ),
    ("mope 1\nTABLE t (a)\nSESSION\n", "error line 4: no END\n"),
    ("mope 1\nEND\nx\n", "error line 3: text after END\n"),
    (
        "mope 1\nTABLE t (a)\nSESSION\nBEGIN\nBEGIN\nEND\n",
        "error line 5: transaction\n",
    ),
    ("", "error line 1: no END\n"),
];

#[test]
fn refusals(rt: HostRuntime) -> Result<(), Fail> {
    for (input, line) in REFUSED {
        assert!(rt;
            gives(&rt, "plain", input, Status::Input, line)?
                && gives(&rt, REPLAY, input, Status::Input, line)?,
            "at {line}"
        );
    }
    Ok(())
}

#[test]
fn generate_one(rt: HostRuntime) -> Result<(), Fail> {
    let line = "generate --number 0 --sessions 1 --transactions 1 --text";
    let text = "mope 1\nTABLE g (a, b)\nSESSION\nREBUILD g (a)\nEND\n";
    assert!(rt; gives(&rt, line, "x", Status::Done, text)?);
    Ok(())
}

/// How the input and the output behave, and what becomes of a call of `plain`.
static FAILING: [(Device, Device, Status, &str); 2] = [
    (
        Device { piece: 4, fails: 2 },
        Device::SOUND,
        Status::ReadFault,
        "",
    ),
    (
        Device::SOUND,
        Device {
            piece: 10,
            fails: 2,
        },
        Status::WriteFault,
        "turns 1,1\n",
    ),
];

#[test]
fn failing_devices(rt: HostRuntime) -> Result<(), Fail> {
    let input = "mope 1\nTABLE t (a)\nSESSION\nSELECT COUNT(*) FROM t\nSELECT MIN(a) FROM t\nEND\n";
    for (from, to, status, text) in FAILING {
        assert!(rt;
            ends(&rt, "plain", input, from, to, status, text)?,
            "at {text}"
        );
    }
    Ok(())
}
