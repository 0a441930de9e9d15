//! The command `replay` on worked examples, and the summaries of `generate`.
use super::{Device, FIRST_RUN, REPLAY, call, ends, gives};
use mope_base::Status;
use server_conn::{ListWatch, NoWatch};
use std::test::Fail;

const FIRST_REPORT: &str =
    "turns 1,1,1\nsession 1 transaction 1 at 0 committed 1\ninserted 1\nsession 1 transaction 2 at 1 read\ncount 1\nnonce 4294967296\n";

const EMPTY: &str = "mope 1\nEND\n";

/// Options of `replay`, an input, and the whole text that is written.
static TOLD: [(&str, &str, &str); 8] = [
    ("", FIRST_RUN, FIRST_REPORT),
    (" --schedule round", FIRST_RUN, FIRST_REPORT),
    (
        " --schedule 1,64,1 --mode same-time",
        FIRST_RUN,
        FIRST_REPORT,
    ),
    (
        " --first-nonce 9223372036854775808",
        "mope 1\nTABLE t (a)\nSESSION\nSELECT MAX(a) FROM t\nEND\n",
        "turns 1\nsession 1 transaction 1 at 0 read\nmax none\nnonce 9223372041149743104\n",
    ),
    ("", EMPTY, "turns\nnonce 0\n"),
    (
        " --schedule=round --first-nonce=12",
        EMPTY,
        "turns\nnonce 12\n",
    ),
    (" --view", EMPTY, "turns\nnonce 0\nview ordinary\n"),
    (
        " --mode=same-time --view",
        EMPTY,
        "turns\nnonce 0\nview same-time\n",
    ),
];

#[test]
fn options(rt: HostRuntime) -> Result<(), Fail> {
    for (options, input, text) in TOLD {
        let line = format!(in rt.alloc(); "{REPLAY}{options}")?;
        assert!(rt;
            gives(&rt, &line, input, Status::Done, text)?,
            "at {options}"
        );
    }
    Ok(())
}

/// Two sessions, each of which adds a row to the same table.
const RIVALS: &str =
    "mope 1\nTABLE t (a)\nSESSION\nINSERT INTO t VALUES (5)\nSESSION\nINSERT INTO t VALUES (6)\nEND\n";

/// Schedules of the rivals, and the turns that they give.
static SCHEDULES: [(&str, &str); 6] = [
    ("", "1,1,2,2"),
    (" --schedule round", "1,2,1,2"),
    (" --schedule 1,2", "1,2,1,2"),
    (" --schedule 2", "2,1,1,2"),
    (
        " --schedule 2,1,2,2,2,2,2,2,2,2,2,2,2,2,2,2,2,2,2,2,2",
        "2,1,2,1",
    ),
    (
        " --schedule 2,2,2,2,2,2,2,2,2,2,2,2,2,2,2,2,2,2,2,2,2",
        "2,2,1,1",
    ),
];

#[test]
fn schedules(rt: HostRuntime) -> Result<(), Fail> {
    let sound = Device::SOUND;
    for (schedule, turns) in SCHEDULES {
        let plain = format!(in rt.alloc(); "plain --turns {turns}")?;
        let (status, mut text) = call(rt.alloc(), &plain, RIVALS, sound, sound, &mut NoWatch)?;
        text.extend_from_slice(b"nonce 8589934592\n")?;
        let replay = format!(in rt.alloc(); "{REPLAY}{schedule}")?;
        let (ended, told) = call(rt.alloc(), &replay, RIVALS, sound, sound, &mut NoWatch)?;
        assert!(rt;
            status == Status::Done && ended == Status::Done && told.as_slice() == text.as_slice(),
            "at {schedule}"
        );
    }
    Ok(())
}

/// How many times the byte stands among these.
fn count_of(bytes: &[u8], wanted: u8) -> usize {
    let mut count = 0_usize;
    'bytes: for byte in bytes {
        if *byte == wanted {
            count = count.wrapping_add(1);
        }
    }
    count
}

/// Words under which a watch is shown nothing.
static UNWATCHED: [&str; 3] = [
    "plain",
    "generate --number 0 --sessions 1 --transactions 2",
    "frob",
];

#[test]
fn watches(rt: HostRuntime) -> Result<(), Fail> {
    let sound = Device::SOUND;
    let mut watch = ListWatch::new(rt.alloc());
    for line in UNWATCHED {
        call(rt.alloc(), line, FIRST_RUN, sound, sound, &mut watch)?;
        assert!(rt; watch.seen().is_empty(), "at {line}");
    }
    let line = format!(in rt.alloc(); "{REPLAY} --view")?;
    let (status, text) = call(rt.alloc(), &line, FIRST_RUN, sound, sound, &mut watch)?;
    let front = format!(in rt.alloc(); "{FIRST_REPORT}view ordinary\nsession 1\n> ")?;
    assert!(rt; status == Status::Done && text.starts_with(front.as_bytes()));
    assert!(rt; text.ends_with(b"turn 3 session 1 begin 1\n"));
    assert_eq!(rt; watch.seen().len(), count_of(&text, b'>'));
    Ok(())
}

#[test]
fn summaries(rt: HostRuntime) -> Result<(), Fail> {
    let line = "generate --number 0 --sessions 1 --transactions 1";
    let text =
        "generate 0\nsessions 1\ntransactions 1\nturns 2\ncommitted 0\nread 0\nconflict 0\nfull 0\nrolled-back 0\ninstalled 1\nstale 0\nrows 0\n";
    assert!(rt; gives(&rt, line, "x", Status::Done, text)?);
    Ok(())
}

/// How the input and the output behave, and what becomes of a replay.
static FAILING: [(Device, Device, Status, &str); 3] = [
    (
        Device { piece: 4, fails: 2 },
        Device::SOUND,
        Status::ReadFault,
        "",
    ),
    (
        Device::SOUND,
        Device {
            piece: 10,
            fails: 2,
        },
        Status::WriteFault,
        "turns 1,1,",
    ),
    (
        Device { piece: 1, fails: 0 },
        Device { piece: 1, fails: 0 },
        Status::Done,
        FIRST_REPORT,
    ),
];

#[test]
fn failing_devices(rt: HostRuntime) -> Result<(), Fail> {
    for (from, to, status, text) in FAILING {
        assert!(rt;
            ends(&rt, REPLAY, FIRST_RUN, from, to, status, text)?,
            "at {text}"
        );
    }
    Ok(())
}
