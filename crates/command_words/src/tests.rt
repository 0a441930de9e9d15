//! Lists of right words.
use super::*;
use mope_base::{Mode, OutOfMemory, SessionNo};
use std::alloc::Global;

/// 64 hexadecimal digits in three spellings, too few digits, too many, and some that are none.
const LOWER: &str = "000102030405060708090a0b0c0d0e0f101112131415161718191a1b1c1d1e1f";

const UPPER: &str = "000102030405060708090A0B0C0D0E0F101112131415161718191A1B1C1D1E1F";

const MIXED: &str = "000102030405060708090a0B0c0D0e0F101112131415161718191A1b1C1d1E1f";

const FEW: &str = "00102030405060708090a0b0c0d0e0f101112131415161718191a1b1c1d1e1f";

const MANY: &str = "0000102030405060708090a0b0c0d0e0f101112131415161718191a1b1c1d1e1f";

const WRONG_DIGIT: &str = "000102030405060708090a0b0c0d0e0f101112131415161718191a1b1c1d1e1g";

/// The same after `--key=`.
const WITH_LOWER: &str = "--key=000102030405060708090a0b0c0d0e0f101112131415161718191a1b1c1d1e1f";

const WITH_UPPER: &str = "--key=000102030405060708090A0B0C0D0E0F101112131415161718191A1B1C1D1E1F";

const WITH_FEW: &str = "--key=00102030405060708090a0b0c0d0e0f101112131415161718191a1b1c1d1e1f";

const WITH_MANY: &str = "--key=0000102030405060708090a0b0c0d0e0f101112131415161718191a1b1c1d1e1f";

const WITH_WRONG_DIGIT: &str =
    "--key=000102030405060708090a0b0c0d0e0f101112131415161718191a1b1c1d1e1g";

/// Lists that order a replay under the key, and nothing else that isn't so without options. Words are parted by one space, and names in capitals stand for the words
/// above.
static RIGHT: [&str; 14] = [
    "replay --key LOWER",
    "replay --key UPPER",
    "replay --key MIXED",
    "--key LOWER replay",
    "--key UPPER replay",
    "replay --key=LOWER",
    "replay --key=UPPER",
    "--key=LOWER replay",
    "--key=UPPER replay",
    "--key LOWER -- replay",
    "--key=LOWER -- replay",
    "replay --key MIXED --",
    "replay --key=LOWER --",
    "--key MIXED replay --",
];

/// The word for which a piece of a line stands.
fn word_for(piece: &str) -> &str {
    match piece {
        "LOWER" => LOWER,
        "UPPER" => UPPER,
        "MIXED" => MIXED,
        "FEW" => FEW,
        "MANY" => MANY,
        "WRONG_DIGIT" => WRONG_DIGIT,
        "--key=LOWER" => WITH_LOWER,
        "--key=UPPER" => WITH_UPPER,
        "--key=FEW" => WITH_FEW,
        "--key=MANY" => WITH_MANY,
        "--key=WRONG_DIGIT" => WITH_WRONG_DIGIT,
        other => other,
    }
}

/// What the words of a line order.
pub(crate) fn ordered(alloc: Global, line: &str) -> Result<Option<Order>, OutOfMemory> {
    let mut words = Vec::new(alloc);
    if !line.is_empty() {
        for piece in line.split(' ') {
            words.push(String::from_str(alloc, word_for(piece))?)?;
        }
    }
    read_order(alloc, &words)
}

/// Lists that order `plain`, with the sessions of the turns.
static PLAIN: [(&str, &[u8]); 9] = [
    ("plain", &[]),
    ("plain --", &[]),
    ("plain --turns 1", &[1]),
    ("plain --turns 1,2,1,2", &[1, 2, 1, 2]),
    ("plain --turns=1,2,1,2", &[1, 2, 1, 2]),
    ("--turns 64,1 plain", &[64, 1]),
    ("--turns=10,9 -- plain", &[10, 9]),
    ("plain --turns 3,3,3 --", &[3, 3, 3]),
    ("plain --turns=63,64", &[63, 64]),
];

/// Lists that order a replay under the key, with the first nonce, the mode, the sessions of the schedule, None for `round`, and
/// whether the view is told.
static REPLAY: [(&str, u64, Mode, Option<&[u8]>, bool); 17] = [
    (
        "replay --key LOWER --first-nonce 0",
        0,
        Mode::Ordinary,
        Some(&[]),
        false,
    ),
    (
        "--first-nonce=7 replay --key=LOWER",
        7,
        Mode::Ordinary,
        Some(&[]),
        false,
    ),
    (
        "replay --key LOWER --first-nonce 9223372036854775808",
        9223372036854775808,
        Mode::Ordinary,
        Some(&[]),
        false,
    ),
    (
        "replay --key LOWER --mode ordinary",
        0,
        Mode::Ordinary,
        Some(&[]),
        false,
    ),
    (
        "replay --key LOWER --mode same-time",
        0,
        Mode::SameTime,
        Some(&[]),
        false,
    ),
    (
        "replay --mode=same-time --key LOWER",
        0,
        Mode::SameTime,
        Some(&[]),
        false,
    ),
    (
        "replay --key LOWER --schedule round",
        0,
        Mode::Ordinary,
        None,
        false,
    ),
    (
        "replay --schedule=round --key LOWER",
        0,
        Mode::Ordinary,
        None,
        false,
    ),
    (
        "replay --key LOWER --schedule 1",
        0,
        Mode::Ordinary,
        Some(&[1]),
        false,
    ),
    (
        "replay --key LOWER --schedule 1,2,1",
        0,
        Mode::Ordinary,
        Some(&[1, 2, 1]),
        false,
    ),
    (
        "--schedule=64,10,9 --key LOWER -- replay",
        0,
        Mode::Ordinary,
        Some(&[64, 10, 9]),
        false,
    ),
    (
        "replay --key LOWER --view",
        0,
        Mode::Ordinary,
        Some(&[]),
        true,
    ),
    (
        "--view replay --key=LOWER --",
        0,
        Mode::Ordinary,
        Some(&[]),
        true,
    ),
    (
        "replay --key LOWER --first-nonce 12 --mode same-time --schedule 2,1 --view",
        12,
        Mode::SameTime,
        Some(&[2, 1]),
        true,
    ),
    (
        "--mode ordinary --view replay --schedule 3,3 --key MIXED --first-nonce 1",
        1,
        Mode::Ordinary,
        Some(&[3, 3]),
        true,
    ),
    (
        "--schedule round --first-nonce 1 replay --mode same-time --key=LOWER",
        1,
        Mode::SameTime,
        None,
        false,
    ),
    (
        "--view --schedule=round --first-nonce=9223372036854775808 --mode=same-time --key=UPPER -- replay",
        9223372036854775808,
        Mode::SameTime,
        None,
        true,
    ),
];

/// Lists that order `generate`, with the number, how many sessions and transactions, the mode, and whether it is a text.
static GENERATE: [(&str, u64, u8, u16, Mode, bool); 12] = [
    ("generate --number 0 --text", 0, 4, 50, Mode::Ordinary, true),
    (
        "generate --text --number 5 --sessions 1",
        5,
        1,
        50,
        Mode::Ordinary,
        true,
    ),
    (
        "generate --text --number 5 --transactions 1",
        5,
        4,
        1,
        Mode::Ordinary,
        true,
    ),
    (
        "generate --number 0 --sessions 1 --transactions 1 --text",
        0,
        1,
        1,
        Mode::Ordinary,
        true,
    ),
    (
        "--number=18446744073709551615 --text generate",
        18446744073709551615,
        4,
        50,
        Mode::Ordinary,
        true,
    ),
    (
        "--text --sessions=64 --transactions=1000 --number=7 -- generate",
        7,
        64,
        1000,
        Mode::Ordinary,
        true,
    ),
    (
        "generate --mode ordinary --number 10 --text",
        10,
        4,
        50,
        Mode::Ordinary,
        true,
    ),
    (
        "generate --text --number 9 --mode=same-time",
        9,
        4,
        50,
        Mode::SameTime,
        true,
    ),
    ("generate --number 5", 5, 4, 50, Mode::Ordinary, false),
    (
        "generate --number 7 --mode same-time",
        7,
        4,
        50,
        Mode::SameTime,
        false,
    ),
    (
        "--mode=ordinary --sessions 64 --number 7 generate --",
        7,
        64,
        50,
        Mode::Ordinary,
        false,
    ),
    (
        "--transactions 1000 generate --sessions=2 --number=7",
        7,
        2,
        1000,
        Mode::Ordinary,
        false,
    ),
];

/// Whether the sessions have these numbers.
fn are_sessions(sessions: &[SessionNo], wanted: &[u8]) -> bool {
    if sessions.len() != wanted.len() {
        return false;
    }
    for i in 0..sessions.len() {
        if sessions[i].0 != wanted[i] {
            return false;
        }
    }
    true
}

/// Whether it is the schedule of these sessions, or `round` for None.
fn is_schedule(schedule: &Schedule, wanted: Option<&[u8]>) -> bool {
    match (schedule, wanted) {
        (Schedule::Round, None) => true,
        (Schedule::Listed(sessions), Some(wanted)) => are_sessions(sessions.as_slice(), wanted),
        _ => false,
    }
}

/// Whether it is a replay under the key of these bytes, with this first nonce, mode, schedule and view.
fn is_replay(
    order: &Option<Order>,
    bytes: &[u8],
    first_nonce: u64,
    mode: Mode,
    schedule: Option<&[u8]>,
    view: bool,
) -> bool {
    let Some(Order::Replay(found)) = order else {
        return false;
    };
    found.key.bytes.as_slice() == bytes
        && found.first_nonce == first_nonce
        && found.mode == mode
        && is_schedule(&found.schedule, schedule)
        && found.view == view
}

/// Whether it is `plain` under these turns.
fn is_plain(order: &Option<Order>, wanted: &[u8]) -> bool {
    match order {
        Some(Order::Plain { turns }) => are_sessions(turns.as_slice(), wanted),
        _ => false,
    }
}

/// Whether it is `generate` of this workload.
fn is_generate(order: &Option<Order>, wanted: Generating) -> bool {
    match order {
        Some(Order::Generate(found)) => *found == wanted,
        _ => false,
    }
}

/// The bytes of the key.
fn key_bytes() -> [u8; 32] {
    let mut bytes = [0; 32];
    for place in 0..32_u8 {
        bytes[usize::from(place)] = place;
    }
    bytes
}

#[test]
fn right_words(rt: HostRuntime) {
    let bytes = key_bytes();
    for line in RIGHT {
        let order = ordered(rt.alloc(), line).expect(&rt, "memory for the words");
        assert!(rt;
            is_replay(&order, &bytes, 0, Mode::Ordinary, Some(&[]), false),
            "at {line}"
        );
    }
}

#[test]
fn words_of_replay(rt: HostRuntime) {
    let bytes = key_bytes();
    for (line, first_nonce, mode, schedule, view) in REPLAY {
        let order = ordered(rt.alloc(), line).expect(&rt, "memory for the words");
        assert!(rt;
            is_replay(&order, &bytes, first_nonce, mode, schedule, view),
            "at {line}"
        );
    }
}

#[test]
fn words_of_plain(rt: HostRuntime) {
    for (line, turns) in PLAIN {
        let order = ordered(rt.alloc(), line).expect(&rt, "memory for the words");
        assert!(rt; is_plain(&order, turns), "at {line}");
    }
}

#[test]
fn words_of_generate(rt: HostRuntime) {
    for (line, number, sessions, transactions, mode, text) in GENERATE {
        let order = ordered(rt.alloc(), line).expect(&rt, "memory for the words");
        let wanted = Generating {
            number,
            sessions,
            transactions,
            mode,
            text,
        };
        assert!(rt; is_generate(&order, wanted), "at {line}");
    }
}
