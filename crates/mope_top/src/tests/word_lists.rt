//! Lists of words, and the status that each gives.
use super::{Device, FIRST_RUN, call};
use mope_base::{OutOfMemory, Status};
use server_conn::NoWatch;
use std::alloc::Global;

const DIGITS: &str = "0000000000000000000000000000000000000000000000000000000000000000";

const DIGITS_63: &str = "000000000000000000000000000000000000000000000000000000000000000";

/// 64 digits, of which some are capital letters.
const CAPITALS: &str = "ABCDEF0000000000000000000000000000000000000000000000000000000000";

/// Lists that order something. `K`, `U` and `FEW` stand for digits of a key.
static DONE: [&str; 34] = [
    "replay --key K",
    "replay --key U",
    "--key K replay",
    "replay --key=K",
    "--key=K -- replay",
    "replay --key K --",
    "replay --key K --view",
    "replay --view --key K --mode ordinary",
    "--mode=same-time replay --key K",
    "replay --key K --schedule round",
    "replay --schedule=1,64,1 --key K",
    "replay --key K --first-nonce 0",
    "replay --first-nonce=9223372036854775808 --key K",
    "plain",
    "plain --",
    "-- plain",
    "plain --turns 1",
    "plain --turns=1",
    "--turns 1 plain",
    "plain --turns 64",
    "plain --turns 1,2,64",
    "--turns=2,1 -- plain",
    "plain --turns 1,1,1 --",
    "generate --number 0 --text --sessions 1",
    "generate --text --number 0 --transactions 1",
    "--text generate --number=0 --transactions 2",
    "generate --number=18446744073709551615 --text --sessions 1",
    "generate --number 5 --text --sessions 64 --transactions 1",
    "generate --number 5 --text --transactions 1000 --sessions 1",
    "generate --number 5 --text --transactions 2 --mode ordinary",
    "generate --number 5 --text --transactions 2 --mode=same-time",
    "--number 5 --text --transactions=3 -- generate",
    "generate --number 3 --sessions 2 --transactions 3",
    "generate --transactions 2 --number=4 --mode same-time",
];

/// Lists that order nothing. The first has no words.
static USAGE: [&str; 65] = [
    "",
    "frob",
    "help",
    "--help",
    "-h",
    "--version",
    "--",
    "replay",
    "replay --key",
    "replay --key=",
    "replay --key FEW",
    "replay --key K --key K",
    "replay --key K extra",
    "replay -- --key K",
    "replay --key K --view --view",
    "replay --key K --mode same_time",
    "replay --key K --schedule rounds",
    "replay --key K --first-nonce 9223372036854775809",
    "replay --key K --first-nonce 00",
    "replay --key K --schedule=",
    "replay --key K --schedule 1,65",
    "replay --key K --view=yes",
    "replay --key K --text",
    "replay --key K --turns 1",
    "run --key K",
    "twin",
    "plain plain",
    "Plain",
    "plain --turns",
    "plain --turns=",
    "plain --turns 0",
    "plain --turns 65",
    "plain --turns 01",
    "plain --turns +1",
    "plain --turns=-1",
    "plain --turns 1,,2",
    "plain --turns 1,",
    "plain --turns=,1",
    "plain --turns 1 --turns 2",
    "plain --turn 1",
    "plain -- --turns 1",
    "plain --key K",
    "plain --schedule 1",
    "plain --view",
    "plain --text",
    "plain --mode ordinary",
    "plain --number 0",
    "generate",
    "generate --text",
    "generate --number 0 --view",
    "generate --number 0 --text=yes",
    "generate --number= --text",
    "generate --number 00 --text",
    "generate --number +1 --text",
    "generate --number 18446744073709551616 --text",
    "generate --number 0 --text --text",
    "generate --number 0 --text --sessions 0",
    "generate --number 0 --text --sessions 65",
    "generate --number 0 --text --transactions 0",
    "generate --number 0 --text --transactions 1001",
    "generate --number 0 --text --mode neither",
    "generate --number 0 --text --key K",
    "generate --number 0 --text --view",
    "generate --number 0 --text --turns 1",
    "generate --number 0 --text extra",
];

/// A line of words with the digits in the places of the names.
fn with_digits(alloc: Global, line: &str) -> Result<String, OutOfMemory> {
    let mut text = String::new(alloc);
    for word in line.split(' ') {
        if !text.is_empty() {
            text.push_str(" ")?;
        }
        match word {
            "K" => text.push_str(DIGITS)?,
            "U" => text.push_str(CAPITALS)?,
            "FEW" => text.push_str(DIGITS_63)?,
            "--key=K" => {
                text.push_str("--key=")?;
                text.push_str(DIGITS)?;
            }
            other => text.push_str(other)?,
        }
    }
    Ok(text)
}

/// The status that a line of words gives, on an input that every command takes.
fn status_of(alloc: Global, line: &str) -> Result<Status, OutOfMemory> {
    let words = with_digits(alloc, line)?;
    let (status, _written) = call(
        alloc,
        &words,
        FIRST_RUN,
        Device::SOUND,
        Device::SOUND,
        &mut NoWatch,
    )?;
    Ok(status)
}

#[test]
fn right_words(rt: HostRuntime) {
    for line in DONE {
        let status = status_of(rt.alloc(), line).expect(&rt, "memory for the words");
        assert_eq!(rt; status, Status::Done, "at {line}");
    }
}

#[test]
fn wrong_words(rt: HostRuntime) {
    for line in USAGE {
        let status = status_of(rt.alloc(), line).expect(&rt, "memory for the words");
        assert_eq!(rt; status, Status::Usage, "at {line}");
    }
}
