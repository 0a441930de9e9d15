//! Lists of wrong words.
use super::*;
use crate::tests::ordered;
use mope_base::OutOfMemory;
use std::alloc::Global;

/// Lists that order nothing, in the form of the right ones. Two spaces, and one at an end, have an empty word beside them.
static WRONG: [&str; 177] = [
    // no words, or no command
    "",
    "--key LOWER",
    "--key=LOWER",
    "--",
    "--key LOWER --",
    // no key
    "replay",
    "-- replay",
    "replay --",
    "replay LOWER",
    "replay --key",
    "--key replay",
    "replay --key --",
    // a key of another form
    "replay --key=",
    "replay --key ",
    "replay --key FEW",
    "replay --key=FEW",
    "replay --key MANY",
    "replay --key=MANY",
    "replay --key WRONG_DIGIT",
    "replay --key=WRONG_DIGIT",
    "replay --key 0",
    "replay --key -1",
    "replay --key=-1",
    "replay --key==LOWER",
    // the key isn't where it belongs
    "replay --key  LOWER",
    "replay --key -- LOWER",
    "--key -- LOWER replay",
    "--key replay LOWER",
    "replay --key --key=LOWER",
    "replay --key --view LOWER",
    "replay --key - LOWER",
    // after `--` no word is an option
    "replay -- --key LOWER",
    "replay -- --key=LOWER",
    "-- replay --key LOWER",
    "-- replay --key=LOWER",
    "-- --key=LOWER replay",
    "--key LOWER -- --",
    "--key LOWER -- replay --",
    "replay --key LOWER -- --",
    // an option twice
    "replay --key LOWER --key LOWER",
    "replay --key=LOWER --key=LOWER",
    "replay --key LOWER --key=LOWER",
    "replay --key=LOWER --key LOWER",
    "--key LOWER replay --key LOWER",
    "replay --key LOWER --view --view",
    // more words than the command
    "replay replay --key LOWER",
    "replay --key LOWER replay",
    "replay run --key LOWER",
    "--key LOWER -- replay replay",
    "replay --key LOWER -- replay",
    "replay --key LOWER ",
    "replay  --key LOWER",
    "replay --key LOWER LOWER",
    "replay key LOWER",
    // another command
    " --key LOWER",
    "- --key LOWER",
    "play --key LOWER",
    "Replay --key LOWER",
    "REPLAY --key LOWER",
    "replay= --key LOWER",
    "--replay --key LOWER",
    "help",
    "help replay",
    "run --key LOWER",
    "twin",
    // other names of options
    "replay --keys LOWER",
    "replay --ke LOWER",
    "replay --Key LOWER",
    "replay -k LOWER",
    "replay -key LOWER",
    "replay --=LOWER",
    "replay --key LOWER -",
    "replay --key LOWER -v",
    "replay --key LOWER --help",
    "replay --key LOWER -h",
    "replay --key LOWER --version",
    "--help",
    "-V",
    // options of other commands
    "replay --key LOWER --turns 1",
    "replay --key LOWER --turns=",
    "replay --key LOWER --number 5",
    "replay --key LOWER --sessions 4",
    "replay --key LOWER --transactions 50",
    "replay --key LOWER --text",
    // a flag with a value
    "replay --key LOWER --view=1",
    // no key beside other options
    "replay --view",
    "replay --first-nonce 7",
    "replay --mode same-time",
    "replay --schedule round",
    "replay --turns 1",
    // no first nonce
    "replay --key LOWER --first-nonce",
    "replay --key LOWER --first-nonce=",
    "replay --key LOWER --first-nonce ",
    "replay --key LOWER --first-nonce 9223372036854775809",
    "replay --key LOWER --first-nonce=18446744073709551616",
    "replay --key LOWER --first-nonce 00",
    "replay --key LOWER --first-nonce 07",
    "replay --key LOWER --first-nonce +7",
    "replay --key LOWER --first-nonce -7",
    "replay --key LOWER --first-nonce=-7",
    "replay --key LOWER --first-nonce 7 --first-nonce 7",
    // no mode
    "replay --key LOWER --mode",
    "replay --key LOWER --mode=",
    "replay --key LOWER --mode fast",
    "replay --key LOWER --mode Ordinary",
    "replay --key LOWER --mode same_time",
    "replay --key LOWER --mode same-time --mode same-time",
    // no schedule
    "replay --key LOWER --schedule",
    "replay --key LOWER --schedule=",
    "replay --key LOWER --schedule ",
    "replay --key LOWER --schedule Round",
    "replay --key LOWER --schedule round,1",
    "replay --key LOWER --schedule 1,round",
    "replay --key LOWER --schedule 0",
    "replay --key LOWER --schedule 65",
    "replay --key LOWER --schedule 01",
    "replay --key LOWER --schedule +1",
    "replay --key LOWER --schedule=1,",
    "replay --key LOWER --schedule=,1",
    "replay --key LOWER --schedule 1,,2",
    "replay --key LOWER --schedule round --schedule round",
    // no list of turns
    "plain --turns",
    "plain --turns=",
    "plain --turns ",
    "plain --turns 0",
    "plain --turns 65",
    "plain --turns 01",
    "plain --turns +1",
    "plain --turns=-1",
    "plain --turns 1,",
    "plain --turns ,1",
    "plain --turns 1,,2",
    "plain --turns 1;2",
    "plain --turns=1, 2",
    "plain --turns 1,0x2",
    "plain --turns 1,18446744073709551617",
    "plain --turns round",
    "plain 1",
    // what `plain` doesn't take
    "plain --turns 1 --turns 1",
    "plain --key LOWER",
    "plain --first-nonce 0",
    "plain --mode ordinary",
    "plain --schedule 1",
    "plain --schedule=round",
    "plain --number 5",
    "plain --sessions 4",
    "plain --transactions 50",
    "plain --view",
    "plain --text",
    // no number
    "generate",
    "generate --text",
    "generate --text --number",
    "generate --text --number=",
    "generate --text --number 05",
    "generate --text --number +5",
    "generate --text --number=-5",
    "generate --text --number 18446744073709551616",
    "generate --text --number 5 --number 5",
    // another number of sessions or of transactions
    "generate --number 5 --text --sessions 0",
    "generate --number 5 --text --sessions 65",
    "generate --number 5 --text --sessions 04",
    "generate --number 5 --text --sessions=",
    "generate --number 5 --text --transactions 0",
    "generate --number 5 --text --transactions 1001",
    "generate --number 5 --text --transactions=+50",
    "generate --number 5 --text --transactions 65537",
    // another mode, or a flag with a value
    "generate --number 5 --text --mode=",
    "generate --number 5 --text --mode Ordinary",
    "generate --number 5 --text --mode same_time",
    "generate --number 5 --text=1",
    "generate --number 5 --text --text",
    // what `generate` doesn't take
    "generate --number 5 --text --key LOWER",
    "generate --number 5 --text --first-nonce 0",
    "generate --number 5 --text --schedule 1",
    "generate --number 5 --text --turns 1",
    "generate --number 5 --text --view",
    "generate --number 7 --view",
];

/// The first of these lists that orders something.
fn first_right<'a>(alloc: Global, lines: &[&'a str]) -> Result<Option<&'a str>, OutOfMemory> {
    for line in lines {
        if ordered(alloc, line)?.is_some() {
            return Ok(Some(line));
        }
    }
    Ok(None)
}

#[test]
fn wrong_words(rt: HostRuntime) {
    let right = first_right(rt.alloc(), &WRONG).expect(&rt, "memory for the words");
    assert!(rt; right.is_none(), "at {right:?}");
}
