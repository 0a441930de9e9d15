//! Tests of the top call, with ample memory.
ghost use Rattle.std.specs.Prelude.{◌<◌};

use crate::mope_batch;
use mope_base::{Items, MemorySink, MemorySource, OutOfMemory, Status};
use server_conn::{NoWatch, Watch};
use std::alloc::Global;

mod plain_command;
mod replay_command;
mod word_lists;

/// The words of `replay` under the key of 32 zero bytes.
const REPLAY: &str =
    "replay --key 0000000000000000000000000000000000000000000000000000000000000000";

const FIRST_RUN: &str =
    "mope 1\nTABLE t (a)\nSESSION\nINSERT INTO t VALUES (5)\nSELECT COUNT(*) FROM t WHERE a BETWEEN 1 AND 9\nEND\n";

/// One table of one column, and one session so far.
const HEAD: &str = "mope 1\nTABLE t (a)\nSESSION\n";

/// How a stream in memory behaves: how many bytes a call moves at most, and the number of the one call that fails (0 for none).
#[derive(Clone, Copy)]
struct Device {
    piece: usize,
    fails: u64,
}

impl Device {
    const SOUND: Device = Device {
        piece: 4096,
        fails: 0,
    };
}

/// The list of one call.
fn calls(alloc: Global, call: u64) -> Result<Items<u64>, OutOfMemory> {
    let mut calls = Items::new(alloc);
    calls.push(call)?;
    Ok(calls)
}

/// The status of a call with these words, parted by one space, and the bytes that it wrote.
fn call<H: Watch>(
    alloc: Global,
    line: &str,
    input: &str,
    from: Device,
    to: Device,
    watch: &mut H,
) -> Result<(Status, Vec<u8>), OutOfMemory>
    requires from_some { 0 < from.piece }
    requires to_some { 0 < to.piece }
{
    let mut words = Vec::new(alloc);
    if !line.is_empty() {
        for word in line.split(' ') {
            words.push(String::from_str(alloc, word)?)?;
        }
    }
    let bytes = Items::from_vec(input.as_bytes().to_vec(alloc)?);
    let mut source = MemorySource::new(bytes, from.piece, calls(alloc, from.fails)?);
    let mut sink = MemorySink::new(alloc, 1_000_000, to.piece, calls(alloc, to.fails)?)?;
    let status = mope_batch(alloc, &words, &mut source, &mut sink, watch);
    Ok((status, sink.bytes().to_vec(alloc)?))
}

/// Whether a call on these devices ends with this status and has written this text.
fn ends(
    rt: &HostRuntime,
    line: &str,
    input: &str,
    from: Device,
    to: Device,
    status: Status,
    text: &str,
) -> Result<bool, OutOfMemory>
    requires from_some { 0 < from.piece }
    requires to_some { 0 < to.piece }
{
    let (ended, written) = call(rt.alloc(), line, input, from, to, &mut NoWatch)?;
    Ok(ended == status && written.as_slice() == text.as_bytes())
}

/// Whether a call on sound devices ends with this status and has written this text.
fn gives(
    rt: &HostRuntime,
    line: &str,
    input: &str,
    status: Status,
    text: &str,
) -> Result<bool, OutOfMemory> {
    ends(rt, line, input, Device::SOUND, Device::SOUND, status, text)
}
