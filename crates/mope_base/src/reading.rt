//! The reading of a whole input.
ghost use Rattle.std.specs.Prelude.{◌≡◌, ℕ, ◌+◌, ◌-◌, ◌<◌, ◌≤◌, ◌++◌, IfOk, IfErr, IfSome, MatchResult, length, take, vec_len};
ghost use Rattle.std.specs.Io.KnownBytes.{ReadConsumes};
ghost use Rattle.mope_base.specs.Faults.{HasCause};
ghost use Rattle.mope_base.specs.ReadAll.{TakesAll, StopsFor, AnswersLength, AddsPiece, CountsFaults};

use crate::{Failed, Items, Source};
use std::alloc::{AllocError, Global};

/// Why a whole input could not be read.
#[derive(Clone, Copy, Debug, PartialEq, Eq)]
pub enum ReadStop {
    /// A read failed.
    Failed,
    /// The input has more bytes than were allowed.
    TooLong,
    /// Memory did not suffice.
    OutOfMemory,
}

/// How many bytes are asked for at once.
const CHUNK: usize = 65_536;

/// Reads `input` to its end, at most `most` bytes. Where it has more, `most + 1` are taken.
pub fn read_all<S: Source>(alloc: Global, input: &mut S, most: usize) -> Result<Items<u8>, ReadStop>
    ensures all { IfOk result (TakesAll (S.left input.old) (S.left input.new) most) }
    ensures stopped { IfErr result (StopsFor (S.left input.old) (S.left input.new)
        (S.faults input.old) (S.faults input.new) most) }
    ensures later { S.faults input.old ≤ S.faults input.new }
    ensures counted { CountsFaults (S.faults input.old) (S.faults input.new) result }
    ensures complete { IfSome (S.left input.old) (λ left.
        AnswersLength (S.faults input.old) (S.faults input.new) most left result) }
{
    let mut chunk = match zeros(alloc, CHUNK) {
        Ok(chunk) => chunk,
        Err(_) => return Err(ReadStop::OutOfMemory),
    };
    let mut bytes = Vec::new(alloc);
    'pieces: loop {
        match read_more(input, &mut chunk, most, &mut bytes) {
            Ok(0) => return Ok(Items::from_vec(bytes)),
            Ok(_) => {}
            Err(stop) => return Err(stop),
        }
    }
}

/// Reads a piece of `input` and adds it to `bytes`, unless they become more than `most`. It
/// answers how many bytes it added, 0 at the end of the input.
fn read_more<S: Source>(
    input: &mut S,
    chunk: &mut [u8],
    most: usize,
    bytes: &mut Vec<u8>,
) -> Result<usize, ReadStop>
    requires chunk { 0 < length chunk.old }
    requires within { vec_len bytes.old ≤ most }
    ensures ok { IfOk result (AddsPiece (S.left input.old) (S.left input.new)
        bytes.old.items bytes.new.items most) }
    ensures err { IfErr result (StopsFor (S.left input.old) (S.left input.new)
        (S.faults input.old) (S.faults input.new) (most - length bytes.old.items)) }
    ensures later { S.faults input.old ≤ S.faults input.new }
    ensures counted { CountsFaults (S.faults input.old) (S.faults input.new) result }
{
    let spare = most - bytes.len();
    let want = spare.min(chunk.len() - 1) + 1;
    let count = match read_front(input, chunk, want) {
        Ok(count) => count,
        Err(_) => return Err(ReadStop::Failed),
    };
    if count > spare {
        return Err(ReadStop::TooLong);
    }
    match bytes.extend_from_slice(&chunk[..count]) {
        Ok(()) => Ok(count),
        Err(_) => Err(ReadStop::OutOfMemory),
    }
}

/// Reads at most `want` bytes to the front of `chunk`.
fn read_front<S: Source>(input: &mut S, chunk: &mut [u8], want: usize) -> Result<usize, Failed>
    requires some { 0 < want }
    requires fits { want ≤ length chunk.old }
    ensures bound { IfOk result (λ n. n ≤ want) }
    ensures bytes { ReadConsumes (S.left input.old) (S.left input.new) result chunk.new }
    ensures cause { HasCause (S.faults input.old) (S.faults input.new) result }
{
    input.read(&mut chunk[..want])
}

/// A buffer of `count` zeros.
fn zeros(alloc: Global, count: usize) -> Result<Vec<u8>, AllocError>
    ensures { IfOk result (λ v. vec_len v ≡ count) }
{
    vec![in alloc; 0; count]
}
