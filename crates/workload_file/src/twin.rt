//! The reader of a file of two workloads.
ghost use Rattle.std.specs.Prelude.{◌≡◌, ◌+◌, ◌<◌, ◌≤◌, ◌^◌, length, IfOk, IfErr, IfSome, MatchOption};
ghost use Rattle.workload.specs.Validity.{IsValid};
ghost use Rattle.workload.specs.declared.script.Workload.{Workload as WorkloadValue};
ghost use Rattle.workload_file.specs.FileLines.{lines_of};
ghost use Rattle.workload_file.specs.LineTexts.{IsAllSaid, IsComparison, IsNextSaid, says_nothing};
ghost use Rattle.workload_file.specs.Shapes.{HaveOneShape};
ghost use Rattle.workload_file.specs.Steps.{stage_ended};
ghost use Rattle.workload_file.specs.TwinFile.{AreReadAs, IsFirst, IsFirstStop, IsTwinFile, IsTwinRefusal, SaidLine, Say};

use crate::lines::{Line, first_line, read_line, without_return};
use crate::reader::{Reader, Stage, start};
use crate::reading::{BYTES_MOST, after_line, ended, read_lines};
use crate::shapes::have_one_shape;
use crate::stops::{FileReason, FileStop};
use mope_base::OutOfMemory;
use std::alloc::Global;
use workload::Workload;

/// The two workloads that a file spells, one behind the other, or the first line that has a fault and its first
/// reason.
///
/// Line numbers run on. Where both are workloads, but of two shapes, the line is that of the second at which its shape
/// first differs. The shape is that of the lines: a statement alone and the same between BEGIN and COMMIT are two, and so
/// are `SELECT *` and the same columns listed.
pub fn read_twin(alloc: Global, bytes: &[u8]) -> Result<(Workload, Workload), FileStop>
    ensures read { IfOk result (λ pair. IsTwinFile bytes.now pair) }
    ensures valid { IfOk result (λ pair. IsValid pair.0 × IsValid pair.1) }
    ensures shape { IfOk result (λ pair. HaveOneShape pair.0 pair.1) }
    ensures fault { IfErr result (λ stop. IsTwinRefusal bytes.now stop) }
    ensures complete { (pair : WorkloadValue × WorkloadValue) → IsTwinFile bytes.now pair → AreReadAs pair result }
{
    if bytes.len() > BYTES_MOST {
        let reason = FileReason::InputTooLong;
        return Err(FileStop::Bad { line: 0, reason });
    }
    let (first, rest, number) = match read_first(alloc, bytes) {
        Ok(read) => read,
        Err(stop) => return Err(stop),
    };
    let second = match read_lines(alloc, rest, number) {
        Ok(second) => second,
        Err(stop) => return Err(stop),
    };
    match first_difference(alloc, bytes, rest, number)? {
        Some(line) => {
            let reason = FileReason::ShapesDiffer;
            Err(FileStop::Bad { line, reason })
        }
        None => Ok((first, second)),
    }
}

#[tactic(auto, unfolding(crate::specs::Steps::stage_ended))]
fn has_ended(stage: &Stage) -> bool
    ensures { result ≡ stage_ended stage.now }
{
    matches!(stage, Stage::Ended)
}

/// The first workload, the bytes behind its END, and the number of the line that begins there.
fn read_first(alloc: Global, bytes: &[u8]) -> Result<(Workload, &[u8], u64), FileStop>
    requires { length bytes.now ≤ BYTES_MOST }
    ensures first { IfOk result (λ got. IsFirst (lines_of bytes.now) got.0 (lines_of got.1.now) got.2) }
    ensures counted { IfOk result (λ got. got.2 + length got.1.now ≤ length bytes.now + 1) }
    ensures stop { IfErr result (λ stop. IsFirstStop (lines_of bytes.now) stop) }
{
    let mut reader = start(alloc);
    let mut rest = bytes;
    let mut number: u64 = 1;
    'lines: while !rest.is_empty() {
        let (line, behind) = first_line(rest);
        match after_line(alloc, reader, line)? {
            Ok(next) => reader = next,
            Err(reason) => {
                let line = number;
                return Err(FileStop::Bad { line, reason });
            }
        }
        rest = behind;
        number += 1;
        if has_ended(&reader.stage) {
            let first = ended(reader, number)?;
            return Ok((first, rest, number));
        }
    }
    let line = number;
    let reason = FileReason::NoEnd;
    Err(FileStop::Bad { line, reason })
}

fn is_blank(said: &Line) -> bool
    ensures { result ≡ says_nothing said.now }
{
    matches!(said, Line::Blank)
}

/// The next line that isn't blank, with its number, and the bytes behind it.
fn next_said(
    alloc: Global,
    bytes: &[u8],
    number: u64,
) -> Result<Option<(u64, Line, &[u8])>, OutOfMemory>
    requires { number + length bytes.now ≤ 2 ^ 32 }
    ensures said { IfOk result (λ next. MatchOption next
        (IsAllSaid number (lines_of bytes.now))
        (λ got. IsNextSaid number (lines_of bytes.now) got.0 got.1 (lines_of got.2.now))) }
    ensures counted { IfOk result (λ next. IfSome next (λ got. got.0 + length got.2.now < number + length bytes.now)) }
    ensures shorter { IfOk result (λ next. IfSome next (λ got. length got.2.now < length bytes.now)) }
{
    let mut rest = bytes;
    let mut number = number;
    'blank: while !rest.is_empty() {
        let (line, behind) = first_line(rest);
        let said = read_line(alloc, without_return(line))?;
        if !is_blank(&said) {
            return Ok(Some((number, said, behind)));
        }
        rest = behind;
        number += 1;
    }
    Ok(None)
}

/// The number of the second's line at which its shape first differs from that of the first, or none.
fn first_difference(
    alloc: Global,
    first: &[u8],
    second: &[u8],
    number: u64,
) -> Result<Option<u64>, OutOfMemory>
    requires first_few { length first.now ≤ 2 ^ 31 }
    requires few { number + length second.now ≤ 2 ^ 32 }
    ensures { IfOk result (λ found. IsComparison 1 (lines_of first.now) number (lines_of second.now) found) }
{
    let mut first = first;
    let mut first_number: u64 = 1;
    let mut second = second;
    let mut number = number;
    'lines: loop {
        let Some((line, said, behind)) = next_said(alloc, second, number)? else {
            return Ok(None);
        };
        let Some((other_line, other, other_behind)) = next_said(alloc, first, first_number)? else {
            return Ok(Some(line));
        };
        if !have_one_shape(alloc, other, said)? {
            return Ok(Some(line));
        }
        first = other_behind;
        first_number = other_line + 1;
        second = behind;
        number = line + 1;
    }
}
