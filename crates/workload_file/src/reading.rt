//! The reader of a workload's file.
ghost use Rattle.std.specs.Prelude.{◌≡◌, ◌+◌, ◌≤◌, ◌^◌, length, IfOk, IfErr};
ghost use Rattle.workload.specs.Validity.{IsValid};
ghost use Rattle.workload.specs.declared.script.Workload.{Workload as WorkloadValue};
ghost use Rattle.workload_file.specs.Steps.{start};
ghost use Rattle.workload_file.specs.WorkloadFile.{IsWorkloadFile, IsReadAs, IsRefusal, IsToldBy, Leads, ended_at, NextLine, lines_of};

use crate::lines::{first_line, read_line, without_return};
use crate::reader::{Reader, Stage, start, take};
use crate::stops::{FileReason, FileStop};
use mope_base::OutOfMemory;
use std::alloc::Global;
use workload::Workload;

/// The most bytes of a file.
pub const BYTES_MOST: usize = 67108864;

/// The workload that a file spells, or the first line that has a fault and its first reason.
///
/// The bytes are cut into lines at each line feed, and one carriage return at a line's end is dropped. Blank lines
/// are skipped, and counted. The others are the header, the tables, the sessions with their statements, and END.
pub fn read_workload(alloc: Global, bytes: &[u8]) -> Result<Workload, FileStop>
    ensures read { IfOk result (λ w. IsWorkloadFile bytes.now w) }
    ensures valid { IfOk result (λ w. IsValid w) }
    ensures fault { IfErr result (λ stop. IsRefusal bytes.now stop) }
    ensures complete { (w : WorkloadValue) → IsWorkloadFile bytes.now w → IsReadAs w result }
{
    if bytes.len() > BYTES_MOST {
        let reason = FileReason::InputTooLong;
        return Err(FileStop::Bad { line: 0, reason });
    }
    read_lines(alloc, bytes, 1)
}

/// What one more line makes of what has been read.
pub fn after_line(
    alloc: Global,
    reader: Reader,
    line: &[u8],
) -> Result<Result<Reader, FileReason>, OutOfMemory>
    ensures { IfOk result (λ next. NextLine reader line.now next) }
{
    let said = read_line(alloc, without_return(line))?;
    take(alloc, reader, said)
}

/// The workload that was read, if its last line was END.
#[tactic(auto, unfolding(crate::specs::WorkloadFile::ended_at))]
pub fn ended(reader: Reader, line: u64) -> Result<Workload, FileStop>
    ensures { result ≡ ended_at reader.stage line reader }
{
    let Reader {
        tables,
        sessions,
        stage,
    } = reader;
    let reason = FileReason::NoEnd;
    match stage {
        Stage::Opening => Err(FileStop::Bad { line, reason }),
        Stage::Declaring => Err(FileStop::Bad { line, reason }),
        Stage::Session {
            pieces: _pieces,
            unfinished: _open,
        } => Err(FileStop::Bad { line, reason }),
        Stage::Ended => Ok(Workload {
            tables: tables.into_decls(),
            sessions,
        }),
    }
}

/// The workload that the bytes spell, of which the first line is number `number`.
pub fn read_lines(alloc: Global, bytes: &[u8], number: u64) -> Result<Workload, FileStop>
    requires { number + length bytes.now ≤ 2 ^ 32 }
    ensures { IsToldBy (Leads number start (lines_of bytes.now)) result }
{
    let mut reader = start(alloc);
    let mut rest = bytes;
    let mut number = number;
    'lines: while !rest.is_empty() {
        let (line, behind) = first_line(rest);
        match after_line(alloc, reader, line)? {
            Ok(next) => reader = next,
            Err(reason) => {
                let line = number;
                return Err(FileStop::Bad { line, reason });
            }
        }
        rest = behind;
        number += 1;
    }
    ended(reader, number)
}
