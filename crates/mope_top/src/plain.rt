//! The command `plain`: what plain tables answer to a workload.
ghost use Rattle.std.specs.Prelude.{◌≡◌, IfOk, IfErr};
ghost use Rattle.workload.specs.Report.{plain_report};
ghost use Rattle.workload.specs.Validity.{IsValid};
ghost use Rattle.mope_top.specs.Batch.{IsPlainlyJudged};
ghost use Rattle.mope_top.specs.FaultText.{fault_text};

use crate::batch::Verdict;
use crate::refusals::fault_line;
use mope_base::{Items, OutOfMemory, SessionNo, Status};
use plain_db::run_turns;
use report::report_text;
use std::alloc::Global;
use workload::Workload;
use workload_file::{FileReason, FileStop, read_workload};

/// Judges a whole input of at most `MAX_BYTES` bytes, and runs it on plain tables under these turns.
pub(crate) fn judge_plainly(
    alloc: Global,
    turns: &[SessionNo],
    bytes: &[u8],
) -> Result<Verdict, Status>
    ensures text { IfOk result (λ verdict. IsPlainlyJudged turns.now bytes.now verdict.status verdict.text.items) }
    ensures stopped { IfErr result (λ status. status ≡ Status.Memory) }
{
    match read_workload(alloc, bytes) {
        Ok(w) => told(alloc, &w, turns),
        Err(FileStop::Bad { line, reason }) => refused(alloc, line, reason),
        Err(FileStop::OutOfMemory) => Err(Status::Memory),
    }
}

/// The plain report of a workload under these turns, as the whole text of the status `Done`.
fn told(alloc: Global, w: &Workload, turns: &[SessionNo]) -> Result<Verdict, Status>
    requires { IsValid w.now }
    ensures ok { IfOk result (λ verdict. (verdict.status ≡ Status.Done) × (verdict.text.items ≡ plain_report w.now turns.now)) }
    ensures err { IfErr result (λ status. status ≡ Status.Memory) }
{
    match plain_text(alloc, w, turns) {
        Ok(text) => Ok(Verdict {
            status: Status::Done,
            text: text.into_vec(),
        }),
        Err(OutOfMemory) => Err(Status::Memory),
    }
}

fn plain_text(alloc: Global, w: &Workload, turns: &[SessionNo]) -> Result<Items<u8>, OutOfMemory>
    requires { IsValid w.now }
    ensures { IfOk result (λ text. text ≡ plain_report w.now turns.now) }
{
    let (taken, txns) = run_turns(alloc, w, turns)?;
    let text = report_text(alloc, w, taken.as_slice(), txns.as_slice(), None)?;
    Ok(text)
}

/// The refusal of a file by its first line that has a fault, and the first reason.
pub(crate) fn refused(alloc: Global, line: u64, reason: FileReason) -> Result<Verdict, Status>
    ensures ok { IfOk result (λ verdict. (verdict.status ≡ Status.Input) × (verdict.text.items ≡ fault_text line reason)) }
    ensures err { IfErr result (λ status. status ≡ Status.Memory) }
{
    match fault_line(alloc, line, reason) {
        Ok(text) => Ok(Verdict {
            status: Status::Input,
            text,
        }),
        Err(OutOfMemory) => Err(Status::Memory),
    }
}
