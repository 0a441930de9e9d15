//! The command `generate`: the text of a workload that is drawn, or the summary of its run.
ghost use Rattle.std.specs.Prelude.{◌≡◌, IfOk, IfErr, length};
ghost use Rattle.command_words.specs.declared.order.Order.TheVariants.{Generate};
ghost use Rattle.mope_top.specs.Batch.{HasSizes, TellsDrawn};
ghost use Rattle.mope_top.specs.Replays.{SumsUp};
ghost use Rattle.table_model.specs.Operations.{shelf_at};
ghost use Rattle.workload.specs.Validity.{IsValid};
ghost use Rattle.workload_file.specs.GeneratedText.{generated};
ghost use Rattle.workload_file.specs.WorkloadFile.{IsWorkloadFile};

use crate::batch::Verdict;
use crate::replay::parted;
use crate::running::run_by;
use command_words::{Generating, Schedule};
use mope_base::{Items, OutOfMemory, Status, TableNo};
use proxy::Settings;
use report::{history, summary_text};
use server_conn::NoWatch;
use std::alloc::Global;
use txn_core::State;
use value_cipher::Key;
use workload::Workload;
use workload_file::{FileStop, generate, read_workload};

/// The text of a drawn workload or the summary of its run, as the whole text of the status `Done`.
pub(crate) fn drawn_text(alloc: Global, drawing: Generating) -> Result<Verdict, Status>
    requires { HasSizes (Generate drawing) }
    ensures ok { IfOk result (λ verdict. (verdict.status ≡ Status.Done) × TellsDrawn drawing.text drawing verdict.text.items) }
    ensures err { IfErr result (λ status. status ≡ Status.Memory) }
{
    match text_of_drawing(alloc, drawing) {
        Ok(text) => Ok(Verdict {
            status: Status::Done,
            text: text.into_vec(),
        }),
        Err(OutOfMemory) => Err(Status::Memory),
    }
}

/// The text of a drawn workload, or the summary of its run.
fn text_of_drawing(alloc: Global, drawing: Generating) -> Result<Items<u8>, OutOfMemory>
    requires { HasSizes (Generate drawing) }
    ensures { IfOk result (λ text. TellsDrawn drawing.text drawing text) }
{
    let text = generate(
        alloc,
        drawing.number,
        drawing.sessions,
        drawing.transactions,
    )?;
    if drawing.text {
        return Ok(text);
    }
    match read_workload(alloc, text.as_slice()) {
        Ok(w) => summed_up(alloc, drawing, &w),
        Err(FileStop::OutOfMemory) => Err(OutOfMemory),
        Err(FileStop::Bad { line: _, reason: _ }) => unreachable!(),
    }
}

/// The summary of the run of the workload that was drawn.
fn summed_up(alloc: Global, drawing: Generating, w: &Workload) -> Result<Items<u8>, OutOfMemory>
    requires valid { IsValid w.now }
    requires spelled { IsWorkloadFile (generated drawing.number drawing.sessions drawing.transactions) w.now }
    ensures { IfOk result (λ text. SumsUp drawing text) }
{
    let settings = Settings {
        key: Key { bytes: [0; 32] },
        first: 0,
        mode: drawing.mode,
        keep: false,
    };
    let (finished, state) = run_by(alloc, w, settings, &Schedule::Round, &mut NoWatch)?;
    let (txns, _) = parted(alloc, finished)?;
    let sorted = history(txns)?;
    let text = summary_text(
        alloc,
        drawing.number,
        drawing.sessions,
        state.turns().len() as u64,
        sorted.as_slice(),
        rows_in(&state),
    )?;
    Ok(text)
}

/// How many rows the first table has.
fn rows_in(state: &State) -> u64
    ensures { result ≡ length (shelf_at state.now.current.shelves 0).kept }
{
    match state.snapshot().version().table(TableNo(0)) {
        None => 0,
        Some(table) => table.rows() as u64,
    }
}
