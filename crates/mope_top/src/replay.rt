//! The command `replay`: the text of a workload that is run over sealed values.
ghost use Rattle.std.specs.Prelude.{◌≡◌, ◌≤◌, ◌++◌, ◌^◌, ℕ, List, Some, IfOk, IfErr, OnOk, map, flat_map};
ghost use Rattle.command_words.specs.declared.order.Schedule.{Schedule as GivenSchedule};
ghost use Rattle.mope_base.specs.Lists.{Each};
ghost use Rattle.mope_top.specs.Batch.{IsReplayed};
ghost use Rattle.mope_top.specs.Ran.{Ran};
ghost use Rattle.mope_top.specs.Replays.{IsShown, Reports, if_asked, replay_settings};
ghost use Rattle.proxy.specs.declared.outcomes.Finished.{Finished as Done};
ghost use Rattle.report.specs.ViewText.{IsWritable, view_text_of};
ghost use Rattle.report.specs.WholeText.{text_of};
ghost use Rattle.step_core.specs.Cores.{HasReadable};
ghost use Rattle.versions.specs.declared.turn.Turn.{Turn as Took};
ghost use Rattle.workload.specs.History.{history_of};
ghost use Rattle.workload.specs.Report.{next_free_nonce};
ghost use Rattle.workload.specs.Validity.{IsValid};
ghost use Rattle.workload_file.specs.WorkloadFile.{IsWorkloadFile};

use crate::batch::Verdict;
use crate::plain::refused;
use crate::running::run_by;
use command_words::Replaying;
use mope_base::{Items, OutOfMemory, SessionNo, Status};
use proxy::{Finished, Settings, View};
use report::{history, report_text, view_text};
use server_conn::Watch;
use std::alloc::Global;
use versions::Turn;
use walk_proto::Exchange;
use workload::{DoneTxn, Workload};
use workload_file::{FileStop, read_workload};

/// How many nonces each session has for its own.
const NONCES: u64 = 4_294_967_296;

/// Judges a whole input of at most `MAX_BYTES` bytes, and runs it over sealed values.
pub(crate) fn judge_replay<H: Watch>(
    alloc: Global,
    replaying: &Replaying,
    bytes: &[u8],
    watch: &mut H,
) -> Result<Verdict, Status>
    requires { replaying.now.first_nonce ≤ 2 ^ 63 }
    ensures text { IfOk result (λ verdict. IsReplayed replaying.now bytes.now verdict.status verdict.text.items) }
    ensures stopped { IfErr result (λ status. status ≡ Status.Memory) }
    ensures shown { IfOk result (λ verdict. verdict.status ≡ Status.Done → IsShown replaying.now bytes.now (H.tells watch.old) (H.tells watch.new)) }
{
    match read_workload(alloc, bytes) {
        Ok(w) => match replay_text(alloc, replaying, &w, watch) {
            Ok(text) => Ok(Verdict {
                status: Status::Done,
                text,
            }),
            Err(OutOfMemory) => Err(Status::Memory),
        },
        Err(FileStop::Bad { line, reason }) => refused(alloc, line, reason),
        Err(FileStop::OutOfMemory) => Err(Status::Memory),
    }
}

/// The text of the replay of a workload.
fn replay_text<H: Watch>(
    alloc: Global,
    replaying: &Replaying,
    w: &Workload,
    watch: &mut H,
) -> Result<Vec<u8>, OutOfMemory>
    requires valid { IsValid w.now }
    requires first { replaying.now.first_nonce ≤ 2 ^ 63 }
    ensures text { (bytes : List ℕ) → IsWorkloadFile bytes w.now → IfOk result (λ text. Reports replaying.now bytes text.items) }
    ensures shown { (bytes : List ℕ) → IsWorkloadFile bytes w.now → OnOk result (IsShown replaying.now bytes (H.tells watch.old) (H.tells watch.new)) }
{
    let settings = Settings {
        key: replaying.key,
        first: replaying.first_nonce,
        mode: replaying.mode,
        keep: replaying.view,
    };
    let (finished, state) = run_by(alloc, w, settings, &replaying.schedule, watch)?;
    let turns = state.into_turns();
    let (txns, logs) = parted(alloc, finished)?;
    let text = report_of(alloc, w, turns.as_slice(), txns, settings.first)?;
    let view = View {
        mode: replaying.mode,
        logs,
        turns,
    };
    let whole = with_view(alloc, w, text, replaying.view, view)?;
    Ok(whole)
}

/// A text, with a view's text after it where that is asked for.
#[tactic(auto, unfolding(crate::specs::Replays::if_asked))]
fn with_view(
    alloc: Global,
    w: &Workload,
    text: Vec<u8>,
    asked: bool,
    view: View<Turn>,
) -> Result<Vec<u8>, OutOfMemory>
    requires { Each (Each IsWritable) view.logs }
    ensures { IfOk result (λ whole. whole.items ≡ text.items ++ if_asked asked (view_text_of w.now view)) }
{
    if !asked {
        return Ok(text);
    }
    let mut whole = text;
    whole.extend_from_slice(view_text(alloc, w, &view)?.as_slice())?;
    Ok(whole)
}

/// The transactions of all scripts, script after script, and the exchanges of each.
pub(crate) fn parted(
    alloc: Global,
    finished: Items<Finished>,
) -> Result<(Items<DoneTxn>, Items<Items<Exchange>>), OutOfMemory>
    ensures txns { IfOk result (λ parts. parts.0 ≡ flat_map (λ (f : Done). f.txns) finished) }
    ensures logs { IfOk result (λ parts. parts.1 ≡ map (λ (f : Done). f.log) finished) }
{
    let mut txns = Vec::new(alloc);
    let mut logs = Vec::new(alloc);
    'scripts: for script in finished.into_vec() {
        let Finished { txns: own, log } = script;
        let mut own = own.into_vec();
        txns.append(&mut own)?;
        logs.push(log)?;
    }
    Ok((Items::from_vec(txns), Items::from_vec(logs)))
}

/// The sessions of these turns.
pub(crate) fn sessions_of(alloc: Global, turns: &[Turn]) -> Result<Vec<SessionNo>, OutOfMemory>
    ensures { IfOk result (λ sessions. sessions.items ≡ map (λ (turn : Took). turn.session) turns.now) }
{
    let mut sessions = Vec::new(alloc);
    'turns: for i in 0..turns.len() {
        sessions.push(turns[i].session)?;
    }
    Ok(sessions)
}

/// The report of a run, by its turns, its transactions in any order, and its first nonce.
fn report_of(
    alloc: Global,
    w: &Workload,
    turns: &[Turn],
    txns: Items<DoneTxn>,
    first: u64,
) -> Result<Vec<u8>, OutOfMemory>
    requires valid { IsValid w.now }
    requires first { first ≤ 2 ^ 63 }
    ensures { IfOk result (λ text. text.items ≡ text_of w.now (map (λ (turn : Took). turn.session) turns.now) (history_of txns) (Some (next_free_nonce first w.now))) }
{
    let sessions = sessions_of(alloc, turns)?;
    let sorted = history(txns)?;
    let next = first + w.sessions.as_slice().len() as u64 * NONCES;
    let text = report_text(alloc, w, &sessions, sorted.as_slice(), Some(next))?;
    Ok(text.into_vec())
}
