//! The top call: words in, status and report out.
ghost use Rattle.std.specs.Prelude.{◌≡◌, ◌≤◌, ◌^◌, ℕ, List, Some, Err, IfOk, IfErr};
ghost use Rattle.command_words.specs.Grammar.{texts};
ghost use Rattle.command_words.specs.Orders.{AreNoWords, AreWords};
ghost use Rattle.command_words.specs.declared.order.Generating.{Generating as Drawing};
ghost use Rattle.command_words.specs.declared.order.Order.TheVariants.{Generate, Plain, Replay};
ghost use Rattle.command_words.specs.declared.order.Replaying.{Replaying as Replays};
ghost use Rattle.mope_base.specs.Faults.{Rose};
ghost use Rattle.mope_base.specs.declared.numbers.SessionNo.{SessionNo as NoOfSession};
ghost use Rattle.mope_top.specs.Batch.{Does, Ends, HasSizes, HasText, Headline, IsUnread, LeavesInput, Reads, ReadsAll, Stops, StopsEarly, TellsDrawn, WritesOrMemory, WritesSomeOrMemory, usage_text};
ghost use Rattle.mope_top.specs.Counts.{CountsFaults, CountsReads};
ghost use Rattle.mope_top.specs.FaultText.{fault_text};
ghost use Rattle.mope_top.specs.Replays.{IsShown, Reports};
ghost use Rattle.server_conn.specs.declared.receipt.Receipt.{Receipt as Shown};
ghost use Rattle.workload.specs.Report.{plain_report};
ghost use Rattle.workload.specs.declared.script.Workload.{Workload};
ghost use Rattle.workload_file.specs.WorkloadFile.{GivesVerdict, IsWorkloadFile};
ghost use Rattle.workload_file.specs.declared.stops.FileStop.TheVariants.{Bad};

use crate::plain::{judge_plainly, refused};
use crate::replay::judge_replay;
use crate::summing::drawn_text;
use command_words::{Order, Replaying, read_order};
use mope_base::{OutOfMemory, ReadStop, SessionNo, Sink, Source, Status, read_all, write_all};
use server_conn::Watch;
use std::alloc::Global;
use workload_file::FileReason;

/// The most bytes that an input may have.
const MAX_BYTES: usize = 67_108_864;

/// Does what the words of the command line say. `replay` reads a workload from `input`, runs it over sealed values on one thread
/// under the schedule, and writes its report to `out`, with the view after it where that is asked for; the watch is shown each
/// exchange, and by no other command. `plain` reads a workload, and writes what plain tables answer under the turns of `--turns`,
/// after which the sessions finish in order. `generate` reads nothing, and writes the text of the workload that it draws, or the
/// summary of its run. Nothing is written before the whole output stands.
pub fn mope_batch<S: Source, K: Sink, H: Watch>(
    alloc: Global,
    words: &[String],
    input: &mut S,
    out: &mut K,
    watch: &mut H,
) -> Status
    // On Done of `replay` the bytes appended to `out` are the report of the workload that the whole input spells under the turns
    // that it prints, which are those of the schedule: one history of one thread; and with a view its text. For `plain` they are the
    // report of plain tables, and for `generate` the text that it draws or its summary.
    ensures headline { result ≡ Status.Done
        → Headline (texts words.now) (S.left input.old) (S.left input.new) (K.written out.old) (K.written out.new) }
    ensures ends { Ends result (texts words.now)
        (S.left input.old) (S.left input.new) (S.faults input.old) (S.faults input.new)
        (K.written out.old) (K.written out.new) (K.faults out.old) (K.faults out.new) }

    // On Done of `replay` the watch was shown each exchange of the run.
    ensures shown { (r : Replays) → result ≡ Status.Done → AreWords (texts words.now) (Replay r)
        → ReadsAll (S.left input.old) (S.left input.new) (λ bytes. IsShown r bytes (H.tells watch.old) (H.tells watch.new)) }
    ensures unshown { ((r : Replays) → ¬ AreWords (texts words.now) (Replay r))
        → (earlier : List (NoOfSession × Shown)) → H.tells watch.old earlier → H.tells watch.new earlier }

    // With other words, and for `generate`, the input isn't touched.
    ensures wrong_words { AreNoWords (texts words.now)
        → LeavesInput result (S.left input.old) (S.left input.new) (S.faults input.old) (S.faults input.new) }
    ensures unread { (g : Drawing) → AreWords (texts words.now) (Generate g)
        → IsUnread (S.left input.old) (S.left input.new) (S.faults input.old) (S.faults input.new) }

    // No count of faults ever falls, and none rises but by the fault that the status tells.
    ensures counted { CountsFaults result (S.faults input.old) (S.faults input.new) (K.faults out.old) (K.faults out.new) }
    ensures input_faults { S.faults input.old ≤ S.faults input.new }
    ensures out_faults { K.faults out.old ≤ K.faults out.new }

    // Where the counts don't rise each text is written whole, or memory did not suffice.
    ensures complete { (r : Replays) (bytes : List ℕ) (w : Workload)
        → AreWords (texts words.now) (Replay r) → S.left input.old ≡ Some bytes → IsWorkloadFile bytes w
        → ¬ Rose (S.faults input.old) (S.faults input.new) → ¬ Rose (K.faults out.old) (K.faults out.new)
        → WritesSomeOrMemory result Status.Done (K.written out.old) (K.written out.new) (Reports r bytes) }
    ensures complete_plain { (turns : List NoOfSession) (bytes : List ℕ) (w : Workload)
        → AreWords (texts words.now) (Plain turns) → S.left input.old ≡ Some bytes → IsWorkloadFile bytes w
        → ¬ Rose (S.faults input.old) (S.faults input.new) → ¬ Rose (K.faults out.old) (K.faults out.new)
        → WritesOrMemory result Status.Done (K.written out.old) (K.written out.new) (plain_report w turns) }
    ensures complete_generate { (g : Drawing)
        → AreWords (texts words.now) (Generate g) → ¬ Rose (K.faults out.old) (K.faults out.new)
        → WritesSomeOrMemory result Status.Done (K.written out.old) (K.written out.new) (TellsDrawn g.text g) }
    ensures refuses_file { (r : Replays) (bytes : List ℕ) (line : ℕ) (why : FileReason)
        → AreWords (texts words.now) (Replay r) → S.left input.old ≡ Some bytes → GivesVerdict bytes (Err (Bad line why))
        → ¬ Rose (S.faults input.old) (S.faults input.new) → ¬ Rose (K.faults out.old) (K.faults out.new)
        → WritesOrMemory result Status.Input (K.written out.old) (K.written out.new) (fault_text line why) }
    ensures refuses_file_plainly { (turns : List NoOfSession) (bytes : List ℕ) (line : ℕ) (why : FileReason)
        → AreWords (texts words.now) (Plain turns) → S.left input.old ≡ Some bytes → GivesVerdict bytes (Err (Bad line why))
        → ¬ Rose (S.faults input.old) (S.faults input.new) → ¬ Rose (K.faults out.old) (K.faults out.new)
        → WritesOrMemory result Status.Input (K.written out.old) (K.written out.new) (fault_text line why) }
    ensures refuses_words { AreNoWords (texts words.now) → ¬ Rose (K.faults out.old) (K.faults out.new)
        → WritesOrMemory result Status.Usage (K.written out.old) (K.written out.new) usage_text }
{
    match judge(alloc, words, input, watch) {
        Ok(verdict) => match write_all(out, &verdict.text) {
            Ok(()) => verdict.status,
            Err(_) => Status::WriteFault,
        },
        Err(status) => status,
    }
}

/// A status that writes, and the whole text that it writes.
#[derive(Drop)]
pub(crate) struct Verdict {
    pub status: Status,
    pub text: Vec<u8>,
}

/// Judges the words, and then does what they order: what is to be written. An error is the status of a call that writes
/// nothing.
fn judge<S: Source, H: Watch>(
    alloc: Global,
    words: &[String],
    input: &mut S,
    watch: &mut H,
) -> Result<Verdict, Status>
    ensures text { IfOk result (λ verdict.
        HasText verdict.status (texts words.now) (S.left input.old) (S.left input.new) verdict.text.items) }
    ensures stopped { IfErr result (λ status.
        StopsEarly status (texts words.now) (S.faults input.old) (S.faults input.new)) }
    ensures shown { (r : Replays) → AreWords (texts words.now) (Replay r) → IfOk result (λ verdict. verdict.status ≡ Status.Done
        → ReadsAll (S.left input.old) (S.left input.new) (λ bytes. IsShown r bytes (H.tells watch.old) (H.tells watch.new))) }
    ensures unshown { ((r : Replays) → ¬ AreWords (texts words.now) (Replay r))
        → (earlier : List (NoOfSession × Shown)) → H.tells watch.old earlier → H.tells watch.new earlier }
    ensures wrong_words { AreNoWords (texts words.now)
        → (S.left input.new ≡ S.left input.old) × (S.faults input.new ≡ S.faults input.old) }
    ensures unread { (g : Drawing) → AreWords (texts words.now) (Generate g)
        → IsUnread (S.left input.old) (S.left input.new) (S.faults input.old) (S.faults input.new) }
    ensures faults { S.faults input.old ≤ S.faults input.new }
    ensures counted { CountsReads result (S.faults input.old) (S.faults input.new) }
{
    match read_order(alloc, words) {
        Ok(Some(order)) => obey(alloc, order, input, watch),
        Ok(None) => refusal(alloc, Status::Usage, b"error usage\n"),
        Err(OutOfMemory) => Err(Status::Memory),
    }
}

/// Does what was ordered.
fn obey<S: Source, H: Watch>(
    alloc: Global,
    order: Order,
    input: &mut S,
    watch: &mut H,
) -> Result<Verdict, Status>
    requires { HasSizes order }
    ensures text { IfOk result (λ verdict.
        Does order verdict.status (S.left input.old) (S.left input.new) verdict.text.items) }
    ensures stopped { IfErr result (λ status. Stops order status (S.faults input.old) (S.faults input.new)) }
    ensures shown { (r : Replays) → order ≡ Replay r → IfOk result (λ verdict. verdict.status ≡ Status.Done
        → ReadsAll (S.left input.old) (S.left input.new) (λ bytes. IsShown r bytes (H.tells watch.old) (H.tells watch.new))) }
    ensures unshown { ((r : Replays) → ¬ order ≡ Replay r)
        → (earlier : List (NoOfSession × Shown)) → H.tells watch.old earlier → H.tells watch.new earlier }
    ensures unread { ¬ Reads order → IsUnread (S.left input.old) (S.left input.new) (S.faults input.old) (S.faults input.new) }
    ensures faults { S.faults input.old ≤ S.faults input.new }
    ensures counted { CountsReads result (S.faults input.old) (S.faults input.new) }
{
    match order {
        Order::Replay(replaying) => replay_input(alloc, &replaying, input, watch),
        Order::Plain { turns } => plain_input(alloc, turns.as_slice(), input),
        Order::Generate(drawing) => drawn_text(alloc, drawing),
    }
}

/// Reads the whole input, judges it and runs it over sealed values.
fn replay_input<S: Source, H: Watch>(
    alloc: Global,
    replaying: &Replaying,
    input: &mut S,
    watch: &mut H,
) -> Result<Verdict, Status>
    requires { replaying.now.first_nonce ≤ 2 ^ 63 }
    ensures text { IfOk result (λ verdict.
        Does (Replay replaying.now) verdict.status (S.left input.old) (S.left input.new) verdict.text.items) }
    ensures stopped { IfErr result (λ status. Stops (Replay replaying.now) status (S.faults input.old) (S.faults input.new)) }
    ensures shown { IfOk result (λ verdict. verdict.status ≡ Status.Done
        → ReadsAll (S.left input.old) (S.left input.new) (λ bytes. IsShown replaying.now bytes (H.tells watch.old) (H.tells watch.new))) }
    ensures faults { S.faults input.old ≤ S.faults input.new }
    ensures counted { CountsReads result (S.faults input.old) (S.faults input.new) }
{
    match read_all(alloc, input, MAX_BYTES) {
        Ok(bytes) => judge_replay(alloc, replaying, bytes.as_slice(), watch),
        Err(ReadStop::TooLong) => refused(alloc, 0, FileReason::InputTooLong),
        Err(ReadStop::Failed) => Err(Status::ReadFault),
        Err(ReadStop::OutOfMemory) => Err(Status::Memory),
    }
}

/// Reads the whole input, judges it and runs it on plain tables.
fn plain_input<S: Source>(
    alloc: Global,
    turns: &[SessionNo],
    input: &mut S,
) -> Result<Verdict, Status>
    ensures text { IfOk result (λ verdict.
        Does (Plain turns.now) verdict.status (S.left input.old) (S.left input.new) verdict.text.items) }
    ensures stopped { IfErr result (λ status. Stops (Plain turns.now) status (S.faults input.old) (S.faults input.new)) }
    ensures faults { S.faults input.old ≤ S.faults input.new }
    ensures counted { CountsReads result (S.faults input.old) (S.faults input.new) }
{
    match read_all(alloc, input, MAX_BYTES) {
        Ok(bytes) => judge_plainly(alloc, turns, bytes.as_slice()),
        Err(ReadStop::TooLong) => refused(alloc, 0, FileReason::InputTooLong),
        Err(ReadStop::Failed) => Err(Status::ReadFault),
        Err(ReadStop::OutOfMemory) => Err(Status::Memory),
    }
}

/// A status with this text.
fn refusal(alloc: Global, status: Status, text: &[u8]) -> Result<Verdict, Status>
    ensures ok { IfOk result (λ verdict. (verdict.status ≡ status) × (verdict.text.items ≡ text.now)) }
    ensures err { IfErr result (λ stop. stop ≡ Status.Memory) }
{
    match text.to_vec(alloc) {
        Ok(text) => Ok(Verdict { status, text }),
        Err(_) => Err(Status::Memory),
    }
}
