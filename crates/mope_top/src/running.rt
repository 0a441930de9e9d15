//! A workload run over sealed values on one thread, under a schedule.
ghost use Rattle.std.specs.Prelude.{◌≡◌, ◌≤◌, ◌<◌, ◌^◌, ℕ, List, IfOk, OnOk, false, true, length};
ghost use Rattle.command_words.specs.declared.order.Schedule.{Schedule as GivenSchedule};
ghost use Rattle.mope_base.specs.Lists.{Each};
ghost use Rattle.mope_base.specs.declared.numbers.SessionNo.{SessionNo as NoOfSession};
ghost use Rattle.mope_top.specs.Ran.{HasCome, Leads, Ran, RoundsOn};
ghost use Rattle.proxy.specs.declared.outcomes.Settings.{Settings as GivenSettings};
ghost use Rattle.run_laws.specs.ScheduleLaws.{HasNothingLeft};
ghost use Rattle.run_laws.specs.Schedules.{Underway, first_underway, scheduled};
ghost use Rattle.step_core.specs.Cores.{Follows, run_setting};
ghost use Rattle.step_core.specs.Shown.{AreMade, GrowsTo};
ghost use Rattle.walk_proto.specs.declared.messages.Exchange.{Exchange};
ghost use Rattle.workload.specs.Run.{session_numbers};
ghost use Rattle.workload.specs.Validity.{IsValid};
ghost use Rattle.workload.specs.declared.script.Workload.{Workload as Given};

use command_words::Schedule;
use mope_base::{Items, OutOfMemory, SessionNo};
use proxy::{Finished, Settings};
use server_conn::Watch;
use std::alloc::Global;
use step_core::Core;
use txn_core::State;
use workload::{Piece, Workload};

/// The numbers of the sessions of these scripts.
fn numbers(alloc: Global, scripts: &[Items<Piece>]) -> Result<Vec<SessionNo>, OutOfMemory>
    requires { length scripts.now ≤ 64 }
    ensures { IfOk result (λ numbers. numbers.items ≡ session_numbers 1 scripts.now) }
{
    let mut numbers = Vec::new(alloc);
    'scripts: for i in 0..scripts.len() {
        numbers.push(SessionNo(i as u8 + 1))?;
    }
    Ok(numbers)
}

/// Each of these sessions makes an exchange, one after the other: whether one of them had one to make.
fn step_each<H: Watch>(
    core: &mut Core,
    sessions: &[SessionNo],
    watch: &mut H,
) -> Result<bool, OutOfMemory>
    ensures follows { (settings : GivenSettings) (w : Given) (u : Underway) → IsValid w → Follows settings w u core.old
        → OnOk result (Follows settings w (scheduled (run_setting settings) u sessions.now) core.new) }
    ensures shows { (settings : GivenSettings) (w : Given) (u : Underway) (shown : List (NoOfSession × Exchange)) → IsValid w → Follows settings w u core.old → AreMade w u shown
        → OnOk result (GrowsTo (H.tells watch.old) (H.tells watch.new) shown (AreMade w (scheduled (run_setting settings) u sessions.now))) }
    ensures rests { (settings : GivenSettings) (w : Given) (u : Underway) → IsValid w → Follows settings w u core.old
        → IfOk result (λ went. went ≡ false → Each (HasNothingLeft u) sessions.now) }
    ensures unchanged { IfOk result (λ went. went ≡ false → core.new ≡ core.old) }
    ensures leads { IfOk result (λ went. went ≡ true → (count : ℕ) × (0 < count) × Leads count core.old core.new) }
{
    let mut went = false;
    'sessions: for session in sessions {
        if core.step(*session, watch)? {
            went = true;
        }
    }
    Ok(went)
}

/// All sessions make exchanges, round after round, until each has ended.
fn step_rounds<H: Watch>(
    core: &mut Core,
    sessions: &[SessionNo],
    watch: &mut H,
) -> Result<(), OutOfMemory>
    ensures { (settings : GivenSettings) (w : Given) (u : Underway) (shown : List (NoOfSession × Exchange)) → IsValid w → Follows settings w u core.old → AreMade w u shown
        → OnOk result (RoundsOn settings w u sessions.now shown core.new (H.tells watch.old) (H.tells watch.new)) }
{
    'rounds: while step_each(core, sessions, watch)? {}
    Ok(())
}

/// A core makes the exchanges of a schedule.
fn step_by<H: Watch>(
    alloc: Global,
    w: &Workload,
    core: &mut Core,
    schedule: &Schedule,
    watch: &mut H,
) -> Result<(), OutOfMemory>
    requires { IsValid w.now }
    ensures { (settings : GivenSettings) → Follows settings w.now (first_underway (run_setting settings) w.now) core.old → OnOk result (HasCome settings w.now schedule.now core.new (H.tells watch.old) (H.tells watch.new)) }
{
    match schedule {
        Schedule::Round => {
            let sessions = numbers(alloc, w.sessions.as_slice())?;
            step_rounds(core, &sessions, watch)?;
            Ok(())
        }
        Schedule::Listed(sessions) => {
            step_each(core, sessions.as_slice(), watch)?;
            Ok(())
        }
    }
}

/// Runs a workload under a schedule: what the scripts came to, and the state with all turns.
pub(crate) fn run_by<H: Watch>(
    alloc: Global,
    w: &Workload,
    settings: Settings,
    schedule: &Schedule,
    watch: &mut H,
) -> Result<(Items<Finished>, State), OutOfMemory>
    requires valid { IsValid w.now }
    requires first { settings.first ≤ 2 ^ 63 }
    ensures { IfOk result (λ ends. Ran settings w.now schedule.now ends.0 ends.1 (H.tells watch.old) (H.tells watch.new)) }
{
    let mut core = Core::new(alloc, w, settings)?;
    step_by(alloc, w, &mut core, schedule, watch)?;
    let ends = core.finish(watch)?;
    Ok(ends)
}
