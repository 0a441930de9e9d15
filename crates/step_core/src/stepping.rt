//! The core of a run on one thread.
ghost use Rattle.std.specs.Prelude.{◌≡◌, ◌↔◌, ◌≤◌, ◌<◌, ◌^◌, ℕ, suc, length, List, IfOk, OnErr, OnOk, IsErr, false, true, map};
ghost use Rattle.mope_base.specs.declared.numbers.SessionNo.{SessionNo as NoOfSession};
ghost use Rattle.proxy.specs.declared.outcomes.Settings.{Settings as GivenSettings};
ghost use Rattle.run_laws.specs.ScheduleLaws.{HasNothingLeft};
ghost use Rattle.run_laws.specs.Schedules.{Underway, first_underway, stepped};
ghost use Rattle.run_laws.specs.TellingLaws.{version_now};
ghost use Rattle.run_laws.specs.Worlds.{first_version};
ghost use Rattle.step_core.specs.Cores.{Follows, HasReadable, end_of, finished_in, run_setting};
ghost use Rattle.mope_base.specs.Lists.{Each};
ghost use Rattle.step_core.specs.Endings.{EndsFirst, EndsSession, FirstFinished};
ghost use Rattle.step_core.specs.Inside.{IsCore, cored, sitting_of};
ghost use Rattle.step_core.specs.Sittings.{HasFinished, HasHeard, HeardBy, finished_of};
ghost use Rattle.step_core.specs.Shown.{AreAll, AreMade, GrowsTo};
ghost use Rattle.walk_proto.specs.declared.messages.Exchange.{Exchange};
ghost use Rattle.workload.specs.Run.{session_numbers};
ghost use Rattle.workload.specs.Validity.{IsValid};
ghost use Rattle.workload.specs.declared.script.Workload.{Workload as Given};

use crate::seat::Seat;
use crate::starting::{first_seats, first_state};
use mope_base::{Items, OutOfMemory, SessionNo};
use proxy::{Finished, Settings};
use server_conn::Watch;
use std::alloc::Global;
use std::marker::Model;
use txn_core::State;
use workload::Workload;

/// All sessions of a workload, each with its client and its connection, and the state on which they take their turns.
///
/// Contracts see these, and whether the core is spent: after want of memory it is.
#[derive(Drop)]
pub struct Core {
    alloc: Global,
    state: State,
    seats: Vec<Seat>,
    spent: bool,
}

impl Model for Core {
    ghost use Rattle.std.specs.Prelude.{map};
    ghost use Rattle.step_core.specs.Cores.{Cored};
    ghost use Rattle.step_core.specs.Inside.{IsCore, sitting_of};
    ghost use Rattle.step_core.specs.Stored.{cored_code};

    ghost Value = { Cored };

    ghost coded = { cored_code };

    ghost view = { λ c. record { state = c.state; sittings = map sitting_of c.seats.items; spent = c.spent } };

    ghost invariant = { λ c. IsCore c.state c.seats.items c.spent };
}

/// What the scripts came to.
fn finish_all(alloc: Global, seats: Vec<Seat>) -> Result<Items<Finished>, OutOfMemory>
    requires { Each HasFinished (map sitting_of seats.items) }
    ensures { IfOk result (λ finished. finished ≡ map finished_of (map sitting_of seats.items)) }
{
    let mut finished = Vec::new(alloc);
    'seats: for seat in seats {
        finished.push(seat.finish())?;
    }
    Ok(Items::from_vec(finished))
}

/// The place of a session of this number, counted from 0; for number 0 it is past all places.
fn place_of(number: u8) -> usize
    ensures session { 1 ≤ number → suc result ≡ number }
    ensures none { number ≡ 0 → result ≡ 18446744073709551615 }
{
    (number as usize).wrapping_sub(1)
}

/// One exchange of the session at a place, counted from 0.
fn exchange_at<H: Watch>(
    alloc: Global,
    state: &mut State,
    seats: &mut Vec<Seat>,
    place: usize,
    watch: &mut H,
) -> Result<bool, OutOfMemory>
    requires core { IsCore state.old seats.old.items false }
    requires there { place < length seats.old.items }
    ensures core { OnOk result (IsCore state.new seats.new.items false) }
    ensures follows { (settings : GivenSettings) (w : Given) (u : Underway) → IsValid w → Follows settings w u (cored state.old seats.old.items false)
        → OnOk result (Follows settings w (stepped (run_setting settings) u (record { 0 = suc place })) (cored state.new seats.new.items false)) }
    ensures ended { (settings : GivenSettings) (w : Given) (u : Underway) → IsValid w → Follows settings w u (cored state.old seats.old.items false)
        → IfOk result (λ went. went ≡ false ↔ HasNothingLeft u (record { 0 = suc place })) }
    ensures unchanged { IfOk result (λ went. went ≡ false → cored state.new seats.new.items false ≡ cored state.old seats.old.items false) }
    ensures hears { IfOk result (λ went. went ≡ true → HasHeard place (map sitting_of seats.old.items) (map sitting_of seats.new.items)) }
    ensures shows { (settings : GivenSettings) (w : Given) (u : Underway) (shown : List (NoOfSession × Exchange)) → IsValid w → Follows settings w u (cored state.old seats.old.items false) → AreMade w u shown
        → OnOk result (GrowsTo (H.tells watch.old) (H.tells watch.new) shown (AreMade w (stepped (run_setting settings) u (record { 0 = suc place })))) }
{
    seats[place].exchange(alloc, state, watch)
}

impl Core {
    /// A run of a valid workload before its first exchange. The first nonce is at most 2^63.
    pub fn new(alloc: Global, w: &Workload, settings: Settings) -> Result<Core, OutOfMemory>
        requires valid { IsValid w.now }
        requires first { settings.first ≤ 2 ^ 63 }
        ensures follows { IfOk result (λ core. Follows settings w.now (first_underway (run_setting settings) w.now) core) }
    {
        let state = first_state(alloc, w.tables.as_slice(), settings)?;
        let seats = first_seats(alloc, settings, w.sessions.as_slice())?;
        Ok(Core {
            alloc,
            state,
            seats,
            spent: false,
        })
    }

    /// One exchange of a session, through real messages, of which the watch is shown the receipt. `false` exactly where there is
    /// no such session or it has ended; then nothing has changed. After `OutOfMemory` the core is spent, and answers that from
    /// then on.
    pub fn step<H: Watch>(&mut self, session: SessionNo, watch: &mut H) -> Result<bool, OutOfMemory>
        // The run under way makes the session's next step.
        ensures follows { (settings : GivenSettings) (w : Given) (u : Underway) → IsValid w → Follows settings w u self.old
            → OnOk result (Follows settings w (stepped (run_setting settings) u session) self.new) }
        ensures ended { (settings : GivenSettings) (w : Given) (u : Underway) → IsValid w → Follows settings w u self.old
            → IfOk result (λ went. went ≡ false ↔ HasNothingLeft u session) }
        ensures unchanged { IfOk result (λ went. went ≡ false → self.new ≡ self.old) }

        // The session's client has heard a reply, and no other session has done anything.
        ensures hears { IfOk result (λ went. went ≡ true → HeardBy session self.old.sittings self.new.sittings) }

        // The watch is shown the exchange.
        ensures shows { (settings : GivenSettings) (w : Given) (u : Underway) (shown : List (NoOfSession × Exchange)) → IsValid w → Follows settings w u self.old → AreMade w u shown
            → OnOk result (GrowsTo (H.tells watch.old) (H.tells watch.new) shown (AreMade w (stepped (run_setting settings) u session))) }

        ensures spent { OnErr result (self.new.spent ≡ true) }
        ensures stays_spent { self.old.spent ≡ true → IsErr result }
    {
        if self.spent {
            return Err(OutOfMemory);
        }
        let place = place_of(session.0);
        if place >= self.seats.len() {
            return Ok(false);
        }
        match exchange_at(self.alloc, &mut self.state, &mut self.seats, place, watch) {
            Ok(went) => Ok(went),
            Err(_) => {
                self.spent = true;
                Err(OutOfMemory)
            }
        }
    }

    /// All exchanges that a session has left.
    fn end<H: Watch>(&mut self, session: SessionNo, watch: &mut H) -> Result<(), OutOfMemory>
        ensures ends { (settings : GivenSettings) (w : Given) (u : Underway) → IsValid w → Follows settings w u self.old
            → OnOk result (EndsSession settings w u session self.new (H.tells watch.old) (H.tells watch.new)) }
        ensures stay { OnOk result ((k : ℕ) → FirstFinished k self.old.sittings → FirstFinished k self.new.sittings) }
    {
        'exchanges: loop {
            let went = self.step(session, watch)?;
            if !went {
                return Ok(());
            }
        }
    }

    /// All exchanges that are left, session after session.
    fn end_all<H: Watch>(&mut self, watch: &mut H) -> Result<(), OutOfMemory>
        requires { self.old.spent ≡ false }
        ensures { (settings : GivenSettings) (w : Given) (u : Underway) → IsValid w → Follows settings w u self.old
            → OnOk result (EndsFirst settings w u (length w.sessions) self.new (H.tells watch.old) (H.tells watch.new)) }
    {
        let sessions = self.seats.len();
        'sessions: for i in 0..sessions {
            self.end(SessionNo(i as u8 + 1), watch)?;
        }
        Ok(())
    }

    /// The rest of the run, session after session, by the same steps: what the scripts came to, and the state with all turns.
    pub fn finish<H: Watch>(self, watch: &mut H) -> Result<(Items<Finished>, State), OutOfMemory>
        ensures scripts { (settings : GivenSettings) (w : Given) (u : Underway) → IsValid w → Follows settings w u self
            → IfOk result (λ ends. ends.0 ≡ map (finished_in settings.keep (end_of (run_setting settings) w u)) (session_numbers 1 w.sessions)) }
        ensures readable { (settings : GivenSettings) (w : Given) (u : Underway) → IsValid w → Follows settings w u self
            → IfOk result (λ ends. Each HasReadable ends.0) }
        ensures turns { (settings : GivenSettings) (w : Given) (u : Underway) → IsValid w → Follows settings w u self
            → IfOk result (λ ends. ends.1.turns ≡ (end_of (run_setting settings) w u).turns) }
        ensures first { (settings : GivenSettings) (w : Given) (u : Underway) → IsValid w → Follows settings w u self
            → IfOk result (λ ends. ends.1.first ≡ first_version (run_setting settings) w) }
        ensures current { (settings : GivenSettings) (w : Given) (u : Underway) → IsValid w → Follows settings w u self
            → IfOk result (λ ends. ends.1.current ≡ version_now (run_setting settings) w (end_of (run_setting settings) w u)) }
        ensures shows { (settings : GivenSettings) (w : Given) (u : Underway) (shown : List (NoOfSession × Exchange)) → IsValid w → Follows settings w u self → AreMade w u shown
            → OnOk result (GrowsTo (H.tells watch.old) (H.tells watch.new) shown (AreAll w (end_of (run_setting settings) w u))) }
        ensures stays_spent { self.spent ≡ true → IsErr result }
    {
        if self.spent {
            return Err(OutOfMemory);
        }
        let mut core = self;
        core.end_all(watch)?;
        let Core {
            alloc,
            state,
            seats,
            spent: _,
        } = core;
        let finished = finish_all(alloc, seats)?;
        Ok((finished, state))
    }
}
