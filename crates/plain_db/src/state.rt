//! The state of a run, and the small steps of a turn.

ghost use Rattle.std.specs.Prelude.{◌≡◌, ◌<◌, ◌++◌, ◌∷◌, [], length, set, get_or, OnOk};

use crate::trying::Tried;
use mope_base::{Items, OutOfMemory, SessionNo, TableNo};
use std::alloc::Global;
use std::mem;
use workload::{Answer, DoneTxn, End, PlainDb};

/// Where a session stands in its script: before its next transaction, or between its begin and its commit or install.
#[derive(Drop)]
pub(crate) enum Standing {
    Ready,
    Committing { base: u64, work: Tried },
    Installing { base: u64, table: TableNo },
}

/// A session's standing, and how many of its transactions have ended.
#[derive(Drop)]
pub(crate) struct Place {
    pub ended: usize,
    pub standing: Standing,
}

/// The current version with its number and its tables' stamps, the sessions, and what has been taken and has ended.
#[derive(Drop)]
pub(crate) struct State {
    pub version: u64,
    pub current: PlainDb,
    pub written: Items<u64>,
    pub laid: Items<u64>,
    pub places: Items<Place>,
    pub taken: Items<SessionNo>,
    pub done: Items<DoneTxn>,
}

/// Puts `x` in the place of the item at `i`, and gives out the one that stood there.
pub(crate) fn replace_at<T: Drop>(alloc: Global, items: &mut Items<T>, i: usize, x: T) -> T
    requires { i < length items.old }
    ensures given { result ≡ get_or items.old i result }
    ensures left { items.new ≡ set items.old i x }
{
    let mut all = mem::replace(items, Items::new(alloc)).into_vec();
    let given = mem::replace(&mut all[i], x);
    *items = Items::from_vec(all);
    given
}

/// A turn was taken, after which its session stands at `place`.
pub(crate) fn moved(
    alloc: Global,
    state: &mut State,
    s: SessionNo,
    k: usize,
    place: Place,
) -> Result<(), OutOfMemory>
    requires { k < length state.old.places }
    ensures { OnOk result (state.new ≡ record state.old {
      places = set state.old.places k place;
      taken = state.old.taken ++ s ∷ [];
    }) }
{
    state.taken.push(s)?;
    replace_at(alloc, &mut state.places, k, place);
    Ok(())
}

/// A transaction ended.
pub(crate) fn with_done(
    state: &mut State,
    session: SessionNo,
    place: u32,
    base: u64,
    end: End,
    answers: Items<Answer>,
) -> Result<(), OutOfMemory>
    ensures { OnOk result (state.new ≡ record state.old {
      done = state.old.done
          ++ record { session = session; place = place; base = base; end = end; answers = answers } ∷ [];
    }) }
{
    state.done.push(DoneTxn {
        session,
        place,
        base,
        end,
        answers,
    })?;
    Ok(())
}
