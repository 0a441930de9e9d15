//! The finished transactions in the order of the history.

ghost use Rattle.std.specs.Prelude.{◌≡◌, ◌*◌, ◌-◌, not, IfOk};
ghost use Rattle.std.specs.Ordering.{is_lt};
ghost use Rattle.workload.specs.Selection.{ordered};
ghost use Rattle.workload.specs.History.{rank_of, comes_before};

use mope_base::{Items, OutOfMemory};
use std::cmp::Ordering;
use workload::{DoneTxn, End};

/// Where a transaction stands among the versions: twice its base, or right before the version that it made.
fn rank(t: &DoneTxn) -> u128
    ensures { result ≡ rank_of t.now }
{
    match t.end {
        End::Committed(number) => rank_of_number(number),
        End::Installed(number) => rank_of_number(number),
        End::Read => t.base as u128 * 2,
        End::RolledBack => t.base as u128 * 2,
        End::Full(_) => t.base as u128 * 2,
        End::Conflict(_, _) => t.base as u128 * 2,
        End::Stale(_, _) => t.base as u128 * 2,
    }
}

fn rank_of_number(number: u64) -> u128
    ensures { result ≡ 2 * number - 1 }
{
    if number == 0 {
        0
    } else {
        number as u128 * 2 - 1
    }
}

/// How a transaction stands to another in the history: by rank, then by session, then by place.
fn compared(a: &DoneTxn, b: &DoneTxn) -> Ordering
    ensures { is_lt result ≡ not (comes_before b.now a.now) }
{
    let ranks = rank(a).cmp(&rank(b));
    let sessions = a.session.0.cmp(&b.session.0);
    let places = a.place.cmp(&b.place);
    ranks.then(sessions).then(places)
}

/// The transactions in the order of the history.
pub(crate) fn in_history_order(done: Items<DoneTxn>) -> Result<Items<DoneTxn>, OutOfMemory>
    ensures { IfOk result (λ sorted. sorted ≡ ordered comes_before done) }
{
    let mut sorted = done.into_vec();
    sorted.sort_by(compared)?;
    Ok(Items::from_vec(sorted))
}
