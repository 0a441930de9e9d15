//! The finished transactions in the order of the history.

ghost use Rattle.std.specs.Prelude.{◌≡◌, not, IfOk};
ghost use Rattle.std.specs.Ordering.{is_lt};
ghost use Rattle.workload.specs.History.{comes_before, history_of, number_got, rank_of};

use mope_base::{Items, OutOfMemory};
use std::cmp::Ordering;
use workload::{DoneTxn, End};

/// The transactions in the order of the history: for each version, first those that began from it and made none, by
/// session and then by place, and then the one that made the version after it.
pub fn history(txns: Items<DoneTxn>) -> Result<Items<DoneTxn>, OutOfMemory>
    ensures { IfOk result (λ sorted. sorted ≡ history_of txns) }
{
    let mut sorted = txns.into_vec();
    sorted.sort_by(compared)?;
    Ok(Items::from_vec(sorted))
}

/// How a transaction stands to another in the history: by rank, then by session, then by place.
fn compared(a: &DoneTxn, b: &DoneTxn) -> Ordering
    ensures { is_lt result ≡ not (comes_before b.now a.now) }
{
    let ranks = rank(a).cmp(&rank(b));
    let sessions = a.session.0.cmp(&b.session.0);
    let places = a.place.cmp(&b.place);
    ranks.then(sessions).then(places)
}

/// Where a transaction stands among the versions: at twice its base, or right before twice the version that it made.
/// Twice a number may take 65 bits.
#[tactic(auto, unfolding(workload::specs::History::rank_of, workload::specs::History::rank_by))]
fn rank(t: &DoneTxn) -> u128
    ensures { result ≡ rank_of t.now }
{
    match version_made(t.end) {
        None => 2 * (t.base as u128),
        Some(number) => (2 * (number as u128)).saturating_sub(1),
    }
}

/// The version that a transaction with this end made, if it made one.
#[tactic(auto, unfolding(workload::specs::History::number_got))]
fn version_made(end: End) -> Option<u64>
    ensures { result ≡ number_got end }
{
    match end {
        End::Committed(number) => Some(number),
        End::Installed(number) => Some(number),
        End::Read => None,
        End::RolledBack => None,
        End::Full(_) => None,
        End::Conflict(_, _) => None,
        End::Stale(_, _) => None,
    }
}
