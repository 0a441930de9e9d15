//! Where rows stand in the order of their numbers.
ghost use Rattle.std.specs.Prelude.{◌≡◌, ◌≢◌, MatchOption, Some, false, slice_get, true};
ghost use Rattle.tree_model.specs.Places.{IsIncreasing, holds};

use cow_pages::{Cut, Paged};

/// The cut before the rows with at least this number.
#[derive(Drop)]
pub struct BeforeNumber(pub u64);

impl Cut<u64> for BeforeNumber {
    ghost use Rattle.std.specs.Prelude.{nat_lt};

    ghost before = { λ cut x. nat_lt x cut.0 };

    fn is_before(&self, item: &u64) -> bool {
        *item < self.0
    }
}

/// Whether a number stands at a position.
fn stands_at(numbers: &Paged<u64>, position: usize, number: u64) -> bool
    ensures there { result ≡ true → slice_get numbers.now position ≡ Some number }
    ensures not_there { result ≡ false → slice_get numbers.now position ≢ Some number }
{
    match numbers.get(position) {
        None => false,
        Some(found) => *found == number,
    }
}

/// Where a number would stand if none below it were missing after the first one.
fn guess(numbers: &Paged<u64>, number: u64) -> usize {
    match numbers.get(0) {
        None => 0,
        Some(first) => number.saturating_sub(*first) as usize,
    }
}

/// The position of a number among increasing ones: `None` exactly where it isn't one of them.
pub fn position_of(numbers: &Paged<u64>, number: u64) -> Option<usize>
    requires { IsIncreasing numbers.now }
    ensures { MatchOption result
        (holds number numbers.now ≡ false)
        (λ position. slice_get numbers.now position ≡ Some number) }
{
    let guessed = guess(numbers, number);
    if stands_at(numbers, guessed, number) {
        return Some(guessed);
    }
    let found = numbers.partition_point(&BeforeNumber(number));
    if stands_at(numbers, found, number) {
        Some(found)
    } else {
        None
    }
}
