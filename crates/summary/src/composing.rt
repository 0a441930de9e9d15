//! Two changes in turn as one.
ghost use Rattle.code_changes.specs.Compositions.{FitsInTurn, both_on};
ghost use Rattle.std.specs.Prelude.{◌≡◌, List, ℕ, IfOk};

use crate::carrying::{images, parts_of};
use crate::gathering::candidates;
use crate::merging::merged;
use crate::summaries::Summary;
use mope_base::OutOfMemory;

/// Both changes in turn as one change. There must be a list of codes that the first fits and after which the next fits.
pub fn composed(change: &Summary, next: &Summary) -> Result<Summary, OutOfMemory>
    requires in_turn { (codes : List ℕ) × FitsInTurn change.now next.now codes }
    ensures { (codes : List ℕ) → FitsInTurn change.now next.now codes →
        IfOk result (λ both. both ≡ both_on change.now next.now codes) }
{
    let codes = candidates(change, next)?;
    let parts = parts_of(change, next, &codes)?;
    let kept = images(next, change.added())?;
    let added = merged(change.allocator(), next.added(), &kept)?;
    Ok(Summary::of(parts.moved, parts.dropped, added))
}
