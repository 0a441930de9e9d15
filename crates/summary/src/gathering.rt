//! The codes that two changes in turn may move or drop.
ghost use Rattle.code_changes.specs.Normal.{news, olds};
ghost use Rattle.std.specs.Prelude.{◌≡◌, [], ◌∷◌, ◌++◌, IfOk, OnOk};
ghost use Rattle.summary.specs.Candidates.{candidates, given, others, taken};
ghost use Rattle.tree_model.specs.Places.{IsIncreasing};

use crate::merging::merged;
use crate::summaries::Summary;
use code_changes::holds;
use mope_base::OutOfMemory;
use path_code::Recode;
use std::alloc::Global;

/// The old codes of pairs.
fn old_codes(alloc: Global, moved: &[Recode]) -> Result<Vec<u64>, OutOfMemory>
    ensures { IfOk result (λ codes. codes.items ≡ olds moved.now) }
{
    let mut codes = Vec::new(alloc);
    'pairs: for at in 0..moved.len() {
        codes.push(moved[at].old)?;
    }
    Ok(codes)
}

/// The new codes of pairs.
fn new_codes(alloc: Global, moved: &[Recode]) -> Result<Vec<u64>, OutOfMemory>
    ensures { IfOk result (λ codes. codes.items ≡ news moved.now) }
{
    let mut codes = Vec::new(alloc);
    'pairs: for at in 0..moved.len() {
        codes.push(moved[at].new)?;
    }
    Ok(codes)
}

/// The codes that a change moves or drops.
fn taken(change: &Summary) -> Result<Vec<u64>, OutOfMemory>
    ensures value { IfOk result (λ codes. codes.items ≡ taken change.now) }
    ensures increase { IfOk result (λ codes. IsIncreasing codes.items) }
{
    let alloc = change.allocator();
    let moved = old_codes(alloc, change.moved())?;
    merged(alloc, &moved, change.dropped())
}

/// The codes that a change gives to others or to new items.
fn given(change: &Summary) -> Result<Vec<u64>, OutOfMemory>
    ensures value { IfOk result (λ codes. codes.items ≡ given change.now) }
    ensures increase { IfOk result (λ codes. IsIncreasing codes.items) }
{
    let alloc = change.allocator();
    let moved = new_codes(alloc, change.moved())?;
    merged(alloc, &moved, change.added())
}

/// Appends a code that isn't in a list.
fn push_other(rest: &mut Vec<u64>, excluded: &[u64], code: u64) -> Result<(), OutOfMemory>
    requires { IsIncreasing excluded.now }
    ensures { OnOk result (rest.new.items ≡ rest.old.items ++ others excluded.now (code ∷ [])) }
{
    if holds(excluded, code) {
        return Ok(());
    }
    rest.push(code)?;
    Ok(())
}

/// The codes of a list that aren't in another, which must increase.
fn others(alloc: Global, excluded: &[u64], codes: &[u64]) -> Result<Vec<u64>, OutOfMemory>
    requires { IsIncreasing excluded.now }
    ensures { IfOk result (λ rest. rest.items ≡ others excluded.now codes.now) }
{
    let mut rest = Vec::new(alloc);
    'codes: for at in 0..codes.len() {
        push_other(&mut rest, excluded, codes[at])?;
    }
    Ok(rest)
}

/// The codes that the earlier change takes, and those that the later one takes and that stand there already before the
/// earlier one: all that both in turn may move or drop.
pub fn candidates(change: &Summary, next: &Summary) -> Result<Vec<u64>, OutOfMemory>
    ensures { IfOk result (λ codes. codes.items ≡ candidates change.now next.now) }
{
    let alloc = change.allocator();
    let earlier = taken(change)?;
    let between = given(change)?;
    let later = taken(next)?;
    let standing = others(alloc, &between, &later)?;
    merged(alloc, &earlier, &standing)
}
