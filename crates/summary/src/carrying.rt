//! What becomes of lists of codes.
ghost use Rattle.code_changes.specs.Changes.{images};
ghost use Rattle.code_changes.specs.Compositions.{applied_both, dropped_by, lost_if, moved_by, pair_if};
ghost use Rattle.std.specs.Prelude.{◌≡◌, [], ◌∷◌, ◌++◌, IfOk, OnOk};

use crate::summaries::Summary;
use mope_base::OutOfMemory;
use path_code::Recode;

/// The pairs of codes of a list and what becomes of them that differ, and the codes of which nothing becomes.
#[derive(Drop)]
pub struct Parts {
    pub moved: Vec<Recode>,
    pub dropped: Vec<u64>,
}

/// What becomes of a code under two changes in turn.
fn after_both(change: &Summary, next: &Summary, code: u64) -> Option<u64>
    ensures { result ≡ applied_both change.now next.now code }
{
    next.apply(change.apply(code)?)
}

/// Appends the pair of a code and another that it becomes.
fn push_pair(moved: &mut Vec<Recode>, code: u64, becomes: Option<u64>) -> Result<(), OutOfMemory>
    ensures { OnOk result (moved.new.items ≡ moved.old.items ++ pair_if code becomes []) }
{
    let Some(new) = becomes else {
        return Ok(());
    };
    if new == code {
        return Ok(());
    }
    moved.push(Recode { old: code, new })?;
    Ok(())
}

/// Appends a code of which nothing becomes.
fn push_lost(dropped: &mut Vec<u64>, code: u64, becomes: Option<u64>) -> Result<(), OutOfMemory>
    ensures { OnOk result (dropped.new.items ≡ dropped.old.items ++ lost_if code becomes []) }
{
    if becomes.is_some() {
        return Ok(());
    }
    dropped.push(code)?;
    Ok(())
}

/// The pairs and the dropped codes of a list under two changes in turn.
pub fn parts_of(change: &Summary, next: &Summary, codes: &[u64]) -> Result<Parts, OutOfMemory>
    ensures moved { IfOk result (λ parts. parts.moved.items ≡ moved_by (applied_both change.now next.now) codes.now) }
    ensures dropped { IfOk result (λ parts. parts.dropped.items ≡ dropped_by (applied_both change.now next.now) codes.now) }
{
    let alloc = change.allocator();
    let mut moved = Vec::new(alloc);
    let mut dropped = Vec::new(alloc);
    'codes: for at in 0..codes.len() {
        let becomes = after_both(change, next, codes[at]);
        push_pair(&mut moved, codes[at], becomes)?;
        push_lost(&mut dropped, codes[at], becomes)?;
    }
    Ok(Parts { moved, dropped })
}

/// Appends what becomes of a code.
fn push_image(change: &Summary, code: u64, after: &mut Vec<u64>) -> Result<(), OutOfMemory>
    ensures { OnOk result (after.new.items ≡ after.old.items ++ images change.now (code ∷ [])) }
{
    if let Some(new) = change.apply(code) {
        after.push(new)?;
    }
    Ok(())
}

/// What becomes of the codes of a list that aren't dropped, in the order of the list.
pub fn images(change: &Summary, codes: &[u64]) -> Result<Vec<u64>, OutOfMemory>
    ensures { IfOk result (λ after. after.items ≡ images change.now codes.now) }
{
    let mut after = Vec::new(change.allocator());
    'codes: for at in 0..codes.len() {
        push_image(change, codes[at], &mut after)?;
    }
    Ok(after)
}
