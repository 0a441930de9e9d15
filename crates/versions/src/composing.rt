//! Many changes of a column's codes, one after the other, as one.
ghost use Rattle.mope_base.specs.declared.body.Body.{Body};
ghost use Rattle.path_code.specs.Sums.{sum_of};
ghost use Rattle.std.specs.Prelude.{◌≡◌, Bool, List, IfOk};
ghost use Rattle.tree_model.specs.Columns.{Column, Operation};
ghost use Rattle.versions.specs.Summed.{AreInTurn, IsSummed, all_noted};

use crate::draft::Logged;
use mope_base::OutOfMemory;
use ope_tree::Change;
use std::alloc::Global;
use summary::Summary;

/// Changes of a column in turn as one. They are composed by halves, so that the cost is that of their codes for each time that
/// the list can be halved; one after the other would cost all codes so far for each change.
fn composed(alloc: Global, changes: &[Change]) -> Result<Summary, OutOfMemory>
    requires in_turn { AreInTurn changes.now }
    ensures { (same_time : Bool) (c : Column Body) (operations : List (Operation Body)) → IsSummed same_time c operations changes.now →
        IfOk result (λ summary. summary ≡ sum_of same_time operations c) }
{
    if changes.len() == 0 {
        return Ok(Summary::new(alloc));
    }
    if changes.len() == 1 {
        let summary = Summary::of_change(alloc, &changes[0])?;
        return Ok(summary);
    }
    let half = changes.len() / 2;
    let earlier = composed(alloc, &changes[..half])?;
    let later = composed(alloc, &changes[half..])?;
    let both = earlier.then(&later)?;
    Ok(both)
}

/// All that was noted of a column as one change, composed by halves too.
pub fn composed_log(alloc: Global, log: &[Logged], column: usize) -> Result<Summary, OutOfMemory>
    requires in_turn { AreInTurn (all_noted log.now column) }
    ensures { (same_time : Bool) (c : Column Body) (operations : List (Operation Body)) → IsSummed same_time c operations (all_noted log.now column) →
        IfOk result (λ summary. summary ≡ sum_of same_time operations c) }
{
    if log.len() == 0 {
        return Ok(Summary::new(alloc));
    }
    if log.len() == 1 {
        let summary = composed(alloc, log[0].noted(column))?;
        return Ok(summary);
    }
    let half = log.len() / 2;
    let earlier = composed_log(alloc, &log[..half], column)?;
    let later = composed_log(alloc, &log[half..], column)?;
    let both = earlier.then(&later)?;
    Ok(both)
}
