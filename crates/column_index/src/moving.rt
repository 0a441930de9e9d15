//! Entries whose codes become others.
ghost use Rattle.code_changes.specs.Changes.{new_code};
ghost use Rattle.column_index.specs.Entries.{IsOrdered, codes_in};
ghost use Rattle.column_index.specs.Fronts.{IsFrontRecoded};
ghost use Rattle.column_index.specs.Recoding.{recoded};
ghost use Rattle.std.specs.Prelude.{◌≡◌, ℕ, ◌+◌, ◌<◌, ◌≤◌, IfOk, length, map};
ghost use Rattle.tree_model.specs.Places.{IsIncreasing, below};

use crate::entry::Entry;
use crate::placing::{entry_at, first_of};
use cow_pages::Paged;
use mope_base::OutOfMemory;
use path_code::Recode;

/// Where the entries of a code begin. They don't begin before `place`, and mostly there.
fn start_of(entries: &Paged<Entry>, place: usize, code: u64) -> usize
    requires ordered { IsOrdered entries.now }
    requires from { place ≤ below code (codes_in entries.now) }
    ensures { result ≡ below code (codes_in entries.now) }
{
    match entry_at(entries, place) {
        None => place,
        Some(entry) => {
            if entry.enc < code {
                first_of(entries, code)
            } else {
                place
            }
        }
    }
}

/// Gives the entries of one code its new one, and answers where they end. They are told by the entries before all changes.
fn move_code(
    earlier: &Paged<Entry>,
    entries: &mut Paged<Entry>,
    start: usize,
    pair: Recode,
) -> Result<usize, OutOfMemory>
    requires ordered { IsOrdered earlier.now }
    requires start { start ≡ below pair.old (codes_in earlier.now) }
    requires many { length entries.old ≡ length earlier.now }
    ensures end { IfOk result (λ end. end ≡ below (pair.old + 1) (codes_in earlier.now)) }
    ensures many { IfOk result (λ _. length entries.new ≡ length earlier.now) }
    ensures moved { (to : ℕ → ℕ) → to pair.old ≡ pair.new → IsFrontRecoded to earlier.now start entries.old → IfOk result (λ end. IsFrontRecoded to earlier.now end entries.new) }
{
    let count = earlier.len();
    'entries: for place in start..count {
        let entry = earlier.run_at(place)[0];
        if entry.enc != pair.old {
            return Ok(place);
        }
        let moved = Entry {
            enc: pair.new,
            row: entry.row,
        };
        if entries.set(place, moved).is_err() {
            return Err(OutOfMemory);
        }
    }
    Ok(count)
}

/// Gives the entries of moved codes their new ones. They are told by the entries before all changes: those of codes that stand
/// side by side are found without a search.
fn move_each(
    earlier: &Paged<Entry>,
    entries: &mut Paged<Entry>,
    moved: &[Recode],
) -> Result<(), OutOfMemory>
    requires ordered { IsOrdered earlier.now }
    requires olds { IsIncreasing (map (λ pair. pair.old) moved.now) }
    requires same { entries.old ≡ earlier.now }
    ensures { IfOk result (λ _. entries.new ≡ map (recoded (new_code moved.now)) earlier.now) }
{
    let mut end = 0;
    'pairs: for pair in moved {
        let start = start_of(earlier, end, pair.old);
        end = move_code(earlier, entries, start, *pair)?;
    }
    Ok(())
}

/// Gives the entries of moved codes their new ones. Only these entries are touched.
pub fn move_codes(entries: &mut Paged<Entry>, moved: &[Recode]) -> Result<(), OutOfMemory>
    requires ordered { IsOrdered entries.old }
    requires olds { IsIncreasing (map (λ pair. pair.old) moved.now) }
    ensures { IfOk result (λ _. entries.new ≡ map (recoded (new_code moved.now)) entries.old) }
{
    match entries.share() {
        Ok(earlier) => move_each(&earlier, entries, moved),
        Err(_) => Err(OutOfMemory),
    }
}
