//! Where entries stand in an index.
ghost use Rattle.column_index.specs.Entries.{IsOrdered, codes_in, holds_entry, is_entry, precedes, put, without};
ghost use Rattle.std.specs.List.Sorted.{IsPartitionPoint};
ghost use Rattle.std.specs.Prelude.{◌≡◌, ◌+◌, ◌<◌, ◌≤◌, IfOk, false, length, slice_get, true};
ghost use Rattle.tree_model.specs.Places.{below};

use crate::cuts::{AfterCode, BeforeCode, BeforeEntry};
use crate::entry::Entry;
use cow_pages::Paged;
use mope_base::OutOfMemory;

/// The entry at a place: `None` exactly where there is no such place.
pub fn entry_at(entries: &Paged<Entry>, place: usize) -> Option<Entry>
    ensures { result ≡ slice_get entries.now place }
{
    entries.get(place).copied()
}

/// How many entries have a smaller code.
pub fn first_of(entries: &Paged<Entry>, code: u64) -> usize
    requires { IsOrdered entries.now }
    ensures { result ≡ below code (codes_in entries.now) }
{
    entries.partition_point(&BeforeCode(code))
}

/// How many entries have at most this code.
pub fn end_of(entries: &Paged<Entry>, code: u64) -> usize
    requires { IsOrdered entries.now }
    ensures { result ≡ below (code + 1) (codes_in entries.now) }
{
    entries.partition_point(&AfterCode(code))
}

/// How many entries stand before this one.
fn place_of(entries: &Paged<Entry>, entry: Entry) -> usize
    requires { IsOrdered entries.now }
    ensures bound { result ≤ length entries.now }
    ensures point { IsPartitionPoint (λ x. precedes x entry ≡ true) (λ x. precedes x entry ≡ false) entries.now result }
{
    entries.partition_point(&BeforeEntry(entry))
}

/// Whether the entry stands at this place.
fn stands_at(entries: &Paged<Entry>, place: usize, entry: Entry) -> bool
    ensures { result ≡ is_entry entry (slice_get entries.now place) }
{
    match entry_at(entries, place) {
        None => false,
        Some(found) => entry.is_same(&found),
    }
}

/// Puts an entry in.
pub fn put_entry(entries: &mut Paged<Entry>, entry: Entry) -> Result<(), OutOfMemory>
    requires ordered { IsOrdered entries.old }
    requires other { holds_entry entry entries.old ≡ false }
    ensures { IfOk result (λ _. entries.new ≡ put entry entries.old) }
{
    let place = place_of(entries, entry);
    match entries.insert(place, entry) {
        Ok(()) => Ok(()),
        Err(_) => Err(OutOfMemory),
    }
}

/// Takes an entry out, if it's there.
pub fn take_entry(entries: &mut Paged<Entry>, entry: Entry) -> Result<bool, OutOfMemory>
    requires { IsOrdered entries.old }
    ensures found { IfOk result (λ found. found ≡ holds_entry entry entries.old) }
    ensures rest { IfOk result (λ _. entries.new ≡ without entry entries.old) }
{
    let place = place_of(entries, entry);
    if !stands_at(entries, place, entry) {
        return Ok(false);
    }
    match entries.remove(place) {
        Ok(_) => Ok(true),
        Err(_) => Err(OutOfMemory),
    }
}
