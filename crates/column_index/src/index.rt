//! The index itself.
ghost use Rattle.code_changes.specs.Changes.{new_code};
ghost use Rattle.column_index.specs.Entries.{IsOrdered, codes_in, holds_entry, put, without};
ghost use Rattle.column_index.specs.Ranges.{IsRange, count_between, range_of};
ghost use Rattle.column_index.specs.Recoding.{KeepsOrder, recoded};
ghost use Rattle.column_index.specs.Seen.{index_of, spent_index};
ghost use Rattle.std.specs.Prelude.{◌≡◌, [], IfOk, IsErr, OnErr, OnOk, false, length, map, max, slice_get, true};
ghost use Rattle.tree_model.specs.Places.{IsIncreasing};

use crate::entry::Entry;
use crate::moving::move_codes;
use crate::placing::{end_of, entry_at, first_of, put_entry, take_entry};
use cow_pages::Paged;
use mope_base::OutOfMemory;
use path_code::Recode;
use std::alloc::Global;
use std::marker::Model;

/// The rows of a column in the order of their codes, and rows of one code in the order of their numbers.
///
/// Contracts see the list of its entries, and whether it is spent: after want of memory it has no entries, and each later call
/// that can answer want of memory does.
#[derive(Drop)]
pub struct Index {
    alloc: Global,
    entries: Paged<Entry>,
    spent: bool,
}

impl Model for Index {
    ghost use Rattle.column_index.specs.Seen.{IsSound, Seen, seen_code};

    ghost Value = { Seen };

    ghost coded = { seen_code };

    ghost view = { λ i. record { entries = i.entries; spent = i.spent } };

    ghost invariant = { λ i. IsSound i.entries i.spent };
}

impl Index {
    /// No entries. It takes no memory.
    pub fn new(alloc: Global) -> Index
        ensures { result ≡ index_of [] }
    {
        Index {
            alloc,
            entries: Paged::new(alloc),
            spent: false,
        }
    }

    /// What is left after want of memory.
    fn gone(alloc: Global) -> Index
        ensures { result ≡ spent_index }
    {
        Index {
            alloc,
            entries: Paged::new(alloc),
            spent: true,
        }
    }

    /// How many entries it has.
    pub fn len(&self) -> usize
        ensures count { result ≡ length self.now.entries }
        ensures ordered { IsOrdered self.now.entries }
        ensures spent { self.now.spent ≡ true → self.now.entries ≡ [] }
    {
        self.entries.len()
    }

    /// The entry at a place in the order: `None` exactly where there is no such place.
    pub fn at(&self, place: usize) -> Option<Entry>
        ensures { result ≡ slice_get self.now.entries place }
    {
        entry_at(&self.entries, place)
    }

    /// Adds an entry that isn't there.
    pub fn insert(&mut self, entry: Entry) -> Result<(), OutOfMemory>
        requires { holds_entry entry self.old.entries ≡ false }
        ensures ok { OnOk result (self.new ≡ index_of (put entry self.old.entries)) }
        ensures err { OnErr result (self.new ≡ spent_index) }
        ensures refused { self.old.spent ≡ true → IsErr result }
    {
        if self.spent {
            return Err(OutOfMemory);
        }
        match put_entry(&mut self.entries, entry) {
            Ok(()) => Ok(()),
            Err(error) => {
                *self = Index::gone(self.alloc);
                Err(error)
            }
        }
    }

    /// Takes an entry out: `false` exactly where it isn't there.
    pub fn remove(&mut self, entry: Entry) -> Result<bool, OutOfMemory>
        ensures found { IfOk result (λ found. found ≡ holds_entry entry self.old.entries) }
        ensures ok { OnOk result (self.new ≡ index_of (without entry self.old.entries)) }
        ensures err { OnErr result (self.new ≡ spent_index) }
        ensures refused { self.old.spent ≡ true → IsErr result }
    {
        if self.spent {
            return Err(OutOfMemory);
        }
        match take_entry(&mut self.entries, entry) {
            Ok(found) => Ok(found),
            Err(error) => {
                *self = Index::gone(self.alloc);
                Err(error)
            }
        }
    }

    /// Where the entries with codes from `low` to `high` begin, and where they end: at the same place if there are none.
    pub fn range(&self, low: u64, high: u64) -> (usize, usize)
        ensures ends { result ≡ range_of low high (codes_in self.now.entries) }
        ensures parts { IsRange low high self.now.entries result.0 result.1 }
    {
        let first = first_of(&self.entries, low);
        let end = end_of(&self.entries, high);
        (first, later(first, end))
    }

    /// How many entries have codes from `low` to `high`.
    pub fn count(&self, low: u64, high: u64) -> usize
        ensures { result ≡ count_between low high self.now.entries }
    {
        let (first, end) = self.range(low, high);
        end - first
    }

    /// Gives the entries of moved codes their new ones. The old codes must increase, and the codes of the index must stay in
    /// their order. Only entries of moved codes are touched.
    pub fn remap(&mut self, moved: &[Recode]) -> Result<(), OutOfMemory>
        requires olds { IsIncreasing (map (λ pair. pair.old) moved.now) }
        requires in_order { KeepsOrder (new_code moved.now) (codes_in self.old.entries) }
        ensures ok { OnOk result (self.new ≡ index_of (map (recoded (new_code moved.now)) self.old.entries)) }
        ensures err { OnErr result (self.new ≡ spent_index) }
        ensures refused { self.old.spent ≡ true → IsErr result }
    {
        if self.spent {
            return Err(OutOfMemory);
        }
        match move_codes(&mut self.entries, moved) {
            Ok(()) => Ok(()),
            Err(error) => {
                *self = Index::gone(self.alloc);
                Err(error)
            }
        }
    }

    /// A second index with the same entries. It costs one link. A spent index has no copy: the answer is `OutOfMemory`.
    pub fn copy(&self) -> Result<Index, OutOfMemory>
        ensures ok { IfOk result (λ copy. copy ≡ index_of self.now.entries) }
        ensures refused { self.now.spent ≡ true → IsErr result }
    {
        if self.spent {
            return Err(OutOfMemory);
        }
        match self.entries.share() {
            Ok(entries) => Ok(Index {
                alloc: self.alloc,
                entries,
                spent: false,
            }),
            Err(_) => Err(OutOfMemory),
        }
    }
}

/// The later of two places.
fn later(place: usize, other: usize) -> usize
    ensures { result ≡ max place other }
{
    if place < other { other } else { place }
}
