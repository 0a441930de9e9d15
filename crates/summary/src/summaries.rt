//! Changes of codes.
ghost use Rattle.code_changes.specs.Changes.{IsIn, applied, list_after, Fits};
ghost use Rattle.code_changes.specs.CompositionLaws.{unchanged};
ghost use Rattle.code_changes.specs.Compositions.{FitsInTurn, applied_both, both_on};
ghost use Rattle.code_changes.specs.Normal.{IsNormal};
ghost use Rattle.std.specs.Prelude.{◌≡◌, ◌↔◌, ℕ, List, Some, None, map, IfOk, IsTrue};
ghost use Rattle.tree_model.specs.Places.{IsIncreasing};

use crate::composing::composed;
use code_changes::{holds, new_code};
use mope_base::OutOfMemory;
use ope_tree::Change;
use path_code::Recode;
use std::alloc::Global;
use std::marker::Model;

/// What some operations on a column did to the codes of its items: the pairs of old and new codes that differ, the codes that were
/// dropped, and the codes of new items. Each list increases, the pairs by their old codes and by their new ones; no dropped code
/// is the old code of a pair, and each pair has two codes.
#[derive(Drop)]
pub struct Summary {
    moved: Vec<Recode>,
    dropped: Vec<u64>,
    added: Vec<u64>,
}

impl Model for Summary {
    ghost use Rattle.code_changes.specs.Normal.{IsNormal};
    ghost use Rattle.path_code.specs.Sums.{Sum};

    ghost Value = { Sum };

    ghost view = { λ s. record { moved = s.moved.items; dropped = s.dropped.items; added = s.added.items } };

    ghost invariant = { λ s. IsNormal (record { moved = s.moved.items; dropped = s.dropped.items; added = s.added.items }) };
}

impl Summary {
    /// The change that leaves all codes. It takes no memory.
    pub fn new(alloc: Global) -> Summary
        ensures { result ≡ unchanged }
    {
        Summary {
            moved: Vec::new(alloc),
            dropped: Vec::new(alloc),
            added: Vec::new(alloc),
        }
    }

    /// The change of one operation on a tree.
    pub fn of_change(alloc: Global, change: &Change) -> Result<Summary, OutOfMemory>
        ensures { IfOk result (λ summary. summary ≡ change.now) }
    {
        let moved = change.moved().to_vec(alloc)?;
        let dropped = change.dropped().to_vec(alloc)?;
        let added = change.added().to_vec(alloc)?;
        Ok(Summary::of(moved, dropped, added))
    }

    /// The change of these lists, which must be in normal form.
    pub(crate) fn of(moved: Vec<Recode>, dropped: Vec<u64>, added: Vec<u64>) -> Summary
        requires { IsNormal (record { moved = moved.items; dropped = dropped.items; added = added.items }) }
        ensures { result ≡ record { moved = moved.items; dropped = dropped.items; added = added.items } }
    {
        Summary {
            moved,
            dropped,
            added,
        }
    }

    /// The allocator of its lists.
    pub(crate) fn allocator(&self) -> Global {
        *self.moved.allocator()
    }

    /// What becomes of a code: None exactly where it is dropped; the new code of a pair that has it as the old one; any other
    /// code itself.
    pub fn apply(&self, enc: u64) -> Option<u64>
        ensures value { result ≡ applied self.now enc }
        ensures dropped { (result ≡ None) ↔ IsIn enc self.now.dropped }
    {
        if holds(&self.dropped, enc) {
            return None;
        }
        Some(new_code(&self.moved, enc))
    }

    /// Both changes in turn as one change. There must be a list of codes that this one fits and after which the next one fits. It
    /// costs what the two changes have, whatever the column has.
    pub fn then(&self, next: &Summary) -> Result<Summary, OutOfMemory>
        requires in_turn { (codes : List ℕ) × FitsInTurn self.now next.now codes }
        ensures both { (codes : List ℕ) → FitsInTurn self.now next.now codes →
            IfOk result (λ both. both ≡ both_on self.now next.now codes) }
        ensures fits { (codes : List ℕ) → FitsInTurn self.now next.now codes → IfOk result (λ both. Fits both codes) }
        ensures after { (codes : List ℕ) → FitsInTurn self.now next.now codes →
            IfOk result (λ both. list_after both codes ≡ list_after next.now (list_after self.now codes)) }
        ensures each { (codes : List ℕ) (code : ℕ) → FitsInTurn self.now next.now codes → IsIn code codes →
            IfOk result (λ both. applied both code ≡ applied_both self.now next.now code) }
        ensures added { IfOk result (λ both. both.added ≡ list_after next.now self.now.added) }
    {
        composed(self, next)
    }

    /// The pairs of old and new codes that differ.
    pub fn moved(&self) -> &[Recode]
        ensures value { result.now ≡ self.now.moved }
        ensures normal { IsNormal self.now }
        ensures old_increase { IsIncreasing (map (λ r. r.old) result.now) }
        ensures new_increase { IsIncreasing (map (λ r. r.new) result.now) }
    {
        self.moved.as_slice()
    }

    /// The codes that were dropped.
    pub fn dropped(&self) -> &[u64]
        ensures value { result.now ≡ self.now.dropped }
        ensures normal { IsNormal self.now }
        ensures increase { IsIncreasing result.now }
    {
        self.dropped.as_slice()
    }

    /// The codes of new items.
    pub fn added(&self) -> &[u64]
        ensures value { result.now ≡ self.now.added }
        ensures normal { IsNormal self.now }
        ensures increase { IsIncreasing result.now }
    {
        self.added.as_slice()
    }

    /// Whether it is the change that leaves all codes.
    pub fn is_empty(&self) -> bool
        ensures { IsTrue result ↔ (self.now ≡ unchanged) }
    {
        self.moved().is_empty() && self.dropped().is_empty() && self.added().is_empty()
    }
}
