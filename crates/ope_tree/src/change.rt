//! What an operation did to the codes of a tree's items.
ghost use Rattle.code_changes.specs.Normal.{IsNormal};
ghost use Rattle.std.specs.Prelude.{◌≡◌, map};
ghost use Rattle.tree_model.specs.Places.{IsIncreasing};

use path_code::Recode;
use std::marker::Model;

/// The pairs of old and new codes of the items that stay under another code, the codes that were given up, and the codes of new
/// items. Each list increases, the pairs by their old codes and by their new ones; no code that was given up is the old code of
/// a pair, and each pair has two codes.
#[derive(Drop)]
pub struct Change {
    moved: Vec<Recode>,
    dropped: Vec<u64>,
    added: Vec<u64>,
}

impl Model for Change {
    ghost use Rattle.code_changes.specs.Normal.{IsNormal};
    ghost use Rattle.path_code.specs.Sums.{Sum};

    ghost Value = { Sum };

    ghost view = { λ c. record { moved = c.moved.items; dropped = c.dropped.items; added = c.added.items } };

    ghost invariant = { λ c. IsNormal (record { moved = c.moved.items; dropped = c.dropped.items; added = c.added.items }) };
}

impl Change {
    /// The change of these lists, which must be in normal form.
    pub(crate) fn of(moved: Vec<Recode>, dropped: Vec<u64>, added: Vec<u64>) -> Change
        requires { IsNormal (record { moved = moved.items; dropped = dropped.items; added = added.items }) }
        ensures { result ≡ record { moved = moved.items; dropped = dropped.items; added = added.items } }
    {
        Change {
            moved,
            dropped,
            added,
        }
    }

    /// The pairs of codes of the items that stay under another code.
    pub fn moved(&self) -> &[Recode]
        ensures value { result.now ≡ self.now.moved }
        ensures normal { IsNormal self.now }
        ensures old_increase { IsIncreasing (map (λ r. r.old) result.now) }
        ensures new_increase { IsIncreasing (map (λ r. r.new) result.now) }
    {
        self.moved.as_slice()
    }

    /// The codes that were given up.
    pub fn dropped(&self) -> &[u64]
        ensures value { result.now ≡ self.now.dropped }
        ensures increase { IsIncreasing result.now }
    {
        self.dropped.as_slice()
    }

    /// The codes of new items.
    pub fn added(&self) -> &[u64]
        ensures value { result.now ≡ self.now.added }
        ensures increase { IsIncreasing result.now }
    {
        self.added.as_slice()
    }
}
