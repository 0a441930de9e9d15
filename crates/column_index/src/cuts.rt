//! Where an index is cut in two.
ghost use Rattle.std.specs.Prelude.{◌≡◌};

use crate::entry::Entry;
use cow_pages::Cut;

/// The cut before an entry, or before those after it.
#[derive(Drop)]
pub struct BeforeEntry(pub Entry);

impl Cut<Entry> for BeforeEntry {
    ghost use Rattle.column_index.specs.Entries.{precedes};

    ghost before = { λ cut x. precedes x cut.0 };

    fn is_before(&self, item: &Entry) -> bool {
        item.precedes(&self.0)
    }
}

/// The cut before the entries with at least this code.
#[derive(Drop)]
pub struct BeforeCode(pub u64);

impl Cut<Entry> for BeforeCode {
    ghost use Rattle.std.specs.Prelude.{nat_lt};

    ghost before = { λ cut x. nat_lt x.enc cut.0 };

    fn is_before(&self, item: &Entry) -> bool {
        item.enc < self.0
    }
}

/// The cut after the entries with at most this code.
#[derive(Drop)]
pub struct AfterCode(pub u64);

impl Cut<Entry> for AfterCode {
    ghost use Rattle.std.specs.Prelude.{nat_lt, ◌+◌};

    ghost before = { λ cut x. nat_lt x.enc (cut.0 + 1) };

    fn is_before(&self, item: &Entry) -> bool {
        item.enc <= self.0
    }
}
