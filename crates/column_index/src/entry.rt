//! Entries of an index.
ghost use Rattle.column_index.specs.Entries.{is_same, precedes};
ghost use Rattle.std.specs.Prelude.{◌≡◌};

/// A row of a column: the code of its value, and its number.
#[derive(Clone, Copy, PartialEq, Eq, Debug)]
pub struct Entry {
    pub enc: u64,
    pub row: u64,
}

impl Entry {
    /// Whether it stands before another one: by code, and by row where the codes are equal.
    pub fn precedes(&self, other: &Entry) -> bool
        ensures { result ≡ precedes self.now other.now }
    {
        self.enc < other.enc || (self.enc == other.enc && self.row < other.row)
    }

    /// Whether it is the other one.
    pub fn is_same(&self, other: &Entry) -> bool
        ensures { result ≡ is_same self.now other.now }
    {
        self.enc == other.enc && self.row == other.row
    }
}
