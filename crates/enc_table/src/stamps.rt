//! When a table was last changed.
/// The numbers of the versions that last changed a table: its rows (`written`), and the form of a tree of it alone (`laid`).
/// Both are 0 at first.
#[derive(Clone, Copy, PartialEq, Eq, Debug)]
pub struct Stamps {
    pub written: u64,
    pub laid: u64,
}
