//! Bounds on the codes of a column, and queries by them.
use mope_base::{ColNo, Items};

/// The rows whose codes in a column are from `lo` to `hi`, both included: none where `lo` is above `hi`.
#[derive(Clone, Copy, PartialEq, Eq, Debug)]
pub struct Bound {
    pub column: ColNo,
    pub lo: u64,
    pub hi: u64,
}

/// Which rows are asked: those within each bound; in the order of their numbers, or of the codes in a column, downwards where
/// the flag says so, and equal ones by number; and at most as many as the limit.
#[derive(Debug, Drop)]
pub struct Query {
    pub bounds: Items<Bound>,
    pub order: Option<(ColNo, bool)>,
    pub limit: Option<u64>,
}
