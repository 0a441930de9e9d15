//! What the server's search trees are and how a place in one is told: definitions and laws on which the crates above stand.
#![tactic(auto)]

pub mod column_laws;
pub mod laws;
pub mod part_laws;
pub mod row_laws;
pub mod tally_laws;

/// One step down a binary search tree, to the subtree of the smaller or of the greater items.
#[derive(Clone, Copy, PartialEq, Eq, Debug)]
pub enum Side {
    Left,
    Right,
}

/// Where a value stands among the items of an increasing list.
#[derive(Clone, Copy, PartialEq, Eq, Debug)]
pub enum Place {
    /// At the item of this rank, counted from 0.
    Found(u32),
    /// Between two items, after so many of them.
    Gap(u32),
}
