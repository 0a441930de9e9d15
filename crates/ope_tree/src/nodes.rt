//! Nodes of search trees.
use mope_base::Body;

/// An item: a sealed value, and how many rows have it.
#[derive(Clone, Copy)]
pub struct Entry {
    pub body: Body,
    pub count: u32,
}

/// A node, with the numbers of its children.
#[derive(Clone, Copy)]
pub struct Node {
    pub left: Option<u32>,
    pub right: Option<u32>,
    /// How many items its tree has.
    pub size: u32,
    /// How many of them stand before its own: those of its left tree.
    pub before: u32,
    pub entry: Entry,
}
