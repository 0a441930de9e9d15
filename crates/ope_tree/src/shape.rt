//! The numbers of a tree beside its nodes.

/// Which of the nodes are a tree, and what is known of its items.
#[derive(Clone, Copy)]
pub struct Shape {
    /// The link to its root.
    pub root: Option<u32>,
    /// How many items have rows.
    pub alive: u32,
    /// The greatest number of items since the whole tree was last balanced.
    pub most: u32,
}
