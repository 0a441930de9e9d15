//! What an operation hands back to the tree.
use crate::change::Change;
use crate::shape::Shape;

/// The tree after an operation, and what that did to its codes.
#[derive(Drop)]
pub struct Done {
    pub shape: Shape,
    pub change: Change,
}
