//! The tree itself, and its numbers.
ghost use Rattle.ope_tree.specs.Seen.{IsShape, empty_seen, seen_of};
ghost use Rattle.std.specs.Prelude.{◌≡◌, ◌≤◌, ◌↔◌, IfOk, IsErr, false, true};
ghost use Rattle.tree_model.specs.ColumnLaws.{IsKept};
ghost use Rattle.tree_model.specs.Columns.{items_of};
ghost use Rattle.tree_model.specs.Items.{live};
ghost use Rattle.tree_model.specs.Trees.{height, size};
ghost use Rattle.mope_base.specs.declared.body.Body.{Body};

use crate::arena::Arena;
use crate::building::size_of;
use crate::shape::Shape;
use mope_base::OutOfMemory;
use std::alloc::Global;
use std::marker::Model;
use std::mem;

/// A search tree of items, each a sealed value and how many rows have it.
///
/// Contracts see its column, the names of its nodes, and whether it is spent: after want of memory it is empty, and each later
/// call that can answer want of memory does.
#[derive(Drop)]
pub struct Tree {
    pub(crate) nodes: Arena,
    pub(crate) shape: Shape,
    pub(crate) spent: bool,
}

impl Model for Tree {
    ghost use Rattle.ope_tree.specs.Seen.{IsSound, Seen, seen_code, seen_of};

    ghost Value = { Seen };

    ghost coded = { seen_code };

    ghost view = { λ t. seen_of t.nodes t.shape.root t.shape.most t.spent };

    ghost invariant = { λ t. IsSound t.nodes t.shape.root t.shape.alive t.shape.most t.spent };
}

impl Tree {
    /// No items, and 0 as the greatest number of them. It takes no memory.
    pub fn new(alloc: Global) -> Tree
        ensures { result ≡ empty_seen false }
    {
        Tree::empty(alloc, false)
    }

    /// How many items it has.
    pub fn len(&self) -> u32
        ensures value { result ≡ size self.now.column.tree }
        ensures kept { IsKept Body self.now.column }
        ensures short { height self.now.column.tree ≤ 63 }
    {
        size_of(&self.nodes, self.shape.root)
    }

    /// How many items have rows.
    pub fn live(&self) -> u32
        ensures { result ≡ live (items_of self.now.column) }
    {
        self.shape.alive
    }

    /// The greatest number of items since the whole tree was last balanced.
    pub fn max(&self) -> u32
        ensures { result ≡ self.now.column.most }
    {
        self.shape.most
    }

    // No items, and whether it is spent.
    fn empty(alloc: Global, spent: bool) -> Tree
        ensures { result ≡ empty_seen spent }
    {
        Tree {
            nodes: Arena::new(alloc),
            shape: Shape {
                root: None,
                alive: 0,
                most: 0,
            },
            spent,
        }
    }

    /// The tree of a shape over these nodes.
    pub(crate) fn of(nodes: Arena, shape: Shape) -> Tree
        requires { IsShape nodes shape }
        ensures { result ≡ seen_of nodes shape.root shape.most false }
    {
        Tree {
            nodes,
            shape,
            spent: false,
        }
    }

    /// Takes the nodes and the shape out for an operation, and leaves what is to stay if that wants memory: a spent tree. It
    /// answers `OutOfMemory` exactly where the tree is spent.
    pub(crate) fn take(&mut self) -> Result<(Arena, Shape), OutOfMemory>
        ensures shape { IfOk result (λ taken. IsShape taken.0 taken.1) }
        ensures seen { IfOk result (λ taken. seen_of taken.0 taken.1.root taken.1.most false ≡ self.old) }
        ensures refused { IsErr result ↔ (self.old.spent ≡ true) }
        ensures left { self.new ≡ empty_seen true }
    {
        let alloc = self.nodes.allocator();
        let tree = mem::replace(self, Tree::empty(alloc, true));
        if tree.spent {
            return Err(OutOfMemory);
        }
        Ok((tree.nodes, tree.shape))
    }
}
