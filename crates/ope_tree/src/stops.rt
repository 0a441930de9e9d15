//! A walk down the tree, node after node.
ghost use Rattle.ope_tree.specs.Standing.{IsNamed, IsStopOf, StandsAt};
ghost use Rattle.ope_tree.specs.Nodes.{IsLink};
ghost use Rattle.std.specs.Prelude.{◌≤◌, List, [], ◌∷◌, ◌++◌};
ghost use Rattle.tree_model.specs.Trees.{height};
ghost use Rattle.tree_model.specs.declared.Side.{Side};

use crate::Tree;
use crate::arena::Arena;
use mope_base::Body;
use tree_model::Side;

/// The name of a node. It holds until the tree is changed.
#[derive(Clone, Copy, PartialEq, Eq, Debug)]
pub struct At(pub u32);

/// What stands at the end of a way down the tree.
#[derive(Clone, Copy, PartialEq, Eq, Debug)]
pub enum Stop {
    /// A node, and the sealed value of its item.
    Node(At, Body),
    /// Nothing.
    Gap,
}

/// What stands at the tree of a link.
pub fn stop_of(nodes: &Arena, link: Option<u32>) -> Stop
    requires { IsLink nodes.now link }
    ensures { IsStopOf nodes.now link result }
{
    match link {
        None => Stop::Gap,
        Some(at) => Stop::Node(At(at), nodes.get(at).entry.body),
    }
}

impl Tree {
    /// What stands at the root: `Gap` exactly where the tree is empty.
    pub fn root(&self) -> Stop
        ensures stops { StandsAt self.now [] result }
        ensures short { height self.now.column.tree ≤ 63 }
    {
        stop_of(&self.nodes, self.shape.root)
    }

    /// What stands on one side of a node: `Gap` exactly where nothing does. The name must be that of a node of this tree.
    pub fn turn(&self, at: At, side: Side) -> Stop
        requires { (way : List Side) × IsNamed self.now way at.0 }
        ensures { (way : List Side) → IsNamed self.now way at.0 → StandsAt self.now (way ++ side ∷ []) result }
    {
        let node = self.nodes.get(at.0);
        match side {
            Side::Left => stop_of(&self.nodes, node.left),
            Side::Right => stop_of(&self.nodes, node.right),
        }
    }
}
