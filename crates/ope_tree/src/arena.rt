//! A list of nodes that only grows, in which each node stands after its children, and whose pages other lists may share.
ghost use Rattle.ope_tree.specs.Nodes.{FitsAfter, IsNodeAt};
ghost use Rattle.std.specs.Prelude.{◌≡◌, ◌<◌, [], ◌∷◌, length, IfOk, OnErr};

use crate::nodes::Node;
use cow_pages::Paged;
use mope_base::OutOfMemory;
use std::alloc::Global;
use std::marker::Model;

/// Nodes that are never changed, seen as their list, newest first. A node's number is how many are older; its children are
/// older than it, and its numbers of items are those of its tree and of its left one.
#[derive(Drop)]
pub struct Arena {
    alloc: Global,
    nodes: Paged<Node>,
}

impl Model for Arena {
    ghost use Rattle.ope_tree.specs.Nodes.{Fits};
    ghost use Rattle.ope_tree.specs.declared.nodes.Node.{Node};
    ghost use Rattle.std.specs.Prelude.{List, reverse};

    ghost Value = { List Node };

    ghost view = { λ a. reverse a.nodes };

    ghost invariant = { λ a. Fits (reverse a.nodes) };
}

impl Arena {
    /// No nodes. It takes no memory.
    pub fn new(alloc: Global) -> Arena
        ensures { result ≡ [] }
    {
        Arena {
            alloc,
            nodes: Paged::new(alloc),
        }
    }

    /// No nodes, from the same allocator. It takes no memory.
    pub fn fresh(&self) -> Arena
        ensures { result ≡ [] }
    {
        Arena::new(self.alloc)
    }

    pub fn allocator(&self) -> Global {
        self.alloc
    }

    pub fn len(&self) -> usize
        ensures { result ≡ length self.now }
    {
        self.nodes.len()
    }

    /// The node of this number.
    pub fn get(&self, at: u32) -> Node
        requires { at < length self.now }
        ensures { IsNodeAt self.now at result }
    {
        self.nodes.run_at(at as usize)[0]
    }

    /// Puts a node after the others; its number is how many they are. It must fit after them. Numbers from 2^32 on are
    /// want of memory.
    pub fn push(&mut self, node: Node) -> Result<u32, OutOfMemory>
        requires { FitsAfter self.old node }
        ensures pushed { IfOk result (λ at. self.new ≡ node ∷ self.old) }
        ensures number { IfOk result (λ at. at ≡ length self.old) }
        ensures err { OnErr result (self.new ≡ self.old) }
    {
        let Ok(at) = u32::try_from(self.nodes.len()) else {
            return Err(OutOfMemory);
        };
        match self.nodes.push(node) {
            Ok(()) => Ok(at),
            Err(_) => Err(OutOfMemory),
        }
    }

    /// A second list with the same nodes, which shares all pages with this one. It costs one link.
    pub fn share(&self) -> Result<Arena, OutOfMemory>
        ensures { IfOk result (λ arena. arena ≡ self.now) }
    {
        match self.nodes.share() {
            Ok(nodes) => Ok(Arena {
                alloc: self.alloc,
                nodes,
            }),
            Err(_) => Err(OutOfMemory),
        }
    }
}
