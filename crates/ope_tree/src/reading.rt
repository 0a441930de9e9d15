//! Items and codes by their places.
ghost use Rattle.ope_tree.specs.Conditions.{paired};
ghost use Rattle.ope_tree.specs.Nodes.{IsLink, item_of, tree_of};
ghost use Rattle.path_code.specs.Laws.{code_in};
ghost use Rattle.std.specs.Option.{option_map};
ghost use Rattle.std.specs.Prelude.{◌≡◌, ◌≤◌, slice_get, SomeIff};
ghost use Rattle.tree_model.specs.Columns.{items_of};
ghost use Rattle.tree_model.specs.Trees.{IsPlaceOf, height, inorder, size};

use crate::Tree;
use crate::arena::Arena;
use crate::nodes::Entry;
use crate::ways::{is_place, path_to};
use mope_base::Body;
use path_code::{code, root};
use tree_model::Place;

/// The item of a rank of the tree of a link.
pub fn entry_at(nodes: &Arena, link: Option<u32>, rank: u32) -> Option<Entry>
    requires { IsLink nodes.now link }
    ensures { slice_get (inorder (tree_of nodes.now link)) rank ≡ option_map item_of result }
{
    let Some(at) = link else {
        return None;
    };
    let node = nodes.get(at);
    let before = node.before;
    if rank < before {
        return entry_at(nodes, node.left, rank);
    }
    if before < rank {
        return entry_at(nodes, node.right, rank - before - 1);
    }
    Some(node.entry)
}

impl Tree {
    /// The body and the count of the item of a rank. None exactly where there are no more items than that.
    pub fn item(&self, rank: u32) -> Option<(Body, u32)>
        ensures { slice_get (items_of self.now.column) rank ≡ option_map paired result }
    {
        match entry_at(&self.nodes, self.shape.root, rank) {
            None => None,
            Some(entry) => Some((entry.body, entry.count)),
        }
    }

    /// The code of a place. None exactly where the tree has no such item or gap.
    pub fn code_of(&self, place: Place) -> Option<u64>
        ensures value { SomeIff result (IsPlaceOf (size self.now.column.tree) place) (code_in self.now.column.tree place) }
        ensures short { height self.now.column.tree ≤ 63 }
    {
        if !is_place(self.len(), place) {
            return None;
        }
        Some(code(path_to(&self.nodes, self.shape.root, place, root())))
    }
}
