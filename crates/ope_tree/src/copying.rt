//! A second tree with the same items, and an arena that has grown large made small again.
ghost use Rattle.ope_tree.specs.Built.{IsBuilt};
ghost use Rattle.ope_tree.specs.Nodes.{IsLink, tree_of};
ghost use Rattle.std.specs.Prelude.{◌≡◌, false, true, IfOk, IsErr};

use crate::Tree;
use crate::arena::Arena;
use crate::building::{add_node, size_of};
use crate::nodes::Node;
use mope_base::OutOfMemory;

/// How many nodes an arena may have for each item. So a copy has a quarter of the nodes that changes have put there since the
/// last one.
const NODES_PER_ITEM: usize = 5;

/// How many more it may have, so that trees of few items aren't copied all the time.
const SPARE: usize = 64;

/// The tree of a link of one arena in another.
fn copy_into(from: &Arena, link: Option<u32>, into: &mut Arena) -> Result<Option<u32>, OutOfMemory>
    requires { IsLink from.now link }
    ensures { IfOk result (λ copy. IsBuilt into.old into.new copy (tree_of from.now link)) }
{
    let Some(at) = link else {
        return Ok(None);
    };
    let node = from.get(at);
    let left = copy_into(from, node.left, into)?;
    let right = copy_into(from, node.right, into)?;
    let copy = Node {
        left,
        right,
        ..node
    };
    add_node(into, copy)
}

/// The tree of a link once more, in an arena that has only its nodes where the old one had far more than it needs.
pub fn compact(nodes: &mut Arena, root: Option<u32>) -> Result<Option<u32>, OutOfMemory>
    requires { IsLink nodes.old root }
    ensures link { IfOk result (λ link. IsLink nodes.new link) }
    ensures same { IfOk result (λ link. tree_of nodes.new link ≡ tree_of nodes.old root) }
{
    if nodes.len() <= NODES_PER_ITEM * size_of(nodes, root) as usize + SPARE {
        return Ok(root);
    }
    let mut fresh = nodes.fresh();
    let link = copy_into(nodes, root, &mut fresh)?;
    *nodes = fresh;
    Ok(link)
}

impl Tree {
    /// A second tree with the same column, which shares its nodes with this one: it costs the same whatever their size, and a
    /// later change of either copies the few pages that it touches. A spent tree has no copy: the answer is `OutOfMemory`.
    pub fn copy(&self) -> Result<Tree, OutOfMemory>
        ensures column { IfOk result (λ copy. copy.column ≡ self.now.column) }
        ensures fresh { IfOk result (λ copy. copy.spent ≡ false) }
        ensures refused { self.now.spent ≡ true → IsErr result }
    {
        if self.spent {
            return Err(OutOfMemory);
        }
        Ok(Tree {
            nodes: self.nodes.share()?,
            shape: self.shape,
            spent: false,
        })
    }
}
