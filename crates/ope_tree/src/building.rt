//! New trees over an arena's.
ghost use Rattle.ope_tree.specs.Built.{IsBuilt};
ghost use Rattle.ope_tree.specs.Nodes.{FitsAfter, IsLink, item_of, items_of_entries, tree_of};
ghost use Rattle.std.specs.Prelude.{◌≡◌, ◌++◌, IfOk, OnOk};
ghost use Rattle.tree_model.specs.Trees.{balanced, inorder, node, size};

use crate::arena::Arena;
use crate::nodes::{Entry, Node};
use mope_base::OutOfMemory;

/// How many items the tree of a link has.
#[tactic(auto, unfolding(crate::specs::Nodes::IsLink))]
pub fn size_of(nodes: &Arena, link: Option<u32>) -> u32
    requires { IsLink nodes.now link }
    ensures { result ≡ size (tree_of nodes.now link) }
{
    match link {
        None => 0,
        Some(at) => nodes.get(at).size,
    }
}

/// A node put after the others, where it must fit.
pub fn add_node(nodes: &mut Arena, top: Node) -> Result<Option<u32>, OutOfMemory>
    requires { FitsAfter nodes.old top }
    ensures { IfOk result (λ link. IsBuilt nodes.old nodes.new link (node (tree_of nodes.old top.left) (item_of top.entry) (tree_of nodes.old top.right))) }
{
    let at = nodes.push(top)?;
    Ok(Some(at))
}

/// A node over two trees. 2^32 items are want of memory.
pub fn join(
    nodes: &mut Arena,
    left: Option<u32>,
    entry: Entry,
    right: Option<u32>,
) -> Result<Option<u32>, OutOfMemory>
    requires left { IsLink nodes.old left }
    requires right { IsLink nodes.old right }
    ensures { IfOk result (λ link. IsBuilt nodes.old nodes.new link (node (tree_of nodes.old left) (item_of entry) (tree_of nodes.old right))) }
{
    let before = size_of(nodes, left);
    let after = size_of(nodes, right);
    let Some(beside) = before.checked_add(after) else {
        return Err(OutOfMemory);
    };
    let Some(size) = beside.checked_add(1) else {
        return Err(OutOfMemory);
    };
    let joined = Node {
        left,
        right,
        size,
        before,
        entry,
    };
    let at = nodes.push(joined)?;
    Ok(Some(at))
}

/// The balanced tree of these items; 2^32 items are want of memory. It is built from its leaves up, since a node stands after
/// its children; so it has no use for a list of links in which a right child stands after its parent, as
/// `scapegoat::balanced_links` makes.
pub fn balance(nodes: &mut Arena, entries: &[Entry]) -> Result<Option<u32>, OutOfMemory>
    ensures { IfOk result (λ link. IsBuilt nodes.old nodes.new link (balanced (items_of_entries entries.now))) }
{
    if entries.is_empty() {
        return Ok(None);
    }
    let Ok(size) = u32::try_from(entries.len()) else {
        return Err(OutOfMemory);
    };
    let half = entries.len() / 2;
    let left = balance(nodes, &entries[..half])?;
    let right = balance(nodes, &entries[half + 1..])?;
    let whole = Node {
        left,
        right,
        size,
        before: size / 2,
        entry: entries[half],
    };
    let link = add_node(nodes, whole)?;
    Ok(link)
}

/// Appends the items of a tree in order.
pub fn collect(
    nodes: &Arena,
    link: Option<u32>,
    entries: &mut Vec<Entry>,
) -> Result<(), OutOfMemory>
    requires { IsLink nodes.now link }
    ensures { OnOk result (items_of_entries entries.new.items ≡ items_of_entries entries.old.items ++ inorder (tree_of nodes.now link)) }
{
    let Some(at) = link else {
        return Ok(());
    };
    let node = nodes.get(at);
    collect(nodes, node.left, entries)?;
    entries.push(node.entry)?;
    collect(nodes, node.right, entries)?;
    Ok(())
}
