//! An item taken out of a tree.
ghost use Rattle.code_changes.specs.Removal.{removal_sum};
ghost use Rattle.ope_tree.specs.Built.{IsBuilt};
ghost use Rattle.ope_tree.specs.Nodes.{IsLink, item_of, tree_of};
ghost use Rattle.std.specs.Prelude.{◌≡◌, ◌<◌, ◌≤◌, IfOk};
ghost use Rattle.tree_model.specs.Removal.{first_or, joined, remove_tree, without_first};
ghost use Rattle.tree_model.specs.Trees.{height, size};

use crate::arena::Arena;
use crate::building::join;
use crate::change::Change;
use crate::done::Done;
use crate::moving::removal_moved;
use crate::nodes::Entry;
use crate::shape::Shape;
use crate::ways::path_to;
use mope_base::OutOfMemory;
use path_code::{code, root as root_path};
use tree_model::Place;

/// The first item of the tree of a link, and another where the tree is empty.
fn first_or(nodes: &Arena, link: Option<u32>, otherwise: Entry) -> Entry
    requires { IsLink nodes.now link }
    ensures { item_of result ≡ first_or (item_of otherwise) (tree_of nodes.now link) }
{
    let Some(at) = link else {
        return otherwise;
    };
    let node = nodes.get(at);
    first_or(nodes, node.left, node.entry)
}

/// An item between two trees without the first item of all of these. That one's right tree moves up.
fn remove_first(
    nodes: &mut Arena,
    left: Option<u32>,
    entry: Entry,
    right: Option<u32>,
) -> Result<Option<u32>, OutOfMemory>
    requires left { IsLink nodes.old left }
    requires right { IsLink nodes.old right }
    ensures { IfOk result (λ rest. IsBuilt nodes.old nodes.new rest (without_first (tree_of nodes.old left) (item_of entry) (tree_of nodes.old right))) }
{
    let Some(at) = left else {
        return Ok(right);
    };
    let node = nodes.get(at);
    let lower = remove_first(nodes, node.left, node.entry, node.right)?;
    let rest = join(nodes, lower, entry, right)?;
    Ok(rest)
}

/// The trees on the two sides of an item that goes, as one tree: the only one, or both under the first item of the right one.
fn join_sides(
    nodes: &mut Arena,
    left: Option<u32>,
    right: Option<u32>,
) -> Result<Option<u32>, OutOfMemory>
    requires left { IsLink nodes.old left }
    requires right { IsLink nodes.old right }
    ensures { IfOk result (λ link. IsBuilt nodes.old nodes.new link (joined (tree_of nodes.old left) (tree_of nodes.old right))) }
{
    let Some(_) = left else {
        return Ok(right);
    };
    let Some(at) = right else {
        return Ok(left);
    };
    let node = nodes.get(at);
    let first = first_or(nodes, node.left, node.entry);
    let rest = remove_first(nodes, node.left, node.entry, node.right)?;
    let link = join(nodes, left, first, rest)?;
    Ok(link)
}

/// The tree of a link without the item of a rank.
fn remove_item(nodes: &mut Arena, link: Option<u32>, rank: u32) -> Result<Option<u32>, OutOfMemory>
    requires { IsLink nodes.old link }
    ensures { IfOk result (λ fewer. IsBuilt nodes.old nodes.new fewer (remove_tree (tree_of nodes.old link) rank)) }
{
    let Some(at) = link else {
        return Ok(None);
    };
    let node = nodes.get(at);
    let before = node.before;
    if rank < before {
        let left = remove_item(nodes, node.left, rank)?;
        let fewer = join(nodes, left, node.entry, node.right)?;
        return Ok(fewer);
    }
    if before < rank {
        let right = remove_item(nodes, node.right, rank - before - 1)?;
        let fewer = join(nodes, node.left, node.entry, right)?;
        return Ok(fewer);
    }
    let fewer = join_sides(nodes, node.left, node.right)?;
    Ok(fewer)
}

/// A tree without the item of a rank, which has no rows. Only the codes of the
/// part that moves up are computed.
pub fn take_out(nodes: &mut Arena, shape: Shape, rank: u32) -> Result<Done, OutOfMemory>
    requires link { IsLink nodes.old shape.root }
    requires short { height (tree_of nodes.old shape.root) ≤ 63 }
    requires is_rank { rank < size (tree_of nodes.old shape.root) }
    ensures link { IfOk result (λ done. IsLink nodes.new done.shape.root) }
    ensures tree { IfOk result (λ done. tree_of nodes.new done.shape.root ≡ remove_tree (tree_of nodes.old shape.root) rank) }
    ensures alive { IfOk result (λ done. done.shape.alive ≡ shape.alive) }
    ensures most { IfOk result (λ done. done.shape.most ≡ shape.most) }
    ensures change { IfOk result (λ done. done.change ≡ removal_sum (tree_of nodes.old shape.root) rank) }
{
    let alloc = nodes.allocator();
    let moved = removal_moved(nodes, shape.root, root_path(), rank)?;
    let mut dropped = Vec::new(alloc);
    let path = path_to(nodes, shape.root, Place::Found(rank), root_path());
    dropped.push(code(path))?;
    let root = remove_item(nodes, shape.root, rank)?;
    Ok(Done {
        shape: Shape { root, ..shape },
        change: Change::of(moved, dropped, Vec::new(alloc)),
    })
}
