//! The part of a tree that becomes balanced after an insertion, and what that does to its codes.
ghost use Rattle.ope_tree.specs.Built.{IsBuilt};
ghost use Rattle.code_changes.specs.Removal.{codes_along};
ghost use Rattle.ope_tree.specs.Nodes.{IsLink, tree_of};
ghost use Rattle.ope_tree.specs.Settling.{IsMovedIn, IsPartOf, added_in, moved_in, tall_depth};
ghost use Rattle.path_code.specs.Ways.{way};
ghost use Rattle.std.specs.Prelude.{◌≡◌, ◌+◌, ◌<◌, ◌≤◌, ◌++◌, ◌^◌, get_or, length, remove, reverse, take, IfOk, OnOk};
ghost use Rattle.tree_model.specs.Balance.{limit};
ghost use Rattle.tree_model.specs.Insertion.{balanced_at, put_at, scapegoat_way, sizes_along, tree_at};
ghost use Rattle.tree_model.specs.Trees.{balanced, height, inorder, path, size};
ghost use Rattle.tree_model.specs.declared.Place.TheVariants.{Found};

use crate::arena::Arena;
use crate::building::{add_node, balance, collect};
use crate::coding::{differing, push_codes};
use crate::nodes::Node;
use mope_base::OutOfMemory;
use path_code::{Path, Recode, child, root};
use scapegoat::pick;
use tree_model::Side;

/// A part of a tree: the link to it, its path, and the rank that an item of the whole has in it.
#[derive(Clone, Copy)]
pub struct Part {
    pub link: Option<u32>,
    pub path: Path,
    pub rank: u32,
}

/// A tree of which a part became balanced: its root, the pairs of codes of its items that differ, and the code of the new item.
#[derive(Drop)]
pub struct Rebuilt {
    pub root: Option<u32>,
    pub moved: Vec<Recode>,
    pub added: u64,
}

/// The part so many steps further down on the way to the item of its rank.
pub fn part_below(nodes: &Arena, part: Part, depth: u8) -> Part
    requires link { IsLink nodes.now part.link }
    requires short { part.path.len + height (tree_of nodes.now part.link) ≤ 63 }
    requires is_rank { part.rank < size (tree_of nodes.now part.link) }
    ensures { IsPartOf nodes.now part result (take depth (path (tree_of nodes.now part.link) (Found part.rank))) }
{
    let Some(at) = part.link else {
        return part;
    };
    if depth == 0 {
        return part;
    }
    let node = nodes.get(at);
    let before = node.before;
    if part.rank < before {
        let left = Part {
            link: node.left,
            path: child(part.path, Side::Left),
            rank: part.rank,
        };
        return part_below(nodes, left, depth - 1);
    }
    if before < part.rank {
        let right = Part {
            link: node.right,
            path: child(part.path, Side::Right),
            rank: part.rank - before - 1,
        };
        return part_below(nodes, right, depth - 1);
    }
    part
}

/// The tree of a link with another tree of as many items in place of the part so many steps down on the way to the item of a
/// rank.
pub fn put_part(
    nodes: &mut Arena,
    link: Option<u32>,
    rank: u32,
    depth: u8,
    part: Option<u32>,
) -> Result<Option<u32>, OutOfMemory>
    requires link { IsLink nodes.old link }
    requires part { IsLink nodes.old part }
    requires same { size (tree_of nodes.old part) ≡ size (tree_at (take depth (path (tree_of nodes.old link) (Found rank))) (tree_of nodes.old link)) }
    ensures { IfOk result (λ whole. IsBuilt nodes.old nodes.new whole (put_at (take depth (path (tree_of nodes.old link) (Found rank))) (tree_of nodes.old link) (tree_of nodes.old part))) }
{
    let Some(at) = link else {
        return Ok(part);
    };
    if depth == 0 {
        return Ok(part);
    }
    let node = nodes.get(at);
    let before = node.before;
    if rank < before {
        let left = put_part(nodes, node.left, rank, depth - 1, part)?;
        let whole = add_node(nodes, Node { left, ..node })?;
        return Ok(whole);
    }
    if before < rank {
        let right = put_part(nodes, node.right, rank - before - 1, depth - 1, part)?;
        let whole = add_node(nodes, Node { right, ..node })?;
        return Ok(whole);
    }
    Ok(part)
}

/// Appends how many items have the trees of the ancestors of the item of a rank, from its parent up.
pub fn push_sizes(
    nodes: &Arena,
    link: Option<u32>,
    rank: u32,
    sizes: &mut Vec<u64>,
) -> Result<(), OutOfMemory>
    requires { IsLink nodes.now link }
    ensures { OnOk result (sizes.new.items ≡ sizes.old.items ++ reverse (sizes_along (path (tree_of nodes.now link) (Found rank)) (tree_of nodes.now link))) }
{
    let Some(at) = link else {
        return Ok(());
    };
    let node = nodes.get(at);
    let before = node.before;
    if rank < before {
        push_sizes(nodes, node.left, rank, sizes)?;
        sizes.push(u64::from(node.size))?;
        return Ok(());
    }
    if before < rank {
        push_sizes(nodes, node.right, rank - before - 1, sizes)?;
        sizes.push(u64::from(node.size))?;
        return Ok(());
    }
    Ok(())
}

/// How many steps down from the root the nearest ancestor of the item of a rank stands whose tree is too tall for its
/// items. The item must stand deeper than the limit of `most` items.
pub fn depth_of_tall(
    nodes: &Arena,
    link: Option<u32>,
    rank: u32,
    most: u64,
) -> Result<u8, OutOfMemory>
    requires link { IsLink nodes.now link }
    requires is_rank { rank < size (tree_of nodes.now link) }
    requires short { height (tree_of nodes.now link) ≤ 63 }
    requires few { size (tree_of nodes.now link) ≤ most }
    requires fits { most ≤ 2 ^ 32 }
    requires deep { limit most < length (path (tree_of nodes.now link) (Found rank)) }
    ensures { IfOk result (λ depth. depth ≡ tall_depth (tree_of nodes.now link) rank) }
{
    let mut sizes = Vec::new(nodes.allocator());
    push_sizes(nodes, link, rank, &mut sizes)?;
    let above = pick(&sizes);
    Ok((sizes.len() - above - 1) as u8)
}

/// The codes of a part's items in order, but for that of a rank, and that one's.
#[derive(Drop)]
struct Parted {
    others: Vec<u64>,
    own: u64,
}

fn parted_codes(
    nodes: &Arena,
    link: Option<u32>,
    path: Path,
    rank: u32,
) -> Result<Parted, OutOfMemory>
    requires link { IsLink nodes.now link }
    requires short { path.len + height (tree_of nodes.now link) ≤ 63 }
    requires is_rank { rank < size (tree_of nodes.now link) }
    ensures others { IfOk result (λ parted. parted.others.items ≡ remove (codes_along (way path) (tree_of nodes.now link)) rank) }
    ensures own { IfOk result (λ parted. parted.own ≡ get_or (codes_along (way path) (tree_of nodes.now link)) rank 0) }
{
    let mut others = Vec::new(nodes.allocator());
    push_codes(nodes, link, path, &mut others)?;
    let own = others.remove(rank as usize);
    Ok(Parted { others, own })
}

/// A part as its balanced tree. The item of its rank is new.
fn balance_part(nodes: &mut Arena, part: Part) -> Result<Rebuilt, OutOfMemory>
    requires link { IsLink nodes.old part.link }
    requires short { part.path.len + height (tree_of nodes.old part.link) ≤ 63 }
    requires is_rank { part.rank < size (tree_of nodes.old part.link) }
    ensures built { IfOk result (λ rebuilt. IsBuilt nodes.old nodes.new rebuilt.root (balanced (inorder (tree_of nodes.old part.link)))) }
    ensures moved { IfOk result (λ rebuilt. rebuilt.moved.items ≡ moved_in (way part.path) (tree_of nodes.old part.link) part.rank) }
    ensures added { IfOk result (λ rebuilt. rebuilt.added ≡ added_in (way part.path) (tree_of nodes.old part.link) part.rank) }
{
    let alloc = nodes.allocator();
    let before = parted_codes(nodes, part.link, part.path, part.rank)?;
    let mut entries = Vec::new(alloc);
    collect(nodes, part.link, &mut entries)?;
    let root = balance(nodes, &entries)?;
    let after = parted_codes(nodes, root, part.path, part.rank)?;
    let moved = differing(alloc, &before.others, &after.others)?;
    Ok(Rebuilt {
        root,
        moved,
        added: after.own,
    })
}

/// The tree of a link with a part balanced: the one so many steps down on the way to the item of a rank, which is new.
pub fn balance_below(
    nodes: &mut Arena,
    link: Option<u32>,
    rank: u32,
    depth: u8,
) -> Result<Rebuilt, OutOfMemory>
    requires link { IsLink nodes.old link }
    requires is_rank { rank < size (tree_of nodes.old link) }
    requires short { height (tree_of nodes.old link) ≤ 63 }
    ensures built { IfOk result (λ rebuilt. IsBuilt nodes.old nodes.new rebuilt.root (balanced_at (take depth (path (tree_of nodes.old link) (Found rank))) (tree_of nodes.old link))) }
    ensures codes { IfOk result (λ rebuilt. IsMovedIn (tree_of nodes.old link) (take depth (path (tree_of nodes.old link) (Found rank))) rank rebuilt.moved.items rebuilt.added) }
{
    let whole = Part {
        link,
        path: root(),
        rank,
    };
    let part = part_below(nodes, whole, depth);
    let balanced = balance_part(nodes, part)?;
    let root = put_part(nodes, link, rank, depth, balanced.root)?;
    Ok(Rebuilt {
        root,
        moved: balanced.moved,
        added: balanced.added,
    })
}

/// The tree of a link, whose item of a rank is new and deeper than the limit of `most` items, with the tree of its nearest
/// ancestor that is too tall for its items balanced.
pub fn balance_tall_part(
    nodes: &mut Arena,
    link: Option<u32>,
    rank: u32,
    most: u64,
) -> Result<Rebuilt, OutOfMemory>
    requires link { IsLink nodes.old link }
    requires is_rank { rank < size (tree_of nodes.old link) }
    requires short { height (tree_of nodes.old link) ≤ 63 }
    requires few { size (tree_of nodes.old link) ≤ most }
    requires fits { most ≤ 2 ^ 32 }
    requires deep { limit most < length (path (tree_of nodes.old link) (Found rank)) }
    ensures built { IfOk result (λ rebuilt. IsBuilt nodes.old nodes.new rebuilt.root (balanced_at (scapegoat_way (path (tree_of nodes.old link) (Found rank)) (tree_of nodes.old link)) (tree_of nodes.old link))) }
    ensures codes { IfOk result (λ rebuilt. IsMovedIn (tree_of nodes.old link) (scapegoat_way (path (tree_of nodes.old link) (Found rank)) (tree_of nodes.old link)) rank rebuilt.moved.items rebuilt.added) }
{
    let depth = depth_of_tall(nodes, link, rank, most)?;
    let rebuilt = balance_below(nodes, link, rank, depth)?;
    Ok(rebuilt)
}
