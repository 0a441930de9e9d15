//! What becomes of codes where an item is taken out of a tree, computed on the part that moves up alone.
ghost use Rattle.code_changes.specs.Changes.{differing};
ghost use Rattle.code_changes.specs.Removal.{codes_along, first_moved, joined_moved, removal_moved};
ghost use Rattle.ope_tree.specs.Nodes.{IsLink, tree_of};
ghost use Rattle.path_code.specs.Ways.{way};
ghost use Rattle.path_code.specs.Codes.{code_of};
ghost use Rattle.std.specs.Prelude.{◌≡◌, ◌+◌, ◌≤◌, [], ◌∷◌, ◌++◌, IfOk};
ghost use Rattle.tree_model.specs.Trees.{height};
ghost use Rattle.tree_model.specs.declared.Side.TheVariants.{Right};

use crate::arena::Arena;
use crate::coding::{differing, push_codes};
use mope_base::OutOfMemory;
use path_code::{Path, Recode, child, code};
use tree_model::Side;

/// The pairs of codes of a tree that stood at the end of one path and stands at the end of another now.
fn part_moved(
    nodes: &Arena,
    link: Option<u32>,
    from: Path,
    to: Path,
) -> Result<Vec<Recode>, OutOfMemory>
    requires link { IsLink nodes.now link }
    requires short_before { from.len + height (tree_of nodes.now link) ≤ 63 }
    requires short_after { to.len + height (tree_of nodes.now link) ≤ 63 }
    ensures { IfOk result (λ moved. moved.items ≡ differing (codes_along (way from) (tree_of nodes.now link)) (codes_along (way to) (tree_of nodes.now link))) }
{
    let alloc = nodes.allocator();
    let mut before = Vec::new(alloc);
    push_codes(nodes, link, from, &mut before)?;
    let mut after = Vec::new(alloc);
    push_codes(nodes, link, to, &mut after)?;
    differing(alloc, &before, &after)
}

/// The pairs of codes where the first item of a node's tree at the end of a path, with this right tree and nothing on its
/// left, goes to the end of another path, and its right tree moves up.
fn item_moved(
    nodes: &Arena,
    right: Option<u32>,
    path: Path,
    to: Path,
) -> Result<Vec<Recode>, OutOfMemory>
    requires link { IsLink nodes.now right }
    requires short { path.len + 1 + height (tree_of nodes.now right) ≤ 63 }
    requires above { to.len ≤ path.len }
    ensures { IfOk result (λ moved. moved.items ≡ differing (code_of (way path) ∷ codes_along (way path ++ Right ∷ []) (tree_of nodes.now right)) (code_of (way to) ∷ codes_along (way path) (tree_of nodes.now right))) }
{
    let alloc = nodes.allocator();
    let mut before = Vec::new(alloc);
    before.push(code(path))?;
    push_codes(nodes, right, child(path, Side::Right), &mut before)?;
    let mut after = Vec::new(alloc);
    after.push(code(to))?;
    push_codes(nodes, right, path, &mut after)?;
    differing(alloc, &before, &after)
}

/// The same where the node has these trees on its two sides, and its leftmost item goes.
fn first_moved(
    nodes: &Arena,
    left: Option<u32>,
    right: Option<u32>,
    path: Path,
    to: Path,
) -> Result<Vec<Recode>, OutOfMemory>
    requires left { IsLink nodes.now left }
    requires right { IsLink nodes.now right }
    requires short_left { path.len + 1 + height (tree_of nodes.now left) ≤ 63 }
    requires short_right { path.len + 1 + height (tree_of nodes.now right) ≤ 63 }
    requires above { to.len ≤ path.len }
    ensures { IfOk result (λ moved. moved.items ≡ first_moved (way to) (way path) (tree_of nodes.now left) (tree_of nodes.now right)) }
{
    let Some(at) = left else {
        let moved = item_moved(nodes, right, path, to)?;
        return Ok(moved);
    };
    let node = nodes.get(at);
    let moved = first_moved(nodes, node.left, node.right, child(path, Side::Left), to)?;
    Ok(moved)
}

/// The pairs of codes where the item at the end of a path goes, which has these trees on its two sides.
fn joined_moved(
    nodes: &Arena,
    left: Option<u32>,
    right: Option<u32>,
    path: Path,
) -> Result<Vec<Recode>, OutOfMemory>
    requires left { IsLink nodes.now left }
    requires right { IsLink nodes.now right }
    requires short_left { path.len + 1 + height (tree_of nodes.now left) ≤ 63 }
    requires short_right { path.len + 1 + height (tree_of nodes.now right) ≤ 63 }
    ensures { IfOk result (λ moved. moved.items ≡ joined_moved (way path) (tree_of nodes.now left) (tree_of nodes.now right)) }
{
    let Some(_) = left else {
        let moved = part_moved(nodes, right, child(path, Side::Right), path)?;
        return Ok(moved);
    };
    let Some(at) = right else {
        let moved = part_moved(nodes, left, child(path, Side::Left), path)?;
        return Ok(moved);
    };
    let node = nodes.get(at);
    let moved = first_moved(nodes, node.left, node.right, child(path, Side::Right), path)?;
    Ok(moved)
}

/// The pairs of codes that differ where the item of a rank is taken out of the tree of a link at the end of a path.
pub fn removal_moved(
    nodes: &Arena,
    link: Option<u32>,
    path: Path,
    rank: u32,
) -> Result<Vec<Recode>, OutOfMemory>
    requires link { IsLink nodes.now link }
    requires short { path.len + height (tree_of nodes.now link) ≤ 63 }
    ensures { IfOk result (λ moved. moved.items ≡ removal_moved (way path) (tree_of nodes.now link) rank) }
{
    let Some(at) = link else {
        return Ok(Vec::new(nodes.allocator()));
    };
    let node = nodes.get(at);
    let before = node.before;
    if rank < before {
        let moved = removal_moved(nodes, node.left, child(path, Side::Left), rank)?;
        return Ok(moved);
    }
    if before < rank {
        let right = child(path, Side::Right);
        let moved = removal_moved(nodes, node.right, right, rank - before - 1)?;
        return Ok(moved);
    }
    let moved = joined_moved(nodes, node.left, node.right, path)?;
    Ok(moved)
}
