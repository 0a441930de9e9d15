//! Codes of all items of a tree, in order, and the pairs of codes that differ.
ghost use Rattle.code_changes.specs.Columns.{codes_of};
ghost use Rattle.code_changes.specs.Changes.{differing};
ghost use Rattle.code_changes.specs.Removal.{codes_along};
ghost use Rattle.ope_tree.specs.Nodes.{IsLink, tree_of};
ghost use Rattle.path_code.specs.Ways.{way};
ghost use Rattle.path_code.specs.Sums.{unless};
ghost use Rattle.std.specs.Prelude.{◌≡◌, ◌+◌, ◌≤◌, ◌==◌, [], ◌++◌, length, IfOk, OnOk};
ghost use Rattle.tree_model.specs.Trees.{height};

use crate::arena::Arena;
use mope_base::OutOfMemory;
use path_code::{Path, Recode, child, code, root};
use std::alloc::Global;
use tree_model::Side;

/// Appends the codes of a tree's items in order, where the tree stands at the end of a path.
pub fn push_codes(
    nodes: &Arena,
    link: Option<u32>,
    path: Path,
    codes: &mut Vec<u64>,
) -> Result<(), OutOfMemory>
    requires link { IsLink nodes.now link }
    requires short { path.len + height (tree_of nodes.now link) ≤ 63 }
    ensures { OnOk result (codes.new.items ≡ codes.old.items ++ codes_along (way path) (tree_of nodes.now link)) }
{
    let Some(at) = link else {
        return Ok(());
    };
    let node = nodes.get(at);
    let left = child(path, Side::Left);
    let right = child(path, Side::Right);
    push_codes(nodes, node.left, left, codes)?;
    codes.push(code(path))?;
    push_codes(nodes, node.right, right, codes)?;
    Ok(())
}

/// The codes of all items of the tree of a link, in order.
pub fn all_codes(nodes: &Arena, link: Option<u32>) -> Result<Vec<u64>, OutOfMemory>
    requires link { IsLink nodes.now link }
    requires short { height (tree_of nodes.now link) ≤ 63 }
    ensures { IfOk result (λ codes. codes.items ≡ codes_of (tree_of nodes.now link)) }
{
    let mut codes = Vec::new(nodes.allocator());
    push_codes(nodes, link, root(), &mut codes)?;
    Ok(codes)
}

/// Appends a pair of codes where they differ.
fn push_moved(moved: &mut Vec<Recode>, old: u64, new: u64) -> Result<(), OutOfMemory>
    ensures { OnOk result (moved.new.items ≡ moved.old.items ++ unless (old == new) (record { old = old; new = new }) []) }
{
    if old == new {
        return Ok(());
    }
    moved.push(Recode { old, new })?;
    Ok(())
}

/// The pairs of codes at one place of both lists that differ, in order. There must be as many of both.
pub fn differing(alloc: Global, before: &[u64], after: &[u64]) -> Result<Vec<Recode>, OutOfMemory>
    requires { length before.now ≡ length after.now }
    ensures { IfOk result (λ moved. moved.items ≡ differing before.now after.now) }
{
    let mut moved = Vec::new(alloc);
    'pairs: for at in 0..before.len() {
        push_moved(&mut moved, before[at], after[at])?;
    }
    Ok(moved)
}
