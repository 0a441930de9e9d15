//! The whole tree balanced again without the items that no row has.
ghost use Rattle.code_changes.specs.Columns.{codes_of};
ghost use Rattle.ope_tree.specs.Nodes.{IsLink, items_of_entries, tree_of};
ghost use Rattle.ope_tree.specs.Seen.{column_in};
ghost use Rattle.ope_tree.specs.SweptSum.{swept_sum};
ghost use Rattle.std.specs.List.{zip};
ghost use Rattle.std.specs.Prelude.{◌≡◌, ◌^◌, ◌<◌, ◌≤◌, ◌==◌, nat_lt, [], false, true, map, filter, IfOk};
ghost use Rattle.tree_model.specs.Columns.{pruned, whole};
ghost use Rattle.tree_model.specs.Items.{is_sparse, live, live_items};
ghost use Rattle.tree_model.specs.Trees.{height, inorder};

use crate::arena::Arena;
use crate::building::{balance, collect};
use crate::change::Change;
use crate::coding::{all_codes, differing};
use crate::done::Done;
use crate::nodes::Entry;
use crate::shape::Shape;
use mope_base::OutOfMemory;
use scapegoat::needs_whole;
use std::alloc::Global;

/// The items that some row has.
fn live_entries(alloc: Global, entries: &[Entry]) -> Result<Vec<Entry>, OutOfMemory>
    ensures { IfOk result (λ kept. items_of_entries kept.items ≡ live_items (items_of_entries entries.now)) }
{
    let kept = entries
        .iter()
        .copied()
        .filter(|entry| entry.count > 0)
        .collect(alloc)?;
    Ok(kept)
}

/// The codes of the items that some row has.
fn codes_with_rows(alloc: Global, entries: &[Entry], codes: &[u64]) -> Result<Vec<u64>, OutOfMemory>
    ensures { IfOk result (λ kept. kept.items ≡ map (λ pair. pair.1) (filter (λ pair. nat_lt 0 pair.0.count) (zip entries.now codes.now))) }
{
    let kept = entries
        .iter()
        .copied()
        .zip(codes.iter().copied())
        .filter(|(entry, _)| entry.count > 0)
        .map(|(_, code)| code)
        .collect(alloc)?;
    Ok(kept)
}

/// The codes of the items that no row has.
fn codes_without_rows(
    alloc: Global,
    entries: &[Entry],
    codes: &[u64],
) -> Result<Vec<u64>, OutOfMemory>
    ensures { IfOk result (λ left. left.items ≡ map (λ pair. pair.1) (filter (λ pair. pair.0.count == 0) (zip entries.now codes.now))) }
{
    let left = entries
        .iter()
        .copied()
        .zip(codes.iter().copied())
        .filter(|(entry, _)| entry.count == 0)
        .map(|(_, code)| code)
        .collect(alloc)?;
    Ok(left)
}

/// A tree becomes the balanced tree of its items that some row has.
fn sweep(nodes: &mut Arena, shape: Shape) -> Result<Done, OutOfMemory>
    requires link { IsLink nodes.old shape.root }
    requires short { height (tree_of nodes.old shape.root) ≤ 63 }
    requires alive { shape.alive ≡ live (inorder (tree_of nodes.old shape.root)) }
    ensures link { IfOk result (λ done. IsLink nodes.new done.shape.root) }
    ensures tree { IfOk result (λ done. tree_of nodes.new done.shape.root ≡ whole (tree_of nodes.old shape.root)) }
    ensures alive { IfOk result (λ done. done.shape.alive ≡ shape.alive) }
    ensures most { IfOk result (λ done. done.shape.most ≡ shape.alive) }
    ensures change { IfOk result (λ done. done.change ≡ swept_sum (tree_of nodes.old shape.root)) }
{
    let alloc = nodes.allocator();
    let mut entries = Vec::new(alloc);
    collect(nodes, shape.root, &mut entries)?;
    let before = all_codes(nodes, shape.root)?;
    let stayed = codes_with_rows(alloc, &entries, &before)?;
    let dropped = codes_without_rows(alloc, &entries, &before)?;
    let kept = live_entries(alloc, &entries)?;
    let root = balance(nodes, &kept)?;
    let after = all_codes(nodes, root)?;
    let moved = differing(alloc, &stayed, &after)?;
    let change = Change::of(moved, dropped, Vec::new(alloc));
    Ok(Done {
        shape: Shape {
            root,
            alive: shape.alive,
            most: shape.alive,
        },
        change,
    })
}

/// A tree becomes the balanced tree of its items that some row has, where they are too few against the greatest number of
/// items.
pub fn sweep_if_sparse(nodes: &mut Arena, shape: Shape) -> Result<Done, OutOfMemory>
    requires link { IsLink nodes.old shape.root }
    requires short { height (tree_of nodes.old shape.root) ≤ 63 }
    requires alive { shape.alive ≡ live (inorder (tree_of nodes.old shape.root)) }
    ensures link { IfOk result (λ done. IsLink nodes.new done.shape.root) }
    ensures column { IfOk result (λ done. column_in nodes.new done.shape ≡ pruned (tree_of nodes.old shape.root) shape.most) }
    ensures alive { IfOk result (λ done. done.shape.alive ≡ live (inorder (tree_of nodes.new done.shape.root))) }
    ensures few { IfOk result (λ done. done.shape.most < 2 ^ 32) }
    ensures enough { IfOk result (λ done. is_sparse shape.most (inorder (tree_of nodes.old shape.root)) ≡ false → done.change ≡ record { moved = []; dropped = []; added = [] }) }
    ensures sparse { IfOk result (λ done. is_sparse shape.most (inorder (tree_of nodes.old shape.root)) ≡ true → done.change ≡ swept_sum (tree_of nodes.old shape.root)) }
{
    if needs_whole(u64::from(shape.alive), u64::from(shape.most)) {
        return sweep(nodes, shape);
    }
    let alloc = nodes.allocator();
    let change = Change::of(Vec::new(alloc), Vec::new(alloc), Vec::new(alloc));
    Ok(Done { shape, change })
}
