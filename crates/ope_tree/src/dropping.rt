//! One row fewer at an item.
ghost use Rattle.code_changes.specs.Removal.{goes_alone};
ghost use Rattle.mope_base.specs.Modes.{is_same_time};
ghost use Rattle.mope_base.specs.declared.body.Body.{Body};
ghost use Rattle.ope_tree.specs.Built.{IsBuilt};
ghost use Rattle.ope_tree.specs.Dropped.{IsDropChange};
ghost use Rattle.ope_tree.specs.Listed.{count_at};
ghost use Rattle.ope_tree.specs.Nodes.{IsLink, item_of, tree_of};
ghost use Rattle.ope_tree.specs.Seen.{IsShape, column_in, empty_seen};
ghost use Rattle.path_code.specs.Sums.{sum_of};
ghost use Rattle.std.specs.Prelude.{◌≡◌, ◌+◌, ◌^◌, ◌<◌, ◌≤◌, ◌&&◌, [], ◌∷◌, false, true, slice_get, IfOk, OnOk, OnErr};
ghost use Rattle.tree_model.specs.ColumnLaws.{IsKept, SuitsMode};
ghost use Rattle.tree_model.specs.Columns.{Drop, drop_one, pruned, taken_out};
ghost use Rattle.tree_model.specs.Items.{is_dead, live, one_less};
ghost use Rattle.tree_model.specs.Removal.{change_tree};
ghost use Rattle.tree_model.specs.Trees.{height, inorder, size};

use crate::Tree;
use crate::arena::Arena;
use crate::building::add_node;
use crate::change::Change;
use crate::copying::compact;
use crate::done::Done;
use crate::nodes::{Entry, Node};
use crate::reading::entry_at;
use crate::removing::take_out;
use crate::shape::Shape;
use crate::sweeping::sweep_if_sparse;
use mope_base::{Mode, OutOfMemory};
use scapegoat::needs_whole;

/// A tree with one row fewer, and how many of its items, 0 or 1, had their last row then.
#[derive(Drop)]
struct Fewer {
    link: Option<u32>,
    emptied: u32,
}

/// The item with one row fewer.
fn fewer_rows(entry: Entry) -> Entry
    ensures { item_of result ≡ one_less (item_of entry) }
{
    Entry {
        body: entry.body,
        count: entry.count.saturating_sub(1),
    }
}

/// How many items, 0 or 1, have no row any more where this one has one fewer.
fn newly_dead(entry: Entry) -> u32
    ensures { live (item_of entry ∷ []) ≡ live (one_less (item_of entry) ∷ []) + result }
{
    if entry.count == 1 { 1 } else { 0 }
}

/// The tree of a link with one row fewer at the item of a rank.
fn lower_count(nodes: &mut Arena, link: Option<u32>, rank: u32) -> Result<Fewer, OutOfMemory>
    requires { IsLink nodes.old link }
    ensures built { IfOk result (λ fewer. IsBuilt nodes.old nodes.new fewer.link (change_tree one_less (tree_of nodes.old link) rank)) }
    ensures live { IfOk result (λ fewer. live (inorder (tree_of nodes.old link)) ≡ live (inorder (change_tree one_less (tree_of nodes.old link) rank)) + fewer.emptied) }
{
    let Some(at) = link else {
        return Ok(Fewer { link, emptied: 0 });
    };
    let node = nodes.get(at);
    let before = node.before;
    if rank < before {
        let left = lower_count(nodes, node.left, rank)?;
        let link = add_node(
            nodes,
            Node {
                left: left.link,
                ..node
            },
        )?;
        return Ok(Fewer {
            link,
            emptied: left.emptied,
        });
    }
    if before < rank {
        let right = lower_count(nodes, node.right, rank - before - 1)?;
        let link = add_node(
            nodes,
            Node {
                right: right.link,
                ..node
            },
        )?;
        return Ok(Fewer {
            link,
            emptied: right.emptied,
        });
    }
    let link = add_node(
        nodes,
        Node {
            entry: fewer_rows(node.entry),
            ..node
        },
    )?;
    Ok(Fewer {
        link,
        emptied: newly_dead(node.entry),
    })
}

/// Whether the tree of a link has an item of this rank and no row has it.
fn has_no_rows(nodes: &Arena, link: Option<u32>, rank: u32) -> bool
    requires { IsLink nodes.now link }
    ensures { result ≡ is_dead (slice_get (inorder (tree_of nodes.now link)) rank) }
{
    match entry_at(nodes, link, rank) {
        None => false,
        Some(entry) => entry.count == 0,
    }
}

/// Whether the item of a rank, which has just lost a row, goes and the tree isn't balanced whole.
fn goes_alone(nodes: &Arena, shape: Shape, rank: u32, mode: Mode) -> bool
    requires link { IsLink nodes.now shape.root }
    requires alive { shape.alive ≡ live (inorder (tree_of nodes.now shape.root)) }
    ensures { result ≡ goes_alone (is_same_time mode) shape.most (inorder (tree_of nodes.now shape.root)) rank }
{
    if needs_whole(u64::from(shape.alive), u64::from(shape.most)) {
        return false;
    }
    match mode {
        Mode::Ordinary => false,
        Mode::SameTime => has_no_rows(nodes, shape.root, rank),
    }
}

/// The tree of a link, whose item of a rank has just lost a row: that item goes where its mode says so, and where too few
/// items have rows, the tree becomes the balanced tree of those.
fn take_out_or_sweep(
    nodes: &mut Arena,
    shape: Shape,
    rank: u32,
    mode: Mode,
) -> Result<Done, OutOfMemory>
    requires link { IsLink nodes.old shape.root }
    requires short { height (tree_of nodes.old shape.root) ≤ 63 }
    requires is_rank { rank < size (tree_of nodes.old shape.root) }
    requires alive { shape.alive ≡ live (inorder (tree_of nodes.old shape.root)) }
    ensures link { IfOk result (λ done. IsLink nodes.new done.shape.root) }
    ensures column { IfOk result (λ done. column_in nodes.new done.shape ≡ pruned (taken_out (is_same_time mode && is_dead (slice_get (inorder (tree_of nodes.old shape.root)) rank)) (tree_of nodes.old shape.root) rank) shape.most) }
    ensures alive { IfOk result (λ done. done.shape.alive ≡ live (inorder (tree_of nodes.new done.shape.root))) }
    ensures few { IfOk result (λ done. done.shape.most < 2 ^ 32) }
    ensures change { IfOk result (λ done. IsDropChange (is_same_time mode) shape.most rank (tree_of nodes.old shape.root) done.change) }
{
    if goes_alone(nodes, shape, rank, mode) {
        return take_out(nodes, shape, rank);
    }
    sweep_if_sparse(nodes, shape)
}

/// One row fewer at the item of a rank of the tree of a link.
fn drop_and_compact(
    nodes: &mut Arena,
    shape: Shape,
    rank: u32,
    mode: Mode,
) -> Result<Done, OutOfMemory>
    requires sound { IsShape nodes.old shape }
    requires is_rank { rank < size (tree_of nodes.old shape.root) }
    ensures sound { IfOk result (λ done. IsShape nodes.new done.shape) }
    ensures column { IfOk result (λ done. column_in nodes.new done.shape ≡ drop_one (is_same_time mode) rank (column_in nodes.old shape)) }
    ensures change { IfOk result (λ done. done.change ≡ sum_of (is_same_time mode) (Drop rank ∷ []) (column_in nodes.old shape)) }
{
    let fewer = lower_count(nodes, shape.root, rank)?;
    let lower = Shape {
        root: fewer.link,
        alive: shape.alive - fewer.emptied,
        most: shape.most,
    };
    let done = take_out_or_sweep(nodes, lower, rank, mode)?;
    let root = compact(nodes, done.shape.root)?;
    Ok(Done {
        shape: Shape { root, ..done.shape },
        change: done.change,
    })
}

impl Tree {
    /// One row fewer at the item of a rank. Where that was its last, it keeps its place with the count 0 in ordinary mode;
    /// in same-time mode it goes: its one child takes its place, or, where it has two, the leftmost item of its right tree,
    /// whose right tree moves up. Then, in both modes, where so few items have rows that 3 * live < 2 * max, the tree
    /// becomes the balanced tree of those.
    ///
    /// The item must have a row. After `OutOfMemory` the tree is spent.
    pub fn drop_one(&mut self, rank: u32, mode: Mode) -> Result<Change, OutOfMemory>
        requires is_rank { rank < size self.old.column.tree }
        requires has_row { 0 < count_at self.old.column rank }
        ensures column { OnOk result (self.new.column ≡ drop_one (is_same_time mode) rank self.old.column) }
        ensures change { IfOk result (λ change. change ≡ sum_of (is_same_time mode) (Drop rank ∷ []) self.old.column) }
        ensures fresh { OnOk result (self.new.spent ≡ false) }
        ensures spent { OnErr result (self.new ≡ empty_seen true) }
        ensures kept { IsKept Body self.new.column }
        ensures suits { SuitsMode (is_same_time mode) self.old.column → SuitsMode (is_same_time mode) self.new.column }
        ensures short { height self.new.column.tree ≤ 63 }
    {
        let (mut nodes, shape) = self.take()?;
        let done = drop_and_compact(&mut nodes, shape, rank, mode)?;
        *self = Tree::of(nodes, done.shape);
        Ok(done.change)
    }
}
