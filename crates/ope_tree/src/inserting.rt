//! One row more at a place.
ghost use Rattle.ope_tree.specs.Conditions.{HasRoom};
ghost use Rattle.ope_tree.specs.Listed.{count_at};
ghost use Rattle.ope_tree.specs.Nodes.{item_of, tree_of};
ghost use Rattle.ope_tree.specs.Seen.{IsShape, column_in, empty_seen};
ghost use Rattle.path_code.specs.Sums.{sum_of};
ghost use Rattle.std.specs.Prelude.{◌≡◌, ◌+◌, ◌^◌, ◌<◌, ◌≤◌, Bool, [], ◌∷◌, false, true, IfOk, OnOk, OnErr, IsErr};
ghost use Rattle.tree_model.specs.ColumnLaws.{IsKept, SuitsMode};
ghost use Rattle.tree_model.specs.Columns.{Add, add};
ghost use Rattle.tree_model.specs.Items.{live, one_more};
ghost use Rattle.tree_model.specs.Trees.{IsPlaceOf, height, size};
ghost use Rattle.tree_model.specs.declared.Place.TheVariants.{Found, Gap};
ghost use Rattle.mope_base.specs.declared.body.Body.{Body};

use crate::Tree;
use crate::arena::Arena;
use crate::building::size_of;
use crate::change::Change;
use crate::copying::compact;
use crate::done::Done;
use crate::grafting::{graft, replace_item};
use crate::nodes::Entry;
use crate::reading::entry_at;
use crate::settling::balance_tall_part;
use crate::shape::Shape;
use mope_base::{Body, OutOfMemory};
use path_code::{code, root as root_path};
use scapegoat::too_deep;
use std::alloc::Global;
use tree_model::Place;

/// A change of one new code and nothing else.
fn added_alone(alloc: Global, code: u64) -> Result<Change, OutOfMemory>
    ensures { IfOk result (λ change. change ≡ record { moved = []; dropped = []; added = code ∷ [] }) }
{
    let mut added = Vec::new(alloc);
    added.push(code)?;
    Ok(Change::of(Vec::new(alloc), Vec::new(alloc), added))
}

/// How many items, 0 or 1, have rows where this one has one more and had none before.
fn newly_live(entry: Entry) -> u32
    ensures live { live (one_more (item_of entry) ∷ []) ≡ live (item_of entry ∷ []) + result }
    ensures few { result ≤ 1 }
{
    if entry.count == 0 { 1 } else { 0 }
}

/// The item with one row more.
fn more_rows(entry: Entry) -> Entry
    requires { entry.count + 1 < 2 ^ 32 }
    ensures { item_of result ≡ one_more (item_of entry) }
{
    Entry {
        body: entry.body,
        count: entry.count + 1,
    }
}

/// A tree with one row more at the item of a rank.
fn raise_count(nodes: &mut Arena, shape: Shape, rank: u32) -> Result<Done, OutOfMemory>
    requires sound { IsShape nodes.old shape }
    requires is_rank { rank < size (tree_of nodes.old shape.root) }
    requires few { size (tree_of nodes.old shape.root) < 2 ^ 31 }
    requires room { count_at (column_in nodes.old shape) rank + 1 < 2 ^ 32 }
    ensures sound { IfOk result (λ done. IsShape nodes.new done.shape) }
    ensures column { (body : Body) → IfOk result (λ done. column_in nodes.new done.shape ≡ add (Found rank) body (column_in nodes.old shape)) }
    ensures change { (body : Body) → IfOk result (λ done. done.change ≡ sum_of false (Add (Found rank) body ∷ []) (column_in nodes.old shape)) }
{
    let alloc = nodes.allocator();
    let entry = entry_at(nodes, shape.root, rank).unwrap();
    let raised = replace_item(nodes, shape.root, rank, more_rows(entry))?;
    Ok(Done {
        shape: Shape {
            root: raised,
            alive: shape.alive + newly_live(entry),
            most: shape.most,
        },
        change: Change::of(Vec::new(alloc), Vec::new(alloc), Vec::new(alloc)),
    })
}

/// A tree with a new item, which has one row, at the gap of a rank.
fn insert_at_gap(
    nodes: &mut Arena,
    shape: Shape,
    rank: u32,
    body: Body,
) -> Result<Done, OutOfMemory>
    requires sound { IsShape nodes.old shape }
    requires is_rank { rank ≤ size (tree_of nodes.old shape.root) }
    requires few { size (tree_of nodes.old shape.root) < 2 ^ 31 }
    ensures sound { IfOk result (λ done. IsShape nodes.new done.shape) }
    ensures column { IfOk result (λ done. column_in nodes.new done.shape ≡ add (Gap rank) body (column_in nodes.old shape)) }
    ensures change { IfOk result (λ done. done.change ≡ sum_of false (Add (Gap rank) body ∷ []) (column_in nodes.old shape)) }
{
    let alloc = nodes.allocator();
    let most = shape.most.max(size_of(nodes, shape.root) + 1);
    let entry = Entry { body, count: 1 };
    let grafted = graft(nodes, shape.root, rank, entry, root_path())?;
    let path = grafted.path;
    if !too_deep(path.len, u64::from(most)) {
        let change = added_alone(alloc, code(path))?;
        return Ok(Done {
            shape: Shape {
                root: grafted.link,
                alive: shape.alive + 1,
                most,
            },
            change,
        });
    }
    let rebuilt = balance_tall_part(nodes, grafted.link, rank, u64::from(most))?;
    let mut added = Vec::new(alloc);
    added.push(rebuilt.added)?;
    Ok(Done {
        shape: Shape {
            root: rebuilt.root,
            alive: shape.alive + 1,
            most,
        },
        change: Change::of(rebuilt.moved, Vec::new(alloc), added),
    })
}

/// A tree with one row more at a place, over the nodes that there are.
fn insert_at_place(
    nodes: &mut Arena,
    shape: Shape,
    place: Place,
    body: Body,
) -> Result<Done, OutOfMemory>
    requires sound { IsShape nodes.old shape }
    requires is_place { IsPlaceOf (size (tree_of nodes.old shape.root)) place }
    requires few { size (tree_of nodes.old shape.root) < 2 ^ 31 }
    requires room { HasRoom (column_in nodes.old shape) place }
    ensures sound { IfOk result (λ done. IsShape nodes.new done.shape) }
    ensures column { IfOk result (λ done. column_in nodes.new done.shape ≡ add place body (column_in nodes.old shape)) }
    ensures change { IfOk result (λ done. done.change ≡ sum_of false (Add place body ∷ []) (column_in nodes.old shape)) }
{
    match place {
        Place::Found(rank) => {
            let done = raise_count(nodes, shape, rank)?;
            Ok(done)
        }
        Place::Gap(rank) => {
            let done = insert_at_gap(nodes, shape, rank, body)?;
            Ok(done)
        }
    }
}

/// A tree with one row more at a place, over no more nodes than the arena should have.
fn insert_and_compact(
    nodes: &mut Arena,
    shape: Shape,
    place: Place,
    body: Body,
) -> Result<Done, OutOfMemory>
    requires sound { IsShape nodes.old shape }
    requires is_place { IsPlaceOf (size (tree_of nodes.old shape.root)) place }
    requires few { size (tree_of nodes.old shape.root) < 2 ^ 31 }
    requires room { HasRoom (column_in nodes.old shape) place }
    ensures sound { IfOk result (λ done. IsShape nodes.new done.shape) }
    ensures column { IfOk result (λ done. column_in nodes.new done.shape ≡ add place body (column_in nodes.old shape)) }
    ensures change { IfOk result (λ done. done.change ≡ sum_of false (Add place body ∷ []) (column_in nodes.old shape)) }
{
    let done = insert_at_place(nodes, shape, place, body)?;
    let root = compact(nodes, done.shape.root)?;
    Ok(Done {
        shape: Shape { root, ..done.shape },
        change: done.change,
    })
}

impl Tree {
    /// One row more. A found item's count rises and its body stays; a gap gets a new item with this body and the count 1,
    /// and where it stands too deep, the tree of its nearest ancestor that is too tall is balanced.
    ///
    /// The place must be one of the tree, which must have fewer than 2^31 items, and a found item's count must be below
    /// 2^32 - 1. After `OutOfMemory` the tree is spent.
    pub fn insert_at(&mut self, place: Place, body: Body) -> Result<Change, OutOfMemory>
        requires is_place { IsPlaceOf (size self.old.column.tree) place }
        requires few { size self.old.column.tree < 2 ^ 31 }
        requires room { HasRoom self.old.column place }
        ensures column { OnOk result (self.new.column ≡ add place body self.old.column) }
        ensures change { (same_time : Bool) → IfOk result (λ change. change ≡ sum_of same_time (Add place body ∷ []) self.old.column) }
        ensures fresh { OnOk result (self.new.spent ≡ false) }
        ensures spent { OnErr result (self.new ≡ empty_seen true) }
        ensures refused { self.old.spent ≡ true → IsErr result }
        ensures kept { IsKept Body self.new.column }
        ensures suits { (same_time : Bool) → SuitsMode same_time self.old.column → SuitsMode same_time self.new.column }
        ensures short { height self.new.column.tree ≤ 63 }
    {
        let (mut nodes, shape) = self.take()?;
        let done = insert_and_compact(&mut nodes, shape, place, body)?;
        *self = Tree::of(nodes, done.shape);
        Ok(done.change)
    }
}
