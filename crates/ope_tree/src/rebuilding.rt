//! The whole tree balanced again.
ghost use Rattle.ope_tree.specs.Nodes.{IsLink, items_of_entries, tree_of};
ghost use Rattle.ope_tree.specs.Seen.{IsShape, column_in, empty_seen};
ghost use Rattle.path_code.specs.Sums.{sum_of};
ghost use Rattle.std.specs.Prelude.{◌≡◌, ◌≤◌, Bool, [], ◌∷◌, false, true, IfOk, OnOk, OnErr, IsErr};
ghost use Rattle.tree_model.specs.ColumnLaws.{IsKept, SuitsMode};
ghost use Rattle.tree_model.specs.Columns.{Lay, lay};
ghost use Rattle.tree_model.specs.Trees.{balanced, height};
ghost use Rattle.mope_base.specs.declared.body.Body.{Body};

use crate::Tree;
use crate::arena::Arena;
use crate::building::{balance, collect, size_of};
use crate::change::Change;
use crate::coding::{all_codes, differing};
use crate::done::Done;
use crate::nodes::Entry;
use crate::shape::Shape;
use mope_base::OutOfMemory;

/// The balanced tree of these items, in place of all nodes there were.
pub fn balance_anew(nodes: &mut Arena, entries: &[Entry]) -> Result<Option<u32>, OutOfMemory>
    ensures link { IfOk result (λ link. IsLink nodes.new link) }
    ensures tree { IfOk result (λ link. tree_of nodes.new link ≡ balanced (items_of_entries entries.now)) }
{
    let mut fresh = nodes.fresh();
    let link = balance(&mut fresh, entries)?;
    *nodes = fresh;
    Ok(link)
}

/// A tree becomes the balanced tree of all its items.
fn balance_all(nodes: &mut Arena, shape: Shape) -> Result<Done, OutOfMemory>
    requires { IsShape nodes.old shape }
    ensures sound { IfOk result (λ done. IsShape nodes.new done.shape) }
    ensures column { IfOk result (λ done. column_in nodes.new done.shape ≡ lay (column_in nodes.old shape)) }
    ensures change { IfOk result (λ done. done.change ≡ sum_of false (Lay ∷ []) (column_in nodes.old shape)) }
{
    let alloc = nodes.allocator();
    let before = all_codes(nodes, shape.root)?;
    let mut entries = Vec::new(alloc);
    collect(nodes, shape.root, &mut entries)?;
    let root = balance_anew(nodes, &entries)?;
    let after = all_codes(nodes, root)?;
    let moved = differing(alloc, &before, &after)?;
    Ok(Done {
        shape: Shape {
            root,
            alive: shape.alive,
            most: size_of(nodes, root),
        },
        change: Change::of(moved, Vec::new(alloc), Vec::new(alloc)),
    })
}

impl Tree {
    /// The tree becomes the balanced tree of all its items, those with the count 0 too, and the greatest number of items
    /// their number. After `OutOfMemory` it is spent.
    pub fn rebuild(&mut self) -> Result<Change, OutOfMemory>
        ensures column { OnOk result (self.new.column ≡ lay self.old.column) }
        ensures change { (same_time : Bool) → IfOk result (λ change. change ≡ sum_of same_time (Lay ∷ []) self.old.column) }
        ensures fresh { OnOk result (self.new.spent ≡ false) }
        ensures spent { OnErr result (self.new ≡ empty_seen true) }
        ensures refused { self.old.spent ≡ true → IsErr result }
        ensures kept { IsKept Body self.new.column }
        ensures suits { (same_time : Bool) → SuitsMode same_time self.old.column → SuitsMode same_time self.new.column }
        ensures short { height self.new.column.tree ≤ 63 }
    {
        let (mut nodes, shape) = self.take()?;
        let done = balance_all(&mut nodes, shape)?;
        *self = Tree::of(nodes, done.shape);
        Ok(done.change)
    }
}
