//! A walk down the tree that knows how many items stand left of where it has come.
ghost use Rattle.mope_base.specs.declared.body.Body.{Body};
ghost use Rattle.ope_tree.specs.Cursors.{ArrivesAt, IsCursorAt, IsRankAt, arrival_of};
ghost use Rattle.std.specs.Prelude.{◌≡◌, List, [], ◌∷◌, ◌++◌};
ghost use Rattle.tree_model.specs.Items.{Item};
ghost use Rattle.tree_model.specs.declared.Side.{Side};

use crate::Tree;
use crate::places::{Spot, onward};
use crate::stops::{At, Stop, stop_of};
use mope_base::Body;
use tree_model::Side;

/// Where a walk stands: a node, and how many items stand left of its tree. It holds until the tree is changed.
#[derive(Clone, Copy, PartialEq, Eq, Debug)]
pub struct Cursor {
    pub at: At,
    pub before: u32,
}

/// What stands at the end of a way down the tree, and how many items stand left of it.
#[derive(Clone, Copy, PartialEq, Eq, Debug)]
pub enum Arrival {
    /// A node, and the sealed value of its item.
    Node(Cursor, Body),
    /// Nothing: the gap after so many items.
    Gap(u32),
}

fn arrival_of(stop: Stop, before: u32) -> Arrival
    ensures { result ≡ arrival_of stop before }
{
    match stop {
        Stop::Node(at, body) => Arrival::Node(Cursor { at, before }, body),
        Stop::Gap => Arrival::Gap(before),
    }
}

impl Tree {
    /// What stands at the root: `Gap` exactly where the tree is empty.
    pub fn begin(&self) -> Arrival
        ensures { ArrivesAt self.now [] result }
    {
        arrival_of(stop_of(&self.nodes, self.shape.root), 0)
    }

    /// What stands on one side of where a walk stands: `Gap` exactly where nothing does. The cursor must be one of this tree.
    pub fn advance(&self, cursor: Cursor, side: Side) -> Arrival
        requires { (way : List Side) × IsCursorAt self.now way cursor }
        ensures { (way : List Side) → IsCursorAt self.now way cursor → ArrivesAt self.now (way ++ side ∷ []) result }
    {
        let spot = onward(&self.nodes, cursor.at.0, cursor.before, side);
        arrival_of(stop_of(&self.nodes, spot.link), spot.before)
    }

    /// The rank of the item where a walk stands. The cursor must be one of this tree.
    pub fn rank(&self, cursor: Cursor) -> u32
        requires { (way : List Side) × IsCursorAt self.now way cursor }
        ensures { (way : List Side) → IsCursorAt self.now way cursor → IsRankAt (Item Body) self.now.column.tree way result }
    {
        let node = self.nodes.get(cursor.at.0);
        cursor.before + node.before
    }
}
