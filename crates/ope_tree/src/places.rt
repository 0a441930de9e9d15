//! Places by their paths.
ghost use Rattle.ope_tree.specs.Nodes.{IsLink, tree_of};
ghost use Rattle.ope_tree.specs.Standing.{IsPlaceAt, NamesNothing};
ghost use Rattle.ope_tree.specs.Walked.{IsPlaceAfter, IsSpotBeside};
ghost use Rattle.path_code.specs.Codes.{side_of};
ghost use Rattle.path_code.specs.Ways.{way};
ghost use Rattle.std.specs.Prelude.{◌≡◌, ◌+◌, ◌%◌, ◌^◌, ◌<◌, length, MatchOption};
ghost use Rattle.tree_model.specs.Items.{Item};
ghost use Rattle.tree_model.specs.Trees.{size};
ghost use Rattle.mope_base.specs.declared.body.Body.{Body};

use crate::Tree;
use crate::arena::Arena;
use path_code::Path;
use tree_model::{Place, Side};

/// Where a walk down has come: the link to the tree there, and how many items stand left of that tree.
#[derive(Clone, Copy)]
pub struct Spot {
    pub link: Option<u32>,
    pub before: u32,
}

/// The step that the lowest bit of a number spells.
fn lowest_step(bits: u64) -> Side
    ensures { result ≡ side_of (bits % 2) }
{
    if bits % 2 == 0 {
        Side::Left
    } else {
        Side::Right
    }
}

/// One step further, from a node that has so many items left of its tree.
pub fn onward(nodes: &Arena, at: u32, before: u32, side: Side) -> Spot
    requires is_node { at < length nodes.now }
    requires few { before + size (tree_of nodes.now (Some at)) < 2 ^ 32 }
    ensures { IsSpotBeside nodes.now at before side result.link result.before }
{
    let node = nodes.get(at);
    match side {
        Side::Left => Spot {
            link: node.left,
            before,
        },
        Side::Right => Spot {
            link: node.right,
            before: before + node.before + 1,
        },
    }
}

/// The place of the root of a tree that has so many items left of it: the item there, or the gap that an empty tree is.
fn place_of_root(nodes: &Arena, spot: Spot) -> Place
    requires is_link { IsLink nodes.now spot.link }
    requires few { spot.before + size (tree_of nodes.now spot.link) < 2 ^ 32 }
    ensures { IsPlaceAfter (tree_of nodes.now spot.link) spot.before result }
{
    match spot.link {
        None => Place::Gap(spot.before),
        Some(at) => Place::Found(spot.before + nodes.get(at).before),
    }
}

fn place_along(nodes: &Arena, root: Option<u32>, path: Path) -> Option<Place>
    requires is_link { IsLink nodes.now root }
    requires few { size (tree_of nodes.now root) < 2 ^ 32 }
    ensures { MatchOption result
        (NamesNothing (tree_of nodes.now root) (way path))
        (λ place. IsPlaceAt (Item Body) (tree_of nodes.now root) (way path) place) }
{
    let mut spot = Spot {
        link: root,
        before: 0,
    };
    'steps: for taken in 0..path.len {
        let Some(at) = spot.link else {
            return None;
        };
        let side = lowest_step(path.bits >> (path.len - taken - 1));
        spot = onward(nodes, at, spot.before, side);
    }
    Some(place_of_root(nodes, spot))
}

impl Tree {
    /// The place to which a path leads. None exactly where it leads neither to an item nor to a gap.
    pub fn place_of(&self, path: Path) -> Option<Place>
        ensures { MatchOption result
            (NamesNothing self.now.column.tree (way path))
            (λ place. IsPlaceAt (Item Body) self.now.column.tree (way path) place) }
    {
        place_along(&self.nodes, self.shape.root, path)
    }
}
