//! The way to a place.
ghost use Rattle.ope_tree.specs.Nodes.{IsLink, tree_of};
ghost use Rattle.path_code.specs.Ways.{way};
ghost use Rattle.std.specs.Prelude.{◌≡◌, ◌↔◌, ◌+◌, ◌≤◌, ◌++◌, IsTrue};
ghost use Rattle.tree_model.specs.Trees.{IsPlaceOf, height, past, path, turn_at};

use crate::arena::Arena;
use path_code::{Path, child};
use tree_model::{Place, Side};

/// Whether so many items have this place.
#[tactic(auto, unfolding(tree_model::specs::Trees::IsPlaceOf))]
pub fn is_place(items: u32, place: Place) -> bool
    ensures { IsTrue result ↔ IsPlaceOf items place }
{
    match place {
        Place::Found(rank) => rank < items,
        Place::Gap(rank) => rank <= items,
    }
}

/// The side of an item, with so many before it, at which a place lies, and None where the place is that item's own.
pub fn turn(before: u32, place: Place) -> Option<Side>
    ensures { result ≡ turn_at before place }
{
    match place {
        Place::Found(rank) => {
            if rank < before {
                Some(Side::Left)
            } else if before < rank {
                Some(Side::Right)
            } else {
                None
            }
        }
        Place::Gap(rank) => {
            if rank <= before {
                Some(Side::Left)
            } else {
                Some(Side::Right)
            }
        }
    }
}

/// The place as it is called among the items after an item with so many before it.
#[tactic(auto, unfolding(tree_model::specs::Trees::past))]
pub fn past(before: u32, place: Place) -> Place
    ensures { result ≡ past (before + 1) place }
{
    match place {
        Place::Found(rank) => Place::Found(rank.saturating_sub(before).saturating_sub(1)),
        Place::Gap(rank) => Place::Gap(rank.saturating_sub(before).saturating_sub(1)),
    }
}

/// The path to a place of the tree of a link, which stands at the end of a path.
pub fn path_to(nodes: &Arena, link: Option<u32>, place: Place, above: Path) -> Path
    requires link { IsLink nodes.now link }
    requires short { above.len + height (tree_of nodes.now link) ≤ 63 }
    ensures { way result ≡ way above ++ path (tree_of nodes.now link) place }
{
    let Some(at) = link else {
        return above;
    };
    let node = nodes.get(at);
    let before = node.before;
    match turn(before, place) {
        None => above,
        Some(Side::Left) => path_to(nodes, node.left, place, child(above, Side::Left)),
        Some(Side::Right) => path_to(
            nodes,
            node.right,
            past(before, place),
            child(above, Side::Right),
        ),
    }
}
