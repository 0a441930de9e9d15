//! From codes of items to their ranks, and back.
ghost use Rattle.code_changes.specs.Changes.{IsIn};
ghost use Rattle.code_changes.specs.Columns.{codes_of};
ghost use Rattle.path_code.specs.Sums.{item_code};
ghost use Rattle.std.specs.Prelude.{◌≡◌, ◌<◌, ◌≤◌};
ghost use Rattle.table_model.specs.Steps.{rank_in};
ghost use Rattle.tree_model.specs.Places.{below};
ghost use Rattle.tree_model.specs.Trees.{height, size};

use ope_tree::{Place, Tree};
use path_code::path_of;

/// The rank of the item of a code, which must be an item's.
pub fn rank_of(tree: &Tree, code: u64) -> u32
    requires code { IsIn code (codes_of tree.now.column.tree) }
    requires short { height tree.now.column.tree ≤ 63 }
    ensures rank { result ≡ below code (codes_of tree.now.column.tree) }
    ensures among { result < size tree.now.column.tree }
{
    let path = path_of(code).unwrap();
    match tree.place_of(path).unwrap() {
        Place::Found(rank) => rank,
        Place::Gap(rank) => rank,
    }
}

/// The code of the item at which a row came in at a place.
pub fn code_at_place(tree: &Tree, place: Place) -> u64
    requires { rank_in place < size tree.now.column.tree }
    ensures { result ≡ item_code tree.now.column.tree (rank_in place) }
{
    match place {
        Place::Found(rank) => tree.code_of(Place::Found(rank)).unwrap(),
        Place::Gap(rank) => tree.code_of(Place::Found(rank)).unwrap(),
    }
}
