//! Walks down the trees of a transaction's columns.
ghost use Rattle.ope_tree.specs.Cursors.{ArrivesAt};
ghost use Rattle.path_code.specs.Ways.{way};
ghost use Rattle.server_conn.specs.Inside.{IsOpen, IsTxn, held_in, shelves_in, step_by, tree_in, walk_of};
ghost use Rattle.server_conn.specs.Serving.{come_to, found, placed_at, stepped, walk_started};
ghost use Rattle.std.specs.Prelude.{◌≡◌, ◌<◌, IfOk, None, OnOk, Some, length, vec_capacity};
ghost use Rattle.table_model.specs.Operations.{shelf_at};
ghost use Rattle.table_model.specs.Soundness.{column_at};
ghost use Rattle.tree_model.specs.Insertion.{tree_at};
ghost use Rattle.tree_model.specs.Parts.{IsWay, before};
ghost use Rattle.tree_model.specs.Trees.{IsPlaceOf, size};

use crate::came::Came;
use crate::txn::{Mark, Txn, Walk};
use mope_base::{ColNo, OutOfMemory, TableNo};
use ope_tree::{Arrival, Place, Tree};
use path_code::{Path, child, root};
use tree_model::Side;
use walk_proto::Reply;

/// The walk has ended at a place, which is kept. There must be room for it.
fn keep(txn: &mut Txn, table: TableNo, column: ColNo, place: Place) -> Came
    requires txn { IsTxn txn.old }
    requires table { table.0 < length (shelves_in txn.old) }
    requires column { column.0 < length (shelf_at (shelves_in txn.old) table.0).columns }
    requires place { IsPlaceOf (size (tree_in (shelves_in txn.old) table.0 column.0)) place }
    requires room { length txn.old.marks.items < vec_capacity txn.old.marks }
    ensures step { step_by result (held_in txn.new) ≡ placed_at table.0 column.0 place (held_in txn.old) }
    ensures txn { IsTxn txn.new }
{
    txn.marks.push_reserved(Mark {
        table,
        column,
        place,
    });
    txn.walk = None;
    Came::Says(Reply::Placed)
}

/// A walk comes to what stands at the end of its way: to an item, or to a gap, where it ends.
fn come_to(
    txn: &mut Txn,
    table: TableNo,
    column: ColNo,
    path: Path,
    tree: Tree,
    arrival: Arrival,
) -> Came
    requires txn { IsTxn txn.old }
    requires table { table.0 < length (shelves_in txn.old) }
    requires column { column.0 < length (shelf_at (shelves_in txn.old) table.0).columns }
    requires shares { tree.column ≡ column_at (shelf_at (shelves_in txn.old) table.0).columns column.0 }
    requires is_way { IsWay (way path) tree.column.tree }
    requires arrives { ArrivesAt tree (way path) arrival }
    requires room { length txn.old.marks.items < vec_capacity txn.old.marks }
    ensures step { step_by result (held_in txn.new)
        ≡ come_to table.0 column.0 (before (way path) tree.column.tree) (tree_at (way path) tree.column.tree) (held_in txn.old) }
    ensures txn { IsTxn txn.new }
{
    match arrival {
        Arrival::Node(cursor, body) => {
            txn.walk = Some(Walk {
                table,
                column,
                path,
                tree,
                cursor,
            });
            Came::Says(Reply::Node(body))
        }
        Arrival::Gap(rank) => keep(txn, table, column, Place::Gap(rank)),
    }
}

/// A walk begins at the root of the tree of a column, which must be there: it takes a share of the tree, and makes room for its
/// place. No walk may be open.
pub fn start(txn: &mut Txn, table: TableNo, column: ColNo) -> Result<Came, OutOfMemory>
    requires txn { IsTxn txn.old }
    requires table { table.0 < length (shelves_in txn.old) }
    requires column { column.0 < length (shelf_at (shelves_in txn.old) table.0).columns }
    requires closed { txn.old.walk ≡ None }
    ensures step { IfOk result (λ came. step_by came (held_in txn.new) ≡ walk_started table column (held_in txn.old)) }
    ensures txn { OnOk result (IsTxn txn.new) }
{
    txn.marks.reserve(1)?;
    let tree = txn.share(table, column)?;
    let arrival = tree.begin();
    Ok(come_to(txn, table, column, root(), tree, arrival))
}

/// A walk that was taken out takes a step. It takes no memory.
pub fn step(txn: &mut Txn, walk: Walk, side: Side) -> Came
    requires txn { IsTxn txn.old }
    requires open { IsOpen (shelves_in txn.old) (length txn.old.marks.items) (vec_capacity txn.old.marks) walk }
    ensures step { step_by result (held_in txn.new) ≡ stepped side (Some (walk_of (shelves_in txn.old) walk)) (held_in txn.old) }
    ensures txn { IsTxn txn.new }
{
    let _short = walk.tree.len();
    let arrival = walk.tree.advance(walk.cursor, side);
    let path = child(walk.path, side);
    come_to(txn, walk.table, walk.column, path, walk.tree, arrival)
}

/// A walk that was taken out ends at the item where it stands. It takes no memory.
pub fn found(txn: &mut Txn, walk: Walk) -> Came
    requires txn { IsTxn txn.old }
    requires open { IsOpen (shelves_in txn.old) (length txn.old.marks.items) (vec_capacity txn.old.marks) walk }
    ensures step { step_by result (held_in txn.new) ≡ found (Some (walk_of (shelves_in txn.old) walk)) (held_in txn.old) }
    ensures txn { IsTxn txn.new }
{
    let rank = walk.tree.rank(walk.cursor);
    keep(txn, walk.table, walk.column, Place::Found(rank))
}
