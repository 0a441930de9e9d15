//! A row more in a transaction's own table.
ghost use Rattle.enc_table.specs.Seen.{IsTable, with_shelf};
ghost use Rattle.server_conn.specs.Checks.{refusal};
ghost use Rattle.server_conn.specs.Inside.{IsNoted, IsTxn, held_in, shelves_in, step_by};
ghost use Rattle.server_conn.specs.Serving.{inserted};
ghost use Rattle.std.specs.Prelude.{◌≡◌, ◌<◌, ◌^◌, [], ◌∷◌, ◌++◌, IfOk, OnOk, None, length, map};
ghost use Rattle.table_model.specs.Changes.{insert_row};
ghost use Rattle.table_model.specs.Fitting.{AllPlaced};
ghost use Rattle.walk_proto.specs.declared.messages.Request.TheVariants as request;
ghost use Rattle.server_conn.specs.declared.txn.Mark.{Mark as Placed};

use crate::came::Came;
use crate::txn::{Mark, Txn};
use enc_table::{Table, TableStop};
use mope_base::{Body, Items, OutOfMemory, TableNo};
use ope_tree::Place;
use std::alloc::Global;
use versions::Op;
use walk_proto::Reply;

/// The places alone.
fn places_of(alloc: Global, marks: &[Mark]) -> Result<Vec<Place>, OutOfMemory>
    ensures { IfOk result (λ places. places.items ≡ map (λ (m : Placed). m.place) marks.now) }
{
    let mut places = Vec::new(alloc);
    'marks: for mark in marks {
        places.push(mark.place)?;
    }
    Ok(places)
}

fn copied(alloc: Global, bodies: &[Body]) -> Result<Vec<Body>, OutOfMemory>
    ensures { IfOk result (λ copies. copies.items ≡ bodies.now) }
{
    let mut copies = Vec::new(alloc);
    'bodies: for body in bodies {
        copies.push(*body)?;
    }
    Ok(copies)
}

/// The table with one row more, which must have room for it.
fn with_row(table: Table, places: &[Place], bodies: &[Body]) -> Result<Table, OutOfMemory>
    requires placed { AllPlaced table.shelf.columns places.now }
    requires wide { length bodies.now ≡ length table.shelf.columns }
    requires room { length table.shelf.kept < table.limit }
    requires number { table.shelf.next < 2 ^ 63 }
    ensures table { IfOk result (λ after. after ≡ with_shelf (insert_row table.same_time places.now bodies.now table.shelf) table) }
    ensures sound { IfOk result (λ after. IsTable after) }
{
    let mut table = table;
    match table.insert_row(places, bodies) {
        Ok(_) => {
            let _columns = table.columns();
            Ok(table)
        }
        Err(TableStop::Full) => unreachable!(),
        Err(TableStop::OutOfMemory) => Err(OutOfMemory),
    }
}

/// A statement about a table was served: the table is touched, and the places are used up.
pub fn touch(txn: &mut Txn, table: TableNo) -> Result<(), OutOfMemory>
    ensures { OnOk result (IsNoted table txn.old.ops.items txn.old txn.new) }
{
    txn.touched.push(table)?;
    txn.marks.clear();
    Ok(())
}

/// The same with one operation more.
pub fn note(txn: &mut Txn, table: TableNo, op: Op) -> Result<(), OutOfMemory>
    ensures { OnOk result (IsNoted table (txn.old.ops.items ++ op ∷ []) txn.old txn.new) }
{
    txn.ops.push(op)?;
    touch(txn, table)?;
    Ok(())
}

/// One row more at the places that were found, with these bodies, where no check refuses that.
pub fn insert(
    alloc: Global,
    txn: &mut Txn,
    table: TableNo,
    bodies: &[Body],
) -> Result<Came, OutOfMemory>
    requires txn { IsTxn txn.old }
    requires checked { refusal (request.Insert table bodies.now) (held_in txn.old) ≡ None }
    ensures step { IfOk result (λ came. step_by came (held_in txn.new) ≡ inserted table bodies.now (held_in txn.old)) }
    ensures txn { OnOk result (IsTxn txn.new) }
{
    let places = places_of(alloc, txn.marks.as_slice())?;
    let copies = copied(alloc, bodies)?;
    let before = txn.take_own(table)?;
    let after = with_row(before, places.as_slice(), copies.as_slice())?;
    txn.put_own(table, after);
    let op = Op::Insert {
        table,
        places: Items::from_vec(places),
        bodies: Items::from_vec(copies),
    };
    note(txn, table, op)?;
    Ok(Came::Says(Reply::Count(1)))
}
