//! A transaction in hand.
ghost use Rattle.server_conn.specs.Connections.{held_on};
ghost use Rattle.server_conn.specs.Inside.{IsElse, IsSameOwn, IsTableOf, IsTaken, IsTxn, held_in, shelves_in, shut};
ghost use Rattle.std.specs.Prelude.{◌≡◌, ◌<◌, ◌≤◌, ◌↔◌, IfOk, IfSome, IsSome, None, OnOk, Some, get_or, length, option_copied, set};
ghost use Rattle.table_model.specs.Operations.{shelf_at};
ghost use Rattle.table_model.specs.Soundness.{column_at};
ghost use Rattle.versions.specs.Databases.{IsDatabase, table_at};

use enc_table::Table;
use mope_base::{ColNo, OutOfMemory, TableNo};
use ope_tree::{Cursor, Place, Tree};
use path_code::Path;
use std::alloc::Global;
use std::mem;
use versions::{Ending, Op, Snapshot};

/// A place that a walk found in a column of a table.
#[derive(Clone, Copy)]
pub struct Mark {
    pub table: TableNo,
    pub column: ColNo,
    pub place: Place,
}

/// An open walk: its column, the way that it has gone down the column's tree, and a share of this tree with where the walk
/// stands in it, by which a step costs the same however deep it is.
#[derive(Drop)]
pub struct Walk {
    pub table: TableNo,
    pub column: ColNo,
    pub path: Path,
    pub tree: Tree,
    pub cursor: Cursor,
}

/// A transaction: the version that it began on; its own tables, of which one is there once the transaction wrote to it, and
/// else the version's is read; the tables that its statements named; its operations; the places found since its last statement;
/// and the walk that is open.
#[derive(Drop)]
pub struct Txn {
    pub base: Snapshot,
    pub own: Vec<Option<Table>>,
    pub touched: Vec<TableNo>,
    pub ops: Vec<Op>,
    pub marks: Vec<Mark>,
    pub walk: Option<Walk>,
}

/// The table at a place, if one stands there.
fn own_at(own: &[Option<Table>], place: usize) -> Option<&Table>
    ensures { option_copied result ≡ get_or own.now place None }
{
    if place < own.len() {
        own[place].as_ref()
    } else {
        None
    }
}

/// Room for so many own tables.
fn make_room(own: &mut Vec<Option<Table>>, tables: usize) -> Result<(), OutOfMemory>
    requires { length own.old.items ≤ tables }
    ensures many { OnOk result (length own.new.items ≡ tables) }
    ensures few { length own.new.items ≤ tables }
    ensures same { IsSameOwn own.old.items own.new.items }
{
    'tables: while own.len() < tables {
        match own.push(None) {
            Ok(()) => {}
            Err(_) => return Err(OutOfMemory),
        }
    }
    Ok(())
}

/// Puts an own table at a place.
fn put_at(own: &mut Vec<Option<Table>>, place: usize, table: Table)
    requires { place < length own.old.items }
    ensures { own.new.items ≡ set own.old.items place (Some table) }
{
    own[place] = Some(table);
}

/// Takes what stands at a place.
fn take_at(own: &mut Vec<Option<Table>>, place: usize) -> Option<Table>
    requires { place < length own.old.items }
    ensures taken { result ≡ get_or own.old.items place None }
    ensures left { own.new.items ≡ set own.old.items place None }
{
    mem::replace(&mut own[place], None)
}

impl Txn {
    /// A transaction at its begin. It takes no memory.
    pub fn on(alloc: Global, base: Snapshot) -> Txn
        requires { IsDatabase base }
        ensures held { held_in result ≡ held_on base }
        ensures txn { IsTxn result }
    {
        Txn {
            base,
            own: Vec::new(alloc),
            touched: Vec::new(alloc),
            ops: Vec::new(alloc),
            marks: Vec::new(alloc),
            walk: None,
        }
    }

    /// How many tables there are.
    pub fn tables(&self) -> usize
        requires { IsTxn self.now }
        ensures { result ≡ length (shelves_in self.now) }
    {
        self.base.version().tables()
    }

    /// A table as the transaction sees it: `None` exactly where there is no such table.
    pub fn table(&self, table: TableNo) -> Option<&Table>
        requires { IsTxn self.now }
        ensures there { IsSome result ↔ (table.0 < length (shelves_in self.now)) }
        ensures value { IfSome result (λ found. IsTableOf (held_in self.now) table.0 found.now) }
    {
        match own_at(self.own.as_slice(), table.0 as usize) {
            Some(own) => Some(own),
            None => self.base.version().table(table),
        }
    }

    /// A share of the tree of a column as the transaction sees it, which must be there. It costs one link.
    pub fn share(&self, table: TableNo, column: ColNo) -> Result<Tree, OutOfMemory>
        requires txn { IsTxn self.now }
        requires table { table.0 < length (shelves_in self.now) }
        requires column { column.0 < length (shelf_at (shelves_in self.now) table.0).columns }
        ensures { IfOk result (λ share. share.column ≡ column_at (shelf_at (shelves_in self.now) table.0).columns column.0) }
    {
        let found = self.table(table).unwrap();
        let share = found.tree(column).unwrap().copy()?;
        Ok(share)
    }

    /// A copy of the version's table, which must be there.
    fn copy_of(&self, table: TableNo) -> Result<Table, OutOfMemory>
        requires { table.0 < length self.now.base.shelves }
        ensures { IfOk result (λ copy. copy ≡ table_at self.now.base table.0) }
    {
        let found = self.base.version().table(table).unwrap();
        let copy = found.copy()?;
        Ok(copy)
    }

    /// Takes the transaction's own table out, which must be there: it is a copy of the version's until the first write.
    pub fn take_own(&mut self, table: TableNo) -> Result<Table, OutOfMemory>
        requires txn { IsTxn self.old }
        requires there { table.0 < length (shelves_in self.old) }
        ensures own { IfOk result (λ own. IsTableOf (held_in self.old) table.0 own) }
        ensures taken { OnOk result (IsTaken table.0 self.old self.new) }
    {
        let tables = self.tables();
        make_room(&mut self.own, tables)?;
        match take_at(&mut self.own, table.0 as usize) {
            Some(own) => Ok(own),
            None => self.copy_of(table),
        }
    }

    /// Takes the open walk out, if there is one.
    pub fn take_walk(&mut self) -> Option<Walk>
        ensures taken { result ≡ self.old.walk }
        ensures left { self.new ≡ shut self.old }
    {
        mem::replace(&mut self.walk, None)
    }

    /// What the transaction hands over at its end.
    pub fn ending(&self) -> Ending<'_>
        ensures base { result.base.now ≡ self.now.base }
        ensures touched { result.touched.now ≡ self.now.touched.items }
        ensures ops { result.ops.now ≡ self.now.ops.items }
    {
        Ending {
            base: &self.base,
            touched: self.touched.as_slice(),
            ops: self.ops.as_slice(),
        }
    }

    /// Puts the transaction's own table back.
    pub fn put_own(&mut self, table: TableNo, own: Table)
        requires { table.0 < length self.old.own.items }
        ensures own { self.new.own.items ≡ set self.old.own.items table.0 (Some own) }
        ensures rest { IsElse self.old self.new }
    {
        put_at(&mut self.own, table.0 as usize, own);
    }
}
