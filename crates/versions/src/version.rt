//! Versions of the tables.
ghost use Rattle.enc_table.specs.Seen.{new_table};
ghost use Rattle.mope_base.specs.Modes.{is_same_time};
ghost use Rattle.mope_base.specs.Lists.{Each};
ghost use Rattle.std.specs.Arc.{arc_value};
ghost use Rattle.std.specs.Prelude.{All, ◌≡◌, ◌+◌, ◌<◌, ◌≤◌, ◌^◌, ◌↔◌, IfOk, IfSome, IsSome, length, map};
ghost use Rattle.versions.specs.Databases.{IsDatabase, IsMember, database_of, first_database, table_at};
ghost use Rattle.versions.specs.Inside.{tables_of};

use enc_table::Table;
use mope_base::{Mode, OutOfMemory, TableNo};
use std::alloc::Global;
use std::marker::Model;
use std::sync::Arc;

/// The tables of a database at one number. A table that a version has unchanged from the one before it is the same table, in
/// memory too; a changed one shares with the old one all pages that the change didn't touch.
///
/// Contracts see its number, the mode and the limit of rows of its tables, and of each table its shelf and its stamps.
#[derive(Drop)]
pub struct Version {
    pub(crate) number: u64,
    pub(crate) mode: Mode,
    pub(crate) limit: u32,
    pub(crate) tables: Vec<Arc<Table, Global>>,
}

impl Model for Version {
    ghost use Rattle.versions.specs.Databases.{Database, database_code};

    ghost Value = { Database };

    ghost coded = { database_code };

    ghost use Rattle.mope_base.specs.Modes.{is_same_time};
    ghost use Rattle.versions.specs.Inside.{IsVersion, tables_of};
    ghost use Rattle.versions.specs.Databases.{database_of};

    ghost view = { λ v. database_of v.number (is_same_time v.mode) v.limit (tables_of v.tables.items) };

    ghost invariant = { λ v. IsVersion (is_same_time v.mode) v.limit (tables_of v.tables.items) };
}

/// Tables without rows, of so many columns each.
fn empty_tables(
    alloc: Global,
    columns: &[u8],
    mode: Mode,
    limit: u32,
) -> Result<Vec<Arc<Table, Global>>, OutOfMemory>
    requires widths { All (λ width. (1 ≤ width) × (width ≤ 8)) columns.now }
    requires low { limit ≤ 1048576 }
    ensures { IfOk result (λ tables. tables_of tables.items ≡ map (λ width. new_table width (is_same_time mode) limit) columns.now) }
{
    let mut tables = Vec::new(alloc);
    'tables: for width in columns {
        let table = Table::new(alloc, *width, mode, limit)?;
        tables.push(Arc::new(alloc, table)?)?;
    }
    Ok(tables)
}

impl Version {
    /// Number 0: empty tables, of so many columns each. There are at most 16 tables, each of 1 to 8 columns, and the limit of
    /// rows is at most 1,048,576.
    pub fn first(
        alloc: Global,
        columns: &[u8],
        mode: Mode,
        limit: u32,
    ) -> Result<Version, OutOfMemory>
        requires few { length columns.now ≤ 16 }
        requires widths { All (λ width. (1 ≤ width) × (width ≤ 8)) columns.now }
        requires low { limit ≤ 1048576 }
        ensures { IfOk result (λ version. version ≡ first_database columns.now (is_same_time mode) limit) }
    {
        let tables = empty_tables(alloc, columns, mode, limit)?;
        Ok(Version {
            number: 0,
            mode,
            limit,
            tables,
        })
    }

    /// How many versions came before it.
    pub fn number(&self) -> u64
        ensures value { result ≡ self.now.number }
        ensures database { IsDatabase self.now }
    {
        self.number
    }

    /// How many tables it has.
    pub fn tables(&self) -> usize
        ensures value { result ≡ length self.now.shelves }
        ensures database { IsDatabase self.now }
    {
        self.tables.len()
    }

    /// What becomes of items without rows in its tables.
    pub fn mode(&self) -> Mode
        ensures { is_same_time result ≡ self.now.same_time }
    {
        self.mode
    }

    /// How many rows a table may have.
    pub fn limit(&self) -> u32
        ensures { result ≡ self.now.limit }
    {
        self.limit
    }

    /// A table: `None` exactly where there is no such table.
    pub fn table(&self, table: TableNo) -> Option<&Table>
        ensures there { IsSome result ↔ (table.0 < length self.now.shelves) }
        ensures value { IfSome result (λ found. found.now ≡ table_at self.now table.0) }
        ensures database { IsDatabase self.now }
    {
        match self.tables.get(table.0 as usize) {
            None => None,
            Some(found) => Some(found),
        }
    }

    /// A copy of a table, which must be there. Until one of them changes both share all pages.
    pub(crate) fn copy_of(&self, table: TableNo) -> Result<Table, OutOfMemory>
        requires { table.0 < length self.now.shelves }
        ensures { IfOk result (λ copy. copy ≡ table_at self.now table.0) }
    {
        let found = self.table(table).unwrap();
        let copy = found.copy()?;
        Ok(copy)
    }

    /// A further share of a table, which must be there.
    pub(crate) fn share_of(&self, table: TableNo) -> Result<Arc<Table, Global>, OutOfMemory>
        requires { table.0 < length self.now.shelves }
        ensures value { IfOk result (λ share. arc_value share ≡ table_at self.now table.0) }
        ensures member { IfOk result (λ share. IsMember self.now.same_time self.now.limit (arc_value share)) }
    {
        let share = Arc::try_clone(&self.tables[table.0 as usize])?;
        Ok(share)
    }

    /// The version of these tables at the next number.
    pub(crate) fn next(&self, tables: Vec<Arc<Table, Global>>) -> Version
        requires number { self.now.number < 2 ^ 63 }
        requires few { length tables.items ≤ 16 }
        requires members { Each (IsMember self.now.same_time self.now.limit) (tables_of tables.items) }
        ensures { result ≡ database_of (self.now.number + 1) self.now.same_time self.now.limit (tables_of tables.items) }
    {
        Version {
            number: self.number + 1,
            mode: self.mode,
            limit: self.limit,
            tables,
        }
    }
}
