//! The declared tables, whose names and columns are found by number.
ghost use Rattle.std.specs.Prelude.{◌≡◌, ◌<◌, ◌≤◌, [], false, length, IfOk, IfSome};
ghost use Rattle.workload_file.specs.Naming.{table_of, columns_of, declared, has_too_many, names_of, stands_in, with_table};

use crate::names::{Names, told_apart, with_one};
use crate::stops::FileReason;
use mope_base::{Items, OutOfMemory, TableNo};
use sql_text::Name;
use std::alloc::Global;
use std::marker::Model;
use workload::Decl;

/// The most tables of a workload.
const TABLES_MOST: usize = 16;

/// The most columns of a table.
const COLUMNS_MOST: usize = 8;

/// At most 16 tables. Contracts see the list of their declarations.
#[derive(Drop)]
pub struct Tables {
    decls: Items<Decl>,
    names: Names,
    columns: Items<Names>,
}

impl Model for Tables {
    ghost use Rattle.std.specs.Prelude.{List};
    ghost use Rattle.workload.specs.declared.script.Decl.{Decl as DeclValue};
    ghost use Rattle.workload_file.specs.Naming.{AreNumbered};

    ghost Value = { List DeclValue };

    ghost view = { λ t. t.decls };

    ghost invariant = { λ t. AreNumbered t.decls t.names t.columns };
}

impl Tables {
    pub fn new(alloc: Global) -> Tables
        ensures { result ≡ [] }
    {
        Tables {
            decls: Items::new(alloc),
            names: Names::new(alloc),
            columns: Items::new(alloc),
        }
    }

    /// The declarations. It takes no memory.
    pub fn into_decls(self) -> Items<Decl>
        ensures { result ≡ self }
    {
        self.decls
    }

    /// The number of a table, if it is declared.
    pub fn number_of(&self, name: &Name) -> Option<TableNo>
        ensures number { result ≡ table_of self.now name.now }
        ensures within { IfSome result (λ t. t.0 < length self.now) }
    {
        match self.names.number_of(name) {
            Some(number) => Some(TableNo(number)),
            None => None,
        }
    }

    /// The columns of a table.
    pub fn columns(&self, t: TableNo) -> &Names
        requires { t.0 < length self.now }
        ensures { result.now ≡ columns_of self.now t }
    {
        &self.columns.as_slice()[t.0 as usize]
    }

    /// Whether one more table, or so many columns of it, would be too many.
    #[tactic(auto, using(crate::proofs::NamingLemmas::few_enough), unfolding(crate::specs::Naming::has_too_many))]
    fn has_too_many(&self, columns: usize) -> bool
        ensures many { result ≡ has_too_many (length self.now) columns }
        ensures few { result ≡ false → (length self.now < 16) × (columns ≤ 8) }
    {
        self.decls.as_slice().len() >= TABLES_MOST || columns > COLUMNS_MOST
    }

    /// The tables with one more, or the reason why there is none.
    #[tactic(auto, unfolding(crate::specs::Naming::declared, crate::specs::Naming::declared_unless, crate::specs::Naming::declared_as))]
    pub fn declare(
        self,
        alloc: Global,
        name: Name,
        columns: Items<Name>,
    ) -> Result<Result<Tables, FileReason>, OutOfMemory>
        ensures { IfOk result (λ next. next ≡ declared self name columns) }
    {
        if self.has_too_many(columns.as_slice().len()) {
            return Ok(Err(FileReason::TooMany));
        }
        match told_apart(alloc, columns.as_slice())? {
            Some(numbered) => self.add(alloc, name, columns, numbered),
            None => Ok(Err(FileReason::RepeatedName)),
        }
    }

    /// The tables with one more, whose columns' names differ, or that its name was declared before.
    #[tactic(auto, using(crate::proofs::NamingLemmas::numbered_more), unfolding(crate::specs::Naming::with_table, crate::specs::Naming::with_new))]
    fn add(
        self,
        alloc: Global,
        name: Name,
        columns: Items<Name>,
        numbered: Names,
    ) -> Result<Result<Tables, FileReason>, OutOfMemory>
        requires few { length self < 16 }
        requires same { numbered ≡ columns }
        ensures { IfOk result (λ next. next ≡ with_table (stands_in name (names_of self)) self name columns) }
    {
        let Tables {
            mut decls,
            names,
            columns: mut places,
        } = self;
        let Some(names) = with_one(alloc, names, &name)? else {
            return Ok(Err(FileReason::RepeatedName));
        };
        places.push(numbered)?;
        decls.push(Decl { name, columns })?;
        Ok(Ok(Tables {
            decls,
            names,
            columns: places,
        }))
    }
}
