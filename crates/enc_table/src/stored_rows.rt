//! What a table stores of its rows: their numbers, and the columns.
ghost use Rattle.enc_table.specs.Fields.{AreCopied, AreHeld};
ghost use Rattle.enc_table.specs.Stored.{no_column};
ghost use Rattle.std.specs.Prelude.{◌≡◌, [], IfOk, length, replicate};

use crate::columns::Column;
use cow_pages::Paged;
use mope_base::OutOfMemory;
use std::alloc::Global;

/// The numbers of the rows, in increasing order, and the columns. After an error of a call with `&mut self` there are no rows
/// and no items, and as many columns as before.
#[derive(Drop)]
pub struct StoredRows {
    pub numbers: Paged<u64>,
    pub columns: Vec<Column>,
}

/// So many columns without rows.
fn new_columns(alloc: Global, width: u8) -> Result<Vec<Column>, OutOfMemory>
    ensures { IfOk result (λ columns. columns.items ≡ replicate width no_column) }
{
    let mut columns = Vec::new(alloc);
    'columns: for _at in 0..width {
        columns.push(Column::new(alloc))?;
    }
    Ok(columns)
}

/// Takes all rows and items out of the columns.
fn clear_each(columns: &mut Vec<Column>, alloc: Global)
    ensures { columns.new.items ≡ replicate (length columns.old.items) no_column }
{
    'columns: for at in 0..columns.len() {
        columns[at] = Column::new(alloc);
    }
}

/// A second list of columns that are the same.
fn copy_each(
    alloc: Global,
    columns: &[Column],
    numbers: &Paged<u64>,
) -> Result<Vec<Column>, OutOfMemory>
    requires { AreHeld numbers.now columns.now }
    ensures many { IfOk result (λ copy. length copy.items ≡ length columns.now) }
    ensures each { IfOk result (λ copy. AreCopied numbers.now columns.now copy.items) }
{
    let _ = numbers.len();
    let mut copy = Vec::new(alloc);
    'columns: for column in columns {
        copy.push(column.copy()?)?;
    }
    Ok(copy)
}

impl StoredRows {
    /// So many columns, and no rows.
    pub fn new(alloc: Global, width: u8) -> Result<StoredRows, OutOfMemory>
        ensures numbers { IfOk result (λ rows. rows.numbers ≡ []) }
        ensures columns { IfOk result (λ rows. rows.columns.items ≡ replicate width no_column) }
    {
        let columns = new_columns(alloc, width)?;
        Ok(StoredRows {
            numbers: Paged::new(alloc),
            columns,
        })
    }

    /// Takes all rows and items out. It takes no memory.
    pub fn clear(&mut self, alloc: Global)
        ensures numbers { self.new.numbers ≡ [] }
        ensures columns { self.new.columns.items ≡ replicate (length self.old.columns.items) no_column }
    {
        self.numbers = Paged::new(alloc);
        clear_each(&mut self.columns, alloc);
    }

    /// Second rows that are the same, and share all pages with these.
    pub fn copy(&self, alloc: Global) -> Result<StoredRows, OutOfMemory>
        requires { AreHeld self.now.numbers self.now.columns.items }
        ensures numbers { IfOk result (λ rows. rows.numbers ≡ self.now.numbers) }
        ensures many { IfOk result (λ rows. length rows.columns.items ≡ length self.now.columns.items) }
        ensures columns { IfOk result (λ rows. AreCopied self.now.numbers self.now.columns.items rows.columns.items) }
    {
        let columns = copy_each(alloc, &self.columns, &self.numbers)?;
        match self.numbers.share() {
            Ok(numbers) => Ok(StoredRows { numbers, columns }),
            Err(_) => Err(OutOfMemory),
        }
    }
}
