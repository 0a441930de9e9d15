//! The book and its passes.
ghost use Rattle.std.specs.Prelude.{◌≡◌};

use crate::history::History;
use crate::steps::Place;
use crate::view::{Opening, Turns, View};
use atomic_table::Table;
use std::alloc::Global;

/// One value that passes take in turn. Threads share it by `&`.
#[derive(Drop)]
pub struct Book<T: History> {
    pub(crate) table: Table<Option<T>, View<T::Item, T::Origin>, Opening<T>, Turns<T>, Global>,
    ghost counts: { (table.shared.table_id.words ≡ 3) × (table.shared.table_id.slots ≡ 1) },
}

/// What one session knows of a book. It has no bytes.
#[derive(Drop)]
pub struct Pass<T: History> {
    pub(crate) seat: Place<T>,
}
