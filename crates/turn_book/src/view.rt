//! What a pass knows. No value of these types is made: they stand for what proofs carry with a seat of the table.

use std::collections::LinkedList;
use std::marker::PhantomData;
use std::snapshot::Snapshot;

/// Where a pass is on its way through a turn.
pub enum Stage<I> {
    Idle,
    /// It has drawn this ticket.
    Waits(u64),
    /// Its ticket is served, and the history is this list.
    Turn(u64, LinkedList<I>),
    /// It was joined into another.
    Spent,
}

/// What a pass knows: its number, the origin of the book's value, the history that it saw last, what a pass that was
/// joined into it had seen, its own items, the number and the items of each pass that was joined into it, and the numbers
/// that it can still give to new passes, from `stock_from` up to, and without, `stock_to`.
pub struct View<I, O> {
    pub stage: Stage<I>,
    pub number: u32,
    pub origin: Option<O>,
    pub seen: LinkedList<I>,
    pub told: LinkedList<I>,
    pub mine: LinkedList<I>,
    pub ended: LinkedList<(u32, LinkedList<I>)>,
    pub stock_from: u32,
    pub stock_to: u32,
}

/// What the table is told when it is made: the first value, as clauses see it, and how many passes there may be.
#[derive(Drop)]
pub struct Opening<T> {
    pub value: Snapshot<T>,
    pub passes: u32,
}

/// The rule of the table.
pub struct Turns<T> {
    of: PhantomData<T>,
}
