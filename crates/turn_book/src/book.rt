//! The calls of a book. Each names the book's passes by what they know: their number, what they saw, what they made.
ghost use Rattle.std.specs.Prelude.{◌≡◌, ◌≢◌, ◌<◌, ◌+◌, ℕ, true, false, [], ◌∷◌, ◌++◌, Some, IfOk, IfErr};
ghost use mathlib.Core.List.{IsPrefix};
ghost use mathlib.Core.Option.{some};
ghost use lib.ListN.{get_elem?};
ghost use Rattle.turn_book.specs.Places.{IsFilled};
ghost use Rattle.turn_book.specs.Accounts.{items_of, Each, HasNumber};
ghost use Rattle.turn_book.specs.Protocol.{Follows, IsLongerOf};
ghost use Rattle.turn_book.specs.Passes.{IsPassOf, HasAll, IsSamePass, known_by, holds_value, passes_in};

use crate::history::History;
use crate::pass::{Book, Pass};
use crate::plays::Halve;
use crate::steps;
use crate::view::Opening;
use atomic_table::{Closed, Table};
use mope_base::OutOfMemory;
use std::alloc::Global;
use std::snapshot::Snapshot;
use std::sync::Wait;

// The one slot's content.
fn slot_of<T: History>(alloc: Global, value: T) -> Result<Vec<Option<T>>, OutOfMemory>
    ensures { IfOk result (λ v. v.items ≡ Some value ∷ []) }
{
    let mut slots = Vec::new(alloc);
    slots.push(Some(value))?;
    Ok(slots)
}

// The value of a table that is closed.
fn value_of<T: History>(mut closed: Closed<Option<T>, Global>) -> T
    requires one { closed.slots.len ≡ 1 }
    requires full { IsFilled closed.slots.filled 1 }
    requires there { (y : T) × (get_elem? (closed.slots.items) 0 ≡ some (Some y)) }
    ensures { get_elem? (closed.slots.items) 0 ≡ some (Some result) }
{
    let Some(value) = closed.take(0) else {
        unreachable!()
    };
    closed.free();
    value
}

impl<T: History> Book<T> {
    /// A book of a value with an empty history, and its pass with number 0, which can give the numbers from 1 up to
    /// `passes` to others. Want of memory drops the value.
    pub fn start(alloc: Global, value: T, passes: u32) -> Result<(Book<T>, Pass<T>), OutOfMemory>
        requires some { 0 < passes }
        requires empty { T.items value ≡ [] }
        ensures passes { IfOk result (λ r. passes_in r.0 ≡ passes) }
        ensures pass { IfOk result (λ r. IsPassOf r.0 r.1 × (holds_value r.1 ≡ false)) }
        ensures number { IfOk result (λ r. (known_by r.1).number ≡ 0) }
        ensures origin { IfOk result (λ r. (known_by r.1).origin ≡ Some (T.origin value)) }
        ensures nothing { IfOk result (λ r. ((known_by r.1).seen ≡ []) × ((known_by r.1).mine ≡ []) × ((known_by r.1).ended ≡ [])) }
        ensures stock { IfOk result (λ r. ((known_by r.1).stock_from ≡ 1) × ((known_by r.1).stock_to ≡ passes)) }
    {
        let about = Opening {
            value: Snapshot::of(&value),
            passes,
        };
        let slots = slot_of(alloc, value)?;
        match Table::new(alloc, &[0, 0, 0], slots, &about) {
            Ok((table, seat)) => Ok((Book { table }, Pass { seat })),
            Err(_) => Err(OutOfMemory),
        }
    }

    /// A new pass with the least number of the stock, which has seen as much and has no items. It takes no memory.
    pub fn split(&self, pass: &mut Pass<T>) -> Pass<T>
        requires own { IsPassOf self.now pass.old }
        requires idle { holds_value pass.old ≡ false }
        requires left { (known_by pass.old).stock_from < (known_by pass.old).stock_to }
        ensures own { IsPassOf self.now pass.new × (holds_value pass.new ≡ false) }
        ensures pass { IsPassOf self.now result × (holds_value result ≡ false) }
        ensures number { (known_by result).number ≡ (known_by pass.old).stock_from }
        ensures origin { (known_by result).origin ≡ (known_by pass.old).origin }
        ensures seen { (known_by result).seen ≡ (known_by pass.old).seen }
        ensures nothing { ((known_by result).mine ≡ []) × ((known_by result).ended ≡ []) × ((known_by result).stock_from ≡ 0) × ((known_by result).stock_to ≡ 0) }
        ensures stock { ((known_by pass.new).stock_from ≡ (known_by pass.old).stock_from + 1) × ((known_by pass.new).stock_to ≡ (known_by pass.old).stock_to) }
        ensures same { ((known_by pass.new).number ≡ (known_by pass.old).number) × ((known_by pass.new).origin ≡ (known_by pass.old).origin) × ((known_by pass.new).seen ≡ (known_by pass.old).seen) × ((known_by pass.new).mine ≡ (known_by pass.old).mine) × ((known_by pass.new).ended ≡ (known_by pass.old).ended) }
    {
        Pass {
            seat: self.table.shared.split_seat::<Halve>(&mut pass.seat),
        }
    }

    /// Ends `from`: `into` has then seen what either of them saw, and tells the items of both. It takes no memory.
    pub fn join(&self, into: &mut Pass<T>, from: Pass<T>)
        requires own { IsPassOf self.now into.old × (holds_value into.old ≡ false) }
        requires other { IsPassOf self.now from × (holds_value from ≡ false) }
        ensures own { IsPassOf self.now into.new × (holds_value into.new ≡ false) }
        ensures seen { IsLongerOf (known_by into.old).seen (known_by from).seen (known_by into.new).seen }
        ensures ended { (known_by into.new).ended ≡ (known_by into.old).ended ++ ((known_by from).number, (known_by from).mine) ∷ (known_by from).ended }
        ensures mine { (known_by into.new).mine ≡ (known_by into.old).mine }
        ensures stock { ((known_by into.new).stock_from ≡ (known_by into.old).stock_from) × ((known_by into.new).stock_to ≡ (known_by into.old).stock_to) }
        ensures same { ((known_by into.new).number ≡ (known_by into.old).number) × ((known_by into.new).origin ≡ (known_by into.old).origin) }
    {
        steps::join(&self.table.shared, &mut into.seat, from.seat);
    }

    /// Waits for this pass's turn, and takes the value: it has the origin of the first value, its history begins with all
    /// that the pass has seen, and of the pass's number it has the pass's own items and no others.
    pub fn take<R: Wait>(&self, rt: &R, pass: &mut Pass<T>) -> T
        requires own { IsPassOf self.now pass.old }
        requires idle { holds_value pass.old ≡ false }
        ensures own { IsPassOf self.now pass.new }
        ensures holds { holds_value pass.new ≡ true }
        ensures origin { (known_by pass.old).origin ≡ Some (T.origin result) }
        ensures prefix { IsPrefix (known_by pass.old).seen (T.items result) }
        ensures seen { (known_by pass.new).seen ≡ T.items result }
        ensures items { items_of T.number (known_by pass.old).number (T.items result) ≡ (known_by pass.old).mine }
        ensures mine { (known_by pass.new).mine ≡ (known_by pass.old).mine }
        ensures same { IsSamePass (known_by pass.old) (known_by pass.new) }
    {
        steps::take(rt, &self.table.shared, &mut pass.seat)
    }

    /// Gives the value back, with the history that the pass has seen or that and one item of its own. It takes no memory.
    pub fn give(&self, pass: &mut Pass<T>, value: T)
        requires own { IsPassOf self.now pass.old }
        requires holds { holds_value pass.old ≡ true }
        requires origin { (known_by pass.old).origin ≡ Some (T.origin value) }
        requires history { Follows T.number (known_by pass.old).number (known_by pass.old).seen (T.items value) }
        ensures own { IsPassOf self.now pass.new }
        ensures idle { holds_value pass.new ≡ false }
        ensures seen { (known_by pass.new).seen ≡ T.items value }
        ensures added { (x : T.Item) → T.items value ≡ (known_by pass.old).seen ++ x ∷ [] → (known_by pass.new).mine ≡ (known_by pass.old).mine ++ x ∷ [] }
        ensures kept { T.items value ≡ (known_by pass.old).seen → (known_by pass.new).mine ≡ (known_by pass.old).mine }
        ensures same { IsSamePass (known_by pass.old) (known_by pass.new) }
    {
        steps::give(&self.table.shared, &mut pass.seat, value);
    }

    /// Ends the book: the history of the value has the items of this pass and of those that were joined into it, and no
    /// others. Every number below the number of passes is the pass's own, or of one that was joined, or in its stock.
    pub fn close(self, pass: Pass<T>) -> T
        requires own { IsPassOf self pass }
        requires idle { holds_value pass ≡ false }
        requires all { HasAll (passes_in self) (known_by pass) }
        ensures origin { (known_by pass).origin ≡ Some (T.origin result) }
        ensures seen { IsPrefix (known_by pass).seen (T.items result) }
        ensures mine { items_of T.number (known_by pass).number (T.items result) ≡ (known_by pass).mine }
        ensures ended { Each (λ e. items_of T.number e.0 (T.items result) ≡ e.1) (known_by pass).ended }
        ensures others { (n : ℕ) → n ≢ (known_by pass).number → ¬ (HasNumber n (known_by pass).ended) → items_of T.number n (T.items result) ≡ [] }
    {
        let Book { table } = self;
        let Pass { seat } = pass;
        value_of(table.close_with(seat))
    }
}
