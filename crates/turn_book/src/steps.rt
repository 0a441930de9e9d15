//! The steps, each on a seat of the table.
ghost use Rattle.std.specs.Prelude.{◌≡◌, ℕ, [], ◌∷◌, ◌++◌, length, Some, None};
ghost use mathlib.Core.List.{IsPrefix};
ghost use Rattle.turn_book.specs.declared.view.Stage.TheVariants.{Idle, Waits, Turn};
ghost use Rattle.turn_book.specs.Accounts.{items_of};
ghost use Rattle.turn_book.specs.Protocol.{Fits, Follows, Gains, at_stage, having_seen, having_made, joined, IsLongerOf};

use crate::history::History;
use crate::plays::{Compare, Count, Draw, Given, Look, Merge, PassOn, See};
use crate::view::{Opening, Turns, View};
use atomic_table::{Seat, Shared};
use std::marker::Brand;
use std::sync::Wait;

/// The word with the length of the history.
const COUNT: usize = 0;

/// The word with the number of tickets that were drawn.
const DRAWN: usize = 1;

/// The word with the ticket that is served.
const SERVED: usize = 2;

/// The slot of the value.
const VALUE: usize = 0;

/// The bits of a word that a sleep compares.
const LOW_BITS: u64 = 0xffff_ffff;

pub(crate) type Words<T> = Shared<
    Option<T>,
    View<<T as History>::Item, <T as History>::Origin>,
    Opening<T>,
    Turns<T>,
>;

pub(crate) type Place<T> = Seat<Option<T>, View<<T as History>::Item, <T as History>::Origin>>;

// Draws a ticket.
fn draw<T: History>(words: &Words<T>, seat: &mut Place<T>) -> u64
    requires table { Fits seat.old.table_id words.now.table_id }
    requires idle { seat.old.me.0.stage ≡ Idle }
    ensures place { (seat.new.table_id ≡ seat.old.table_id) × (seat.new.id ≡ seat.old.id) }
    ensures waits { seat.new.me ≡ (at_stage seat.old.me.0 (Waits result), seat.old.me.1) }
{
    words.fetch_add::<Draw>(seat, DRAWN, 1)
}

// Waits until the ticket is served. Then the seat has the value.
fn await_turn<T: History, R: Wait>(rt: &R, words: &Words<T>, seat: &mut Place<T>, ticket: u64)
    requires table { Fits seat.old.table_id words.now.table_id }
    requires waits { seat.old.me.0.stage ≡ Waits ticket }
    ensures place { (seat.new.table_id ≡ seat.old.table_id) × (seat.new.id ≡ seat.old.id) }
    ensures gains { Gains T.items T.origin T.number ticket seat.old.me seat.new.me }
{
    'serving: for _ in rt.forever() {
        let serving = words.load::<Look<T>>(seat, SERVED);
        if serving == ticket {
            return;
        }
        words.park(rt, SERVED, (serving & LOW_BITS) as u32);
    }
    unreachable!()
}

// Reads the count, having the turn: the pass has then seen the history.
fn read_count<T: History>(words: &Words<T>, seat: &mut Place<T>) -> u64
    requires table { Fits seat.old.table_id words.now.table_id }
    requires turn { (t : ℕ) × (now : _) × (seat.old.me.0.stage ≡ Turn t now) }
    ensures place { (seat.new.table_id ≡ seat.old.table_id) × (seat.new.id ≡ seat.old.id) }
    ensures seen { (t : ℕ) (now : _) → seat.old.me.0.stage ≡ Turn t now → (seat.new.me ≡ (having_seen seat.old.me.0 now, seat.old.me.1)) × (result ≡ length now) × (items_of T.number seat.old.me.0.number now ≡ seat.old.me.0.mine) }
{
    words.load::<See<T>>(seat, COUNT)
}

// Takes the value out of the slot that the seat holds.
fn take_out<T: History>(words: &Words<T>, seat: &mut Place<T>) -> T
    requires table { Fits seat.old.table_id words.now.table_id }
    requires held { (y : T) × (seat.old.me.1 ≡ (0, Some y) ∷ []) }
    ensures place { (seat.new.table_id ≡ seat.old.table_id) × (seat.new.id ≡ seat.old.id) }
    ensures value { seat.old.me.1 ≡ (0, Some result) ∷ [] }
    ensures out { seat.new.me ≡ (seat.old.me.0, (0, None) ∷ []) }
{
    let Some(value) = words.exchange(seat, VALUE, None) else {
        unreachable!()
    };
    value
}

/// A whole turn's beginning: draws a ticket, waits for it, reads the count, and takes the value.
pub(crate) fn take<T: History, R: Wait>(rt: &R, words: &Words<T>, seat: &mut Place<T>) -> T
    requires table { Fits seat.old.table_id words.now.table_id }
    requires idle { (seat.old.me.0.stage ≡ Idle) × (seat.old.me.1 ≡ []) }
    ensures place { (seat.new.table_id ≡ seat.old.table_id) × (seat.new.id ≡ seat.old.id) }
    ensures turn { (t : ℕ) × (seat.new.me ≡ (having_seen (at_stage seat.old.me.0 (Turn t (T.items result))) (T.items result), (0, None) ∷ [])) }
    ensures origin { seat.old.me.0.origin ≡ Some (T.origin result) }
    ensures seen { IsPrefix seat.old.me.0.seen (T.items result) }
    ensures mine { items_of T.number seat.old.me.0.number (T.items result) ≡ seat.old.me.0.mine }
{
    let ticket = draw(words, seat);
    await_turn(rt, words, seat, ticket);
    read_count(words, seat);
    take_out(words, seat)
}

// Writes the count of the value that is to be given.
fn write_count<T: History, G: Given<T::Item>>(
    words: &Words<T>,
    seat: &mut Place<T>,
    value: &T,
    count: u64,
)
    requires table { Fits seat.old.table_id words.now.table_id }
    requires turn { (t : ℕ) × (seat.old.me.0.stage ≡ Turn t seat.old.me.0.seen) }
    requires next { (x : T.Item) × (T.items value.now ≡ seat.old.me.0.seen ++ x ∷ []) × (T.number x ≡ seat.old.me.0.number) }
    requires count { count ≡ length (T.items value.now) }
    requires picked { G.next ≡ T.items value.now }
    ensures place { (seat.new.table_id ≡ seat.old.table_id) × (seat.new.id ≡ seat.old.id) }
    ensures made { (t : ℕ) → seat.old.me.0.stage ≡ Turn t seat.old.me.0.seen → seat.new.me ≡ (having_made T.number seat.old.me.0 t (T.items value.now), seat.old.me.1) }
{
    words.store::<Count<T, G>>(seat, COUNT, count);
}

// Counts the new item, if the value has one.
fn count_items<T: History>(words: &Words<T>, seat: &mut Place<T>, value: &T)
    requires table { Fits seat.old.table_id words.now.table_id }
    requires turn { (t : ℕ) × (seat.old.me.0.stage ≡ Turn t seat.old.me.0.seen) }
    requires next { Follows T.number seat.old.me.0.number seat.old.me.0.seen (T.items value.now) }
    ensures place { (seat.new.table_id ≡ seat.old.table_id) × (seat.new.id ≡ seat.old.id) }
    ensures made { (t : ℕ) → seat.old.me.0.stage ≡ Turn t seat.old.me.0.seen → seat.new.me ≡ (having_made T.number seat.old.me.0 t (T.items value.now), seat.old.me.1) }
    ensures mine { items_of T.number seat.old.me.0.number seat.old.me.0.seen ≡ seat.old.me.0.mine }
{
    let count = value.count();
    if read_count(words, seat) != count {
        write_count::<T, Brand>(words, seat, value, count);
    }
}

// Puts the value back, and serves the next ticket.
fn put_back<T: History>(words: &Words<T>, seat: &mut Place<T>, value: T)
    requires table { Fits seat.old.table_id words.now.table_id }
    requires turn { (t : ℕ) × (seat.old.me.0.stage ≡ Turn t (T.items value)) }
    requires origin { seat.old.me.0.origin ≡ Some (T.origin value) }
    requires out { seat.old.me.1 ≡ (0, None) ∷ [] }
    ensures place { (seat.new.table_id ≡ seat.old.table_id) × (seat.new.id ≡ seat.old.id) }
    ensures idle { seat.new.me ≡ (at_stage seat.old.me.0 Idle, []) }
{
    drop(words.exchange(seat, VALUE, Some(value)));
    words.fetch_add::<PassOn>(seat, SERVED, 1);
    words.wake_all(SERVED);
}

/// A turn's end: counts the new item, puts the value back, and serves the next ticket.
pub(crate) fn give<T: History>(words: &Words<T>, seat: &mut Place<T>, value: T)
    requires table { Fits seat.old.table_id words.now.table_id }
    requires turn { (t : ℕ) × (seat.old.me.0.stage ≡ Turn t seat.old.me.0.seen) }
    requires out { seat.old.me.1 ≡ (0, None) ∷ [] }
    requires origin { seat.old.me.0.origin ≡ Some (T.origin value) }
    requires next { Follows T.number seat.old.me.0.number seat.old.me.0.seen (T.items value) }
    ensures place { (seat.new.table_id ≡ seat.old.table_id) × (seat.new.id ≡ seat.old.id) }
    ensures idle { seat.new.me ≡ (at_stage (having_made T.number seat.old.me.0 0 (T.items value)) Idle, []) }
    ensures mine { items_of T.number seat.old.me.0.number seat.old.me.0.seen ≡ seat.old.me.0.mine }
{
    count_items(words, seat, &value);
    put_back(words, seat, value);
}

/// Makes one pass of two: the other's view is added, and the longer of what both had seen is read.
pub(crate) fn join<T: History>(words: &Words<T>, seat: &mut Place<T>, other: Place<T>)
    requires table { Fits seat.old.table_id words.now.table_id × (other.table_id ≡ words.now.table_id) }
    requires idle { (seat.old.me.0.stage ≡ Idle) × (seat.old.me.1 ≡ []) }
    requires other { (other.me.0.stage ≡ Idle) × (other.me.1 ≡ []) }
    ensures place { (seat.new.table_id ≡ seat.old.table_id) × (seat.new.id ≡ seat.old.id) }
    ensures joined { seat.new.me ≡ (having_seen (joined seat.old.me.0 other.me.0) seat.new.me.0.seen, []) }
    ensures seen { IsLongerOf seat.old.me.0.seen other.me.0.seen seat.new.me.0.seen }
{
    words.join_seat::<Merge>(seat, other);
    words.load::<Compare>(seat, COUNT);
}
