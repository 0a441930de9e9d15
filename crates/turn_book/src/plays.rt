//! The rule of the table, and what each step tells its pass.
ghost use Rattle.turn_book.specs.Protocol.{Draws, Looks, Sees, Counts, PassesOn, Compares, with_less_stock, split_off, joined, spent_view};

use crate::history::History;
use crate::view::{Opening, Turns, View};
use atomic_table::{Join, Play, Split, TableRule};
use std::marker::{Brand, PhantomData};

impl<T: History> TableRule<Option<T>, View<T::Item, T::Origin>, Opening<T>> for Turns<T> {
    ghost use Rattle.turn_book.specs.Protocol.{Kept, first_view};

    ghost holds = { λ k. Kept T.items T.origin T.number k.passes };

    ghost first = { λ k. first_view (T.origin k.value.value) k.passes };
}

/// The history of the value that is about to be given. Each call picks it.
pub trait Given<I> {
    ghost use Rattle.std.specs.Prelude.{List};

    ghost next: { List I };
}

impl<I> Given<I> for Brand {
    ghost use Rattle.std.specs.Prelude.{[]};

    ghost next = { [] };
}

pub(crate) struct Draw;

impl<T, I, O> Play<Option<T>, View<I, O>> for Draw {
    ghost then = { Draws };
}

pub(crate) struct Look<T> {
    of: PhantomData<T>,
}

impl<T: History> Play<Option<T>, View<T::Item, T::Origin>> for Look<T> {
    ghost then = { Looks T.items T.origin T.number };
}

pub(crate) struct See<T> {
    of: PhantomData<T>,
}

impl<T: History> Play<Option<T>, View<T::Item, T::Origin>> for See<T> {
    ghost then = { Sees T.number };
}

pub(crate) struct Count<T, G> {
    of: PhantomData<(T, G)>,
}

impl<T: History, G: Given<T::Item>> Play<Option<T>, View<T::Item, T::Origin>> for Count<T, G> {
    ghost then = { Counts T.number G.next };
}

pub(crate) struct PassOn;

impl<T, I, O> Play<Option<T>, View<I, O>> for PassOn {
    ghost then = { PassesOn };
}

pub(crate) struct Compare;

impl<T, I, O> Play<Option<T>, View<I, O>> for Compare {
    ghost then = { Compares };
}

pub(crate) struct Halve;

impl<I, O> Split<View<I, O>> for Halve {
    ghost left = { with_less_stock };

    ghost right = { split_off };
}

pub(crate) struct Merge;

impl<I, O> Join<View<I, O>> for Merge {
    ghost both = { joined };

    ghost spent = { spent_view };
}
