//! A log to which threads add in turn.
ghost use Rattle.std.specs.Prelude.{◌≡◌, ◌+◌, ◌<◌, ◌⊎◌, false, [], ◌∷◌, ◌++◌};
ghost use denote.Param.Send.{IsSync};
ghost use Rattle.turn_book.specs.Covering.{Covers, StaysRoot};
ghost use Rattle.turn_book.specs.Passes.{IsPassOf, IsSamePass, known_by, holds_value, passes_in};

use super::*;
use mope_base::OutOfMemory;
use std::alloc::Global;
use std::process::Abort;
use std::sync::Wait;
use std::test::*;
use std::thread::{Threads, join};

/// The number of the pass that added it, and its place among the entries of this pass.
#[derive(Clone, Copy)]
pub struct Entry {
    by: u32,
    place: u64,
}

#[derive(Drop)]
pub struct Log {
    entries: Vec<Entry>,
}

impl History for Log {
    type Item = Entry;

    type Origin = ();

    ghost items = { λ l. l.entries.items };

    ghost origin = { λ _. tt };

    ghost number = { λ e. e.by };

    fn count(&self) -> u64 {
        self.entries.len() as u64
    }
}

impl Log {
    fn new(alloc: Global) -> Log
        ensures { result.entries.items ≡ [] }
    {
        Log {
            entries: Vec::new(alloc),
        }
    }

    // Adds the entry. Where memory runs out, the log stays as it was.
    fn add(&mut self, entry: Entry)
        ensures { (self.new.entries.items ≡ self.old.entries.items) ⊎ (self.new.entries.items ≡ self.old.entries.items ++ entry ∷ []) }
    {
        let _ = self.entries.push(entry);
    }

    // How many entries the pass has whose places are 0, 1, 2 and so on, in this order.
    fn in_order(&self, by: u32) -> u64 {
        let mut next = 0u64;
        for i in 0..self.entries.len() {
            let entry = self.entries[i];
            if entry.by == by && entry.place == next {
                next = next.wrapping_add(1);
            }
        }
        next
    }
}

// One turn, in which the pass adds an entry.
fn add<R: Wait>(rt: &R, book: &Book<Log>, pass: &mut Pass<Log>, entry: Entry)
    requires own { IsPassOf book.now pass.old × (holds_value pass.old ≡ false) }
    requires number { (known_by pass.old).number ≡ entry.by }
    ensures own { IsPassOf book.now pass.new × (holds_value pass.new ≡ false) }
    ensures same { IsSamePass (known_by pass.old) (known_by pass.new) }
{
    let mut log = book.take(rt, pass);
    log.add(entry);
    book.give(pass, log);
}

// As many turns as `count`.
fn add_many<R: Wait>(
    rt: &R,
    book: &Book<Log>,
    mut pass: Pass<Log>,
    by: u32,
    count: u64,
) -> Pass<Log>
    requires own { IsPassOf book.now pass × (holds_value pass ≡ false) }
    requires number { (known_by pass).number ≡ by }
    ensures own { IsPassOf book.now result × (holds_value result ≡ false) }
    ensures same { IsSamePass (known_by pass) (known_by result) }
{
    let mut place = 0;
    'adding: while place < count {
        add(rt, book, &mut pass, Entry { by, place });
        place += 1;
    }
    pass
}

// A log that one pass has taken for as many turns as `count`.
fn by_one<R: Wait>(rt: &R, alloc: Global, count: u64) -> Result<Log, OutOfMemory> {
    let (book, pass) = Book::start(alloc, Log::new(alloc), 1)?;
    let pass = add_many(rt, &book, pass, 0, count);
    Ok(book.close(pass))
}

// A log to which two threads have added in as many turns each.
fn by_two<R: Threads + Wait + Sync>(rt: &R, alloc: Global, count: u64) -> Result<Log, OutOfMemory> {
    let (book, mut first) = Book::start(alloc, Log::new(alloc), 2)?;
    let second = book.split(&mut first);
    let shared = &book;
    let (mut first, second) = join(
        rt,
        move || -> Pass<Log>
            requires { IsPassOf shared.now first × (holds_value first ≡ false) × ((known_by first).number ≡ 0) }
            ensures { IsPassOf shared.entry.now result × (holds_value result ≡ false) × IsSamePass (known_by first) (known_by result) }
        { add_many(rt, shared, first, 0, count) },
        move || -> Pass<Log>
            requires { IsPassOf shared.now second × (holds_value second ≡ false) × ((known_by second).number ≡ 1) }
            ensures { IsPassOf shared.entry.now result × (holds_value result ≡ false) × IsSamePass (known_by second) (known_by result) }
        { add_many(rt, shared, second, 1, count) },
    );
    shared.join(&mut first, second);
    Ok(book.close(first))
}

#[test]
fn one_pass_and_no_item(rt: HostRuntime) -> Result<(), Fail> {
    let log = by_one(&rt, rt.alloc(), 0).ok().ok_or("memory")?;
    assert_eq!(rt; log.entries.len(), 0);
    Ok(())
}

#[test]
fn two_threads_of_a_thousand_items_each(rt: HostRuntime) -> Result<(), Fail> {
    let log = by_two(&rt, rt.alloc(), 1000).ok().ok_or("memory")?;
    assert_eq!(rt; log.entries.len(), 2000);
    assert_eq!(rt; log.in_order(0), 1000);
    assert_eq!(rt; log.in_order(1), 1000);
    Ok(())
}

// A new pass with this number, which has taken one turn.
fn leaf<R: Wait>(rt: &R, book: &Book<Log>, root: &mut Pass<Log>, number: u32) -> Pass<Log>
    requires root { IsPassOf book.now root.old × (holds_value root.old ≡ false) }
    requires stock { ((known_by root.old).stock_from ≡ number) × (number < (known_by root.old).stock_to) }
    ensures root { IsPassOf book.now root.new × (holds_value root.new ≡ false) }
    ensures stock { ((known_by root.new).stock_from ≡ number + 1) × StaysRoot (known_by root.old) (known_by root.new) }
    ensures pass { IsPassOf book.now result × (holds_value result ≡ false) }
    ensures covers { Covers (known_by result).number (known_by result).ended number (number + 1) }
{
    let mut pass = book.split(root);
    add(
        rt,
        book,
        &mut pass,
        Entry {
            by: number,
            place: 0,
        },
    );
    pass
}

// Two such passes, joined.
fn two_leaves<R: Wait>(rt: &R, book: &Book<Log>, root: &mut Pass<Log>, number: u32) -> Pass<Log>
    requires root { IsPassOf book.now root.old × (holds_value root.old ≡ false) }
    requires stock { ((known_by root.old).stock_from ≡ number) × (number + 1 < (known_by root.old).stock_to) × (number < 100) }
    ensures root { IsPassOf book.now root.new × (holds_value root.new ≡ false) }
    ensures stock { ((known_by root.new).stock_from ≡ number + 2) × StaysRoot (known_by root.old) (known_by root.new) }
    ensures pass { IsPassOf book.now result × (holds_value result ≡ false) }
    ensures covers { Covers (known_by result).number (known_by result).ended number (number + 2) }
{
    let mut left = leaf(rt, book, root, number);
    let right = leaf(rt, book, root, number + 1);
    book.join(&mut left, right);
    left
}

// Four such passes, joined by two.
fn four_leaves<R: Wait>(rt: &R, book: &Book<Log>, root: &mut Pass<Log>, number: u32) -> Pass<Log>
    requires root { IsPassOf book.now root.old × (holds_value root.old ≡ false) }
    requires stock { ((known_by root.old).stock_from ≡ number) × (number + 3 < (known_by root.old).stock_to) × (number < 50) }
    ensures root { IsPassOf book.now root.new × (holds_value root.new ≡ false) }
    ensures stock { ((known_by root.new).stock_from ≡ number + 4) × StaysRoot (known_by root.old) (known_by root.new) }
    ensures pass { IsPassOf book.now result × (holds_value result ≡ false) }
    ensures covers { Covers (known_by result).number (known_by result).ended number (number + 4) }
{
    let mut left = two_leaves(rt, book, root, number);
    let right = two_leaves(rt, book, root, number + 2);
    book.join(&mut left, right);
    left
}

// A log of eight passes with one turn each: the first, and a tree of one, two and four.
fn by_eight<R: Wait>(rt: &R, alloc: Global) -> Result<Log, OutOfMemory> {
    let (book, mut root) = Book::start(alloc, Log::new(alloc), 8)?;
    let one = leaf(rt, &book, &mut root, 1);
    let two = two_leaves(rt, &book, &mut root, 2);
    let four = four_leaves(rt, &book, &mut root, 4);
    add(rt, &book, &mut root, Entry { by: 0, place: 0 });
    book.join(&mut root, one);
    book.join(&mut root, two);
    book.join(&mut root, four);
    Ok(book.close(root))
}

#[test]
fn eight_passes_joined_as_a_tree(rt: HostRuntime) -> Result<(), Fail> {
    let log = by_eight(&rt, rt.alloc()).ok().ok_or("memory")?;
    let order = [1, 2, 3, 4, 5, 6, 7, 0];
    assert_eq!(rt; log.entries.len(), 8);
    for i in 0..8 {
        assert_eq!(rt; log.entries[i].by, order[i]);
    }
    Ok(())
}
