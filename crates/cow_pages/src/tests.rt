//! What no clause says: that memory suffices, and many operations beside plain vectors.
ghost use Rattle.std.specs.Prelude.{◌<◌};

use super::*;
use std::alloc::Global;

/// The numbers from 0 up, so many.
fn ascending(alloc: Global, count: u64) -> Result<Paged<u64>, OutOfMemory> {
    let mut list = Paged::new(alloc);
    'numbers: for number in 0..count {
        list.push(number)?;
    }
    Ok(list)
}

/// Sets an item if the list has such a place.
fn set(list: &mut Paged<u64>, place: usize, number: u64) -> Result<(), OutOfMemory> {
    if list.len() <= place {
        return Err(OutOfMemory);
    }
    list.set(place, number)
}

/// The next of a sequence of pseudo-random numbers.
fn next(state: &mut u64) -> u64 {
    let number = *state;
    *state = number
        .wrapping_mul(6_364_136_223_846_793_005)
        .wrapping_add(1_442_695_040_888_963_407);
    *state >> 33
}

/// A place below a count, by a pseudo-random number.
fn place_below(number: u64, count: usize) -> usize
    requires { 0 < count }
    ensures { result < count }
{
    number as usize % count
}

/// One pseudo-random insertion, removal or setting in a list and in a vector beside it, if they are equally long.
fn change(list: &mut Paged<u64>, plain: &mut Vec<u64>, state: &mut u64) -> Result<(), OutOfMemory> {
    let count = list.len();
    if plain.len() != count || count > 100_000 {
        return Err(OutOfMemory);
    }
    let (kind, number) = (next(state) % 8, next(state));
    let place = place_below(next(state), count + 1);
    if kind < 3 || place == count {
        list.insert(place, number)?;
        plain.insert(place, number)?;
    } else if kind < 5 {
        list.remove(place)?;
        plain.remove(place);
    } else {
        list.set(place, number)?;
        plain[place] = number;
    }
    Ok(())
}

/// The items of a list, read page after page.
fn items(alloc: Global, list: &Paged<u64>) -> Result<Vec<u64>, OutOfMemory> {
    let mut items = Vec::new(alloc);
    'runs: for _ in 0..=list.len() {
        let run = list.run_at(items.len());
        items.extend_from_slice(run)?;
    }
    Ok(items)
}

/// The cut before the first number that isn't below this.
#[derive(Drop)]
struct Below(u64);

impl Cut<u64> for Below {
    ghost use Rattle.std.specs.Prelude.{nat_lt};

    ghost before = { λ cut item. nat_lt item cut.0 };

    fn is_before(&self, item: &u64) -> bool {
        *item < self.0
    }
}

#[test]
fn shared_page(rt: HostRuntime) -> Result<(), OutOfMemory> {
    let first = ascending(rt.alloc(), 200)?;
    let mut copy = first.share()?;
    set(&mut copy, 100, 7)?;
    assert_eq!(rt; first.get(100).copied(), Some(100));
    assert_eq!(rt; copy.get(100).copied(), Some(7));
    assert_eq!(rt; first.len(), 200);
    assert_eq!(rt; copy.len(), 200);
    assert_eq!(rt; copy.get(200).copied(), None);
    assert_eq!(rt; first.get(200).copied(), None);
    Ok(())
}

/// Two lists that begin as one go their own ways, and a third that shares the pages of the first stays.
#[test]
fn two_sharers(rt: HostRuntime) -> Result<(), OutOfMemory> {
    let alloc = rt.alloc();
    let mut first = ascending(alloc, 3000)?;
    let mut plain_first = items(alloc, &first)?;
    let start = first.share()?;
    let plain_start = items(alloc, &start)?;
    let mut second = first.share()?;
    let mut plain_second = items(alloc, &second)?;
    let mut state = 1;
    for _ in 0..3000 {
        change(&mut first, &mut plain_first, &mut state)?;
        change(&mut second, &mut plain_second, &mut state)?;
    }
    assert_eq!(rt; items(alloc, &first)?, plain_first);
    assert_eq!(rt; items(alloc, &second)?, plain_second);
    assert_eq!(rt; items(alloc, &start)?, plain_start);
    Ok(())
}

/// Two items, of which one, both or none stand before a cut.
#[test]
fn cuts(rt: HostRuntime) -> Result<(), OutOfMemory> {
    let mut list = Paged::new(rt.alloc());
    list.push(3)?;
    list.push(5)?;
    for (number, want) in [(3, 0), (4, 1), (5, 1), (6, 2)] {
        assert_eq!(rt; list.partition_point(&Below(number)), want, "at {number}");
    }
    Ok(())
}

/// All items go, one after another, and the list begins again.
#[test]
fn emptied(rt: HostRuntime) -> Result<(), OutOfMemory> {
    let mut list = ascending(rt.alloc(), 300)?;
    for _ in 0..300 {
        take_first(&mut list)?;
    }
    assert_eq!(rt; list.is_empty(), true);
    assert_eq!(rt; list.get(0).copied(), None);
    list.push(5)?;
    assert_eq!(rt; list.get(0).copied(), Some(5));
    Ok(())
}

/// Takes the first item out, if there is one.
fn take_first(list: &mut Paged<u64>) -> Result<u64, OutOfMemory> {
    if list.is_empty() {
        return Err(OutOfMemory);
    }
    list.remove(0)
}

fn crosses_threads<T: Send + Sync>(_value: &T) {}

/// A list may go to other threads, and be shared with them.
#[test]
fn sent_and_shared(rt: HostRuntime) {
    let list: Paged<u64> = Paged::new(rt.alloc());
    crosses_threads(&list);
}
