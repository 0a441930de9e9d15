//! What no clause says: that memory suffices, and many operations beside a sorted vector.
use super::*;
use mope_base::OutOfMemory;
use path_code::Recode;
use std::alloc::Global;

/// The next of a sequence of pseudo-random numbers.
fn next(state: &mut u64) -> u64 {
    let number = *state;
    *state = number
        .wrapping_mul(6_364_136_223_846_793_005)
        .wrapping_add(1_442_695_040_888_963_407);
    *state >> 33
}

/// Takes an entry out if it's there, and puts it in if not. It answers whether it was there.
fn toggle(index: &mut Index, entry: Entry) -> Result<bool, OutOfMemory> {
    if index.remove(entry)? {
        return Ok(true);
    }
    index.insert(entry)?;
    Ok(false)
}

/// The same in a vector in increasing order.
fn toggle_plain(plain: &mut Vec<Entry>, entry: Entry) -> Result<bool, OutOfMemory> {
    let place = plain.partition_point(|x| (x.enc, x.row) < (entry.enc, entry.row));
    if place < plain.len() && plain[place] == entry {
        plain.remove(place);
        return Ok(true);
    }
    plain.insert(place, entry)?;
    Ok(false)
}

/// The entries of an index in order.
fn entries(alloc: Global, index: &Index) -> Result<Vec<Entry>, OutOfMemory> {
    let mut entries = Vec::new(alloc);
    'places: for place in 0..index.len() {
        if let Some(entry) = index.at(place) {
            entries.push(entry)?;
        }
    }
    Ok(entries)
}

/// How many entries of a vector have codes below this one, and how many have at most another one.
fn ends(plain: &[Entry], low: u64, high: u64) -> (usize, usize) {
    let first = plain.iter().filter(|x| x.enc < low).count();
    let end = plain.iter().filter(|x| x.enc <= high).count();
    (first, if first < end { end } else { first })
}

#[test]
fn beside_a_sorted_vector(rt: HostRuntime) -> Result<(), OutOfMemory> {
    let alloc = rt.alloc();
    let mut index = Index::new(alloc);
    let mut plain = Vec::new(alloc);
    let mut state = 1;
    for _ in 0..2000 {
        let entry = Entry {
            enc: next(&mut state) % 40,
            row: next(&mut state) % 10,
        };
        let was_there = toggle(&mut index, entry)?;
        assert_eq!(rt; was_there, toggle_plain(&mut plain, entry)?);
        let (low, high) = (next(&mut state) % 42, next(&mut state) % 42);
        let (first, end) = ends(&plain, low, high);
        assert_eq!(rt;
            index.range(low, high),
            (first, end),
            "from {low} to {high}"
        );
    }
    assert_eq!(rt; entries(alloc, &index)?, plain);
    Ok(())
}

/// A copy stays as it is while the index it was made of changes.
#[test]
fn copied(rt: HostRuntime) -> Result<(), OutOfMemory> {
    let mut index = Index::new(rt.alloc());
    toggle(&mut index, Entry { enc: 3, row: 1 })?;
    let copy = index.copy()?;
    toggle(&mut index, Entry { enc: 3, row: 2 })?;
    assert_eq!(rt; index.count(3, 3), 2);
    assert_eq!(rt; copy.count(3, 3), 1);
    assert_eq!(rt; copy.at(0), Some(Entry { enc: 3, row: 1 }));
    assert_eq!(rt; copy.at(1), None);
    Ok(())
}

/// Of the codes 2, 4 and 6 the greater two become 3 and 9.
#[test]
fn remapped(rt: HostRuntime) -> Result<(), OutOfMemory> {
    let alloc = rt.alloc();
    let mut index = Index::new(alloc);
    index.insert(Entry { enc: 4, row: 7 })?;
    index.insert(Entry { enc: 2, row: 8 })?;
    index.insert(Entry { enc: 4, row: 5 })?;
    index.insert(Entry { enc: 6, row: 1 })?;
    index.remap(&[Recode { old: 4, new: 3 }, Recode { old: 6, new: 9 }])?;
    let want = [(2, 8), (3, 5), (3, 7), (9, 1)];
    for (place, (enc, row)) in want.into_iter().enumerate() {
        assert_eq!(rt; index.at(place), Some(Entry { enc, row }), "at {place}");
    }
    Ok(())
}
