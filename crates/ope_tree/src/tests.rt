//! Tests of insertions and walks.
use super::*;
use mope_base::{Body, Mode, OutOfMemory};

// A new item at the gap of a number, counted around where the number is too great. A tree of more than 1,000 items ends the test.
pub(crate) fn put(tree: &mut Tree, number: u64) -> Result<Change, OutOfMemory> {
    let len = tree.len();
    if len > 1000 {
        return Err(OutOfMemory);
    }
    let rank = (number % (u64::from(len) + 1)) as u32;
    tree.insert_at(
        Place::Gap(rank),
        Body {
            nonce: 0,
            masked: number,
        },
    )
}

// One row more of the item of a number, counted around, if there is one and it has fewer than 1,000.
pub(crate) fn again(tree: &mut Tree, number: u64) -> Result<(), OutOfMemory> {
    let len = tree.len();
    if len == 0 {
        return Ok(());
    }
    if len > 1000 {
        return Ok(());
    }
    let rank = (number % u64::from(len)) as u32;
    let Some((body, count)) = tree.item(rank) else {
        return Ok(());
    };
    if count > 1000 {
        return Ok(());
    }
    tree.insert_at(Place::Found(rank), body)?;
    Ok(())
}

// One row fewer at the item of a number, counted around, if it has one.
pub(crate) fn take(
    tree: &mut Tree,
    number: u64,
    mode: Mode,
) -> Result<Option<Change>, OutOfMemory> {
    let len = tree.len();
    if len == 0 {
        return Ok(None);
    }
    let rank = (number % u64::from(len)) as u32;
    let Some((_body, count)) = tree.item(rank) else {
        return Ok(None);
    };
    if count == 0 {
        return Ok(None);
    }
    let change = tree.drop_one(rank, mode)?;
    Ok(Some(change))
}

// The next of a sequence of pseudo-random numbers.
pub(crate) fn next(state: &mut u64) -> u64 {
    let number = *state;
    *state = number
        .wrapping_mul(6_364_136_223_846_793_005)
        .wrapping_add(1_442_695_040_888_963_407);
    *state >> 33
}

// The fifth of five ascending values stands too deep, and the whole tree becomes balanced.
#[test]
fn rebuild_on_depth(rt: HostRuntime) -> Result<(), OutOfMemory> {
    let mut tree = Tree::new(rt.alloc());
    for rank in 0..4 {
        let change = put(&mut tree, rank)?;
        assert_eq!(rt; change.moved().len(), 0);
    }
    let change = put(&mut tree, 4)?;
    let pairs = [
        (0x8000_0000_0000_0000, 0x2000_0000_0000_0000),
        (0xc000_0000_0000_0000, 0x4000_0000_0000_0000),
        (0xe000_0000_0000_0000, 0x8000_0000_0000_0000),
        (0xf000_0000_0000_0000, 0xa000_0000_0000_0000),
    ];
    assert_eq!(rt; change.moved().len(), pairs.len());
    for (pair, (old, new)) in change.moved().iter().zip(pairs) {
        assert_eq!(rt; *pair, Recode { old, new });
    }
    assert_eq!(rt; change.dropped().len(), 0);
    assert_eq!(rt; change.added().len(), 1);
    assert_eq!(rt;
        change.added().first().copied(),
        Some(0xc000_0000_0000_0000)
    );
    Ok(())
}
