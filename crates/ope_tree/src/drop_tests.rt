//! Tests of drops.
use super::*;
use crate::tests::{again, put, take};
use mope_base::{Mode, OutOfMemory};

// Three rows of one value, deleted one after the other: only the last deletion changes codes, and gives up that of the root.
#[test]
fn drop_last_duplicate(rt: HostRuntime) -> Result<(), OutOfMemory> {
    for mode in [Mode::Ordinary, Mode::SameTime] {
        let mut tree = Tree::new(rt.alloc());
        put(&mut tree, 0)?;
        again(&mut tree, 0)?;
        again(&mut tree, 0)?;
        let first = take(&mut tree, 0, mode)?.expect(&rt, "three rows");
        assert_eq!(rt; first.dropped().len(), 0);
        assert_eq!(rt; tree.live(), 1);
        let second = take(&mut tree, 0, mode)?.expect(&rt, "two rows");
        assert_eq!(rt; second.dropped().len(), 0);
        let third = take(&mut tree, 0, mode)?.expect(&rt, "one row");
        assert_eq!(rt; third.moved().len(), 0);
        assert_eq!(rt; third.dropped().len(), 1);
        assert_eq!(rt;
            third.dropped().first().copied(),
            Some(0x8000_0000_0000_0000)
        );
        assert_eq!(rt; third.added().len(), 0);
        assert_eq!(rt; tree.len(), 0);
        assert_eq!(rt; tree.max(), 0);
    }
    Ok(())
}

// In same-time mode the first of three ascending values goes, and its right tree moves up.
#[test]
fn one_shift(rt: HostRuntime) -> Result<(), OutOfMemory> {
    let mut tree = Tree::new(rt.alloc());
    for rank in 0..3 {
        put(&mut tree, rank)?;
    }
    let change = take(&mut tree, 0, Mode::SameTime)?.expect(&rt, "a row");
    let pairs = [
        (0xc000_0000_0000_0000, 0x8000_0000_0000_0000),
        (0xe000_0000_0000_0000, 0xc000_0000_0000_0000),
    ];
    assert_eq!(rt; change.moved().len(), pairs.len());
    for (pair, (old, new)) in change.moved().iter().zip(pairs) {
        assert_eq!(rt; *pair, Recode { old, new });
    }
    assert_eq!(rt; change.dropped().len(), 1);
    assert_eq!(rt;
        change.dropped().first().copied(),
        Some(0x8000_0000_0000_0000)
    );
    assert_eq!(rt; change.added().len(), 0);
    assert_eq!(rt; tree.len(), 2);
    assert_eq!(rt; tree.max(), 3);
    Ok(())
}
