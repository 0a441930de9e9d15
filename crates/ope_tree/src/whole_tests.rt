//! Tests of whole rebuilds and of copies.
use super::*;
use mope_base::{Body, OutOfMemory};
use path_code::{child, root};
use std::alloc::Global;
use tree_model::Side;

// Each value after those before it, so that the tree is one way down on the right.
fn three_ascending(alloc: Global) -> Result<Tree, OutOfMemory> {
    let mut tree = Tree::new(alloc);
    for masked in 1..4 {
        append(&mut tree, masked)?;
    }
    Ok(tree)
}

fn append(tree: &mut Tree, masked: u64) -> Result<(), OutOfMemory> {
    let len = tree.len();
    if len > 1000 {
        return Err(OutOfMemory);
    }
    tree.insert_at(Place::Gap(len), Body { nonce: 0, masked })?;
    Ok(())
}

#[test]
fn a_rebuild_moves_three_items(rt: HostRuntime) -> Result<(), OutOfMemory> {
    let mut tree = three_ascending(rt.alloc())?;
    let left = child(root(), Side::Left);
    assert_eq!(rt; tree.place_of(root()), Some(Place::Found(0)));
    assert_eq!(rt; tree.place_of(left), Some(Place::Gap(0)));
    let change = tree.rebuild()?;
    let moved = change.moved();
    assert_eq!(rt; moved.len(), 3);
    assert_eq!(rt;
        moved[0],
        Recode {
            old: 0x8000_0000_0000_0000,
            new: 0x4000_0000_0000_0000,
        }
    );
    assert_eq!(rt;
        moved[2],
        Recode {
            old: 0xe000_0000_0000_0000,
            new: 0xc000_0000_0000_0000,
        }
    );
    assert_eq!(rt; tree.place_of(root()), Some(Place::Found(1)));
    assert_eq!(rt; tree.place_of(left), Some(Place::Found(0)));
    let gap = child(left, Side::Right);
    assert_eq!(rt; tree.place_of(gap), Some(Place::Gap(1)));
    assert_eq!(rt; tree.place_of(child(gap, Side::Left)), None);
    Ok(())
}

#[test]
fn a_copy_stays_as_it_is(rt: HostRuntime) -> Result<(), OutOfMemory> {
    let mut tree = three_ascending(rt.alloc())?;
    let copy = tree.copy()?;
    append(&mut tree, 4)?;
    assert_eq!(rt; tree.len(), 4);
    assert_eq!(rt; copy.len(), 3);
    assert_eq!(rt; copy.item(2), tree.item(2));
    Ok(())
}

fn crosses_threads<T: Send + Sync>(_value: &T) {}

/// A tree may go to other threads, and be shared with them.
#[test]
fn sent_and_shared(rt: HostRuntime) {
    let tree = Tree::new(rt.alloc());
    crosses_threads(&tree);
}
