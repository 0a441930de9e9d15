//! The public calls with ample memory, and worked examples of composing.
ghost use Rattle.path_code.specs.Sums.{sum_of};
ghost use Rattle.std.specs.Prelude.{◌≡◌, ◌≤◌, false, [], ◌∷◌, IfOk, OnOk};
ghost use Rattle.tree_model.specs.Columns.{Add, Drop, add, drop_one};
ghost use Rattle.tree_model.specs.Trees.{height, size};

use crate::Summary;
use mope_base::{Body, Mode, OutOfMemory};
use ope_tree::{Change, Place, Tree};
use path_code::Recode;
use std::alloc::Global;

/// A new item after the others. A tree of more than 1,000 items ends the test.
fn append(tree: &mut Tree, masked: u64) -> Result<Change, OutOfMemory>
    ensures column { OnOk result (tree.new.column ≡
        add (Place.Gap (size tree.old.column.tree)) (record { nonce = 0; masked = masked }) tree.old.column) }
    ensures change { IfOk result (λ change. change ≡
        sum_of false (Add (Place.Gap (size tree.old.column.tree)) (record { nonce = 0; masked = masked }) ∷ []) tree.old.column) }
    ensures was_short { height tree.old.column.tree ≤ 63 }
    ensures short { height tree.new.column.tree ≤ 63 }
{
    let len = tree.len();
    if len > 1000 {
        return Err(OutOfMemory);
    }
    tree.insert_at(Place::Gap(len), Body { nonce: 0, masked })
}

/// One row fewer at the item of a rank. A tree in which it has none ends the test.
fn take(tree: &mut Tree, rank: u32) -> Result<Change, OutOfMemory>
    ensures column { OnOk result (tree.new.column ≡ drop_one false rank tree.old.column) }
    ensures change { IfOk result (λ change. change ≡ sum_of false (Drop rank ∷ []) tree.old.column) }
    ensures short { height tree.new.column.tree ≤ 63 }
{
    if rank >= tree.len() {
        return Err(OutOfMemory);
    }
    let Some((_body, count)) = tree.item(rank) else {
        return Err(OutOfMemory);
    };
    if count == 0 {
        return Err(OutOfMemory);
    }
    tree.drop_one(rank, Mode::Ordinary)
}

/// Three items, each after the others.
fn three_ascending(alloc: Global) -> Result<Tree, OutOfMemory> {
    let mut tree = Tree::new(alloc);
    for masked in 1..4 {
        append(&mut tree, masked)?;
    }
    Ok(tree)
}

/// What a new item after the others and then a rebuild do to the codes.
fn append_and_rebuild(alloc: Global, tree: &mut Tree) -> Result<Summary, OutOfMemory> {
    let added = append(tree, 4)?;
    let balanced = tree.rebuild()?;
    let earlier = Summary::of_change(alloc, &added)?;
    let later = Summary::of_change(alloc, &balanced)?;
    earlier.then(&later)
}

/// What a new item after the others and then one row fewer of the second item do to the codes.
fn append_and_take(alloc: Global, tree: &mut Tree) -> Result<Summary, OutOfMemory> {
    let added = append(tree, 4)?;
    let swept = take(tree, 1)?;
    let earlier = Summary::of_change(alloc, &added)?;
    let later = Summary::of_change(alloc, &swept)?;
    earlier.then(&later)
}

/// The pair of codes of an item that moves.
fn pair(old: u64, new: u64) -> Recode {
    Recode { old, new }
}

// The fourth of four ascending items stands at the end of one way, and a rebuild moves it too: it is added under its new code.
#[test]
fn fourth_added_and_balanced(rt: HostRuntime) -> Result<(), OutOfMemory> {
    let mut tree = three_ascending(rt.alloc())?;
    let both = append_and_rebuild(rt.alloc(), &mut tree)?;
    let moved = [
        pair(0x8000_0000_0000_0000, 0x2000_0000_0000_0000),
        pair(0xc000_0000_0000_0000, 0x4000_0000_0000_0000),
        pair(0xe000_0000_0000_0000, 0x8000_0000_0000_0000),
    ];
    assert_eq!(rt; both.moved(), moved.as_slice());
    assert_eq!(rt; both.dropped().len(), 0);
    assert_eq!(rt; both.added(), [0xc000_0000_0000_0000].as_slice());
    Ok(())
}

// The first of three items has lost its row. A fourth comes, and then the second loses its row too: both are swept out, the third
// moves, and the fourth is added under the root's code.
#[test]
fn fourth_added_and_two_swept(rt: HostRuntime) -> Result<(), OutOfMemory> {
    let mut tree = three_ascending(rt.alloc())?;
    let first = take(&mut tree, 0)?;
    let none = Summary::of_change(rt.alloc(), &first)?;
    assert!(rt; none.is_empty());
    let both = append_and_take(rt.alloc(), &mut tree)?;
    let moved = [pair(0xe000_0000_0000_0000, 0x4000_0000_0000_0000)];
    assert_eq!(rt; both.moved(), moved.as_slice());
    assert_eq!(rt;
        both.dropped(),
        [0x8000_0000_0000_0000, 0xc000_0000_0000_0000].as_slice()
    );
    assert_eq!(rt; both.added(), [0x8000_0000_0000_0000].as_slice());
    assert!(rt; !both.is_empty());
    assert_eq!(rt;
        both.apply(0xe000_0000_0000_0000),
        Some(0x4000_0000_0000_0000)
    );
    assert_eq!(rt; both.apply(0xc000_0000_0000_0000), None);
    assert_eq!(rt; both.apply(0x8000_0000_0000_0000), None);
    assert_eq!(rt;
        both.apply(0xa000_0000_0000_0000),
        Some(0xa000_0000_0000_0000)
    );
    Ok(())
}

#[test]
fn a_new_one_leaves_all_codes(rt: HostRuntime) {
    let none = Summary::new(rt.alloc());
    assert!(rt; none.is_empty());
    assert_eq!(rt;
        none.apply(0x8000_0000_0000_0000),
        Some(0x8000_0000_0000_0000)
    );
}
