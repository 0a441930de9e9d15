//! The tree beside a plain program, which follows the rules on a recursive tree of its own.
use super::*;
use crate::tests::{again, next, put, take};
use mope_base::{Mode, OutOfMemory};
use std::alloc::Global;

// A search tree of which only the number of rows of each item is known.
#[derive(Drop)]
enum Plain {
    Empty,
    Node(Box<Plain>, u32, Box<Plain>),
}

// A tree with a new item, and how many steps below the root the item stands, where the ancestor that is too tall is still sought.
#[derive(Drop)]
struct Growing {
    tree: Plain,
    sought: Option<u32>,
}

fn size(tree: &Plain) -> u64 {
    match tree {
        Plain::Empty => 0,
        Plain::Node(left, _, right) => size(left).saturating_add(size(right)).saturating_add(1),
    }
}

fn push_counts(tree: &Plain, counts: &mut Vec<u32>) -> Result<(), OutOfMemory> {
    match tree {
        Plain::Empty => Ok(()),
        Plain::Node(left, count, right) => {
            push_counts(left, counts)?;
            counts.push(*count)?;
            push_counts(right, counts)
        }
    }
}

// The code of a root is the sum of the rights above it and of the mark of its depth.
fn push_codes(
    tree: &Plain,
    rights: u64,
    mark: u64,
    codes: &mut Vec<u64>,
) -> Result<(), OutOfMemory> {
    match tree {
        Plain::Empty => Ok(()),
        Plain::Node(left, _, right) => {
            let code = rights.wrapping_add(mark);
            push_codes(left, rights, mark / 2, codes)?;
            codes.push(code)?;
            push_codes(right, code, mark / 2, codes)
        }
    }
}

fn node(alloc: Global, left: Plain, count: u32, right: Plain) -> Result<Plain, OutOfMemory> {
    Ok(Plain::Node(Box::new(alloc, left)?, count, Box::new(alloc, right)?))
}

fn balanced(alloc: Global, counts: &[u32]) -> Result<Plain, OutOfMemory> {
    if counts.is_empty() {
        return Ok(Plain::Empty);
    }
    let half = counts.len() / 2;
    let left = balanced(alloc, &counts[..half])?;
    let right = balanced(alloc, &counts[half + 1..])?;
    node(alloc, left, counts[half], right)
}

fn rebuilt(alloc: Global, tree: &Plain) -> Result<Plain, OutOfMemory> {
    let mut counts = Vec::new(alloc);
    push_counts(tree, &mut counts)?;
    balanced(alloc, &counts)
}

// 3^steps > items * 2^steps: an item so many steps below is too deep for so many items.
fn is_too_deep(steps: u32, items: u64) -> bool {
    let mut threes: u128 = 1;
    let mut twos = u128::from(items);
    for _ in 0..steps {
        threes = threes.saturating_mul(3);
        twos = twos.saturating_mul(2);
    }
    threes > twos
}

fn gap_depth(tree: &Plain, rank: u64) -> u32 {
    match tree {
        Plain::Empty => 0,
        Plain::Node(left, _, right) => {
            let before = size(left);
            if rank <= before {
                gap_depth(left, rank).saturating_add(1)
            } else {
                gap_depth(right, rank - before - 1).saturating_add(1)
            }
        }
    }
}

// The nearest ancestor that is too tall becomes balanced.
fn settled(alloc: Global, tree: Plain, sought: Option<u32>) -> Result<Growing, OutOfMemory> {
    let Some(steps) = sought else {
        return Ok(Growing { tree, sought });
    };
    let steps = steps.saturating_add(1);
    if is_too_deep(steps, size(&tree)) {
        return Ok(Growing {
            tree: rebuilt(alloc, &tree)?,
            sought: None,
        });
    }
    Ok(Growing {
        tree,
        sought: Some(steps),
    })
}

fn grown(alloc: Global, tree: Plain, rank: u64, deep: bool) -> Result<Growing, OutOfMemory> {
    match tree {
        Plain::Empty => Ok(Growing {
            tree: node(alloc, Plain::Empty, 1, Plain::Empty)?,
            sought: if deep { Some(0) } else { None },
        }),
        Plain::Node(left, count, right) => {
            let before = size(&left);
            let left = Box::into_inner(left);
            let right = Box::into_inner(right);
            if rank <= before {
                let further = grown(alloc, left, rank, deep)?;
                let tree = node(alloc, further.tree, count, right)?;
                settled(alloc, tree, further.sought)
            } else {
                let further = grown(alloc, right, rank - before - 1, deep)?;
                let tree = node(alloc, left, count, further.tree)?;
                settled(alloc, tree, further.sought)
            }
        }
    }
}

// The first item and the tree without it. Its right tree moves up.
#[derive(Drop)]
struct First {
    count: u32,
    rest: Plain,
}

fn first_of(alloc: Global, left: Plain, count: u32, right: Plain) -> Result<First, OutOfMemory> {
    match left {
        Plain::Empty => Ok(First { count, rest: right }),
        Plain::Node(lower, middle, upper) => {
            let lower = Box::into_inner(lower);
            let upper = Box::into_inner(upper);
            let further = first_of(alloc, lower, middle, upper)?;
            Ok(First {
                count: further.count,
                rest: node(alloc, further.rest, count, right)?,
            })
        }
    }
}

// The two sides of an item that goes.
fn joined(alloc: Global, left: Plain, right: Plain) -> Result<Plain, OutOfMemory> {
    if size(&left) == 0 {
        return Ok(right);
    }
    match right {
        Plain::Empty => Ok(left),
        Plain::Node(lower, count, upper) => {
            let lower = Box::into_inner(lower);
            let upper = Box::into_inner(upper);
            let further = first_of(alloc, lower, count, upper)?;
            node(alloc, left, further.count, further.rest)
        }
    }
}

// One row fewer at the item of a rank, which has one.
fn lowered(alloc: Global, tree: Plain, rank: u64, mode: Mode) -> Result<Plain, OutOfMemory> {
    match tree {
        Plain::Empty => Ok(Plain::Empty),
        Plain::Node(left, count, right) => {
            let before = size(&left);
            let left = Box::into_inner(left);
            let right = Box::into_inner(right);
            if rank < before {
                node(alloc, lowered(alloc, left, rank, mode)?, count, right)
            } else if before < rank {
                let right = lowered(alloc, right, rank - before - 1, mode)?;
                node(alloc, left, count, right)
            } else if mode == Mode::SameTime && count == 1 {
                joined(alloc, left, right)
            } else {
                node(alloc, left, count.saturating_sub(1), right)
            }
        }
    }
}

fn raised(alloc: Global, tree: Plain, rank: u64) -> Result<Plain, OutOfMemory> {
    match tree {
        Plain::Empty => Ok(Plain::Empty),
        Plain::Node(left, count, right) => {
            let before = size(&left);
            let left = Box::into_inner(left);
            let right = Box::into_inner(right);
            if rank < before {
                node(alloc, raised(alloc, left, rank)?, count, right)
            } else if before < rank {
                let right = raised(alloc, right, rank - before - 1)?;
                node(alloc, left, count, right)
            } else {
                node(alloc, left, count.saturating_add(1), right)
            }
        }
    }
}

// The plain tree with the greatest number of its items.
#[derive(Drop)]
struct Column {
    tree: Plain,
    most: u64,
}

fn added(alloc: Global, column: Column, number: u64) -> Result<Column, OutOfMemory> {
    let Column { tree, most } = column;
    let items = size(&tree).saturating_add(1);
    let rank = number % items;
    let most = most.max(items);
    let deep = is_too_deep(gap_depth(&tree, rank), most);
    let grown = grown(alloc, tree, rank, deep)?;
    Ok(Column {
        tree: grown.tree,
        most,
    })
}

fn repeated(alloc: Global, column: Column, number: u64) -> Result<Column, OutOfMemory> {
    let Column { tree, most } = column;
    let items = size(&tree);
    if items == 0 {
        return Ok(Column { tree, most });
    }
    let tree = raised(alloc, tree, number % items)?;
    Ok(Column { tree, most })
}

fn has_rows(alloc: Global, tree: &Plain, rank: u64) -> Result<bool, OutOfMemory> {
    let mut counts = Vec::new(alloc);
    push_counts(tree, &mut counts)?;
    match counts.get(rank as usize) {
        None => Ok(false),
        Some(count) => Ok(*count > 0),
    }
}

fn dropped(alloc: Global, column: Column, number: u64, mode: Mode) -> Result<Column, OutOfMemory> {
    let Column { tree, most } = column;
    let items = size(&tree);
    if items == 0 {
        return Ok(Column { tree, most });
    }
    let rank = number % items;
    if !has_rows(alloc, &tree, rank)? {
        return Ok(Column { tree, most });
    }
    let tree = lowered(alloc, tree, rank, mode)?;
    let mut counts = Vec::new(alloc);
    push_counts(&tree, &mut counts)?;
    counts.retain(|count| *count > 0);
    let live = counts.len() as u64;
    if live.saturating_mul(3) >= most.saturating_mul(2) {
        return Ok(Column { tree, most });
    }
    Ok(Column {
        tree: balanced(alloc, &counts)?,
        most: live,
    })
}

fn plain_codes(alloc: Global, column: &Column) -> Result<Vec<u64>, OutOfMemory> {
    let mut codes = Vec::new(alloc);
    push_codes(&column.tree, 0, 1 << 63, &mut codes)?;
    Ok(codes)
}

fn codes(alloc: Global, tree: &Tree) -> Result<Vec<u64>, OutOfMemory> {
    let mut codes = Vec::new(alloc);
    for rank in 0..tree.len() {
        if let Some(code) = tree.code_of(Place::Found(rank)) {
            codes.push(code)?;
        }
    }
    Ok(codes)
}

// Of six numbers two drop a row, in one mode or the other, one adds a row to an item, and three insert an item.
#[test]
fn codes_are_those_of_a_plain_tree(rt: HostRuntime) -> Result<(), OutOfMemory> {
    let alloc = rt.alloc();
    let modes = [
        (Mode::Ordinary, Mode::Ordinary),
        (Mode::SameTime, Mode::SameTime),
        (Mode::Ordinary, Mode::SameTime),
    ];
    for (even, odd) in modes {
        let mut tree = Tree::new(alloc);
        let mut plain = Column {
            tree: Plain::Empty,
            most: 0,
        };
        let mut state = 1;
        for step in 0..300 {
            let number = next(&mut state);
            match number % 6 {
                0 => {
                    take(&mut tree, number / 6, even)?;
                    plain = dropped(alloc, plain, number / 6, even)?;
                }
                1 => {
                    take(&mut tree, number / 6, odd)?;
                    plain = dropped(alloc, plain, number / 6, odd)?;
                }
                2 => {
                    again(&mut tree, number / 6)?;
                    plain = repeated(alloc, plain, number / 6)?;
                }
                _ => {
                    put(&mut tree, number / 6)?;
                    plain = added(alloc, plain, number / 6)?;
                }
            }
            assert!(rt;
                codes(alloc, &tree)? == plain_codes(alloc, &plain)?,
                "after step {step}"
            );
            assert_eq!(rt; u64::from(tree.max()), plain.most);
        }
    }
    Ok(())
}
