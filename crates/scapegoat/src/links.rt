//! The balanced tree of numbered items, as the children of each.
ghost use Rattle.scapegoat.specs.Links.{links_in, links_of, root_of};
ghost use Rattle.std.specs.List.{range_with_len};
ghost use Rattle.std.specs.Prelude.{◌≡◌, ◌+◌, ◌^◌, ◌<◌, ◌≤◌, ◌++◌, IfOk, OnOk};
ghost use Rattle.tree_model.specs.Trees.{balanced};

use crate::OutOfMemory;
use std::alloc::Global;

/// The children of an item, by their numbers.
#[derive(Clone, Copy, PartialEq, Eq, Debug)]
pub struct Links {
    pub left: Option<u32>,
    pub right: Option<u32>,
}

/// For the items 0 to n - 1, in order, their children in the balanced tree, whose root is item floor(n / 2), and so
/// on in both halves. `n` must be below 2^32.
pub fn balanced_links(alloc: Global, n: usize) -> Result<Vec<Links>, OutOfMemory>
    requires { n < 2 ^ 32 }
    ensures { IfOk result (λ links. links.items ≡ links_of n) }
{
    let mut links = Vec::new(alloc);
    push_links(&mut links, 0, n as u32)?;
    Ok(links)
}

/// The root of the balanced tree of `count` items from `first` on.
fn middle(first: u32, count: u32) -> Option<u32>
    requires { first + count < 2 ^ 32 }
    ensures { result ≡ root_of (balanced (range_with_len first count)) }
{
    if count == 0 {
        return None;
    }
    Some(first + count / 2)
}

/// Appends the children of each of `count` items from `first` on in their balanced tree.
fn push_links(links: &mut Vec<Links>, first: u32, count: u32) -> Result<(), OutOfMemory>
    requires { first + count < 2 ^ 32 }
    ensures { OnOk result (links.new.items ≡ links.old.items ++ links_in (balanced (range_with_len first count))) }
{
    if count == 0 {
        return Ok(());
    }
    let before = count / 2;
    let next = first + before + 1;
    let after = count - before - 1;
    push_links(links, first, before)?;
    let left = middle(first, before);
    let right = middle(next, after);
    links.push(Links { left, right })?;
    push_links(links, next, after)?;
    Ok(())
}
