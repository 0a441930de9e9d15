//! New pages.
ghost use Rattle.cow_pages.specs.Lists.{Below, flat};
ghost use Rattle.cow_pages.specs.Parts.{IsPartsOf};
ghost use Rattle.std.specs.Prelude.{◌≡◌, ◌<◌, ◌^◌, IfOk, length};

use crate::OutOfMemory;
use crate::edit::Split;
use crate::pages::{INNER, Link, Node, Page, leaf_room};
use std::alloc::Global;
use std::sync::Arc;

/// What a page becomes by a change: nothing where it's empty, one page, or two where one has no room.
#[derive(Drop)]
pub enum Parts<T: Copy> {
    Gone,
    One(Link<T>),
    Two(Link<T>, Link<T>),
}

fn leaf<T: Copy>(alloc: Global, items: Vec<T>) -> Result<Link<T>, OutOfMemory>
    ensures { IfOk result (λ link. link ≡ (0, items.items)) }
{
    let count = items.len();
    let page = Arc::new(
        alloc,
        Page {
            height: 0,
            node: Node::Leaf(items),
        },
    )?;
    Ok(Link { count, page })
}

/// How many items these pages have together.
fn total<T: Copy>(links: &[Link<T>]) -> usize
    requires { length (flat links.now) < 2 ^ 64 }
    ensures { result ≡ length (flat links.now) }
{
    let mut count = 0;
    'links: for link in links {
        count += link.len();
    }
    count
}

/// A page over lower pages.
pub fn inner<T: Copy>(
    alloc: Global,
    height: usize,
    links: Vec<Link<T>>,
) -> Result<Link<T>, OutOfMemory>
    requires low { Below height links.items }
    requires some { 0 < length links.items }
    requires short { length (flat links.items) < 2 ^ 64 }
    ensures { IfOk result (λ link. link ≡ (height, flat links.items)) }
{
    let count = total(&links);
    let page = Arc::new(
        alloc,
        Page {
            height,
            node: Node::Inner(links),
        },
    )?;
    Ok(Link { count, page })
}

/// Leaves with these items.
pub fn leaves<T: Copy>(
    alloc: Global,
    mut items: Vec<T>,
    split: Split,
) -> Result<Parts<T>, OutOfMemory>
    ensures { IfOk result (λ parts. IsPartsOf 0 parts items.items) }
{
    let count = items.len();
    if count == 0 {
        return Ok(Parts::Gone);
    }
    if count <= leaf_room(&items[0]) {
        return Ok(Parts::One(leaf(alloc, items)?));
    }
    let rest = items.split_off(split.place(count))?;
    Ok(Parts::Two(leaf(alloc, items)?, leaf(alloc, rest)?))
}

/// Pages over these lower pages.
pub fn inners<T: Copy>(
    alloc: Global,
    height: usize,
    mut links: Vec<Link<T>>,
    split: Split,
) -> Result<Parts<T>, OutOfMemory>
    requires low { Below height links.items }
    requires short { length (flat links.items) < 2 ^ 64 }
    ensures { IfOk result (λ parts. IsPartsOf height parts (flat links.items)) }
{
    let count = links.len();
    if count == 0 {
        return Ok(Parts::Gone);
    }
    if count <= INNER {
        return Ok(Parts::One(inner(alloc, height, links)?));
    }
    let rest = links.split_off(split.place(count))?;
    Ok(Parts::Two(inner(alloc, height, links)?, inner(alloc, height, rest)?))
}
