//! Changes in pages that others hold: each page on the way is copied alone.
ghost use Rattle.cow_pages.specs.Edits.{HasPlace, changed};
ghost use Rattle.cow_pages.specs.Parts.{IsPartsOf, pages_of};
ghost use Rattle.std.specs.Prelude.{◌≡◌, ◌+◌, ◌++◌, ◌<◌, ◌^◌, IfOk, drop, length, take};

use crate::OutOfMemory;
use crate::edit::Edit;
use crate::making::{Parts, inners, leaves};
use crate::pages::{INNER, Link, Node, Page};
use crate::reading::place_in;
use std::alloc::Global;
use std::sync::Arc;

/// The items of a leaf after a change.
pub fn edited_items<T: Copy>(
    alloc: Global,
    items: &[T],
    place: usize,
    edit: Edit<T>,
) -> Result<Vec<T>, OutOfMemory>
    requires { HasPlace edit items.now place }
    ensures { IfOk result (λ copy. copy.items ≡ changed edit items.now place) }
{
    let mut copy = Vec::with_capacity(alloc, items.len().saturating_add(1))?;
    copy.extend_from_slice(items)?;
    match edit {
        Edit::Set(item) => copy[place] = item,
        Edit::Insert(item, _) => copy.insert(place, item)?,
        Edit::Remove => {
            copy.remove(place);
        }
    }
    Ok(copy)
}

impl<T: Copy> Link<T> {
    /// One more link to the page.
    pub fn share(&self) -> Result<Link<T>, OutOfMemory>
        ensures { IfOk result (λ link. link ≡ self.now) }
    {
        let page = Arc::try_clone(&self.page)?;
        Ok(Link {
            count: self.count,
            page,
        })
    }
}

/// Adds a link to each of these pages.
fn push_links<T: Copy>(into: &mut Vec<Link<T>>, links: &[Link<T>]) -> Result<(), OutOfMemory>
    ensures { IfOk result (λ _. into.new.items ≡ into.old.items ++ links.now) }
{
    'links: for link in links {
        into.push(link.share()?)?;
    }
    Ok(())
}

fn push_parts<T: Copy>(into: &mut Vec<Link<T>>, parts: Parts<T>) -> Result<(), OutOfMemory>
    ensures { IfOk result (λ _. into.new.items ≡ into.old.items ++ pages_of parts) }
{
    match parts {
        Parts::Gone => {}
        Parts::One(link) => into.push(link)?,
        Parts::Two(link, next) => {
            into.push(link)?;
            into.push(next)?;
        }
    }
    Ok(())
}

/// These links, with other pages in place of the one of this number.
fn replaced<T: Copy>(
    alloc: Global,
    links: &[Link<T>],
    number: usize,
    parts: Parts<T>,
) -> Result<Vec<Link<T>>, OutOfMemory>
    requires { number < length links.now }
    ensures { IfOk result (λ copy. copy.items ≡ take number links.now ++ (pages_of parts ++ drop (number + 1) links.now)) }
{
    let mut copy = Vec::with_capacity(alloc, INNER + 1)?;
    push_links(&mut copy, &links[..number])?;
    push_parts(&mut copy, parts)?;
    push_links(&mut copy, &links[number + 1..])?;
    Ok(copy)
}

impl<T: Copy> Link<T> {
    /// The page after a change, as new pages: this one stays.
    pub fn edited(
        &self,
        alloc: Global,
        place: usize,
        edit: Edit<T>,
    ) -> Result<Parts<T>, OutOfMemory>
        requires place { HasPlace edit self.now.1 place }
        requires room { length self.now.1 + 1 < 2 ^ 64 }
        ensures { IfOk result (λ parts. IsPartsOf self.now.0 parts (changed edit self.now.1 place)) }
    {
        let page: &Page<T> = &self.page;
        match &page.node {
            Node::Leaf(items) => {
                let items = edited_items(alloc, items, place, edit)?;
                leaves(alloc, items, edit.split())
            }
            Node::Inner(links) => {
                let (number, rest) = place_in(links, place, self.count);
                let parts = links[number].edited(alloc, rest, edit)?;
                let links = replaced(alloc, links, number, parts)?;
                inners(alloc, page.height, links, edit.split())
            }
        }
    }
}
