//! Trees of pages by their roots.
ghost use Rattle.cow_pages.specs.Edits.{HasPlace, changed};
ghost use Rattle.cow_pages.specs.Lists.{flat};
ghost use Rattle.cow_pages.specs.Parts.{pages_of};
ghost use Rattle.cow_pages.specs.Rooted.{rooted};
ghost use Rattle.std.specs.Prelude.{◌≡◌, ◌+◌, ◌<◌, ◌≤◌, ◌^◌, IfOk, IsFalse, ◌++◌, if◌then◌else◌, is_ok, length};

use crate::OutOfMemory;
use crate::copying::edited_items;
use crate::edit::Edit;
use crate::making::{Parts, inner, leaves};
use crate::pages::Link;
use std::alloc::Global;

/// The greater of two heights.
fn higher(height: usize, other: usize) -> usize
    ensures first { height ≤ result }
    ensures second { other ≤ result }
{
    if height < other { other } else { height }
}

/// A page over two.
fn over_two<T: Copy>(alloc: Global, link: Link<T>, next: Link<T>) -> Result<Link<T>, OutOfMemory>
    requires { length link.1 + length next.1 < 2 ^ 64 }
    ensures { IfOk result (λ root. root.1 ≡ link.1 ++ next.1) }
{
    let Some(height) = higher(link.height(), next.height()).checked_add(1) else {
        return Err(OutOfMemory);
    };
    let mut links = Vec::with_capacity(alloc, 2)?;
    links.push(link)?;
    links.push(next)?;
    inner(alloc, height, links)
}

/// One root over what a root has become.
fn joined<T: Copy>(alloc: Global, parts: Parts<T>) -> Result<Option<Link<T>>, OutOfMemory>
    requires { length (flat (pages_of parts)) < 2 ^ 64 }
    ensures { IfOk result (λ root. rooted root ≡ flat (pages_of parts)) }
{
    match parts {
        Parts::Gone => Ok(None),
        Parts::One(link) => Ok(Some(link)),
        Parts::Two(link, next) => Ok(Some(over_two(alloc, link, next)?)),
    }
}

/// A changed copy of the list under a root.
fn edited_root<T: Copy>(
    alloc: Global,
    root: &Option<Link<T>>,
    place: usize,
    edit: Edit<T>,
) -> Result<Parts<T>, OutOfMemory>
    requires place { HasPlace edit (rooted root.now) place }
    requires room { length (rooted root.now) + 1 < 2 ^ 64 }
    ensures { IfOk result (λ parts. flat (pages_of parts) ≡ changed edit (rooted root.now) place) }
{
    match root {
        None => {
            let nothing = Vec::new(alloc);
            let items = edited_items(alloc, &nothing, place, edit)?;
            leaves(alloc, items, edit.split())
        }
        Some(link) => link.edited(alloc, place, edit),
    }
}

fn edit_root_in_place<T: Copy>(root: &mut Option<Link<T>>, place: usize, edit: Edit<T>) -> bool
    requires place { HasPlace edit (rooted root.old) place }
    requires room { length (rooted root.old) + 1 < 2 ^ 64 }
    ensures { rooted root.new ≡ (if result then changed edit (rooted root.old) place else rooted root.old) }
{
    match root {
        None => false,
        Some(link) => link.edit_in_place(place, edit),
    }
}

fn is_full<T: Copy>(root: &Option<Link<T>>) -> bool
    ensures room { IsFalse result → length (rooted root.now) + 1 < 2 ^ 64 }
{
    match root {
        None => false,
        Some(link) => link.len() == usize::MAX,
    }
}

/// One more link to a root.
pub fn share_root<T: Copy>(root: &Option<Link<T>>) -> Result<Option<Link<T>>, OutOfMemory>
    ensures { IfOk result (λ link. link ≡ root.now) }
{
    match root {
        None => Ok(None),
        Some(link) => Ok(Some(link.share()?)),
    }
}

/// Makes a change in the list under a root. After `OutOfMemory` the list is as before.
pub fn edit_root<T: Copy>(
    alloc: Global,
    root: &mut Option<Link<T>>,
    place: usize,
    edit: Edit<T>,
) -> Result<(), OutOfMemory>
    requires { HasPlace edit (rooted root.old) place }
    ensures { rooted root.new ≡ (if is_ok result then changed edit (rooted root.old) place else rooted root.old) }
{
    if is_full(root) {
        return Err(OutOfMemory);
    }
    if edit_root_in_place(root, place, edit) {
        return Ok(());
    }
    let parts = match edited_root(alloc, root, place, edit) {
        Ok(parts) => parts,
        Err(error) => return Err(error),
    };
    match joined(alloc, parts) {
        Ok(changed) => {
            *root = changed;
            Ok(())
        }
        Err(error) => Err(error),
    }
}
