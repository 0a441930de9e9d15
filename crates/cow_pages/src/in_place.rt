//! Changes in pages that nobody else holds.
ghost use Rattle.cow_pages.specs.Edits.{HasPlace, changed};
ghost use Rattle.std.specs.Prelude.{◌≡◌, ◌+◌, ◌<◌, ◌≤◌, ◌^◌, if◌then◌else◌, insert, length, remove};

use crate::edit::Edit;
use crate::pages::{Link, Node, Page, leaf_room};
use crate::reading::place_in;
use std::sync::Arc;

/// Puts one more into a leaf, unless the leaf is full or doesn't get the memory.
fn insert_item<T: Copy>(items: &mut Vec<T>, place: usize, item: T) -> bool
    requires { place ≤ length items.old.items }
    ensures { items.new.items ≡ (if result then insert items.old.items place item else items.old.items) }
{
    if items.len() >= leaf_room(&item) {
        return false;
    }
    items.insert(place, item).is_ok()
}

/// Takes one out of a leaf, unless it's the only one.
fn remove_item<T: Copy>(items: &mut Vec<T>, place: usize) -> bool
    requires { place < length items.old.items }
    ensures { items.new.items ≡ (if result then remove items.old.items place else items.old.items) }
{
    if items.len() < 2 {
        return false;
    }
    items.remove(place);
    true
}

/// Changes the items of a leaf, unless it has no room, or would be empty.
fn edit_items<T: Copy>(items: &mut Vec<T>, place: usize, edit: Edit<T>) -> bool
    requires { HasPlace edit items.old.items place }
    ensures { items.new.items ≡ (if result then changed edit items.old.items place else items.old.items) }
{
    match edit {
        Edit::Set(item) => {
            items[place] = item;
            true
        }
        Edit::Insert(item, _) => insert_item(items, place, item),
        Edit::Remove => remove_item(items, place),
    }
}

impl<T: Copy> Link<T> {
    /// Makes a change without a copy, and answers whether it did. It doesn't where a page on the way is shared, or where the
    /// leaf has no room or would be empty: then nothing has changed.
    #[cycle(edit_in_place)]
    pub fn edit_in_place(&mut self, place: usize, edit: Edit<T>) -> bool
        requires place { HasPlace edit self.old.1 place }
        requires room { length self.old.1 + 1 < 2 ^ 64 }
        ensures { self.new ≡ (if result then (self.old.0, changed edit self.old.1 place) else self.old) }
    {
        let count = self.count;
        let done = match Arc::get_mut(&mut self.page) {
            Some(page) => page.edit_in_place(place, count, edit),
            None => false,
        };
        if done {
            self.count = edit.count_after(count);
        }
        done
    }
}

impl<T: Copy> Page<T> {
    #[cycle(edit_in_place)]
    fn edit_in_place(&mut self, place: usize, count: usize, edit: Edit<T>) -> bool
        requires all { length self.old.1 ≡ count }
        requires place { HasPlace edit self.old.1 place }
        requires room { length self.old.1 + 1 < 2 ^ 64 }
        ensures { self.new ≡ (if result then (self.old.0, changed edit self.old.1 place) else self.old) }
    {
        match &mut self.node {
            Node::Leaf(items) => edit_items(items, place, edit),
            Node::Inner(links) => {
                let (number, rest) = place_in(links, place, count);
                links[number].edit_in_place(rest, edit)
            }
        }
    }
}
