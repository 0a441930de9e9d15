//! A list that shares its pages.
ghost use Rattle.std.specs.List.Sorted.{IsPartitionPoint, IsPartitionedBy};
ghost use Rattle.std.specs.Prelude.{◌≡◌, ◌<◌, ◌≤◌, [], ◌∷◌, ◌++◌, ◌↔◌, IfOk, IsTrue, OnErr, OnOk, drop, false, insert, length, option_copied, remove, set, slice_get, take, true};

use crate::OutOfMemory;
use crate::cut::Cut;
use crate::edit::{Edit, Split};
use crate::pages::Link;
use crate::rooted::{edit_root, share_root};
use std::alloc::Global;
use std::marker::Model;

/// A list in a counted tree of pages, which other lists may share: it is seen as the list of its items.
///
/// Reading an item or changing one touches a page on each level. A page that nobody else holds is changed in place, and one that
/// is shared is copied alone. After `OutOfMemory` the list is as before the call.
#[derive(Drop)]
pub struct Paged<T: Copy> {
    alloc: Global,
    root: Option<Link<T>>,
}

impl<T: Copy> Model for Paged<T> {
    ghost use Rattle.cow_pages.specs.Rooted.{rooted};
    ghost use Rattle.std.specs.Coded.{coded_list};
    ghost use Rattle.std.specs.Prelude.{List};

    ghost Value = { List T };

    ghost coded = { coded_list T.code };

    ghost view = { λ p. rooted p.root };
}

impl<T: Copy> Paged<T> {
    /// No items. It takes no memory.
    pub fn new(alloc: Global) -> Paged<T>
        ensures { result ≡ [] }
    {
        Paged { alloc, root: None }
    }

    /// How many items it has.
    pub fn len(&self) -> usize
        ensures { result ≡ length self.now }
    {
        match &self.root {
            None => 0,
            Some(root) => root.len(),
        }
    }

    /// Whether it has no items.
    pub fn is_empty(&self) -> bool
        ensures { IsTrue result ↔ (length self.now ≡ 0) }
    {
        self.len() == 0
    }

    /// The item at a place: `None` exactly where the list has no such place.
    pub fn get(&self, place: usize) -> Option<&T>
        ensures { option_copied result ≡ slice_get self.now place }
    {
        self.run_at(place).first()
    }

    /// The rest of one page from a place on: some of the items from there, in order, and at least one where there is one.
    pub fn run_at(&self, place: usize) -> &[T]
        ensures run { result.now ≡ take (length result.now) (drop place self.now) }
        ensures some { place < length self.now → 0 < length result.now }
    {
        match &self.root {
            Some(root) if place < root.len() => root.run_at(place),
            _ => &[],
        }
    }

    /// Puts `item` in the place of another one.
    pub fn set(&mut self, place: usize, item: T) -> Result<(), OutOfMemory>
        requires { place < length self.old }
        ensures ok { OnOk result (self.new ≡ set self.old place item) }
        ensures err { OnErr result (self.new ≡ self.old) }
    {
        edit_root(self.alloc, &mut self.root, place, Edit::Set(item))
    }

    /// Adds `item` at the end. Items that are added one after another fill their pages.
    pub fn push(&mut self, item: T) -> Result<(), OutOfMemory>
        ensures ok { OnOk result (self.new ≡ self.old ++ item ∷ []) }
        ensures err { OnErr result (self.new ≡ self.old) }
    {
        let end = self.len();
        edit_root(
            self.alloc,
            &mut self.root,
            end,
            Edit::Insert(item, Split::End),
        )
    }

    /// Puts `item` before the item at a place, or at the end.
    pub fn insert(&mut self, place: usize, item: T) -> Result<(), OutOfMemory>
        requires { place ≤ length self.old }
        ensures ok { OnOk result (self.new ≡ insert self.old place item) }
        ensures err { OnErr result (self.new ≡ self.old) }
    {
        if place == self.len() {
            return self.push(item);
        }
        edit_root(
            self.alloc,
            &mut self.root,
            place,
            Edit::Insert(item, Split::Half),
        )
    }

    /// Takes the item at a place out.
    pub fn remove(&mut self, place: usize) -> Result<T, OutOfMemory>
        requires { place < length self.old }
        ensures item { IfOk result (λ item. slice_get self.old place ≡ Some item) }
        ensures ok { OnOk result (self.new ≡ remove self.old place) }
        ensures err { OnErr result (self.new ≡ self.old) }
    {
        let item = self.run_at(place)[0];
        match edit_root(self.alloc, &mut self.root, place, Edit::Remove) {
            Ok(()) => Ok(item),
            Err(error) => Err(error),
        }
    }

    /// A second list with the same items, which shares all pages with this one. It costs one link.
    pub fn share(&self) -> Result<Paged<T>, OutOfMemory>
        ensures { IfOk result (λ list. list ≡ self.now) }
    {
        let root = share_root(&self.root)?;
        Ok(Paged {
            alloc: self.alloc,
            root,
        })
    }

    /// How many items stand before a cut, by halving. The items before the cut must stand before the others.
    pub fn partition_point<C: Cut<T>>(&self, cut: &C) -> usize
        requires { IsPartitionedBy (C.before cut.now) self.now }
        ensures bound { result ≤ length self.now }
        ensures point { IsPartitionPoint (λ item. C.before cut.now item ≡ true) (λ item. C.before cut.now item ≡ false) self.now result }
    {
        let mut low = 0;
        let mut high = self.len();
        'halves: while low < high {
            let middle = low + (high - low) / 2;
            let item = self.run_at(middle)[0];
            if cut.is_before(&item) {
                low = middle + 1;
            } else {
                high = middle;
            }
        }
        low
    }
}
