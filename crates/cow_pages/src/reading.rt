//! From a place to the page in which it stands.
ghost use Rattle.cow_pages.specs.Lists.{IsPlace, flat};
ghost use Rattle.std.specs.Prelude.{◌≡◌, ◌<◌, ◌≤◌, drop, length, take};

use crate::pages::{Link, Node, Page};

/// In which of these pages a place is, and where in it. The place after all items is in the last page. It looks from the nearer
/// end, so that the newest items of a list that grows at its end are found at once.
pub fn place_in<T: Copy>(links: &[Link<T>], place: usize, count: usize) -> (usize, usize)
    requires some { 0 < length links.now }
    requires all { length (flat links.now) ≡ count }
    requires within { place ≤ count }
    ensures { IsPlace links.now place result.0 result.1 }
{
    if place < count / 2 {
        place_from_front(links, place)
    } else {
        place_from_back(links, place, count)
    }
}

fn place_from_front<T: Copy>(links: &[Link<T>], place: usize) -> (usize, usize)
    requires some { 0 < length links.now }
    requires within { place ≤ length (flat links.now) }
    ensures { IsPlace links.now place result.0 result.1 }
{
    let last = links.len() - 1;
    let mut rest = place;
    'links: for number in 0..last {
        let count = links[number].len();
        if rest < count {
            return (number, rest);
        }
        rest -= count;
    }
    (last, rest)
}

fn place_from_back<T: Copy>(links: &[Link<T>], place: usize, count: usize) -> (usize, usize)
    requires some { 0 < length links.now }
    requires all { length (flat links.now) ≡ count }
    requires within { place ≤ count }
    ensures { IsPlace links.now place result.0 result.1 }
{
    let mut number = links.len() - 1;
    let mut after = count - place;
    'links: while number > 0 {
        let count = links[number].len();
        if after <= count {
            return (number, count - after);
        }
        after -= count;
        number -= 1;
    }
    (0, place)
}

impl<T: Copy> Link<T> {
    /// The items of one leaf from a place on. At least the item of that place is among them.
    pub fn run_at(&self, place: usize) -> &[T]
        requires { place < length self.now.1 }
        ensures run { result.now ≡ take (length result.now) (drop place self.now.1) }
        ensures some { 0 < length result.now }
    {
        let page: &Page<T> = &self.page;
        match &page.node {
            Node::Leaf(items) => &items[place..],
            Node::Inner(links) => {
                let (number, rest) = place_in(links, place, self.count);
                links[number].run_at(rest)
            }
        }
    }
}
