//! Pages, and the links to them.
ghost use Rattle.std.specs.Prelude.{◌≡◌, ◌<◌, length};

use std::alloc::Global;
use std::marker::Model;
use std::mem::size_of_val;
use std::sync::Arc;

/// How many bytes the items of a leaf have at most, unless it has few of them.
const LEAF_BYTES: usize = 2048;

/// How many items a leaf may have whatever their size.
const LEAF_LEAST: usize = 16;

/// How many items a leaf has at most whatever their size.
const LEAF_MOST: usize = 256;

/// How many links an inner node has at most. A page that is copied has a count to raise for each link, so they are few.
pub const INNER: usize = 16;

/// How many items such as this one a leaf has at most: as many as fill the bytes of a page, since a leaf that is shared is copied
/// whole.
pub fn leaf_room<T: Copy>(item: &T) -> usize
    ensures { 0 < result }
{
    let bytes = size_of_val(item);
    if bytes <= LEAF_BYTES / LEAF_MOST {
        return LEAF_MOST;
    }
    if bytes >= LEAF_BYTES / LEAF_LEAST {
        return LEAF_LEAST;
    }
    LEAF_BYTES / bytes
}

/// A page with all that is below it, seen as its height and the items of its leaves in order.
#[cycle(pages)]
#[derive(Drop)]
pub struct Page<T: Copy> {
    pub height: usize,
    pub node: Node<T>,
}

/// A leaf has items; an inner node has links to lower pages, and at least one.
#[cycle(pages)]
#[derive(Drop)]
pub enum Node<T: Copy> {
    Leaf(Vec<T>),
    Inner(Vec<Link<T>>),
}

/// A link to a page, beside the count of its items. It is seen as the page is, and many links may lead to one page.
#[cycle(pages)]
#[derive(Drop)]
pub struct Link<T: Copy> {
    pub count: usize,
    pub page: Arc<Page<T>, Global>,
}

impl<T: Copy> Model for Page<T> {
    ghost use Rattle.std.specs.Coded.{coded×, coded_list, coded_ℕ};
    ghost use Rattle.std.specs.Prelude.{List, ℕ, ◌*◌};

    ghost Value = { ℕ × List T };

    ghost coded = { coded× coded_ℕ (coded_list T.code) };

    ghost use Rattle.cow_pages.specs.Nodes.{IsNode, items_of};

    ghost view = { λ p. (p.height, items_of p.node) };

    ghost invariant = { λ p. IsNode p.height p.node };

    ghost size = { λ v. 2 * v.0 };

    ghost use Rattle.cow_pages.specs.PagesFall.{depth-node};

    ghost size_decreases = { λ p h. depth-node T p.height p.node h };
}

impl<T: Copy> Model for Link<T> {
    ghost use Rattle.std.specs.Coded.{coded×, coded_list, coded_ℕ};
    ghost use Rattle.std.specs.Prelude.{List, ℕ, length, ◌*◌, ◌+◌, ◌≡◌};
    ghost use Rattle.std.specs.Arc.{arc_value};

    ghost Value = { ℕ × List T };

    ghost coded = { coded× coded_ℕ (coded_list T.code) };

    ghost view = { λ l. l.page.value };

    ghost invariant = { λ l. l.count ≡ length l.page.value.1 };

    ghost size = { λ v. 2 * v.0 + 1 };

    ghost use Rattle.std.proofs.Common.{arith};

    ghost size_decreases = { λ l h. Prim.omega arith };
}

impl<T: Copy> Link<T> {
    /// How many items the page has.
    pub fn len(&self) -> usize
        ensures { result ≡ length self.now.1 }
    {
        self.count
    }

    /// The height of the page: every page below it is lower.
    pub fn height(&self) -> usize
        ensures { result ≡ self.now.0 }
    {
        self.page.height
    }
}
