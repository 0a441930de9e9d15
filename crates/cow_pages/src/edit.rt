//! A change at one place of a list.
ghost use Rattle.cow_pages.specs.Counts.{count_after};
ghost use Rattle.std.specs.Prelude.{◌≡◌, ◌+◌, ◌<◌, ◌≤◌, ◌^◌};

/// Where a page that has no room for one more is split.
#[derive(Clone, Copy)]
pub enum Split {
    /// In the middle.
    Half,
    /// Before the new item, which stands at the end: pages that grow at the end of the list are left full.
    End,
}

/// A change at a place of a list.
#[derive(Clone, Copy)]
pub enum Edit<T: Copy> {
    Set(T),
    Insert(T, Split),
    Remove,
}

impl<T: Copy> Edit<T> {
    /// Where a page is split that has no room for this change.
    pub fn split(self) -> Split {
        match self {
            Edit::Insert(_, split) => split,
            Edit::Set(_) | Edit::Remove => Split::Half,
        }
    }

    /// How many items there are after the change where there were so many before it.
    pub fn count_after(self, count: usize) -> usize
        requires { count + 1 < 2 ^ 64 }
        ensures { result ≡ count_after self count }
    {
        match self {
            Edit::Set(_) => count,
            Edit::Insert(..) => count + 1,
            Edit::Remove => count.saturating_sub(1),
        }
    }
}

impl Split {
    /// Where so many items are parted into two pages, both with some.
    pub fn place(self, count: usize) -> usize
        requires { 2 ≤ count }
        ensures some { 0 < result }
        ensures others { result < count }
    {
        match self {
            Split::Half => count / 2,
            Split::End => count - 1,
        }
    }
}
