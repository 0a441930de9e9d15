//! Where a search cuts a list in two.
ghost use Rattle.std.specs.Prelude.{◌≡◌, Bool};

/// A cut between the items that stand before it and those that stand after it.
pub trait Cut<T> {
    ghost before: { Self → T → Bool };

    /// Whether an item stands before the cut.
    fn is_before(&self, item: &T) -> bool
        ensures { result ≡ before self.now item.now };
}
