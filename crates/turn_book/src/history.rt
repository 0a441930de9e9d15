//! What a value must tell to be taken in turn.
ghost use Rattle.std.specs.Prelude.{◌≡◌, ℕ, List, length};

/// A value with a history: a list of items, each of which was added under the number of a pass, and an origin that no
/// item changes.
pub trait History: Drop {
    type Item;

    type Origin;

    ghost items: { Self → List Self.Item };

    ghost origin: { Self → Self.Origin };

    // The number of the pass that added the item.
    ghost number: { Self.Item → ℕ };

    /// How many items the history has.
    fn count(&self) -> u64
        ensures { result ≡ length (items self.now) };
}
