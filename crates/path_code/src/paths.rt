//! A path as it is stored.
ghost use Rattle.std.specs.Prelude.{ℕ, ◌^◌, ◌<◌, ◌≤◌};

/// A way down from the root of a tree, of at most 63 steps.
///
/// The lowest `len` bits of `bits` are the steps, left 0 and right 1; the first step is the highest of them, and all other bits are 0.
#[derive(Clone, Copy, PartialEq, Eq, Debug)]
pub struct Path {
    pub bits: u64,
    pub len: u8,
    pub ghost short: { len ≤ 63 },
    pub ghost within: { bits < 2 ^ len },
}
