//! How deep an item may stand, which ancestor's tree is balanced again, and when the whole tree is.
ghost use Rattle.std.specs.Prelude.{◌≡◌, ◌↔◌, ℕ, ◌+◌, ◌*◌, ◌^◌, ◌<◌, ◌≤◌, length, slice_index, EachIndex, IsTrue};
ghost use Rattle.tree_model.specs.Balance.{limit, nearest_heavy};

/// The greatest depth of an item in a tree of at most `n` items: the greatest d with 3^d <= n * 2^d, and 0 for no
/// items. `n` must be at most 2^32.
pub fn limit(n: u64) -> u8
    requires { n ≤ 2 ^ 32 }
    ensures { result ≡ limit n }
{
    let mut depth: u8 = 0;
    let mut threes: u128 = 3;
    let mut twos: u128 = 2 * u128::from(n);
    'climb: while threes <= twos {
        threes *= 3;
        twos *= 2;
        depth += 1;
    }
    depth
}

/// Whether an item at this depth is deeper than `limit(max)`. `max` must be at most 2^32.
pub fn too_deep(depth: u8, max: u64) -> bool
    requires { max ≤ 2 ^ 32 }
    ensures { IsTrue result ↔ (limit max < depth) }
{
    depth > limit(max)
}

/// The nearest ancestor of a new item whose tree is too tall for its items: the least index j with
/// 3^(j + 1) > sizes\[j\] * 2^(j + 1).
///
/// `sizes` are the numbers of items of the ancestors' trees from the parent up to the root. They must be at most 63,
/// each at most 2^32, and one must be such.
pub fn pick(sizes: &[u64]) -> usize
    requires few { length sizes.now ≤ 63 }
    requires small { EachIndex sizes.now (λ j. slice_index sizes.now j ≤ 2 ^ 32) }
    requires some { (j : ℕ) × (j < length sizes.now) × (slice_index sizes.now j * 2 ^ (j + 1) < 3 ^ (j + 1)) }
    ensures within { result < length sizes.now }
    ensures heavy { slice_index sizes.now result * 2 ^ (result + 1) < 3 ^ (result + 1) }
    ensures nearest { (j : ℕ) → j < result → 3 ^ (j + 1) ≤ slice_index sizes.now j * 2 ^ (j + 1) }
    ensures rule { result ≡ nearest_heavy 1 sizes.now }
{
    let mut above: usize = 0;
    let mut threes: u128 = 3;
    let mut twos: u128 = 2;
    'ancestors: for size in sizes {
        if threes > u128::from(*size) * twos {
            return above;
        }
        threes *= 3;
        twos *= 2;
        above += 1;
    }
    above
}

/// Whether a tree of which `live` items have rows is too small against its greatest number of items, `max`, so that
/// the whole tree is balanced again: 3 * live < 2 * max. Both must be at most 2^32.
pub fn needs_whole(live: u64, max: u64) -> bool
    requires live_in { live ≤ 2 ^ 32 }
    requires max_in { max ≤ 2 ^ 32 }
    ensures { IsTrue result ↔ (3 * live < 2 * max) }
{
    let thrice = 3 * live;
    thrice < 2 * max
}
