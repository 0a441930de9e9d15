//! The root's path, the path of a child, and the code of a path.
ghost use Rattle.path_code.specs.Codes.{bit, code_of};
ghost use Rattle.path_code.specs.Ways.{way};
ghost use Rattle.std.specs.Prelude.{◌≡◌, ℕ, ◌+◌, ◌-◌, ◌*◌, ◌^◌, ◌<◌, ◌≤◌, [], ◌∷◌, ◌++◌};

use crate::paths::Path;
use tree_model::Side;

/// The path of the root: no step.
pub fn root() -> Path
    ensures empty { way result ≡ [] }
    ensures len { result.len ≡ 0 }
{
    Path { bits: 0, len: 0 }
}

fn bit_of(side: Side) -> u64
    ensures { result ≡ bit side }
{
    match side {
        Side::Left => 0,
        Side::Right => 1,
    }
}

/// The path with one more step at its end. It must have fewer than 63.
pub fn child(path: Path, side: Side) -> Path
    requires { path.len < 63 }
    ensures way { way result ≡ way path ++ side ∷ [] }
    ensures len { result.len ≡ path.len + 1 }
{
    let bit = bit_of(side);
    Path {
        bits: 2 * path.bits + bit,
        len: path.len + 1,
    }
}

/// The code of a path: the 64 bits of its steps (left 0, right 1), then a 1, then zeros.
pub fn code(path: Path) -> u64
    ensures spells { result ≡ code_of (way path) }
    ensures packed { result ≡ (2 * path.bits + 1) * 2 ^ (63 - path.len) }
    ensures positive { 0 < result }
{
    (2 * path.bits + 1) << (63 - path.len)
}
