//! Codes read back as paths, and codes carried along where a subtree gets another root.
ghost use Rattle.path_code.specs.Codes.{code_of};
ghost use Rattle.path_code.specs.Moves.{CannotMove, CannotReplace, IsMoved, IsReplaced};
ghost use Rattle.path_code.specs.Ways.{way};
ghost use Rattle.path_code.specs.declared.paths.Path.{Path};
ghost use Rattle.std.specs.Prelude.{◌≡◌, ℕ, ◌<◌, MatchOption};

use crate::codes::code;
use crate::paths::Path;

/// The one number that is no path's code.
const NO_CODE: u64 = 0;

/// The most steps of a path.
const LONGEST: u8 = 63;

/// A code before and after a change of the tree.
#[derive(Clone, Copy, PartialEq, Eq, Debug)]
pub struct Recode {
    pub old: u64,
    pub new: u64,
}

/// A subtree that moves: the path of its root before and after.
#[derive(Clone, Copy, PartialEq, Eq, Debug)]
pub struct Move {
    pub from: Path,
    pub to: Path,
}

fn unmarked(enc: u64) -> Path
    requires { 0 < enc }
    ensures { code_of (way result) ≡ enc }
{
    let zeros = enc.trailing_zeros();
    Path {
        bits: enc >> zeros >> 1,
        len: 63 - zeros as u8,
    }
}

/// The path that has this code. None exactly for 0, which is no path's code.
pub fn path_of(enc: u64) -> Option<Path>
    ensures decodes { MatchOption result (enc ≡ 0) (λ path. code_of (way path) ≡ enc) }
    ensures inverse { (path : Path) → code_of (way path) ≡ enc → result ≡ Some path }
{
    if enc == NO_CODE {
        return None;
    }
    Some(unmarked(enc))
}

fn replaced(m: Move, path: Path) -> Option<Path>
    ensures { MatchOption result
        (CannotReplace (way m.from) (way m.to) (way path))
        (λ new. IsReplaced (way m.from) (way m.to) (way path) (way new)) }
{
    if path.len < m.from.len {
        return None;
    }
    let count = path.len - m.from.len;
    if path.bits >> count != m.from.bits {
        return None;
    }
    if m.to.len + count > LONGEST {
        return None;
    }
    let rest = path.bits - (m.from.bits << count);
    Some(Path {
        bits: (m.to.bits << count) + rest,
        len: m.to.len + count,
    })
}

/// The code of the same place after a move: the code of the path with `from` at its beginning replaced by `to`. None
/// exactly where the code is 0, its path doesn't begin with `from`, or the new path is longer than 63.
pub fn move_enc(m: Move, enc: u64) -> Option<u64>
    ensures { MatchOption result
        (CannotMove (way m.from) (way m.to) enc)
        (λ new. IsMoved (way m.from) (way m.to) enc new) }
{
    match path_of(enc) {
        None => None,
        Some(path) => match replaced(m, path) {
            None => None,
            Some(new) => Some(code(new)),
        },
    }
}
