//! Searches by halving in increasing lists of codes.
ghost use Rattle.code_changes.specs.Changes.{new_code};
ghost use Rattle.std.specs.Prelude.{◌≡◌, map};
ghost use Rattle.tree_model.specs.Places.{IsIncreasing, holds};

use path_code::Recode;

/// What a code becomes by the pairs of a change: the new code of the pair that has it as the old one, or else itself. The
/// pairs must increase by their old codes.
pub fn new_code(moved: &[Recode], code: u64) -> u64
    requires { IsIncreasing (map (λ pair. pair.old) moved.now) }
    ensures { result ≡ new_code moved.now code }
{
    match moved.binary_search_by_key(&code, |pair| pair.old) {
        Ok(at) => moved[at].new,
        Err(_) => code,
    }
}

/// Whether a code is one of a list. The list must increase.
pub fn holds(codes: &[u64], code: u64) -> bool
    requires { IsIncreasing codes.now }
    ensures { result ≡ holds code codes.now }
{
    codes.binary_search(&code).is_ok()
}
