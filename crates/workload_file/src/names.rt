//! The names of tables, or of a table's columns, numbered from 0 in the order of their declaration.
ghost use Rattle.std.specs.Prelude.{◌≡◌, ◌+◌, ◌<◌, ◌≤◌, [], ◌∷◌, ◌++◌, length, IfOk, IfSome};
ghost use Rattle.workload_file.specs.Naming.{place_of, stands_in, with_new, told_apart, told_after};

use indexmap::IndexSet;
use mope_base::OutOfMemory;
use sql_text::Name;
use std::alloc::Global;
use std::marker::Model;

/// At most 16 names, each once. Contracts see the list of them.
#[derive(Drop)]
pub struct Names {
    set: IndexSet<Vec<u8>>,
}

impl Model for Names {
    ghost use Rattle.std.specs.Prelude.{◌≤◌, List, length};
    ghost use Rattle.sql_text.specs.declared.Name.{Name as NameValue};
    ghost use Rattle.workload_file.specs.Naming.{names_of_keys};

    ghost Value = { List NameValue };

    ghost view = { λ n. names_of_keys n.set.keys };

    ghost invariant = { λ n. length n.set.keys ≤ 16 };
}

impl Names {
    pub fn new(alloc: Global) -> Names
        ensures { result ≡ [] }
    {
        Names {
            set: IndexSet::new(alloc),
        }
    }

    /// How many there are.
    pub fn len(&self) -> usize
        ensures count { result ≡ length self.now }
        ensures few { length self.now ≤ 16 }
    {
        self.set.len()
    }

    /// The number of a name, if it is one of these.
    pub fn number_of(&self, name: &Name) -> Option<u8>
        ensures { result ≡ place_of name.now self.now }
    {
        match self.set.get_index_of(name.bytes.as_slice()) {
            Some(number) => Some(number as u8),
            None => None,
        }
    }
}

/// The bytes of a name, again.
fn copied(alloc: Global, name: &Name) -> Result<Vec<u8>, OutOfMemory>
    ensures { IfOk result (λ copy. copy.items ≡ name.now.bytes) }
{
    Ok(name.bytes.as_slice().to_vec(alloc)?)
}

/// These names and one more behind them, or none where it is one of them.
#[tactic(auto, using(crate::proofs::NamingLemmas::not_false, crate::proofs::NamingLemmas::not_true), unfolding(crate::specs::Naming::with_new))]
pub fn with_one(alloc: Global, names: Names, name: &Name) -> Result<Option<Names>, OutOfMemory>
    requires { length names < 16 }
    ensures found { IfOk result (λ found. found ≡ with_new (stands_in name.now names) names name.now) }
    ensures more { IfOk result (λ found. IfSome found (λ more. more ≡ names ++ name.now ∷ [])) }
{
    let mut names = names;
    let bytes = copied(alloc, name)?;
    let added = names.set.insert(bytes)?;
    if added { Ok(Some(names)) } else { Ok(None) }
}

/// These names, or none where one stands twice.
#[tactic(auto, using(crate::proofs::NamingLemmas::told_found), unfolding(crate::specs::Naming::told_apart))]
pub fn told_apart(alloc: Global, names: &[Name]) -> Result<Option<Names>, OutOfMemory>
    requires { length names.now ≤ 16 }
    ensures found { IfOk result (λ found. found ≡ told_apart names.now) }
    ensures same { IfOk result (λ found. IfSome found (λ all. all ≡ names.now)) }
{
    with_more(alloc, Names::new(alloc), names)
}

/// These names and more behind them, or none where one of those was there before.
#[tactic(auto, unfolding(crate::specs::Naming::told_after, crate::specs::Naming::with_new, crate::specs::Naming::then_told))]
fn with_more(alloc: Global, names: Names, more: &[Name]) -> Result<Option<Names>, OutOfMemory>
    requires { length names + length more.now ≤ 16 }
    ensures { IfOk result (λ found. found ≡ told_after names more.now) }
{
    match more {
        [] => Ok(Some(names)),
        [name, rest @ ..] => match with_one(alloc, names, name)? {
            Some(names) => with_more(alloc, names, rest),
            None => Ok(None),
        },
    }
}
