//! Where a statement has a ninth condition, or a ninth name in the list of a SELECT.
ghost use Rattle.std.specs.Prelude.{◌≡◌, ◌≤◌, ◌+◌, ◌*◌, ◌-◌, None, length, map};
ghost use Rattle.sql_text.specs.Grammar.{cond_tokens, ninth, ninth_column, ninth_from, ninth_select, test_tokens, what_tokens};
ghost use Rattle.sql_text.specs.Marked.{marked_len};
ghost use Rattle.sql_text.specs.declared.marks.Mark.TheVariants.{And};

use crate::Test;
use crate::statements::{Cond, Stmt, What};

/// The most conditions of a statement, and the most names in the list of a SELECT.
const MOST: usize = 8;

/// The number of the token, counted from 0, at which the first ninth element begins: of the names in the
/// list of a SELECT, or else of the conditions.
#[tactic(auto, unfolding(crate::specs::Grammar::ninth, crate::specs::Grammar::ninth_in), using(crate::proofs::Sizes::select_ninth))]
pub fn ninth(stmt: &Stmt) -> Option<usize>
    ensures { result ≡ ninth stmt.now }
{
    match stmt {
        Stmt::Begin => None,
        Stmt::Commit => None,
        Stmt::Rollback => None,
        Stmt::Rebuild {
            table: _table,
            column: _column,
        } => None,
        Stmt::Insert {
            table: _table,
            values: _values,
        } => None,
        Stmt::Delete {
            table: _table,
            conds,
        } => ninth_cond(4, conds.as_slice()),
        Stmt::Select {
            what,
            table: _table,
            conds,
            order: _order,
            limit: _limit,
        } => ninth_of_select(what, conds.as_slice()),
    }
}

#[tactic(auto, unfolding(crate::specs::Grammar::first_of, crate::specs::Grammar::ninth_select))]
fn ninth_of_select(what: &What, conds: &[Cond]) -> Option<usize>
    ensures { result ≡ ninth_select what.now conds.now }
{
    match ninth_column(what) {
        Some(number) => Some(number),
        None => ninth_cond(4 + what_size(what), conds),
    }
}

#[tactic(auto, unfolding(crate::specs::Grammar::ninth_column, crate::specs::Grammar::ninth_in), using(crate::proofs::Sizes::names_ninth, crate::proofs::Sizes::length_names))]
fn ninth_column(what: &What) -> Option<usize>
    ensures { result ≡ ninth_column what.now }
{
    match what {
        What::All => None,
        What::Columns(names) => {
            if names.as_slice().len() > MOST {
                Some(17)
            } else {
                None
            }
        }
        What::Count => None,
        What::Min(_column) => None,
        What::Max(_column) => None,
    }
}

/// How many tokens say what is asked for.
#[tactic(auto, unfolding(crate::specs::Grammar::what_tokens, crate::specs::Grammar::ninth_column, crate::specs::Grammar::ninth_in), using(crate::proofs::Sizes::names_size, crate::proofs::Sizes::length_names))]
fn what_size(what: &What) -> usize
    requires { ninth_column what.now ≡ None }
    ensures size { result ≡ length (what_tokens what.now) }
    ensures few { result ≤ 15 }
{
    match what {
        What::All => 1,
        What::Columns(names) => columns_size(names.as_slice().len()),
        What::Count => 4,
        What::Min(_column) => 4,
        What::Max(_column) => 4,
    }
}

/// How many tokens so many names have, with commas between them.
fn columns_size(names: usize) -> usize
    requires { names ≤ 8 }
    ensures { result ≡ 2 * names - 1 }
{
    if names == 0 { 0 } else { 2 * names - 1 }
}

/// The number of the token at which the ninth condition begins, where `front` tokens stand before the
/// first.
#[tactic(auto, using(crate::proofs::Sizes::conds_ninth, crate::proofs::Sizes::length_conds))]
fn ninth_cond(front: usize, conds: &[Cond]) -> Option<usize>
    requires { front ≤ 19 }
    ensures { result ≡ ninth_from front And (map cond_tokens conds.now) }
{
    if conds.len() <= MOST {
        return None;
    }
    let (first, _rest) = conds.split_at(MOST);
    Some(front + marked_size(first))
}

/// How many tokens the conditions have, with a mark behind each.
#[tactic(auto, using(crate::proofs::Sizes::marked_step, crate::proofs::Sizes::marked_end, crate::proofs::Sizes::cond_len))]
fn marked_size(conds: &[Cond]) -> usize
    requires { length conds.now ≤ 8 }
    ensures size { result ≡ marked_len (map cond_tokens conds.now) }
    ensures few { result ≤ 48 }
{
    let mut size = 0;
    for cond in conds {
        size += cond_size(&cond.test) + 1;
    }
    size
}

/// How many tokens a condition with this test has.
#[tactic(auto, unfolding(crate::specs::Grammar::test_tokens))]
fn cond_size(test: &Test) -> usize
    ensures size { result ≡ 1 + length (test_tokens test.now) }
    ensures few { result ≤ 5 }
{
    match test {
        Test::Eq(_n) => 3,
        Test::Lt(_n) => 3,
        Test::Le(_n) => 3,
        Test::Gt(_n) => 3,
        Test::Ge(_n) => 3,
        Test::Between(_low, _high) => 5,
    }
}
