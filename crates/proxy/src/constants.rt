//! The constants of a statement, one by one.

ghost use Rattle.std.specs.Prelude.{◌≡◌, ◌<◌, ◌^◌, drop, length, IfSome};
ghost use Rattle.proxy.specs.Tasks as tasks;
ghost use Rattle.proxy.specs.Standing.{first_of, index_limit};

use mope_base::ColNo;
use sql_text::Test;
use workload::Act;

/// The value at a place of a row, with its column.
fn value_at(values: &[u64], index: usize) -> Option<(ColNo, u64)>
    ensures is { result ≡ first_of (drop index (tasks.values_from 0 values.now)) }
    ensures within { IfSome result (λ _. index < index_limit) }
{
    if index < values.len() {
        Some((ColNo((index % 256) as u8), values[index]))
    } else {
        None
    }
}

#[tactic(auto, unfolding(crate::specs::Tasks::constants_in))]
fn constant_count(test: Test) -> usize
    ensures { result ≡ length (tasks.constants_in test) }
{
    match test {
        Test::Eq(_) => 1,
        Test::Lt(_) => 1,
        Test::Le(_) => 1,
        Test::Gt(_) => 1,
        Test::Ge(_) => 1,
        Test::Between(_, _) => 2,
    }
}

#[tactic(auto, unfolding(crate::specs::Tasks::constants_in, crate::specs::Standing::first_of))]
fn low_end(test: Test) -> u64
    ensures { first_of (tasks.constants_in test) ≡ Some result }
{
    match test {
        Test::Eq(c) => c,
        Test::Lt(c) => c,
        Test::Le(c) => c,
        Test::Gt(c) => c,
        Test::Ge(c) => c,
        Test::Between(low, _) => low,
    }
}

#[tactic(auto, unfolding(crate::specs::Tasks::constants_in, crate::specs::Standing::first_of))]
fn high_end(test: Test) -> Option<u64>
    ensures { result ≡ first_of (drop 1 (tasks.constants_in test)) }
{
    match test {
        Test::Eq(_) => None,
        Test::Lt(_) => None,
        Test::Le(_) => None,
        Test::Gt(_) => None,
        Test::Ge(_) => None,
        Test::Between(_, high) => Some(high),
    }
}

/// The constant of a test at an index.
fn test_constant(test: Test, index: usize) -> Option<u64>
    ensures { result ≡ first_of (drop index (tasks.constants_in test)) }
{
    match index {
        0 => Some(low_end(test)),
        1 => high_end(test),
        _ => None,
    }
}

/// The constant of conditions at an index, with its column.
fn condition_constant(tests: &[(ColNo, Test)], index: usize) -> Option<(ColNo, u64)>
    ensures is { result ≡ first_of (drop index (tasks.constants_all tests.now)) }
    ensures within { IfSome result (λ _. index < index_limit) }
{
    let mut left = index;
    'tests: for i in 0..tests.len() {
        let (column, test) = tests[i];
        match test_constant(test, left) {
            Some(constant) => return Some((column, constant)),
            None => left -= constant_count(test),
        }
    }
    None
}

/// The constant of a statement at an index, with its column.
#[tactic(auto, unfolding(crate::specs::Tasks::constants_of))]
pub(crate) fn constant_at(act: &Act, index: usize) -> Option<(ColNo, u64)>
    ensures is { result ≡ first_of (drop index (tasks.constants_of act.now)) }
    ensures within { IfSome result (λ _. index < index_limit) }
{
    match act {
        Act::Insert { table: _, values } => value_at(values.as_slice(), index),
        Act::Ask(ask) => condition_constant(ask.tests.as_slice(), index),
    }
}
