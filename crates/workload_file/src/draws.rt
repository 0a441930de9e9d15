//! Transactions that are drawn from a state of 64 bits.
ghost use Rattle.std.specs.Prelude.{◌≡◌, ◌<◌, [], ◌∷◌, IfOk};
ghost use Rattle.workload_file.specs.GeneratedText.{next_state, drawn, insert_of, count_between, greatest_five, least_below, delete_of, count_above, rebuild, by_one, by_two, of_kind, transaction};

use crate::drawn_statements::{
    count_above, count_between, delete_of, greatest_five, insert_of, least_below, rebuild,
};
use mope_base::{Items, OutOfMemory};
use sql_text::Stmt;
use std::alloc::Global;

/// What the state is multiplied by at a draw.
const MULTIPLIER: u64 = 6364136223846793005;

/// What is then added to it.
const INCREMENT: u64 = 1442695040888963407;

/// The statements of transactions, and the state after the draws that gave them.
#[derive(Drop)]
pub struct Draft {
    pub statements: Items<Stmt>,
    pub state: u64,
}

/// The state after a draw: a step of a linear congruential generator.
#[tactic(auto, unfolding(crate::specs::GeneratedText::next_state))]
fn next_state(state: u64) -> u64
    ensures { result ≡ next_state state }
{
    state.wrapping_mul(MULTIPLIER).wrapping_add(INCREMENT)
}

/// The number below `below` that the upper 31 bits of the state after a draw give.
#[tactic(auto, unfolding(crate::specs::GeneratedText::drawn))]
fn drawn(below: u64, state: u64) -> u64
    requires { 0 < below }
    ensures { result ≡ drawn below state }
{
    (state >> 33) % below
}

/// A transaction of one statement, and the state after it.
fn alone(alloc: Global, statement: Stmt, state: u64) -> Result<Draft, OutOfMemory>
    ensures { IfOk result (λ draft. draft ≡ record { statements = statement ∷ []; state = state }) }
{
    let mut statements = Items::new(alloc);
    statements.push(statement)?;
    Ok(Draft { statements, state })
}

fn insert_alone(alloc: Global, before: u64) -> Result<Draft, OutOfMemory>
    ensures { IfOk result (λ draft. draft ≡ by_two 1000000 (λ p q. insert_of p q ∷ []) before) }
{
    let middle = next_state(before);
    let state = next_state(middle);
    let statement = insert_of(alloc, drawn(1000, middle), drawn(1000000, state))?;
    alone(alloc, statement, state)
}

fn count_alone(alloc: Global, before: u64) -> Result<Draft, OutOfMemory>
    ensures { IfOk result (λ draft. draft ≡ by_two 1000 (λ p q. count_between p q ∷ []) before) }
{
    let middle = next_state(before);
    let state = next_state(middle);
    let statement = count_between(alloc, drawn(1000, middle), drawn(1000, state))?;
    alone(alloc, statement, state)
}

fn greatest_alone(alloc: Global, before: u64) -> Result<Draft, OutOfMemory>
    ensures { IfOk result (λ draft. draft ≡ by_one (λ p. greatest_five p ∷ []) before) }
{
    let state = next_state(before);
    let statement = greatest_five(alloc, drawn(1000, state))?;
    alone(alloc, statement, state)
}

fn least_alone(alloc: Global, before: u64) -> Result<Draft, OutOfMemory>
    ensures { IfOk result (λ draft. draft ≡ by_one (λ p. least_below p ∷ []) before) }
{
    let state = next_state(before);
    let statement = least_below(alloc, drawn(1000, state))?;
    alone(alloc, statement, state)
}

fn delete_alone(alloc: Global, before: u64) -> Result<Draft, OutOfMemory>
    ensures { IfOk result (λ draft. draft ≡ by_one (λ p. delete_of p ∷ []) before) }
{
    let state = next_state(before);
    let statement = delete_of(alloc, drawn(1000, state))?;
    alone(alloc, statement, state)
}

/// An INSERT and a SELECT between BEGIN and COMMIT.
fn enclosed(alloc: Global, before: u64) -> Result<Draft, OutOfMemory>
    ensures { IfOk result (λ draft. draft ≡ by_two 1000000 (λ p q. Stmt.Begin ∷ insert_of p q ∷ count_above q ∷ Stmt.Commit ∷ []) before) }
{
    let middle = next_state(before);
    let state = next_state(middle);
    let q = drawn(1000000, state);
    let mut statements = Items::new(alloc);
    statements.push(Stmt::Begin)?;
    statements.push(insert_of(alloc, drawn(1000, middle), q)?)?;
    statements.push(count_above(alloc, q)?)?;
    statements.push(Stmt::Commit)?;
    Ok(Draft { statements, state })
}

/// A transaction of a kind from 0 to 15, from the state before its own draws.
#[tactic(auto, unfolding(crate::specs::GeneratedText::of_kind))]
fn of_kind(alloc: Global, kind: u64, before: u64) -> Result<Draft, OutOfMemory>
    ensures { IfOk result (λ draft. draft ≡ of_kind kind before) }
{
    if kind < 8 {
        insert_alone(alloc, before)
    } else if kind < 10 {
        count_alone(alloc, before)
    } else if kind == 10 {
        greatest_alone(alloc, before)
    } else if kind == 11 {
        least_alone(alloc, before)
    } else if kind == 12 {
        delete_alone(alloc, before)
    } else if kind < 15 {
        enclosed(alloc, before)
    } else {
        alone(alloc, rebuild(alloc)?, before)
    }
}

/// The next transaction: its kind is drawn first.
#[tactic(auto, unfolding(crate::specs::GeneratedText::transaction))]
pub fn transaction(alloc: Global, before: u64) -> Result<Draft, OutOfMemory>
    ensures { IfOk result (λ draft. draft ≡ transaction before) }
{
    let state = next_state(before);
    of_kind(alloc, drawn(16, state), state)
}
