//! Workloads that are drawn from a number.
ghost use Rattle.std.specs.Prelude.{◌≡◌, ◌≤◌, ◌<◌, ◌++◌, ◌∷◌, [], IfOk, OnOk, map};
ghost use Rattle.sql_text.specs.Canonical.{canonical};
ghost use Rattle.workload_file.specs.GeneratedText.{generated, session_lines, text_of_lines, transactions_of, sessions_lines};

use crate::draws::transaction;
use mope_base::{Items, OutOfMemory};
use sql_text::{Stmt, print};
use std::alloc::Global;

/// The text of a workload on one table with this many sessions, each of this many transactions. They are drawn
/// from `number` by a linear congruential generator, which runs on from session to session.
pub fn generate(
    alloc: Global,
    number: u64,
    sessions: u8,
    transactions: u16,
) -> Result<Items<u8>, OutOfMemory>
    requires some_session { 0 < sessions }
    requires few_sessions { sessions ≤ 64 }
    requires some_transaction { 0 < transactions }
    requires few_transactions { transactions ≤ 1000 }
    ensures { IfOk result (λ text. text ≡ generated number sessions transactions) }
{
    let mut text = Vec::new(alloc);
    put_line(&mut text, b"mope 1")?;
    put_line(&mut text, b"TABLE g (a, b)")?;
    let mut state = number;
    'sessions: for _i in 0..sessions {
        state = put_session(alloc, &mut text, transactions, state)?;
    }
    put_line(&mut text, b"END")?;
    Ok(Items::from_vec(text))
}

/// Writes a line and its line feed.
fn put_line(text: &mut Vec<u8>, line: &[u8]) -> Result<(), OutOfMemory>
    ensures { OnOk result (text.new.items ≡ text.old.items ++ (line.now ++ 10 ∷ [])) }
{
    text.extend_from_slice(line)?;
    text.push(b'\n')?;
    Ok(())
}

/// Writes the canonical lines of statements.
fn put_statements(alloc: Global, text: &mut Vec<u8>, statements: &[Stmt]) -> Result<(), OutOfMemory>
    ensures { OnOk result (text.new.items ≡ text.old.items ++ text_of_lines (map canonical statements.now)) }
{
    'statements: for statement in statements {
        let line = print(alloc, statement)?;
        put_line(text, line.as_slice())?;
    }
    Ok(())
}

/// Writes so many transactions from a state on, and answers the state after them.
fn put_transactions(
    alloc: Global,
    text: &mut Vec<u8>,
    transactions: u16,
    before: u64,
) -> Result<u64, OutOfMemory>
    ensures text { OnOk result (text.new.items ≡ text.old.items ++ text_of_lines (map canonical (transactions_of transactions before).statements)) }
    ensures state { IfOk result (λ state. state ≡ (transactions_of transactions before).state) }
{
    let mut state = before;
    'transactions: for _i in 0..transactions {
        let draft = transaction(alloc, state)?;
        put_statements(alloc, text, draft.statements.as_slice())?;
        state = draft.state;
    }
    Ok(state)
}

/// Writes a session of so many transactions, and answers the state after them.
fn put_session(
    alloc: Global,
    text: &mut Vec<u8>,
    transactions: u16,
    before: u64,
) -> Result<u64, OutOfMemory>
    ensures text { OnOk result (text.new.items ≡ text.old.items ++ text_of_lines (session_lines (transactions_of transactions before))) }
    ensures state { IfOk result (λ state. state ≡ (transactions_of transactions before).state) }
{
    put_line(text, b"SESSION")?;
    let state = put_transactions(alloc, text, transactions, before)?;
    Ok(state)
}
