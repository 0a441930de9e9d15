//! The text of a run: the line of its turns, its transactions and the line of the next free nonce.

ghost use Rattle.std.specs.Prelude.{◌≡◌, ◌++◌, IfOk, OnOk};
ghost use Rattle.workload.specs.Report.{after_commas, joined, turns_line};
ghost use Rattle.report.specs.WholeText.{nonce_line, text_of};

use crate::appending::{push_bytes, push_number, push_numbered_line};
use crate::transactions::push_transactions;
use mope_base::{Items, OutOfMemory, SessionNo};
use std::alloc::Global;
use workload::{DoneTxn, Workload};

/// The text of a run of a workload: the sessions of its turns, its transactions in the order in which they are given,
/// and the next free nonce, if there is one. The name of a table that isn't declared is empty, an answer of a width of
/// 0 has no rows, and values past the last whole row are left out.
pub fn report_text(
    alloc: Global,
    w: &Workload,
    turns: &[SessionNo],
    txns: &[DoneTxn],
    next: Option<u64>,
) -> Result<Items<u8>, OutOfMemory>
    ensures { IfOk result (λ text. text ≡ text_of w.now turns.now txns.now next) }
{
    let mut text = Vec::new(alloc);
    push_turns(&mut text, turns)?;
    push_transactions(&mut text, w, txns)?;
    push_nonce(&mut text, next)?;
    Ok(Items::from_vec(text))
}

/// Appends the line of the turns.
fn push_turns(text: &mut Vec<u8>, turns: &[SessionNo]) -> Result<(), OutOfMemory>
    ensures { OnOk result (text.new.items ≡ text.old.items ++ turns_line turns.now) }
{
    push_bytes(text, b"turns")?;
    push_joined(text, turns)?;
    push_bytes(text, b"\n")
}

/// Appends the sessions, joined by commas after a space.
fn push_joined(text: &mut Vec<u8>, sessions: &[SessionNo]) -> Result<(), OutOfMemory>
    ensures { OnOk result (text.new.items ≡ text.old.items ++ joined sessions.now) }
{
    match sessions.split_first() {
        Some((first, others)) => {
            push_number(text, b" ", first.0 as u64)?;
            push_after_commas(text, others)?;
            Ok(())
        }
        None => Ok(()),
    }
}

/// Appends the sessions, each after a comma.
fn push_after_commas(text: &mut Vec<u8>, sessions: &[SessionNo]) -> Result<(), OutOfMemory>
    ensures { OnOk result (text.new.items ≡ text.old.items ++ after_commas sessions.now) }
{
    'sessions: for session in sessions {
        push_number(text, b",", session.0 as u64)?;
    }
    Ok(())
}

/// Appends the line of the next free nonce, if there is one.
fn push_nonce(text: &mut Vec<u8>, next: Option<u64>) -> Result<(), OutOfMemory>
    ensures { OnOk result (text.new.items ≡ text.old.items ++ nonce_line next) }
{
    match next {
        Some(nonce) => push_numbered_line(text, b"nonce ", nonce),
        None => Ok(()),
    }
}
