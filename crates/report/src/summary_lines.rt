//! The text of a summary of a run: how it was asked for, how its transactions ended and what is left.

ghost use Rattle.std.specs.Prelude.{◌≡◌, ◌++◌, codes, IfOk, OnOk};
ghost use Rattle.report.specs.SummaryText.{end_line, end_lines, end_name, ended_so, run_lines, summary_text_of};

use crate::appending::{push_bytes, push_numbered_line};
use mope_base::{Items, OutOfMemory};
use std::alloc::Global;
use workload::{DoneTxn, End};

/// The summary of the run of a text that was generated from a number: twelve lines, each a name and a number. They have the
/// number, how many sessions there were, how many transactions were finished and turns taken, how many transactions ended in
/// each of the seven ways, and how many rows there are at the end.
pub fn summary_text(
    alloc: Global,
    number: u64,
    sessions: u8,
    turns: u64,
    txns: &[DoneTxn],
    rows: u64,
) -> Result<Items<u8>, OutOfMemory>
    ensures { IfOk result (λ text. text ≡ summary_text_of number sessions turns txns.now rows) }
{
    let mut text = Vec::new(alloc);
    push_run(&mut text, number, sessions, txns.len() as u64, turns)?;
    push_ends(&mut text, txns)?;
    push_numbered_line(&mut text, b"rows ", rows)?;
    Ok(Items::from_vec(text))
}

/// Appends the lines of what was asked for and of what was run.
fn push_run(
    text: &mut Vec<u8>,
    number: u64,
    sessions: u8,
    transactions: u64,
    turns: u64,
) -> Result<(), OutOfMemory>
    ensures { OnOk result (text.new.items ≡ text.old.items ++ run_lines number sessions transactions turns) }
{
    push_numbered_line(text, b"generate ", number)?;
    push_numbered_line(text, b"sessions ", sessions as u64)?;
    push_numbered_line(text, b"transactions ", transactions)?;
    push_numbered_line(text, b"turns ", turns)?;
    Ok(())
}

/// Appends how many transactions ended in each way.
fn push_ends(text: &mut Vec<u8>, txns: &[DoneTxn]) -> Result<(), OutOfMemory>
    ensures { OnOk result (text.new.items ≡ text.old.items ++ end_lines txns.now) }
{
    push_end_line(text, txns, "committed")?;
    push_end_line(text, txns, "read")?;
    push_end_line(text, txns, "conflict")?;
    push_end_line(text, txns, "full")?;
    push_end_line(text, txns, "rolled-back")?;
    push_end_line(text, txns, "installed")?;
    push_end_line(text, txns, "stale")?;
    Ok(())
}

/// Appends a name, and how many transactions ended so.
fn push_end_line(text: &mut Vec<u8>, txns: &[DoneTxn], name: &str) -> Result<(), OutOfMemory>
    ensures { OnOk result (text.new.items ≡ text.old.items ++ end_line txns.now name.now) }
{
    push_bytes(text, name.as_bytes())?;
    push_numbered_line(text, b" ", count_ended(txns, name))?;
    Ok(())
}

/// How many transactions ended so.
fn count_ended(txns: &[DoneTxn], name: &str) -> u64
    ensures { result ≡ ended_so name.now txns.now }
{
    let mut count = 0;
    'transactions: for t in txns {
        count += u64::from(end_name(t.end) == name);
    }
    count
}

/// The name of the line that counts the transactions that ended like this.
#[tactic(auto, unfolding(crate::specs::SummaryText::end_name))]
fn end_name(end: End) -> &'static str
    ensures { result.now ≡ end_name end }
{
    match end {
        End::Committed(_) => "committed",
        End::Read => "read",
        End::Conflict(_, _) => "conflict",
        End::Full(_) => "full",
        End::RolledBack => "rolled-back",
        End::Installed(_) => "installed",
        End::Stale(_, _) => "stale",
    }
}
