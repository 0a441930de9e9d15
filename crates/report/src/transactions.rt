//! The lines of transactions.

ghost use Rattle.std.specs.Prelude.{◌≡◌, ◌++◌, flat_map, OnOk};
ghost use Rattle.workload.specs.Report.{end_text, name_of, transaction_line, transaction_lines};

use crate::answers::push_answers;
use crate::appending::{push_bytes, push_number};
use mope_base::{OutOfMemory, TableNo};
use workload::{DoneTxn, End, Workload};

/// Appends the lines of each transaction.
pub(crate) fn push_transactions(
    text: &mut Vec<u8>,
    w: &Workload,
    txns: &[DoneTxn],
) -> Result<(), OutOfMemory>
    ensures { OnOk result (text.new.items ≡ text.old.items ++ flat_map (transaction_lines w.now) txns.now) }
{
    'transactions: for t in txns {
        push_transaction(text, w, t)?;
    }
    Ok(())
}

/// Appends the line of a transaction and those of its answers.
fn push_transaction(text: &mut Vec<u8>, w: &Workload, t: &DoneTxn) -> Result<(), OutOfMemory>
    ensures { OnOk result (text.new.items ≡ text.old.items ++ transaction_lines w.now t.now) }
{
    push_transaction_line(text, w, t)?;
    push_answers(text, t.answers.as_slice())?;
    Ok(())
}

/// Appends the line that says whose transaction it is, from which version it began and how it ended.
fn push_transaction_line(text: &mut Vec<u8>, w: &Workload, t: &DoneTxn) -> Result<(), OutOfMemory>
    ensures { OnOk result (text.new.items ≡ text.old.items ++ transaction_line w.now t.now) }
{
    push_number(text, b"session ", t.session.0 as u64)?;
    push_number(text, b" transaction ", t.place as u64)?;
    push_number(text, b" at ", t.base)?;
    push_bytes(text, b" ")?;
    push_end(text, w, t.end)?;
    push_bytes(text, b"\n")?;
    Ok(())
}

/// Appends how a transaction ended.
fn push_end(text: &mut Vec<u8>, w: &Workload, end: End) -> Result<(), OutOfMemory>
    ensures { OnOk result (text.new.items ≡ text.old.items ++ end_text w.now end) }
{
    match end {
        End::Read => push_bytes(text, b"read"),
        End::Committed(number) => push_number(text, b"committed ", number),
        End::RolledBack => push_bytes(text, b"rolled-back"),
        End::Full(table) => push_table(text, b"full ", w, table),
        End::Conflict(table, number) => {
            push_table(text, b"conflict ", w, table)?;
            push_number(text, b" ", number)
        }
        End::Installed(number) => push_number(text, b"installed ", number),
        End::Stale(table, number) => {
            push_table(text, b"stale ", w, table)?;
            push_number(text, b" ", number)
        }
    }
}

/// Appends a word and the name of a table, as it was declared.
pub(crate) fn push_table(
    text: &mut Vec<u8>,
    word: &[u8],
    w: &Workload,
    table: TableNo,
) -> Result<(), OutOfMemory>
    ensures { OnOk result (text.new.items ≡ text.old.items ++ (word.now ++ name_of w.now table)) }
{
    push_bytes(text, word)?;
    if let Some(declared) = w.tables.as_slice().get(table.0 as usize) {
        push_bytes(text, declared.name.bytes.as_slice())?;
    }
    Ok(())
}
