//! What runs and statements answer, as lines of text.

use crate::tests::conditions::{is_answerable, is_valid};
use crate::{answer, run_turns};
use mope_base::{OutOfMemory, SessionNo};
use std::alloc::Global;
use std::process::Abort;
use workload::{Act, Answer, DoneTxn, End, PlainDb, Workload};

fn push_turns(text: &mut String, turns: &[SessionNo]) -> Result<(), OutOfMemory> {
    text.push_str("turns")?;
    let mut before = " ";
    for s in turns {
        write!(text, "{before}{}", s.0)?;
        before = ",";
    }
    text.push_str("\n")?;
    Ok(())
}

fn push_end(text: &mut String, end: End) -> Result<(), OutOfMemory> {
    match end {
        End::Read => writeln!(text, "read")?,
        End::Committed(number) => writeln!(text, "committed {number}")?,
        End::RolledBack => writeln!(text, "rolled-back")?,
        End::Full(_) => writeln!(text, "full t")?,
        End::Conflict(_, number) => writeln!(text, "conflict t {number}")?,
        End::Installed(number) => writeln!(text, "installed {number}")?,
        End::Stale(_, number) => writeln!(text, "stale t {number}")?,
    }
    Ok(())
}

fn push_found(text: &mut String, word: &str, found: Option<u64>) -> Result<(), OutOfMemory> {
    match found {
        Some(value) => writeln!(text, "{word} {value}")?,
        None => writeln!(text, "{word} none")?,
    }
    Ok(())
}

/// The lines of rows of one column.
fn push_rows(text: &mut String, values: &[u64]) -> Result<(), OutOfMemory> {
    writeln!(text, "rows {}", values.len())?;
    for value in values {
        writeln!(text, "row {value}")?;
    }
    Ok(())
}

fn push_answer(text: &mut String, answer: &Answer) -> Result<(), OutOfMemory> {
    match answer {
        Answer::Inserted => writeln!(text, "inserted 1")?,
        Answer::Deleted(count) => writeln!(text, "deleted {count}")?,
        Answer::Count(count) => writeln!(text, "count {count}")?,
        Answer::Min(least) => push_found(text, "min", *least)?,
        Answer::Max(greatest) => push_found(text, "max", *greatest)?,
        Answer::Rows { width: _, values } => push_rows(text, values.as_slice())?,
    }
    Ok(())
}

fn push_txn(text: &mut String, t: &DoneTxn) -> Result<(), OutOfMemory> {
    write!(
        text,
        "session {} transaction {} at {} ",
        t.session.0, t.place, t.base
    )?;
    push_end(text, t.end)?;
    for answer in t.answers.as_slice() {
        push_answer(text, answer)?;
    }
    Ok(())
}

fn sessions_of(alloc: Global, turns: &[u8]) -> Result<Vec<SessionNo>, OutOfMemory> {
    let mut sessions = Vec::new(alloc);
    for number in turns {
        sessions.push(SessionNo(*number))?;
    }
    Ok(sessions)
}

/// The run of a workload under these turns: the line of the turns that were taken, and the lines of the history.
pub(super) fn told(
    rt: &impl Abort,
    alloc: Global,
    w: &Workload,
    turns: &[u8],
) -> Result<String, OutOfMemory> {
    assert!(rt; is_valid(w));
    let sessions = sessions_of(alloc, turns)?;
    let (taken, history) = run_turns(alloc, w, &sessions)?;
    let mut text = String::new(alloc);
    push_turns(&mut text, taken.as_slice())?;
    for t in history.as_slice() {
        push_txn(&mut text, t)?;
    }
    Ok(text)
}

/// The lines of the answer of a statement, and none where it meets a full table.
pub(super) fn answered(
    rt: &impl Abort,
    alloc: Global,
    db: &mut PlainDb,
    act: &Act,
) -> Result<String, OutOfMemory> {
    assert!(rt; is_answerable(db, act));
    let mut text = String::new(alloc);
    if let Some(a) = answer(alloc, db, act)? {
        push_answer(&mut text, &a)?;
    }
    Ok(text)
}

/// The lines of a first session whose one transaction meets the full table after so many INSERTs.
pub(super) fn full_lines(alloc: Global, count: u64) -> Result<String, OutOfMemory> {
    let mut text = String::new(alloc);
    text.push_str("turns 1\nsession 1 transaction 1 at 0 full t\n")?;
    for _i in 0..count {
        text.push_str("inserted 1\n")?;
    }
    Ok(text)
}
