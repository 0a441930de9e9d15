//! The lines of answers.

ghost use Rattle.std.specs.Prelude.{◌≡◌, ◌≤◌, ◌*◌, ◌++◌, codes, flat_map, length, OnOk};
ghost use Rattle.workload.specs.declared.script.Answer.TheVariants as answer;
ghost use Rattle.workload.specs.Report.{after_spaces, answer_lines, line, row_count, row_lines, value_or_none};

use crate::appending::{push_bytes, push_number, push_numbered_line};
use mope_base::OutOfMemory;
use workload::Answer;

/// Appends the lines of each answer.
pub(crate) fn push_answers(text: &mut Vec<u8>, answers: &[Answer]) -> Result<(), OutOfMemory>
    ensures { OnOk result (text.new.items ≡ text.old.items ++ flat_map answer_lines answers.now) }
{
    'answers: for given in answers {
        push_answer(text, given)?;
    }
    Ok(())
}

/// Appends the lines of an answer.
fn push_answer(text: &mut Vec<u8>, given: &Answer) -> Result<(), OutOfMemory>
    ensures { OnOk result (text.new.items ≡ text.old.items ++ answer_lines given.now) }
{
    match given {
        Answer::Inserted => push_bytes(text, b"inserted 1\n"),
        Answer::Deleted(count) => push_numbered_line(text, b"deleted ", *count),
        Answer::Count(count) => push_numbered_line(text, b"count ", *count),
        Answer::Min(least) => push_value_or_none(text, b"min", *least),
        Answer::Max(greatest) => push_value_or_none(text, b"max", *greatest),
        Answer::Rows { width, values } => push_rows(text, *width as usize, values.as_slice()),
    }
}

/// Appends a line with a word and a value, or with the word and that there is none.
fn push_value_or_none(
    text: &mut Vec<u8>,
    word: &[u8],
    found: Option<u64>,
) -> Result<(), OutOfMemory>
    ensures { OnOk result (text.new.items ≡ text.old.items ++ line (value_or_none word.now found)) }
{
    push_bytes(text, word)?;
    match found {
        Some(value) => push_numbered_line(text, b" ", value)?,
        None => push_bytes(text, b" none\n")?,
    }
    Ok(())
}

/// Appends how many rows of this width the values make, and a line for each.
fn push_rows(text: &mut Vec<u8>, width: usize, values: &[u64]) -> Result<(), OutOfMemory>
    ensures { OnOk result (text.new.items ≡ text.old.items ++ answer_lines (answer.Rows width values.now)) }
{
    let count = rows_of(width, values);
    push_numbered_line(text, b"rows ", count as u64)?;
    push_row_lines(text, count, width, values)?;
    Ok(())
}

/// How many rows of this width the values make; of no width none.
fn rows_of(width: usize, values: &[u64]) -> usize
    ensures is { result ≡ row_count width values.now }
    ensures fit { result * width ≤ length values.now }
{
    if width == 0 { 0 } else { values.len() / width }
}

/// Appends the lines of so many rows of this width.
fn push_row_lines(
    text: &mut Vec<u8>,
    count: usize,
    width: usize,
    values: &[u64],
) -> Result<(), OutOfMemory>
    requires { count * width ≤ length values.now }
    ensures { OnOk result (text.new.items ≡ text.old.items ++ row_lines count width values.now) }
{
    let mut left = values;
    let mut more = count;
    'rows: while more > 0 {
        let (row, rest) = left.split_at(width);
        push_row(text, row)?;
        left = rest;
        more -= 1;
    }
    Ok(())
}

/// Appends the line of a row.
fn push_row(text: &mut Vec<u8>, row: &[u64]) -> Result<(), OutOfMemory>
    ensures { OnOk result (text.new.items ≡ text.old.items ++ line (codes "row" ++ after_spaces row.now)) }
{
    push_bytes(text, b"row")?;
    push_after_spaces(text, row)?;
    push_bytes(text, b"\n")
}

/// Appends values, each after a space.
fn push_after_spaces(text: &mut Vec<u8>, values: &[u64]) -> Result<(), OutOfMemory>
    ensures { OnOk result (text.new.items ≡ text.old.items ++ after_spaces values.now) }
{
    'values: for value in values {
        push_number(text, b" ", *value)?;
    }
    Ok(())
}
