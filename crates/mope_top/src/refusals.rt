//! The lines that refuse an input.
ghost use Rattle.std.specs.Prelude.{◌≡◌, ◌++◌, decimal, IfOk, OnOk};
ghost use Rattle.mope_top.specs.FaultText.{fault_text, reason_words};

use mope_base::OutOfMemory;
use std::alloc::Global;
use std::io::Write;
use workload_file::FileReason;

/// The line that refuses a workload's file: its first line that has a fault, and the first reason.
pub(crate) fn fault_line(
    alloc: Global,
    line: u64,
    reason: FileReason,
) -> Result<Vec<u8>, OutOfMemory>
    ensures { IfOk result (λ text. text.items ≡ fault_text line reason) }
{
    let mut text = Vec::new(alloc);
    push(&mut text, b"error line ")?;
    push_decimal(&mut text, line)?;
    push(&mut text, b": ")?;
    push(&mut text, words_of(reason))?;
    push(&mut text, b"\n")?;
    Ok(text)
}

fn push(text: &mut Vec<u8>, bytes: &[u8]) -> Result<(), OutOfMemory>
    ensures { OnOk result (text.new.items ≡ text.old.items ++ bytes.now) }
{
    text.extend_from_slice(bytes)?;
    Ok(())
}

fn push_decimal(text: &mut Vec<u8>, number: u64) -> Result<(), OutOfMemory>
    ensures { OnOk result (text.new.items ≡ text.old.items ++ decimal number) }
{
    write!(text, "{number}").map_err(|_| OutOfMemory)?;
    Ok(())
}

#[tactic(auto, unfolding(crate::specs::FaultText::reason_words))]
fn words_of(reason: FileReason) -> &'static [u8]
    ensures { result.now ≡ reason_words reason }
{
    match reason {
        FileReason::InputTooLong => b"input too long",
        FileReason::TextAfterEnd => b"text after END",
        FileReason::BadByte => b"bad byte",
        FileReason::BadToken => b"bad token",
        FileReason::TooLarge => b"number too large",
        FileReason::Syntax => b"syntax",
        FileReason::TooMany => b"too many",
        FileReason::RepeatedName => b"repeated name",
        FileReason::UnknownTable => b"unknown table",
        FileReason::UnknownColumn => b"unknown column",
        FileReason::WrongWidth => b"wrong width",
        FileReason::Transaction => b"transaction",
        FileReason::NoEnd => b"no END",
        FileReason::ShapesDiffer => b"shapes differ",
    }
}
