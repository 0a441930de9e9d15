//! Bytes and numbers behind a text.

ghost use Rattle.std.specs.Prelude.{◌≡◌, ◌++◌, decimal, OnOk};
ghost use Rattle.workload.specs.Report.{line};

use mope_base::OutOfMemory;
use std::io::Write;

pub(crate) fn push_bytes(text: &mut Vec<u8>, bytes: &[u8]) -> Result<(), OutOfMemory>
    ensures { OnOk result (text.new.items ≡ text.old.items ++ bytes.now) }
{
    text.extend_from_slice(bytes)?;
    Ok(())
}

/// Appends bytes and a number.
pub(crate) fn push_number(text: &mut Vec<u8>, before: &[u8], number: u64) -> Result<(), OutOfMemory>
    ensures { OnOk result (text.new.items ≡ text.old.items ++ (before.now ++ decimal number)) }
{
    push_bytes(text, before)?;
    push_decimal(text, number)
}

fn push_decimal(text: &mut Vec<u8>, number: u64) -> Result<(), OutOfMemory>
    ensures { OnOk result (text.new.items ≡ text.old.items ++ decimal number) }
{
    write!(text, "{number}").map_err(|_| OutOfMemory)?;
    Ok(())
}

/// Appends a line with bytes and a number.
pub(crate) fn push_numbered_line(
    text: &mut Vec<u8>,
    before: &[u8],
    number: u64,
) -> Result<(), OutOfMemory>
    ensures { OnOk result (text.new.items ≡ text.old.items ++ line (before.now ++ decimal number)) }
{
    push_number(text, before, number)?;
    push_bytes(text, b"\n")
}
