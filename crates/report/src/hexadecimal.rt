//! Bytes and codes as hexadecimal digits.

ghost use Rattle.std.specs.Prelude.{◌≡◌, ◌++◌, OnOk};
ghost use Rattle.hex.specs.Hex.{encode_lower};
ghost use Rattle.report.specs.ViewText.{code_text};

use crate::appending::push_bytes;
use mope_base::OutOfMemory;

/// Appends bytes as two digits each.
pub(crate) fn push_hexadecimal(text: &mut Vec<u8>, bytes: &[u8]) -> Result<(), OutOfMemory>
    ensures { OnOk result (text.new.items ≡ text.old.items ++ encode_lower bytes.now) }
{
    let digits = hex::encode(*text.allocator(), bytes)?;
    push_bytes(text, digits.as_bytes())
}

/// Appends bytes and a code of sixteen digits.
pub(crate) fn push_code(text: &mut Vec<u8>, before: &[u8], code: u64) -> Result<(), OutOfMemory>
    ensures { OnOk result (text.new.items ≡ text.old.items ++ (before.now ++ code_text code)) }
{
    push_bytes(text, before)?;
    push_hexadecimal(text, &code.to_be_bytes())
}
