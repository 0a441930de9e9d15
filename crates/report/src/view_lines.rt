//! The text of a view: its mode, the messages of each session and the turns.

ghost use Rattle.std.specs.Prelude.{◌≡◌, ◌++◌, IfOk, OnOk};
ghost use Rattle.mope_base.specs.Lists.{Each};
ghost use Rattle.report.specs.ViewText.{IsWritable, mode_line, view_text_of};

use crate::appending::push_bytes;
use crate::exchanges::push_sessions;
use crate::turns::push_turns;
use mope_base::{Items, Mode, OutOfMemory};
use proxy::View;
use std::alloc::Global;
use versions::Turn;
use workload::Workload;

/// The text of a view of a run of a workload: the mode, the messages of each session as hexadecimal digits, and the turns, under
/// each the codes of the columns that it changed. Each message must be one that some bytes give. The name of a table or a column
/// that isn't declared is empty.
pub fn view_text(alloc: Global, w: &Workload, view: &View<Turn>) -> Result<Items<u8>, OutOfMemory>
    requires { Each (Each IsWritable) view.now.logs }
    ensures { IfOk result (λ text. text ≡ view_text_of w.now view.now) }
{
    let mut text = Vec::new(alloc);
    push_mode(&mut text, view.mode)?;
    push_sessions(&mut text, view.logs.as_slice())?;
    push_turns(&mut text, w, view.turns.as_slice())?;
    Ok(Items::from_vec(text))
}

/// Appends the line of the mode.
#[tactic(auto, unfolding(crate::specs::ViewText::mode_line, workload::specs::Report::line))]
fn push_mode(text: &mut Vec<u8>, mode: Mode) -> Result<(), OutOfMemory>
    ensures { OnOk result (text.new.items ≡ text.old.items ++ mode_line mode) }
{
    match mode {
        Mode::Ordinary => push_bytes(text, b"view ordinary\n"),
        Mode::SameTime => push_bytes(text, b"view same-time\n"),
    }
}
