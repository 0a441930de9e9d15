//! A line as one of those that frame the statements of a workload.
ghost use Rattle.std.specs.Prelude.{◌≡◌, IfOk, MatchOption};
ghost use Rattle.sql_text.specs.FrameLines.{IsFrameLine, IsNoFrame};
ghost use Rattle.sql_text.specs.FrameMachine.{walked};
ghost use Rattle.sql_text.specs.Lexing.{tokens_of};
ghost use Rattle.sql_text.specs.declared.frame_steps.Framing.TheVariants.{Start};

use crate::Name;
use crate::frame_steps::{Framing, framed, step};
use crate::lines::{next_token, skip_blanks};
use crate::scanning::first_bad_byte;
use mope_base::{Items, OutOfMemory};
use std::alloc::Global;

/// A line of a workload that is no statement.
#[derive(Debug, Drop)]
pub enum Frame {
    /// `MOPE 1`, the first line of a workload.
    Header,
    /// `TABLE name (name, ..)` declares a table and its columns, at least one and maybe more than a
    /// table may have.
    Table { name: Name, columns: Items<Name> },
    /// `SESSION` begins the statements of one more session.
    Session,
    /// `END`, the last line.
    End,
}

/// The frame that a line spells, or none where it spells none: a byte or a token of it is at fault, or
/// its tokens aren't exactly those of a frame.
pub fn read_frame(alloc: Global, line: &[u8]) -> Result<Option<Frame>, OutOfMemory>
    ensures { IfOk result
        (λ found. MatchOption found (IsNoFrame line.now) (λ frame. IsFrameLine line.now frame)) }
{
    if first_bad_byte(line).is_some() {
        return Ok(None);
    }
    match walk(alloc, line)? {
        Some(state) => Ok(framed(state)),
        None => Ok(None),
    }
}

/// What the tokens of a line say of a frame, or none where a token is at fault or can't follow those
/// before it.
fn walk(alloc: Global, line: &[u8]) -> Result<Option<Framing>, OutOfMemory>
    ensures { IfOk result (λ state. state ≡ walked Start (tokens_of line.now)) }
{
    let mut at = skip_blanks(line, 0);
    let mut state = Framing::Start;
    'tokens: while at < line.len() {
        let Some((token, size)) = next_token(alloc, line, at)? else {
            return Ok(None);
        };
        match step(alloc, state, token)? {
            Some(after) => {
                state = after;
                at = skip_blanks(line, at + size);
            }
            None => return Ok(None),
        }
    }
    Ok(Some(state))
}
