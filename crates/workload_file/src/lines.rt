//! The lines of a file, and what each says wherever it stands.
ghost use Rattle.std.specs.Prelude.{◌≡◌, ◌<◌, ◌≤◌, ◌∷◌, length, drop, IfOk};
ghost use Rattle.std.specs.List.{prefix_len};
ghost use Rattle.workload_file.specs.FileLines.{IsLine, is_inside, ends_in_return, lines_of, without_return};

use mope_base::OutOfMemory;
use sql_text::{Frame, ParseStop, Reason, Stmt, is_blank_line, parse, read_frame};
use std::alloc::Global;

/// What a line says.
#[derive(Drop)]
pub enum Line {
    /// Nothing: it has only spaces and tabs.
    Blank,
    Framed(Frame),
    Stated(Stmt),
    /// It is none of these, and this is the first reason why it is no statement.
    Faulty(Reason),
}

/// Whether the byte is one of a line, and doesn't end it.
fn is_inside(byte: u8) -> bool
    ensures { result ≡ is_inside byte }
{
    byte != b'\n'
}

/// How many bytes stand before the first line feed.
fn line_size(bytes: &[u8]) -> usize
    ensures size { result ≡ prefix_len is_inside bytes.now }
    ensures within { result ≤ length bytes.now }
{
    for (i, byte) in bytes.iter().enumerate() {
        if !is_inside(*byte) {
            return i;
        }
    }
    bytes.len()
}

fn behind_first(bytes: &[u8]) -> &[u8]
    ensures { result.now ≡ drop 1 bytes.now }
{
    match bytes {
        [] => bytes,
        [_, rest @ ..] => rest,
    }
}

/// The first line, without its line feed, and the bytes behind that.
pub fn first_line(bytes: &[u8]) -> (&[u8], &[u8])
    requires { 0 < length bytes.now }
    ensures cut { lines_of bytes.now ≡ result.0.now ∷ lines_of result.1.now }
    ensures shorter { length result.1.now < length bytes.now }
{
    let (line, rest) = bytes.split_at(line_size(bytes));
    (line, behind_first(rest))
}

fn ends_in_return(line: &[u8]) -> bool
    ensures { result ≡ ends_in_return line.now }
{
    match line {
        [] => false,
        [.., last] => *last == b'\r',
    }
}

/// The line without the carriage return at its end, if it has one.
#[tactic(auto, unfolding(crate::specs::FileLines::without_return, crate::specs::FileLines::cut_if))]
pub fn without_return(line: &[u8]) -> &[u8]
    ensures { result.now ≡ without_return line.now }
{
    if ends_in_return(line) {
        &line[..line.len() - 1]
    } else {
        line
    }
}

/// What a line says.
pub fn read_line(alloc: Global, line: &[u8]) -> Result<Line, OutOfMemory>
    ensures { IfOk result (λ said. IsLine line.now said) }
{
    if is_blank_line(line) {
        return Ok(Line::Blank);
    }
    if let Some(frame) = read_frame(alloc, line)? {
        return Ok(Line::Framed(frame));
    }
    match parse(alloc, line) {
        Ok(statement) => Ok(Line::Stated(statement)),
        Err(ParseStop::Bad { at: _, reason }) => Ok(Line::Faulty(reason)),
        Err(ParseStop::OutOfMemory) => Err(OutOfMemory),
    }
}
