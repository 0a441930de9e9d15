//! What a token makes of a frame that is begun.
ghost use Rattle.std.specs.Prelude.{◌≡◌, IfOk};
ghost use Rattle.sql_text.specs.FrameMachine.{frame_mark, frame_name, frame_number, frame_start, frame_step, framed};

use crate::Name;
use crate::frames::Frame;
use crate::marks::Mark;
use crate::tokens::Token;
use mope_base::{Items, OutOfMemory};
use std::alloc::Global;

/// The tokens so far begin a frame, named for what follows; `More` is a comma or the end of the list.
#[derive(Drop)]
pub enum Framing {
    Start,
    Version,
    Table,
    Open(Name),
    Column { table: Name, columns: Items<Name> },
    More { table: Name, columns: Items<Name> },
    /// The frame has all its tokens.
    Done(Frame),
}

/// The state after one more token, or none where it can't follow.
#[tactic(auto, unfolding(crate::specs::FrameMachine::frame_step))]
pub fn step(alloc: Global, state: Framing, token: Token) -> Result<Option<Framing>, OutOfMemory>
    ensures { IfOk result (λ next. next ≡ frame_step state token) }
{
    match token {
        Token::Fixed(mark) => Ok(on_mark(alloc, state, mark)),
        Token::Named(name) => on_name(state, name),
        Token::Number(number) => Ok(on_number(state, number)),
    }
}

/// The frame, where a line may end here.
pub fn framed(state: Framing) -> Option<Frame>
    ensures { result ≡ framed state }
{
    match state {
        Framing::Start => None,
        Framing::Version => None,
        Framing::Table => None,
        Framing::Open(_table) => None,
        Framing::Column {
            table: _table,
            columns: _columns,
        } => None,
        Framing::More {
            table: _table,
            columns: _columns,
        } => None,
        Framing::Done(frame) => Some(frame),
    }
}

fn on_mark(alloc: Global, state: Framing, mark: Mark) -> Option<Framing>
    ensures { result ≡ frame_mark state mark }
{
    match state {
        Framing::Start => start(mark),
        Framing::Version => None,
        Framing::Table => None,
        Framing::Open(table) => {
            if mark == Mark::Open {
                let columns = Items::new(alloc);
                Some(Framing::Column { table, columns })
            } else {
                None
            }
        }
        Framing::Column {
            table: _table,
            columns: _columns,
        } => None,
        Framing::More { table, columns } => {
            if mark == Mark::Comma {
                Some(Framing::Column { table, columns })
            } else if mark == Mark::Close {
                Some(Framing::Done(Frame::Table {
                    name: table,
                    columns,
                }))
            } else {
                None
            }
        }
        Framing::Done(_frame) => None,
    }
}

fn start(mark: Mark) -> Option<Framing>
    ensures { result ≡ frame_start mark }
{
    if mark == Mark::Mope {
        Some(Framing::Version)
    } else if mark == Mark::Table {
        Some(Framing::Table)
    } else if mark == Mark::Session {
        Some(Framing::Done(Frame::Session))
    } else if mark == Mark::End {
        Some(Framing::Done(Frame::End))
    } else {
        None
    }
}

fn on_name(state: Framing, name: Name) -> Result<Option<Framing>, OutOfMemory>
    ensures { IfOk result (λ next. next ≡ frame_name state name) }
{
    match state {
        Framing::Start => Ok(None),
        Framing::Version => Ok(None),
        Framing::Table => Ok(Some(Framing::Open(name))),
        Framing::Open(_table) => Ok(None),
        Framing::Column { table, mut columns } => {
            columns.push(name)?;
            Ok(Some(Framing::More { table, columns }))
        }
        Framing::More {
            table: _table,
            columns: _columns,
        } => Ok(None),
        Framing::Done(_frame) => Ok(None),
    }
}

fn on_number(state: Framing, number: u64) -> Option<Framing>
    ensures { result ≡ frame_number state number }
{
    match state {
        Framing::Start => None,
        Framing::Version => {
            if number == 1 {
                Some(Framing::Done(Frame::Header))
            } else {
                None
            }
        }
        Framing::Table => None,
        Framing::Open(_table) => None,
        Framing::Column {
            table: _table,
            columns: _columns,
        } => None,
        Framing::More {
            table: _table,
            columns: _columns,
        } => None,
        Framing::Done(_frame) => None,
    }
}
