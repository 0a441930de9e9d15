//! What has been read of a file, and what one more line makes of it.
ghost use Rattle.std.specs.Prelude.{◌≡◌, ◌∷◌, ◌++◌, [], None, Ok, IfOk, length};
ghost use Rattle.workload_file.specs.declared.reader.Stage.TheVariants.{Session};
ghost use Rattle.workload_file.specs.Steps.{start, take, opened, declaring, in_session, after_end, framed_in_session, stated, outside, inside, begun, closed, with_act, with_rebuild, is_last_session, next_session, session_ended};

use crate::lines::Line;
use crate::stops::FileReason;
use crate::tables::Tables;
use crate::verbs::{deleted, inserted, rebuilt, selected};
use mope_base::{Items, OutOfMemory};
use sql_text::{Frame, Reason, Stmt};
use std::alloc::Global;
use workload::{Act, Piece};

/// The most sessions of a workload.
const SESSIONS_MOST: usize = 64;

/// The declared tables, the sessions that have ended, and what may come next.
#[derive(Drop)]
pub struct Reader {
    pub tables: Tables,
    pub sessions: Items<Items<Piece>>,
    pub stage: Stage,
}

/// Where the next line stands.
#[derive(Drop)]
pub enum Stage {
    /// The header comes.
    Opening,
    /// Tables come, or the first session, or the end.
    Declaring,
    /// A session has begun, with these transactions; `unfinished` has the statements of one that hasn't ended.
    Session {
        pieces: Items<Piece>,
        unfinished: Option<Items<Act>>,
    },
    /// Only blank lines may come.
    Ended,
}

/// The start of a file.
#[tactic(auto, unfolding(crate::specs::Steps::start))]
pub fn start(alloc: Global) -> Reader
    ensures { result ≡ start }
{
    Reader {
        tables: Tables::new(alloc),
        sessions: Items::new(alloc),
        stage: Stage::Opening,
    }
}

/// What the next line makes of what has been read, or the first reason why it may not stand there.
#[tactic(auto, unfolding(crate::specs::Steps::take, crate::specs::Steps::take_at))]
pub fn take(
    alloc: Global,
    reader: Reader,
    line: Line,
) -> Result<Result<Reader, FileReason>, OutOfMemory>
    ensures { IfOk result (λ next. next ≡ take reader line) }
{
    let Reader {
        tables,
        sessions,
        stage,
    } = reader;
    match stage {
        Stage::Opening => Ok(opened(tables, sessions, line)),
        Stage::Declaring => declaring(alloc, tables, sessions, line),
        Stage::Session { pieces, unfinished } => {
            in_session(alloc, tables, sessions, pieces, unfinished, line)
        }
        Stage::Ended => Ok(after_end(tables, sessions, line)),
    }
}

/// The reason of a fault where no statement may stand.
#[tactic(auto, unfolding(crate::specs::Steps::outside))]
fn outside(reason: Reason) -> FileReason
    ensures { result ≡ outside reason }
{
    match reason {
        Reason::BadByte => FileReason::BadByte,
        Reason::BadToken => FileReason::BadToken,
        Reason::TooLarge => FileReason::TooLarge,
        Reason::Syntax => FileReason::Syntax,
        Reason::TooMany => FileReason::Syntax,
    }
}

/// The reason of a fault where a statement may stand.
#[tactic(auto, unfolding(crate::specs::Steps::inside))]
fn inside(reason: Reason) -> FileReason
    ensures { result ≡ inside reason }
{
    match reason {
        Reason::BadByte => FileReason::BadByte,
        Reason::BadToken => FileReason::BadToken,
        Reason::TooLarge => FileReason::TooLarge,
        Reason::Syntax => FileReason::Syntax,
        Reason::TooMany => FileReason::TooMany,
    }
}

#[tactic(auto, unfolding(crate::specs::Steps::opened))]
fn opened(tables: Tables, sessions: Items<Items<Piece>>, line: Line) -> Result<Reader, FileReason>
    ensures { result ≡ opened tables sessions line }
{
    let stage = match line {
        Line::Blank => Stage::Opening,
        Line::Framed(Frame::Header) => Stage::Declaring,
        Line::Framed(
            Frame::Table {
                name: _name,
                columns: _columns,
            },
        ) => return Err(FileReason::Syntax),
        Line::Framed(Frame::Session) => return Err(FileReason::Syntax),
        Line::Framed(Frame::End) => return Err(FileReason::Syntax),
        Line::Stated(_statement) => return Err(FileReason::Syntax),
        Line::Faulty(reason) => return Err(outside(reason)),
    };
    Ok(Reader {
        tables,
        sessions,
        stage,
    })
}

#[tactic(auto, unfolding(crate::specs::Steps::declaring, crate::specs::Steps::with_tables))]
fn declaring(
    alloc: Global,
    tables: Tables,
    sessions: Items<Items<Piece>>,
    line: Line,
) -> Result<Result<Reader, FileReason>, OutOfMemory>
    ensures { IfOk result (λ next. next ≡ declaring tables sessions line) }
{
    let stage = match line {
        Line::Blank => Stage::Declaring,
        Line::Framed(Frame::Header) => return Ok(Err(FileReason::Syntax)),
        Line::Framed(Frame::Table { name, columns }) => {
            return match tables.declare(alloc, name, columns)? {
                Ok(tables) => Ok(Ok(Reader {
                    tables,
                    sessions,
                    stage: Stage::Declaring,
                })),
                Err(reason) => Ok(Err(reason)),
            };
        }
        Line::Framed(Frame::Session) => Stage::Session {
            pieces: Items::new(alloc),
            unfinished: None,
        },
        Line::Framed(Frame::End) => Stage::Ended,
        Line::Stated(_statement) => return Ok(Err(FileReason::Syntax)),
        Line::Faulty(reason) => return Ok(Err(outside(reason))),
    };
    Ok(Ok(Reader {
        tables,
        sessions,
        stage,
    }))
}

#[tactic(auto, unfolding(crate::specs::Steps::begun))]
fn begun(
    alloc: Global,
    pieces: Items<Piece>,
    unfinished: Option<Items<Act>>,
) -> Result<Stage, FileReason>
    ensures { result ≡ begun pieces unfinished }
{
    match unfinished {
        Some(_statements) => Err(FileReason::Transaction),
        None => Ok(Stage::Session {
            pieces,
            unfinished: Some(Items::new(alloc)),
        }),
    }
}

#[tactic(auto, unfolding(crate::specs::Steps::closed))]
fn closed(
    pieces: Items<Piece>,
    unfinished: Option<Items<Act>>,
    rollback: bool,
) -> Result<Result<Stage, FileReason>, OutOfMemory>
    ensures { IfOk result (λ stage. stage ≡ closed rollback pieces unfinished) }
{
    let Some(acts) = unfinished else {
        return Ok(Err(FileReason::Transaction));
    };
    with_piece(pieces, Piece::Txn { acts, rollback })
}

/// A session with one transaction more, none being open.
fn with_piece(pieces: Items<Piece>, piece: Piece) -> Result<Result<Stage, FileReason>, OutOfMemory>
    ensures { IfOk result (λ stage. stage ≡ Ok (Session (pieces ++ piece ∷ []) None)) }
{
    let mut pieces = pieces;
    pieces.push(piece)?;
    Ok(Ok(Stage::Session {
        pieces,
        unfinished: None,
    }))
}

#[tactic(auto, unfolding(crate::specs::Steps::with_rebuild))]
fn with_rebuild(
    pieces: Items<Piece>,
    unfinished: Option<Items<Act>>,
    rebuilt: Result<Piece, FileReason>,
) -> Result<Result<Stage, FileReason>, OutOfMemory>
    ensures { IfOk result (λ stage. stage ≡ with_rebuild pieces unfinished rebuilt) }
{
    match rebuilt {
        Err(reason) => Ok(Err(reason)),
        Ok(rebuild) => match unfinished {
            Some(_statements) => Ok(Err(FileReason::Transaction)),
            None => with_piece(pieces, rebuild),
        },
    }
}

/// The statement of a transaction of one, in room for no more: most transactions of a file are such.
fn alone(alloc: Global, act: Act) -> Result<Items<Act>, OutOfMemory>
    ensures { IfOk result (λ acts. acts ≡ act ∷ []) }
{
    let mut acts = Vec::with_capacity(alloc, 1)?;
    acts.push(act)?;
    Ok(Items::from_vec(acts))
}

#[tactic(auto, unfolding(crate::specs::Steps::with_act))]
fn with_act(
    alloc: Global,
    pieces: Items<Piece>,
    unfinished: Option<Items<Act>>,
    read: Result<Act, FileReason>,
) -> Result<Result<Stage, FileReason>, OutOfMemory>
    ensures { IfOk result (λ stage. stage ≡ with_act pieces unfinished read) }
{
    match read {
        Err(reason) => Ok(Err(reason)),
        Ok(act) => match unfinished {
            Some(mut acts) => {
                acts.push(act)?;
                Ok(Ok(Stage::Session {
                    pieces,
                    unfinished: Some(acts),
                }))
            }
            None => {
                let acts = alone(alloc, act)?;
                with_piece(
                    pieces,
                    Piece::Txn {
                        acts,
                        rollback: false,
                    },
                )
            }
        },
    }
}

#[tactic(auto, unfolding(crate::specs::Steps::stated))]
fn stated(
    alloc: Global,
    tables: &Tables,
    pieces: Items<Piece>,
    unfinished: Option<Items<Act>>,
    statement: Stmt,
) -> Result<Result<Stage, FileReason>, OutOfMemory>
    ensures { IfOk result (λ stage. stage ≡ stated tables.now pieces unfinished statement) }
{
    match statement {
        Stmt::Begin => Ok(begun(alloc, pieces, unfinished)),
        Stmt::Commit => closed(pieces, unfinished, false),
        Stmt::Rollback => closed(pieces, unfinished, true),
        Stmt::Rebuild { table, column } => {
            with_rebuild(pieces, unfinished, rebuilt(tables, &table, &column))
        }
        Stmt::Insert { table, values } => {
            with_act(alloc, pieces, unfinished, inserted(tables, &table, values))
        }
        Stmt::Delete { table, conds } => {
            let read = deleted(alloc, tables, &table, conds.as_slice())?;
            with_act(alloc, pieces, unfinished, read)
        }
        Stmt::Select {
            what,
            table,
            conds,
            order,
            limit,
        } => {
            let read = selected(alloc, tables, &table, what, conds.as_slice(), order, limit)?;
            with_act(alloc, pieces, unfinished, read)
        }
    }
}

#[tactic(auto, unfolding(crate::specs::Steps::is_last_session))]
fn is_last_session(sessions: usize) -> bool
    ensures { result ≡ is_last_session sessions }
{
    sessions >= SESSIONS_MOST - 1
}

/// The sessions with one that ends, unless a transaction is open.
#[tactic(auto, unfolding(crate::specs::Steps::session_ended))]
fn session_ended(
    sessions: Items<Items<Piece>>,
    pieces: Items<Piece>,
    unfinished: Option<Items<Act>>,
) -> Result<Result<Items<Items<Piece>>, FileReason>, OutOfMemory>
    ensures { IfOk result (λ ended. ended ≡ session_ended sessions pieces unfinished) }
{
    if unfinished.is_some() {
        return Ok(Err(FileReason::Transaction));
    }
    let mut sessions = sessions;
    sessions.push(pieces)?;
    Ok(Ok(sessions))
}

#[tactic(auto, unfolding(crate::specs::Steps::next_session, crate::specs::Steps::at_stage))]
fn next_session(
    alloc: Global,
    tables: Tables,
    sessions: Items<Items<Piece>>,
    pieces: Items<Piece>,
    unfinished: Option<Items<Act>>,
) -> Result<Result<Reader, FileReason>, OutOfMemory>
    ensures { IfOk result (λ next. next ≡ next_session tables sessions pieces unfinished) }
{
    if is_last_session(sessions.as_slice().len()) {
        return Ok(Err(FileReason::TooMany));
    }
    match session_ended(sessions, pieces, unfinished)? {
        Ok(sessions) => Ok(Ok(Reader {
            tables,
            sessions,
            stage: Stage::Session {
                pieces: Items::new(alloc),
                unfinished: None,
            },
        })),
        Err(reason) => Ok(Err(reason)),
    }
}

#[tactic(auto, unfolding(crate::specs::Steps::framed_in_session, crate::specs::Steps::at_stage))]
fn framed_in_session(
    alloc: Global,
    tables: Tables,
    sessions: Items<Items<Piece>>,
    pieces: Items<Piece>,
    unfinished: Option<Items<Act>>,
    frame: Frame,
) -> Result<Result<Reader, FileReason>, OutOfMemory>
    ensures { IfOk result (λ next. next ≡ framed_in_session tables sessions pieces unfinished frame) }
{
    match frame {
        Frame::Header => Ok(Err(FileReason::Syntax)),
        Frame::Table {
            name: _name,
            columns: _columns,
        } => Ok(Err(FileReason::Syntax)),
        Frame::Session => next_session(alloc, tables, sessions, pieces, unfinished),
        Frame::End => match session_ended(sessions, pieces, unfinished)? {
            Ok(sessions) => Ok(Ok(Reader {
                tables,
                sessions,
                stage: Stage::Ended,
            })),
            Err(reason) => Ok(Err(reason)),
        },
    }
}

#[tactic(auto, unfolding(crate::specs::Steps::in_session, crate::specs::Steps::with_stage))]
fn in_session(
    alloc: Global,
    tables: Tables,
    sessions: Items<Items<Piece>>,
    pieces: Items<Piece>,
    unfinished: Option<Items<Act>>,
    line: Line,
) -> Result<Result<Reader, FileReason>, OutOfMemory>
    ensures { IfOk result (λ next. next ≡ in_session tables sessions pieces unfinished line) }
{
    match line {
        Line::Blank => Ok(Ok(Reader {
            tables,
            sessions,
            stage: Stage::Session { pieces, unfinished },
        })),
        Line::Framed(frame) => framed_in_session(
            alloc, tables, sessions, pieces, unfinished, frame,
        ),
        Line::Stated(statement) => match stated(alloc, &tables, pieces, unfinished, statement)? {
            Ok(stage) => Ok(Ok(Reader {
                tables,
                sessions,
                stage,
            })),
            Err(reason) => Ok(Err(reason)),
        },
        Line::Faulty(reason) => Ok(Err(inside(reason))),
    }
}

#[tactic(auto, unfolding(crate::specs::Steps::after_end))]
fn after_end(
    tables: Tables,
    sessions: Items<Items<Piece>>,
    line: Line,
) -> Result<Reader, FileReason>
    ensures { result ≡ after_end tables sessions line }
{
    match line {
        Line::Blank => Ok(Reader {
            tables,
            sessions,
            stage: Stage::Ended,
        }),
        Line::Framed(_frame) => Err(FileReason::TextAfterEnd),
        Line::Stated(_statement) => Err(FileReason::TextAfterEnd),
        Line::Faulty(_reason) => Err(FileReason::TextAfterEnd),
    }
}
