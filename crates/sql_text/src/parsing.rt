//! A line as a statement.
ghost use Rattle.std.specs.Prelude.{◌≡◌, None, IfOk, IfErr};
ghost use Rattle.sql_text.specs.Faults.{Gives, IsReadAs, IsSpelled, IsStop};
ghost use Rattle.sql_text.specs.Lexing.{first_bad_byte, tokens_of};
ghost use Rattle.sql_text.specs.Scans.{fault_of};
ghost use Rattle.sql_text.specs.declared.statements.Stmt.{Stmt};

use crate::lines::{drive, place_of, token_fault};
use crate::ninth::ninth;
use crate::scanning::first_bad_byte;
use crate::statements::Stmt;
use crate::steps::finished;
use mope_base::OutOfMemory;
use std::alloc::Global;

/// Why a line is no statement, in the order in which the reasons are looked for.
#[derive(Clone, Copy, Debug, PartialEq, Eq)]
pub enum Reason {
    /// A byte is neither a tab nor one from the space to `~`. It is at the first such byte.
    BadByte,
    /// At the first token fault from the left no token starts, or a word has more than 32 bytes, or a
    /// number has a leading zero or is followed at once by a letter or an underscore.
    BadToken,
    /// The first token fault from the left is a number above 18446744073709551615.
    TooLarge,
    /// No statement has this token after the tokens before it; or the line ends within a statement, and
    /// then it is at the line's length.
    Syntax,
    /// There is a ninth condition or a ninth name in the list of a SELECT. It is at the first of them.
    TooMany,
}

/// Why a line was not read.
#[derive(Clone, Copy, Debug, PartialEq, Eq)]
pub enum ParseStop {
    /// The line is no statement, for this reason at this byte of it.
    Bad { at: usize, reason: Reason },
    /// Memory did not suffice.
    OutOfMemory,
}

impl From<OutOfMemory> for ParseStop {
    ghost use Rattle.sql_text.specs.declared.parsing.ParseStop.TheVariants.{OutOfMemory};

    ghost from_gives = { λ _ stop. stop ≡ OutOfMemory };

    fn from(_e: OutOfMemory) -> ParseStop {
        ParseStop::OutOfMemory
    }
}

/// The statement that a line spells, or the first reason why it spells none, and where.
pub fn parse(alloc: Global, line: &[u8]) -> Result<Stmt, ParseStop>
    ensures given { IfOk result (λ s. Gives line.now s) }
    ensures fault { IfErr result (λ stop. IsStop line.now stop) }
    ensures complete { (s : Stmt) → Gives line.now s → IsReadAs s result }
{
    if let Some(at) = first_bad_byte(line) {
        let reason = Reason::BadByte;
        return Err(ParseStop::Bad { at, reason });
    }
    if let Some((at, reason)) = token_fault(line) {
        return Err(ParseStop::Bad { at, reason });
    }
    read_tokens(alloc, line)
}

/// The statement that the tokens of a line spell.
fn read_tokens(alloc: Global, line: &[u8]) -> Result<Stmt, ParseStop>
    requires allowed { first_bad_byte line.now ≡ None }
    requires faultless { fault_of (tokens_of line.now) ≡ None }
    ensures given { IfOk result (λ s. Gives line.now s) }
    ensures fault { IfErr result (λ stop. IsStop line.now stop) }
    ensures complete { (s : Stmt) → Gives line.now s → IsReadAs s result }
{
    let state = match drive(alloc, line)? {
        Ok(state) => state,
        Err(at) => {
            let reason = Reason::Syntax;
            return Err(ParseStop::Bad { at, reason });
        }
    };
    match finished(alloc, state) {
        Some(stmt) => within_limits(line, stmt),
        None => Err(ParseStop::Bad {
            at: line.len(),
            reason: Reason::Syntax,
        }),
    }
}

/// The statement that a line spells, unless it has a ninth element.
fn within_limits(line: &[u8], stmt: Stmt) -> Result<Stmt, ParseStop>
    requires { IsSpelled line.now stmt }
    ensures given { IfOk result (λ s. Gives line.now s) }
    ensures fault { IfErr result (λ stop. IsStop line.now stop) }
    ensures complete { (s : Stmt) → Gives line.now s → IsReadAs s result }
{
    match ninth(&stmt) {
        Some(number) => Err(ParseStop::Bad {
            at: place_of(line, number),
            reason: Reason::TooMany,
        }),
        None => Ok(stmt),
    }
}
