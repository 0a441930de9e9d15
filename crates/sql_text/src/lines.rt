//! A line token by token.
ghost use Rattle.std.specs.Prelude.{◌≡◌, ◌≤◌, ◌<◌, ◌+◌, ℕ, List, length, take, drop, false, IfOk, MatchResult, slice_get};
ghost use Rattle.sql_text.specs.Lexing.{Placed, tokens_of};
ghost use Rattle.sql_text.specs.Machine.{drive};
ghost use Rattle.sql_text.specs.Scans.{IsNext, IsSeen, fault_of, is_blank_at, token_of, tokens_at};
ghost use Rattle.sql_text.specs.declared.states.State.TheVariants.{Start};

use crate::Name;
use crate::letting_go::let_go;
use crate::parsing::Reason;
use crate::scanning::{Kind, Scan, is_blank, scan_token};
use crate::states::State;
use crate::steps::step;
use crate::tokens::Token;
use mope_base::{Items, OutOfMemory};
use std::alloc::Global;

/// The first token fault of a line from the left, and its place.
pub fn token_fault(line: &[u8]) -> Option<(usize, Reason)>
    ensures { result ≡ fault_of (tokens_of line.now) }
{
    let mut at = skip_blanks(line, 0);
    'tokens: while at < line.len() {
        match scan_at(line, at) {
            Ok(scan) => at = skip_blanks(line, at + scan.size),
            Err(reason) => return Some((at, reason)),
        }
    }
    None
}

/// What the tokens of a line that has no token fault say, or the place of the first that can't follow
/// those before it.
pub fn drive(alloc: Global, line: &[u8]) -> Result<Result<State, usize>, OutOfMemory>
    ensures { IfOk result (λ end. (tokens : List Placed) → tokens_of line.now ≡ Ok tokens → end ≡ drive Start tokens) }
{
    let mut at = skip_blanks(line, 0);
    let mut state = State::Start;
    'tokens: while at < line.len() {
        let next = match next_token(alloc, line, at) {
            Ok(next) => next,
            Err(stop) => {
                let_go(state);
                return Err(stop);
            }
        };
        let Some((token, size)) = next else {
            let_go(state);
            return Ok(Err(at));
        };
        match step(alloc, state, token)? {
            Some(after) => {
                state = after;
                at = skip_blanks(line, at + size);
            }
            None => return Ok(Err(at)),
        }
    }
    Ok(Ok(state))
}

/// The token at a place and how many bytes it takes, or none where none starts there.
pub fn next_token(
    alloc: Global,
    line: &[u8],
    at: usize,
) -> Result<Option<(Token, usize)>, OutOfMemory>
    requires within { at < length line.now }
    requires begins { is_blank_at line.now at ≡ false }
    ensures { IfOk result (λ next. IsNext line.now at next) }
{
    let Ok(scan) = scan_at(line, at) else {
        return Ok(None);
    };
    let token = token_at(alloc, line, at, scan)?;
    Ok(Some((token, scan.size)))
}

/// The place of the token with this number, counted from 0, in a line that has it and no token fault.
pub fn place_of(line: &[u8], number: usize) -> usize
    ensures { (tokens : List Placed) (p : Placed) → tokens_of line.now ≡ Ok tokens → slice_get tokens number ≡ Some p → result ≡ p.at }
{
    let mut at = skip_blanks(line, 0);
    let mut left = number;
    'tokens: while at < line.len() {
        if left == 0 {
            return at;
        }
        let Ok(scan) = scan_at(line, at) else {
            return at;
        };
        left -= 1;
        at = skip_blanks(line, at + scan.size);
    }
    at
}

/// The first place from `from` on at which no blank stands.
pub fn skip_blanks(line: &[u8], from: usize) -> usize
    requires { from ≤ length line.now }
    ensures from { from ≤ result }
    ensures within { result ≤ length line.now }
    ensures ended { result < length line.now → is_blank_at line.now result ≡ false }
    ensures same { tokens_at line.now from ≡ tokens_at line.now result }
{
    let mut at = from;
    'blanks: while at < line.len() {
        if !is_blank(line[at]) {
            return at;
        }
        at += 1;
    }
    at
}

/// The token at a place, or why none starts there.
fn scan_at(line: &[u8], at: usize) -> Result<Scan, Reason>
    requires within { at < length line.now }
    requires begins { is_blank_at line.now at ≡ false }
    ensures { MatchResult result (λ scan. IsSeen line.now at scan) (λ reason. tokens_at line.now at ≡ Err (record { at = at; reason = reason })) }
{
    let (_before, rest) = line.split_at(at);
    scan_token(rest)
}

/// The token that was seen at a place, with a copy of its name.
fn token_at(alloc: Global, line: &[u8], at: usize, scan: Scan) -> Result<Token, OutOfMemory>
    requires { at + scan.size ≤ length line.now }
    ensures { IfOk result (λ token. token ≡ token_of scan.kind (take scan.size (drop at line.now))) }
{
    match scan.kind {
        Kind::Fixed(mark) => Ok(Token::Fixed(mark)),
        Kind::Named => {
            let (_before, rest) = line.split_at(at);
            let (text, _after) = rest.split_at(scan.size);
            let bytes = Items::from_vec(Vec::from_slice(alloc, text)?);
            Ok(Token::Named(Name { bytes }))
        }
        Kind::Number(number) => Ok(Token::Number(number)),
    }
}
