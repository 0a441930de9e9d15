//! The token at the front of some bytes.
ghost use Rattle.std.specs.Prelude.{◌≡◌, ◌≤◌, ◌<◌, ◌&&◌, ◌==◌, ◌^◌, nat_lt, length, not, true, MatchOption, slice_index, IfOk};
ghost use Rattle.std.specs.List.{position, prefix_len};
ghost use Rattle.std.specs.Str.{all_ascii_digits, str_eq_ignore_ascii_case};
ghost use Rattle.std.specs.Str.Parse.{digits_value};
ghost use Rattle.sql_text.specs.declared.scanning.Kind.TheVariants as kind;
ghost use Rattle.sql_text.specs.Lexing.{first_bad_byte, is_numeral, number_at, symbol_at, token_at, with_equal, word_at};
ghost use Rattle.sql_text.specs.Scans.{seen};
ghost use Rattle.sql_text.specs.Words.{is_allowed, is_blank, is_blank_line, is_word_byte, keyword_of, mark_text, word_front};

use crate::marks::Mark;
use crate::parsing::Reason;
use std::str;

/// A token: a keyword or a symbol, a name, or a number.
#[derive(Clone, Copy)]
pub enum Kind {
    Fixed(Mark),
    Named,
    Number(u64),
}

/// A token at the front of some bytes, of which it takes `size`.
#[derive(Clone, Copy)]
pub struct Scan {
    pub kind: Kind,
    pub size: usize,
}

/// The most bytes of a word.
const WORD_MOST: usize = 32;

/// Every keyword.
const KEYWORDS: [Mark; 25] = [
    Mark::And,
    Mark::Asc,
    Mark::Begin,
    Mark::Between,
    Mark::By,
    Mark::Commit,
    Mark::Count,
    Mark::Delete,
    Mark::Desc,
    Mark::End,
    Mark::From,
    Mark::Insert,
    Mark::Into,
    Mark::Limit,
    Mark::Max,
    Mark::Min,
    Mark::Mope,
    Mark::Order,
    Mark::Rebuild,
    Mark::Rollback,
    Mark::Select,
    Mark::Session,
    Mark::Table,
    Mark::Values,
    Mark::Where,
];

/// The token at the front of bytes that don't begin with a blank, or why none starts there.
#[tactic(auto, unfolding(crate::specs::Lexing::token_at))]
pub fn scan_token(bytes: &[u8]) -> Result<Scan, Reason>
    requires { 0 < length bytes.now }
    ensures exact { seen bytes.now result ≡ token_at bytes.now }
    ensures some { IfOk result (λ scan. 0 < scan.size) }
    ensures within { IfOk result (λ scan. scan.size ≤ length bytes.now) }
{
    let first = bytes[0];
    if first.is_ascii_alphabetic() {
        return scan_word(bytes);
    }
    if first.is_ascii_digit() {
        return scan_number(bytes);
    }
    scan_symbol(bytes)
}

/// Whether the byte is a space or a tab.
pub fn is_blank(byte: u8) -> bool
    ensures { result ≡ is_blank byte }
{
    byte == b' ' || byte == b'\t'
}

/// Whether a line has nothing but spaces and tabs. A workload's reader skips such a line, which spells
/// neither a frame nor a statement.
pub fn is_blank_line(line: &[u8]) -> bool
    ensures { result ≡ is_blank_line line.now }
{
    line.iter().all(|byte| is_blank(*byte))
}

/// The place of the first byte that may not stand in a line.
pub fn first_bad_byte(line: &[u8]) -> Option<usize>
    ensures { result ≡ first_bad_byte line.now }
{
    line.iter().position(|byte| !is_allowed(*byte))
}

fn is_allowed(byte: u8) -> bool
    ensures { result ≡ is_allowed byte }
{
    byte == b'\t' || (b' '..=b'~').contains(&byte)
}

fn is_word_byte(byte: u8) -> bool
    ensures { result ≡ is_word_byte byte }
{
    byte.is_ascii_alphanumeric() || byte == b'_'
}

/// How many letters, digits and underscores stand at the front.
fn word_size(bytes: &[u8]) -> usize
    ensures size { result ≡ prefix_len is_word_byte bytes.now }
    ensures within { result ≤ length bytes.now }
{
    for (i, byte) in bytes.iter().enumerate() {
        if !is_word_byte(*byte) {
            return i;
        }
    }
    bytes.len()
}

#[tactic(auto, unfolding(crate::specs::Lexing::word_at), using(crate::proofs::FrontWords::front_size))]
fn scan_word(bytes: &[u8]) -> Result<Scan, Reason>
    requires { 0 < prefix_len is_word_byte bytes.now }
    ensures exact { seen bytes.now result ≡ word_at (word_front bytes.now) }
    ensures some { IfOk result (λ scan. 0 < scan.size) }
    ensures within { IfOk result (λ scan. scan.size ≤ length bytes.now) }
{
    let size = word_size(bytes);
    if size > WORD_MOST {
        return Err(Reason::BadToken);
    }
    let kind = match keyword_of(&bytes[..size]) {
        Some(mark) => Kind::Fixed(mark),
        None => Kind::Named,
    };
    Ok(Scan { kind, size })
}

/// The keyword that a word is, in any letter case.
#[tactic(auto, unfolding(crate::specs::Words::keyword_of, crate::specs::Words::keywords))]
fn keyword_of(word: &[u8]) -> Option<Mark>
    ensures { result ≡ keyword_of word.now }
{
    KEYWORDS
        .iter()
        .copied()
        .find(|mark| is_spelled(word, *mark))
}

fn is_spelled(word: &[u8], mark: Mark) -> bool
    ensures { result ≡ str_eq_ignore_ascii_case word.now (mark_text mark) }
{
    word.eq_ignore_ascii_case(mark.text())
}

#[tactic(auto, unfolding(crate::specs::Lexing::number_at), using(crate::proofs::FrontWords::front_size))]
fn scan_number(bytes: &[u8]) -> Result<Scan, Reason>
    requires { 0 < prefix_len is_word_byte bytes.now }
    ensures exact { seen bytes.now result ≡ number_at (word_front bytes.now) }
    ensures some { IfOk result (λ scan. 0 < scan.size) }
    ensures within { IfOk result (λ scan. scan.size ≤ length bytes.now) }
{
    let size = word_size(bytes);
    let word = &bytes[..size];
    if !is_numeral(word) {
        return Err(Reason::BadToken);
    }
    match number_of(word) {
        Some(number) => Ok(Scan {
            kind: Kind::Number(number),
            size,
        }),
        None => Err(Reason::TooLarge),
    }
}

/// The number that digits write; none above 18446744073709551615.
fn number_of(word: &[u8]) -> Option<u64>
    requires some { 0 < length word.now }
    requires digits { all_ascii_digits word.now ≡ true }
    ensures { MatchOption result (2 ^ 64 ≤ digits_value 10 word.now) (λ n. (n ≡ digits_value 10 word.now) × (n < 2 ^ 64)) }
{
    let Ok(digits) = str::from_utf8(word) else {
        return None;
    };
    digits.parse::<u64>().ok()
}

/// Whether the word is all digits, and begins with a zero only where that is all.
fn is_numeral(word: &[u8]) -> bool
    requires { 0 < length word.now }
    ensures { result ≡ is_numeral word.now }
{
    all_digits(word) && !has_zero_in_front(word)
}

fn all_digits(word: &[u8]) -> bool
    ensures { result ≡ all_ascii_digits word.now }
{
    for byte in word {
        if !byte.is_ascii_digit() {
            return false;
        }
    }
    true
}

fn has_zero_in_front(word: &[u8]) -> bool
    requires { 0 < length word.now }
    ensures { result ≡ (slice_index word.now 0 == 48 && nat_lt 1 (length word.now)) }
{
    word[0] == b'0' && word.len() > 1
}

#[tactic(auto, unfolding(crate::specs::Lexing::symbol_at))]
fn scan_symbol(bytes: &[u8]) -> Result<Scan, Reason>
    requires { 0 < length bytes.now }
    ensures exact { seen bytes.now result ≡ symbol_at (slice_index bytes.now 0) (slice_index bytes.now 1) }
    ensures some { IfOk result (λ scan. 0 < scan.size) }
    ensures within { IfOk result (λ scan. scan.size ≤ length bytes.now) }
{
    let first = bytes[0];
    if first == b'(' {
        one(Mark::Open)
    } else if first == b')' {
        one(Mark::Close)
    } else if first == b',' {
        one(Mark::Comma)
    } else if first == b'*' {
        one(Mark::Star)
    } else if first == b';' {
        one(Mark::Semicolon)
    } else if first == b'=' {
        one(Mark::Equal)
    } else if first == b'<' {
        with_equal(bytes, Mark::LessEqual, Mark::Less)
    } else if first == b'>' {
        with_equal(bytes, Mark::GreaterEqual, Mark::Greater)
    } else {
        Err(Reason::BadToken)
    }
}

fn one(mark: Mark) -> Result<Scan, Reason>
    ensures { result ≡ Ok (record { kind = kind.Fixed mark; size = 1 }) }
{
    Ok(Scan {
        kind: Kind::Fixed(mark),
        size: 1,
    })
}

/// A symbol, or the one with `=` behind it.
fn with_equal(bytes: &[u8], long: Mark, short: Mark) -> Result<Scan, Reason>
    requires { 0 < length bytes.now }
    ensures exact { seen bytes.now result ≡ with_equal (slice_index bytes.now 1 == 61) long short }
    ensures some { IfOk result (λ scan. 0 < scan.size) }
    ensures within { IfOk result (λ scan. scan.size ≤ length bytes.now) }
{
    if bytes.len() > 1 && bytes[1] == b'=' {
        return Ok(Scan {
            kind: Kind::Fixed(long),
            size: 2,
        });
    }
    one(short)
}
