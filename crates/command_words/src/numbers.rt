//! Numbers in decimal digits, alone and joined by commas.
ghost use Rattle.std.specs.List.{slice_split};
ghost use Rattle.std.specs.Prelude.{◌≡◌, ◌==◌, ◌≢◌, ◌≤◌, ◌<◌, ◌^◌, ℕ, List, ◌⊎◌, length, map, slice_index, IfOk, MatchOption, MatchBool};
ghost use Rattle.std.specs.Fmt.{decimal};
ghost use Rattle.mope_base.specs.declared.numbers.SessionNo.{SessionNo as SessionNoValue};
ghost use Rattle.command_words.specs.Giving.{text_of};
ghost use Rattle.command_words.specs.Orders.{AreSessions, NumberOr, SpellsNumber, SpellsTurns, TurnsOr};

use mope_base::{Items, OutOfMemory, SessionNo};
use std::alloc::{AllocError, Global};
use std::str;

/// The number that the whole text is in plain decimal: digits without a sign or leading zeros, at most 2^64 - 1.
pub fn plain_number(text: &[u8]) -> Option<u64>
    ensures { MatchOption result ((n : ℕ) → n < 2 ^ 64 → text.now ≢ decimal n) (λ n. (n < 2 ^ 64) × (text.now ≡ decimal n)) }
{
    if has_sign_or_leading_zero(text) {
        return None;
    }
    let Ok(digits) = str::from_utf8(text) else {
        return None;
    };
    digits.parse::<u64>().ok()
}

/// Whether the text begins with a plus sign, which is 43, or with a zero, which is 48, before further bytes.
fn has_sign_or_leading_zero(text: &[u8]) -> bool
    ensures { MatchBool result ((slice_index text.now 0 ≡ 43) ⊎ ((slice_index text.now 0 ≡ 48) × (1 < length text.now))) ((slice_index text.now 0 ≢ 43) × (slice_index text.now 0 ≡ 48 → length text.now ≤ 1)) }
{
    match text {
        [b'+', ..] | [b'0', _, ..] => true,
        _ => false,
    }
}

/// The number of a text, if it is one within both ends.
pub(crate) fn number_in(text: &str, low: u64, high: u64) -> Option<u64>
    ensures { MatchOption result ((n : ℕ) → ¬ SpellsNumber low high text.now n) (λ n. SpellsNumber low high text.now n) }
{
    let number = plain_number(text.as_bytes())?;
    if number < low {
        None
    } else if high < number {
        None
    } else {
        Some(number)
    }
}

/// The number of a text within both ends, or `other` where there is no text.
pub(crate) fn number_or(word: Option<&str>, low: u64, high: u64, other: u64) -> Option<u64>
    ensures { MatchOption result ((n : ℕ) → ¬ NumberOr low high other (text_of word.entry) n) (λ n. NumberOr low high other (text_of word.entry) n) }
{
    match word {
        None => Some(other),
        Some(text) => number_in(text, low, high),
    }
}

/// The turns of a text, or none where there is no text.
pub(crate) fn turns_or_none(
    alloc: Global,
    word: Option<&str>,
) -> Result<Option<Items<SessionNo>>, OutOfMemory>
    ensures { IfOk result (λ found. MatchOption found ((turns : List SessionNoValue) → ¬ TurnsOr (text_of word.entry) turns) (λ turns. TurnsOr (text_of word.entry) turns)) }
{
    match word {
        None => Ok(Some(Items::new(alloc))),
        Some(text) => turns_in(alloc, text),
    }
}

/// The sessions whose numbers the text is, joined by single commas.
pub(crate) fn turns_in(alloc: Global, text: &str) -> Result<Option<Items<SessionNo>>, OutOfMemory>
    ensures { IfOk result (λ found. MatchOption found ((turns : List SessionNoValue) → ¬ SpellsTurns text.now turns) (λ turns. SpellsTurns text.now turns)) }
{
    let texts = cut_at_commas(alloc, text)?;
    sessions_of(alloc, &texts)
}

fn cut_at_commas(alloc: Global, text: &str) -> Result<Vec<&str>, AllocError>
    ensures { IfOk result (λ texts. map (λ part. part.now) texts.items ≡ slice_split (λ byte. byte == 44) text.now) }
{
    text.split(',').collect(alloc)
}

/// The sessions whose numbers these texts are.
fn sessions_of(alloc: Global, texts: &[&str]) -> Result<Option<Items<SessionNo>>, OutOfMemory>
    ensures { IfOk result (λ found. MatchOption found
        ((sessions : List SessionNoValue) → ¬ AreSessions (map (λ text. text.now) texts.now) sessions)
        (λ sessions. AreSessions (map (λ text. text.now) texts.now) sessions)) }
{
    let mut sessions = Vec::new(alloc);
    'texts: for i in 0..texts.len() {
        let Some(number) = number_in(texts[i], 1, 64) else {
            return Ok(None);
        };
        sessions.push(SessionNo(number as u8))?;
    }
    Ok(Some(Items::from_vec(sessions)))
}
