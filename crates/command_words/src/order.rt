//! What right words order.
ghost use Rattle.std.specs.Prelude.{◌≡◌, IfOk, MatchOption, List, ◌∷◌, [], codes, Some};
ghost use Rattle.mope_base.specs.declared.numbers.Mode.{Mode as ModeValue};
ghost use Rattle.mope_base.specs.declared.numbers.SessionNo.{SessionNo as SessionNoValue};
ghost use Rattle.value_cipher.specs.declared.Key.{Key as KeyValue};
ghost use Rattle.command_words.specs.declared.order.Schedule.{Schedule as ScheduleValue};
ghost use Rattle.command_words.specs.declared.order.Schedule.TheVariants.{Listed};
ghost use Rattle.command_words.specs.Grammar.{Text, Use, texts};
ghost use Rattle.command_words.specs.Giving.{IsGiven, text_of};
ghost use Rattle.command_words.specs.Orders.{AreNoWords, AreWords, IsOrder, ModeOr, ScheduleOr, SpellsKey, SpellsTurns, generate_options, replay_options, takes_only};

use crate::given::{Given, given_words};
use crate::numbers::{number_in, number_or, turns_in, turns_or_none};
use mope_base::{Items, Mode, OutOfMemory, SessionNo};
use std::alloc::Global;
use value_cipher::Key;

/// Which session makes the next exchange.
#[derive(Drop)]
pub enum Schedule {
    /// Sessions 1, 2 and so on by turns, over and over, until all have ended.
    Round,
    /// These, one exchange each, and then each session to its end, in their order.
    Listed(Items<SessionNo>),
}

/// How a workload is run over sealed values: the key, the first nonce, which is at most 2^63, the mode of the tables, the
/// schedule, and whether what the server saw is told too.
#[derive(Drop)]
pub struct Replaying {
    pub key: Key,
    pub first_nonce: u64,
    pub mode: Mode,
    pub schedule: Schedule,
    pub view: bool,
}

/// The workload that is drawn from a number, with so many sessions of so many transactions; and whether it is told as a text, or
/// run with tables of a mode and summed up.
#[derive(Clone, Copy, PartialEq, Eq, Debug, Drop)]
pub struct Generating {
    pub number: u64,
    pub sessions: u8,
    pub transactions: u16,
    pub mode: Mode,
    pub text: bool,
}

/// What the words of a command line order.
#[derive(Drop)]
pub enum Order {
    /// Run a workload from a file on one thread, over sealed values.
    Replay(Replaying),
    /// Tell what plain tables answer to a workload from a file, whose sessions take these turns and then finish.
    Plain { turns: Items<SessionNo> },
    /// Draw a workload from a number.
    Generate(Generating),
}

/// What the words of a command line order. None where they order nothing. The words must be one command and its own
/// options in any order, each at most once:
///
/// - `replay --key K`, K being 64 hexadecimal digits of either case, with `--first-nonce` up to 9223372036854775808 or 0 without
///   it, `--mode`, which is `ordinary` or `same-time`, `ordinary` without it, `--schedule`, which is `round` or numbers from 1 to 64
///   joined by single commas, the empty list without it, and `--view`;
/// - `plain` with `--turns T` or without, T being numbers from 1 to 64 joined by single commas;
/// - `generate --number N` with `--sessions` from 1 to 64 or 4 without it, `--transactions` from 1 to 1000 or 50 without it,
///   `--mode`, and `--text`.
///
/// Numbers have no sign and no leading zero. `--key=K` is the same as `--key K`. An error means that memory ran out.
pub fn read_order(alloc: Global, words: &[String]) -> Result<Option<Order>, OutOfMemory>
    ensures { IfOk result (λ found. MatchOption found (AreNoWords (texts words.now)) (λ order. AreWords (texts words.now) order)) }
{
    let Some(given) = given_words(alloc, words)? else {
        return Ok(None);
    };
    order_of(alloc, &given)
}

/// The order of a command and its values.
fn order_of(alloc: Global, given: &Given) -> Result<Option<Order>, OutOfMemory>
    ensures { (uses : List Use) → IsGiven given.now uses
        → IfOk result (λ found. MatchOption found ((order : Order) → ¬ IsOrder uses order) (λ order. IsOrder uses order)) }
{
    match given.command {
        "replay" => replay_order(alloc, given),
        "plain" => plain_order(alloc, given),
        "generate" => Ok(generate_order(given)),
        _ => Ok(None),
    }
}

/// The order of the command `replay`: its key stands, and only options of its own.
fn replay_order(alloc: Global, given: &Given) -> Result<Option<Order>, OutOfMemory>
    ensures { (uses : List Use) → IsGiven given.now uses → given.now.command.now ≡ codes "replay"
        → IfOk result (λ found. MatchOption found ((order : Order) → ¬ IsOrder uses order) (λ order. IsOrder uses order)) }
{
    if !has_replay_options_alone(given) {
        return Ok(None);
    }
    let Some(key) = key_in(given.key) else {
        return Ok(None);
    };
    let Some(first_nonce) = number_or(given.first_nonce, 0, 9_223_372_036_854_775_808, 0) else {
        return Ok(None);
    };
    let Some(mode) = mode_or_ordinary(given.mode) else {
        return Ok(None);
    };
    let Some(schedule) = schedule_or_none(alloc, given.schedule)? else {
        return Ok(None);
    };
    Ok(Some(Order::Replay(Replaying {
        key,
        first_nonce,
        mode,
        schedule,
        view: given.view,
    })))
}

/// The order of the command `plain`: no option stands but `--turns`, and its value is a list of turns.
fn plain_order(alloc: Global, given: &Given) -> Result<Option<Order>, OutOfMemory>
    ensures { (uses : List Use) → IsGiven given.now uses → given.now.command.now ≡ codes "plain"
        → IfOk result (λ found. MatchOption found ((order : Order) → ¬ IsOrder uses order) (λ order. IsOrder uses order)) }
{
    if !has_turns_alone(given) {
        return Ok(None);
    }
    let Some(turns) = turns_or_none(alloc, given.turns)? else {
        return Ok(None);
    };
    Ok(Some(Order::Plain { turns }))
}

/// The order of the command `generate`: its number stands, and only options of its own.
fn generate_order(given: &Given) -> Option<Order>
    ensures { (uses : List Use) → IsGiven given.now uses → given.now.command.now ≡ codes "generate"
        → MatchOption result ((order : Order) → ¬ IsOrder uses order) (λ order. IsOrder uses order) }
{
    if !has_generate_options_alone(given) {
        return None;
    }
    let mode = mode_or_ordinary(given.mode)?;
    let number = number_in(given.number?, 0, u64::MAX)?;
    let sessions = number_or(given.sessions, 1, 64, 4)?;
    let transactions = number_or(given.transactions, 1, 1000, 50)?;
    Some(Order::Generate(Generating {
        number,
        sessions: sessions as u8,
        transactions: transactions as u16,
        mode,
        text: given.text,
    }))
}

/// The key that a word spells, if there is one.
fn key_in(word: Option<&str>) -> Option<Key>
    ensures { MatchOption result
        ((digits : Text) (key : KeyValue) → text_of word.entry ≡ Some digits → ¬ SpellsKey digits key)
        (λ key. (digits : Text) × (text_of word.entry ≡ Some digits) × SpellsKey digits key) }
{
    Key::from_hex(word?.as_bytes())
}

/// The mode that a word names, or the ordinary one where there is no word.
fn mode_or_ordinary(word: Option<&str>) -> Option<Mode>
    ensures { MatchOption result ((mode : ModeValue) → ¬ ModeOr (text_of word.entry) mode) (λ mode. ModeOr (text_of word.entry) mode) }
{
    match word {
        None => Some(Mode::Ordinary),
        Some("ordinary") => Some(Mode::Ordinary),
        Some("same-time") => Some(Mode::SameTime),
        Some(_) => None,
    }
}

/// The schedule that a word spells, or the empty list where there is no word.
fn schedule_or_none(alloc: Global, word: Option<&str>) -> Result<Option<Schedule>, OutOfMemory>
    ensures { IfOk result (λ found. MatchOption found ((schedule : ScheduleValue) → ¬ ScheduleOr (text_of word.entry) schedule) (λ schedule. ScheduleOr (text_of word.entry) schedule)) }
{
    match word {
        None => Ok(Some(Schedule::Listed(Items::new(alloc)))),
        Some("round") => Ok(Some(Schedule::Round)),
        Some(text) => listed_in(alloc, text),
    }
}

/// The schedule of the sessions whose numbers the text is, joined by single commas.
fn listed_in(alloc: Global, text: &str) -> Result<Option<Schedule>, OutOfMemory>
    ensures { IfOk result (λ found. MatchOption found
        ((sessions : List SessionNoValue) → ¬ SpellsTurns text.now sessions)
        (λ schedule. (sessions : List SessionNoValue) × (schedule ≡ Listed sessions) × SpellsTurns text.now sessions)) }
{
    match turns_in(alloc, text)? {
        None => Ok(None),
        Some(sessions) => Ok(Some(Schedule::Listed(sessions))),
    }
}

/// Whether none of the options stands that the command `replay` doesn't take.
fn has_replay_options_alone(given: &Given) -> bool
    ensures { (uses : List Use) → IsGiven given.now uses → result ≡ takes_only replay_options uses }
{
    let values = given.turns.is_some()
        | given.number.is_some()
        | given.sessions.is_some()
        | given.transactions.is_some();
    !(values | given.text)
}

/// Whether no option but `--turns` stands.
fn has_turns_alone(given: &Given) -> bool
    ensures { (uses : List Use) → IsGiven given.now uses → result ≡ takes_only (codes "turns" ∷ []) uses }
{
    let values = given.key.is_some()
        | given.first_nonce.is_some()
        | given.mode.is_some()
        | given.schedule.is_some()
        | given.number.is_some()
        | given.sessions.is_some()
        | given.transactions.is_some();
    let flags = given.view | given.text;
    !(values | flags)
}

/// Whether none of the options stands that the command `generate` doesn't take.
fn has_generate_options_alone(given: &Given) -> bool
    ensures { (uses : List Use) → IsGiven given.now uses → result ≡ takes_only generate_options uses }
{
    let values = given.key.is_some()
        | given.first_nonce.is_some()
        | given.schedule.is_some()
        | given.turns.is_some();
    !(values | given.view)
}
