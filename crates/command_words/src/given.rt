//! One command and its options, as the words of the command line give them, whatever the values say.
ghost use Rattle.std.specs.Prelude.{◌≡◌, IfOk, MatchOption, None, false};
ghost use Rattle.clap.specs.Words.{app_of, rule_of};
ghost use Rattle.command_words.specs.Grammar.{flag, options, spelled, texts, valued};
ghost use Rattle.command_words.specs.Giving.{Finds, Gives, command_asked, option_asked, program_asked};

use clap::error::ErrorKind;
use clap::{Arg, ArgAction, ArgMatches, Command};
use mope_base::OutOfMemory;
use std::alloc::{AllocError, Global};

/// The word for the command, the words for the values of the options that stand, and whether the flags stand.
#[derive(Drop)]
pub(crate) struct Given<'a> {
    pub(crate) command: &'a str,
    pub(crate) key: Option<&'a str>,
    pub(crate) first_nonce: Option<&'a str>,
    pub(crate) mode: Option<&'a str>,
    pub(crate) schedule: Option<&'a str>,
    pub(crate) turns: Option<&'a str>,
    pub(crate) number: Option<&'a str>,
    pub(crate) sessions: Option<&'a str>,
    pub(crate) transactions: Option<&'a str>,
    pub(crate) view: bool,
    pub(crate) text: bool,
}

/// The one word that is no option.
fn command_word<'a>(alloc: Global) -> Arg<'a>
    ensures rule { rule_of result ≡ command_asked }
    ensures local { result.global ≡ false }
{
    Arg::new(alloc, "command").action(ArgAction::Set)
}

/// An option that has a value.
fn value_option<'a>(alloc: Global, name: &'a str) -> Arg<'a>
    ensures rule { rule_of result ≡ option_asked (valued name.entry.now) }
    ensures local { result.global ≡ false }
{
    Arg::new(alloc, name).long(name).action(ArgAction::Set)
}

/// An option that stands alone. It has no value, so that it is found exactly where it was used.
fn flag_option<'a>(alloc: Global, name: &'a str) -> Arg<'a>
    ensures rule { rule_of result ≡ option_asked (flag name.entry.now) }
    ensures local { result.global ≡ false }
{
    Arg::new(alloc, name)
        .long(name)
        .action(ArgAction::Set)
        .num_args(0_usize)
}

/// The whole command line: one word for the command, and the options of all commands.
fn program<'a>(alloc: Global) -> Result<Command<'a>, AllocError>
    ensures { IfOk result (λ command. app_of command ≡ program_asked) }
{
    Command::new(alloc, "mope")
        .no_binary_name(true)
        .disable_help_flag(true)
        .arg(command_word(alloc))?
        .arg(value_option(alloc, "key"))?
        .arg(value_option(alloc, "first-nonce"))?
        .arg(value_option(alloc, "mode"))?
        .arg(value_option(alloc, "schedule"))?
        .arg(value_option(alloc, "turns"))?
        .arg(value_option(alloc, "number"))?
        .arg(value_option(alloc, "sessions"))?
        .arg(value_option(alloc, "transactions"))?
        .arg(flag_option(alloc, "view"))?
        .arg(flag_option(alloc, "text"))
}

/// What clap finds in the words. None where it refuses them.
fn parse<'a>(alloc: Global, words: &'a [String]) -> Result<Option<ArgMatches<'a>>, OutOfMemory>
    ensures { IfOk result (λ found. MatchOption found (spelled options (texts words.entry.now) ≡ None)
        (λ m. Finds (texts words.entry.now) m)) }
{
    match program(alloc)?.try_get_matches_from(words) {
        Ok(matches) => Ok(Some(matches)),
        Err(error) => match error.kind() {
            ErrorKind::OutOfMemory => Err(OutOfMemory),
            _ => Ok(None),
        },
    }
}

/// What the words give. None where they aren't one command and known options in any order, each at most once, each with
/// its value in its own word after `=` or in the next word; after `--` no word is an option.
pub(crate) fn given_words<'a>(
    alloc: Global,
    words: &'a [String],
) -> Result<Option<Given<'a>>, OutOfMemory>
    ensures { IfOk result (λ found. MatchOption found (spelled options (texts words.entry.now) ≡ None)
        (λ given. Gives (texts words.entry.now) given)) }
{
    let Some(matches) = parse(alloc, words)? else {
        return Ok(None);
    };
    let Some(command) = matches.get_str("command") else {
        return Ok(None);
    };
    Ok(Some(Given {
        command,
        key: matches.get_str("key"),
        first_nonce: matches.get_str("first-nonce"),
        mode: matches.get_str("mode"),
        schedule: matches.get_str("schedule"),
        turns: matches.get_str("turns"),
        number: matches.get_str("number"),
        sessions: matches.get_str("sessions"),
        transactions: matches.get_str("transactions"),
        view: matches.contains_id("view"),
        text: matches.contains_id("text"),
    }))
}
