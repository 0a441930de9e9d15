//! The program `mope`: the words of its command line, and the standard streams.
#![tactic(auto)]

ghost use Rattle.std.specs.Prelude.{◌≡◌, ◌∷◌, [], IfErr, IfOk, drop, map};
ghost use Rattle.std.specs.String.{string_bytes};
ghost use Rattle.std.specs.Vec.Iter.{into_iter_items};

use mope_base::{OutOfMemory, Status, StdSink, StdSource};
use mope_top::mope_batch;
use server_conn::NoWatch;
use std::alloc::Global;
use std::env::Args;
use std::io::ErrorKind;
use std::process::ExitCode;
use std::{env, io};

fn main(rt: HostRuntime) -> ExitCode {
    let mut input = StdSource::new(rt.stdin());
    let mut out = StdSink::new(rt.stdout());
    let status = match command_words(rt.alloc(), env::args(&rt)) {
        Ok(words) => mope_batch(rt.alloc(), &words, &mut input, &mut out, &mut NoWatch),
        Err(OutOfMemory) => Status::Memory,
    };
    ExitCode::from(status.code())
}

/// The words after the first one, which is the program's name.
fn after_name(alloc: Global, args: Args) -> Result<Vec<String>, OutOfMemory>
    ensures { IfOk result (λ words. words.items ≡ drop 1 (into_iter_items args)) }
{
    let mut rest = args;
    let mut words = Vec::new(alloc);
    let _name = rest.next();
    'words: while let Some(word) = rest.next() {
        words.push(word)?;
    }
    Ok(words)
}

/// The words of the command line, from the arguments that the system gives: those after the program's name. Where one of them
/// isn't text, they are one empty word, which is wrong.
fn command_words(alloc: Global, given: io::Result<Args>) -> Result<Vec<String>, OutOfMemory>
    ensures words { IfOk given (λ args. IfOk result (λ words. words.items ≡ drop 1 (into_iter_items args))) }
    ensures no_text { IfErr given (λ _. IfOk result (λ words. map string_bytes words.items ≡ [] ∷ [])) }
{
    match given {
        Ok(args) => after_name(alloc, args),
        Err(error) if error.kind() == ErrorKind::InvalidData => {
            let mut words = Vec::new(alloc);
            words.push(String::new(alloc))?;
            Ok(words)
        }
        Err(_) => Err(OutOfMemory),
    }
}
