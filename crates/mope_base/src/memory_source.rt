//! A source in memory, whose failures are planned.
ghost use Rattle.std.specs.Prelude.{◌≡◌, ℕ, ◌<◌, ◌↔◌, [], ◌++◌, Some, IsErr, IsTrue, IfOk, MatchResult, OnErr, length, take, drop, min};
ghost use Rattle.std.specs.Io.{ReadsAtMost};
ghost use Rattle.std.specs.Io.KnownBytes.{ReadConsumes};
ghost use Rattle.mope_base.specs.Faults.{HasCause};
ghost use Rattle.mope_base.specs.InMemory.{SourceState, fails_next, read_count, source_after, source_failed};

use crate::{Failed, Items, Source};
use std::marker::Model;

/// A source in memory. A call gives at most `piece` bytes, and the calls whose numbers, from 1,
/// stand in `fails` fail.
#[derive(Debug, Drop)]
pub struct MemorySource {
    bytes: Items<u8>,
    // Where what is left begins. To remove the front of `bytes` would move the rest at each call.
    place: usize,
    piece: usize,
    calls: u64,
    fails: Items<u64>,
    faults: u64,
}

impl Model for MemorySource {
    ghost use Rattle.std.specs.Prelude.{◌<◌, ◌≤◌, length, drop};
    ghost use Rattle.mope_base.specs.InMemory.{SourceState, SourceFits};

    ghost Value = { SourceState };

    ghost view = { λ s. record {
      left = drop s.place s.bytes;
      piece = s.piece;
      calls = s.calls;
      fails = s.fails;
      faults = s.faults;
    } };

    ghost invariant = { λ s. SourceFits s.bytes s.place s.piece };
}

impl MemorySource {
    /// A source that gives `bytes`, at most `piece` a call.
    pub fn new(bytes: Items<u8>, piece: usize, fails: Items<u64>) -> MemorySource
        requires { 0 < piece }
        ensures { result ≡ record {
          left = bytes;
          piece = piece;
          calls = 0;
          fails = fails;
          faults = 0;
        } }
    {
        MemorySource {
            bytes,
            place: 0,
            piece,
            calls: 0,
            fails,
            faults: 0,
        }
    }

    /// The bytes that are left.
    pub fn left(&self) -> &[u8]
        ensures { result.now ≡ self.now.left }
    {
        &self.bytes.as_slice()[self.place..]
    }

    /// How many reads failed.
    pub fn faults(&self) -> u64
        ensures { result ≡ self.now.faults }
    {
        self.faults
    }
}

impl Source for MemorySource {
    ghost left = { λ s. Some s.left };

    ghost faults = { λ s. s.faults };

    fn read(&mut self, into: &mut [u8]) -> Result<usize, Failed>
        requires { 0 < length into.old }
        ensures bound { ReadsAtMost result into.new }
        ensures bytes { ReadConsumes (Some self.old.left) (Some self.new.left) result into.new }
        ensures cause { HasCause self.old.faults self.new.faults result }
        ensures fails { IsErr result ↔ IsTrue (fails_next self.old.calls self.old.fails) }
        ensures count { IfOk result (λ n. n ≡ read_count self.old (length into.old)) }
        ensures given { IfOk result (λ n. into.new ≡ take n self.old.left ++ drop n into.old) }
        ensures kept { OnErr result (into.new ≡ into.old) }
        ensures after { MatchResult result
            (λ n. self.new ≡ source_after self.old n)
            (λ _. self.new ≡ source_failed self.old) }
    {
        self.calls = self.calls.saturating_add(1);
        if self.fails.as_slice().contains(&self.calls) {
            self.faults = self.faults.saturating_add(1);
            return Err(Failed);
        }
        let count = copy_front(&self.bytes.as_slice()[self.place..], self.piece, into);
        self.place += count;
        Ok(count)
    }
}

/// Copies the front of `from`, at most `most` bytes, to the front of `into`, and says how many.
fn copy_front(from: &[u8], most: usize, into: &mut [u8]) -> usize
    ensures count { result ≡ min (min most (length into.old)) (length from.now) }
    ensures copied { into.new ≡ take result from.now ++ drop result into.old }
{
    let count = most.min(into.len()).min(from.len());
    into[..count].copy_from_slice(&from[..count]);
    count
}
