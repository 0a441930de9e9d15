//! A sink in memory, whose failures are planned.
ghost use Rattle.std.specs.Prelude.{◌≡◌, ℕ, ◌<◌, ◌≤◌, ◌↔◌, [], Some, IsErr, IsTrue, IfOk, MatchResult, length, take};
ghost use Rattle.std.specs.Io.KnownBytes.{WriteAppends};
ghost use Rattle.mope_base.specs.Faults.{HasCause};
ghost use Rattle.mope_base.specs.InMemory.{SinkState, sink_fails, write_count, sink_after, sink_failed};

use crate::{Failed, Items, OutOfMemory, Sink};
use std::alloc::Global;
use std::marker::Model;

/// A sink in memory. A call takes at most `piece` bytes. It fails where its number, from 1,
/// stands in `fails`, and where the room that was reserved has no free byte.
#[derive(Debug, Drop)]
pub struct MemorySink {
    bytes: Vec<u8>,
    piece: usize,
    calls: u64,
    fails: Items<u64>,
    faults: u64,
    room: usize,
}

impl Model for MemorySink {
    ghost use Rattle.std.specs.Prelude.{vec_capacity};
    ghost use Rattle.mope_base.specs.InMemory.{SinkState, SinkFits};

    ghost Value = { SinkState };

    ghost view = { λ s. record {
      bytes = s.bytes.items;
      piece = s.piece;
      calls = s.calls;
      fails = s.fails;
      faults = s.faults;
      room = s.room;
    } };

    ghost invariant = { λ s. SinkFits s.bytes.items (vec_capacity s.bytes) s.piece s.room };
}

impl MemorySink {
    /// A sink that holds at most `room` bytes, which it reserves, and takes at most `piece` a call.
    pub fn new(
        alloc: Global,
        room: usize,
        piece: usize,
        fails: Items<u64>,
    ) -> Result<MemorySink, OutOfMemory>
        requires { 0 < piece }
        ensures { IfOk result (λ s. s ≡ record {
          bytes = [];
          piece = piece;
          calls = 0;
          fails = fails;
          faults = 0;
          room = room;
        }) }
    {
        let bytes = Vec::with_capacity(alloc, room)?;
        Ok(MemorySink {
            bytes,
            piece,
            calls: 0,
            fails,
            faults: 0,
            room,
        })
    }

    /// The bytes that were written.
    pub fn bytes(&self) -> &[u8]
        ensures { result.now ≡ self.now.bytes }
    {
        self.bytes.as_slice()
    }

    /// How many writes failed.
    pub fn faults(&self) -> u64
        ensures { result ≡ self.now.faults }
    {
        self.faults
    }
}

impl Sink for MemorySink {
    ghost written = { λ s. Some s.bytes };

    ghost faults = { λ s. s.faults };

    fn write(&mut self, piece: &[u8]) -> Result<usize, Failed>
        requires { 0 < length piece.now }
        ensures some { IfOk result (λ n. 1 ≤ n) }
        ensures bound { IfOk result (λ n. n ≤ length piece.now) }
        ensures bytes { WriteAppends (Some self.old.bytes) (Some self.new.bytes) result piece.now }
        ensures cause { HasCause self.old.faults self.new.faults result }
        ensures fails { IsErr result ↔ IsTrue (sink_fails self.old) }
        ensures count { IfOk result (λ n. n ≡ write_count self.old (length piece.now)) }
        ensures after { MatchResult result
            (λ n. self.new ≡ sink_after self.old (take n piece.now))
            (λ _. self.new ≡ sink_failed self.old) }
    {
        self.calls = self.calls.saturating_add(1);
        let free = self.room - self.bytes.len();
        if self.fails.as_slice().contains(&self.calls) || free == 0 {
            self.faults = self.faults.saturating_add(1);
            return Err(Failed);
        }
        let count = self.piece.min(piece.len()).min(free);
        self.bytes.extend_from_slice(&piece[..count]).unwrap();
        Ok(count)
    }
}
