//! The pads that a proxy has computed, so that a body that comes again is opened without the cipher.

ghost use Rattle.std.specs.Prelude.{◌≡◌, IfOk, replicate};
ghost use Rattle.value_cipher.specs.Cipher.{pad_of, seal_of, unseal_of};

use mope_base::{Body, OutOfMemory};
use std::alloc::Global;
use std::marker::Model;
use value_cipher::{Key, pad};

/// How many pads are kept: 64 KiB of memory in all.
const KEPT: usize = 4096;

/// A nonce and its pad under the key.
#[derive(Clone, Copy)]
pub(crate) struct KeptPad {
    nonce: u64,
    pad: u64,
}

/// A key with pads that were computed under it: at most one for each rest of a nonce by the number of places.
#[derive(Drop)]
pub(crate) struct Pads {
    alloc: Global,
    key: Key,
    kept: Vec<KeptPad>,
}

impl Model for Pads {
    ghost use Rattle.std.specs.Prelude.{List, ℕ};

    ghost Value = { List ℕ };

    ghost use Rattle.proxy.specs.KeptPads.{AreRight};

    ghost view = { λ p. p.key.bytes };

    ghost invariant = { λ p. AreRight p.key.bytes p.kept.items };
}

/// So many places, each of which keeps this pad.
fn places(alloc: Global, one: KeptPad, count: usize) -> Result<Vec<KeptPad>, OutOfMemory>
    ensures { IfOk result (λ kept. kept.items ≡ replicate count one) }
{
    Ok(vec![in alloc; one; count]?)
}

impl Pads {
    /// No pads yet. It takes no memory.
    pub(crate) fn new(alloc: Global, key: Key) -> Pads
        ensures { result ≡ key.bytes }
    {
        Pads {
            alloc,
            key,
            kept: Vec::new(alloc),
        }
    }

    /// Takes the memory for the pads. Until then none is kept.
    pub(crate) fn reserve(&mut self) -> Result<(), OutOfMemory>
        ensures { self.new ≡ self.old }
    {
        let first = KeptPad {
            nonce: 0,
            pad: pad(&self.key, 0),
        };
        self.kept = places(self.alloc, first, KEPT)?;
        Ok(())
    }

    /// The pad of a nonce.
    pub(crate) fn pad(&mut self, nonce: u64) -> u64
        ensures pad { result ≡ pad_of self.old nonce }
        ensures stays { self.new ≡ self.old }
    {
        let place = (nonce % KEPT as u64) as usize;
        if place < self.kept.len() {
            let kept = self.kept[place];
            if kept.nonce == nonce {
                return kept.pad;
            }
            let pad = pad(&self.key, nonce);
            self.kept[place] = KeptPad { nonce, pad };
            return pad;
        }
        pad(&self.key, nonce)
    }

    /// Hides a value under a nonce.
    #[tactic(auto, unfolding(value_cipher::specs::Cipher::seal_of))]
    pub(crate) fn seal(&mut self, nonce: u64, value: u64) -> Body
        ensures body { result ≡ seal_of self.old nonce value }
        ensures stays { self.new ≡ self.old }
    {
        let masked = value ^ self.pad(nonce);
        Body { nonce, masked }
    }

    /// The value that a body hides.
    #[tactic(auto, unfolding(value_cipher::specs::Cipher::unseal_of))]
    pub(crate) fn unseal(&mut self, body: Body) -> u64
        ensures value { result ≡ unseal_of self.old body }
        ensures stays { self.new ≡ self.old }
    {
        body.masked ^ self.pad(body.nonce)
    }
}
