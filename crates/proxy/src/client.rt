//! The proxy of one session.

ghost use Rattle.std.specs.Prelude.{◌≡◌, ◌≤◌, ◌<◌, ◌^◌, Some, length, option_copied, IfOk, OnOk, OnErr, IsErr};
ghost use Rattle.std.specs.List.{sum_by};
ghost use Rattle.workload.specs.Validity.{numbers_inserted};
ghost use Rattle.proxy.specs.Party.{party_of, told, said, finished, spent, IsDue};

use crate::dialogue::Dialogue;
use crate::outcomes::{Finished, Settings, Step};
use crate::turning::{Stage, hear, say};
use mope_base::{Items, OutOfMemory, SessionNo};
use std::alloc::Global;
use std::marker::Model;
use walk_proto::{Exchange, Reply};
use workload::Piece;

/// The client of one session: it turns its script into requests and replies into answers. It keeps up to 4,096 pads that
/// it has computed, in 64 KiB, for which it takes the memory at the first call of `next`.
#[derive(Drop)]
pub struct Proxy {
    alloc: Global,
    dialogue: Dialogue,
    keep: bool,
    log: Items<Exchange>,
    stage: Stage,
}

impl Model for Proxy {
    ghost use Rattle.proxy.specs.Party.{Party};

    ghost Value = { Party };

    ghost use Rattle.proxy.specs.Inside.{party_by, Holds};

    ghost view = { λ p. party_by p.dialogue p.keep p.log p.stage };

    ghost invariant = { λ p. Holds p.stage p.dialogue };
}

impl Proxy {
    /// A proxy that has said nothing yet. It takes no memory.
    #[tactic(auto, unfolding(crate::specs::Inside::party_by, crate::specs::Inside::phase_in, crate::specs::Inside::Holds, crate::specs::Party::party_of))]
    pub fn new(alloc: Global, settings: Settings, session: SessionNo, script: Items<Piece>) -> Proxy
        requires first { settings.first ≤ 2 ^ 63 }
        requires session_from { 1 ≤ session.0 }
        requires session_to { session.0 ≤ 64 }
        requires pieces { length script < 2 ^ 32 }
        requires numbers { sum_by numbers_inserted script < 2 ^ 32 }
        ensures { result ≡ party_of settings session script }
    {
        Proxy {
            alloc,
            dialogue: Dialogue::new(alloc, settings, session, script),
            keep: settings.keep,
            log: Items::new(alloc),
            stage: Stage::Fresh,
        }
    }

    /// Takes the reply to the request that was sent last, none at the first call, and says what is next. `Strange` has
    /// the first reply that the protocol doesn't allow. Where no reply is wanted, one that is given changes nothing; where
    /// one is wanted and none is given, the request is said again. So after `Done` and after `Strange` the proxy says the
    /// same again. After `OutOfMemory` it is spent, and answers that from then on.
    pub fn next(&mut self, reply: Option<&Reply>) -> Result<Step, OutOfMemory>
        ensures moves { OnOk result (self.new ≡ told (option_copied reply.entry) self.old) }
        ensures says { IfOk result (λ step. said self.new.phase ≡ Some step) }
        ensures due { OnOk result (IsDue self.new.phase self.new.setting self.new.client) }
        ensures err { OnErr result (self.new.phase ≡ spent) }
        ensures stays_spent { self.old.phase ≡ spent → IsErr result }
    {
        match hear(
            self.alloc,
            &mut self.dialogue,
            &mut self.stage,
            self.keep,
            &mut self.log,
            reply,
        ) {
            Ok(()) => match say(self.alloc, &mut self.dialogue, &self.stage) {
                Ok(step) => Ok(step),
                Err(out) => {
                    self.stage = Stage::Spent;
                    Err(out)
                }
            },
            Err(out) => {
                self.stage = Stage::Spent;
                Err(out)
            }
        }
    }

    /// What the script came to. The proxy has said `Done`.
    #[tactic(auto, unfolding(crate::specs::Inside::party_by, crate::specs::Standing::client_in))]
    pub fn finish(self) -> Finished
        requires { self.phase ≡ finished }
        ensures transactions { result.txns ≡ self.client.done }
        ensures log { result.log ≡ self.log }
    {
        let Proxy {
            alloc: _,
            dialogue,
            keep: _,
            log,
            stage: _,
        } = self;
        Finished {
            txns: dialogue.done,
            log,
        }
    }
}
