//! What a proxy makes of a reply, and what it says next.

ghost use Rattle.std.specs.Prelude.{◌≡◌, true, Some, option_copied, IfOk, OnOk};
ghost use Rattle.walk_proto.specs.declared.messages.Request.{Request as RequestOf};
ghost use Rattle.proxy.specs.Allowed.{allowed};
ghost use Rattle.proxy.specs.Client.{wants};
ghost use Rattle.proxy.specs.Inside.{party_by, phase_in, Holds, IsRunning};
ghost use Rattle.proxy.specs.Party.{told, said, noted, wanted, heard_if};
ghost use Rattle.proxy.specs.Standing.{Fits, Heard, setting_in, client_in};
ghost use Rattle.proxy.specs.declared.turning.Stage.TheVariants as stages;

use crate::dialogue::Dialogue;
use crate::opening::copied;
use crate::outcomes::{Step, Want};
use mope_base::{Items, OutOfMemory};
use std::alloc::Global;
use walk_proto::{Exchange, Reply};

/// Where a proxy stands: it has said nothing yet; it goes on with its script; it got a reply that the protocol doesn't
/// allow; memory did not suffice.
#[derive(Drop)]
pub(crate) enum Stage {
    Fresh,
    Talking,
    Stuck { want: Want, got: Reply },
    Spent,
}

/// Writes down the exchange that this reply ends.
fn write_down(
    alloc: Global,
    dialogue: &mut Dialogue,
    log: &mut Items<Exchange>,
    got: &Reply,
) -> Result<(), OutOfMemory>
    requires fits { Fits dialogue.old }
    ensures log { OnOk result ((r : RequestOf) → wants (setting_in dialogue.old) (client_in dialogue.old) ≡ Some r
        → log.new ≡ noted true log.old (record { request = r; reply = got.now })) }
    ensures stays { dialogue.new ≡ dialogue.old }
{
    match dialogue.request()? {
        Some(request) => {
            let reply = copied(alloc, got)?;
            log.push(Exchange { request, reply })?;
            Ok(())
        }
        None => Ok(()),
    }
}

/// Keeps the exchange that this reply ends, where exchanges are kept.
fn note(
    alloc: Global,
    dialogue: &mut Dialogue,
    keep: bool,
    log: &mut Items<Exchange>,
    got: &Reply,
) -> Result<(), OutOfMemory>
    requires fits { Fits dialogue.old }
    ensures log { OnOk result ((r : RequestOf) → wants (setting_in dialogue.old) (client_in dialogue.old) ≡ Some r
        → log.new ≡ noted keep log.old (record { request = r; reply = got.now })) }
    ensures stays { dialogue.new ≡ dialogue.old }
{
    if keep {
        return write_down(alloc, dialogue, log, got);
    }
    Ok(())
}

/// Takes in a reply that is allowed.
fn accept(
    alloc: Global,
    dialogue: &mut Dialogue,
    keep: bool,
    log: &mut Items<Exchange>,
    got: &Reply,
) -> Result<(), OutOfMemory>
    requires fits { Fits dialogue.old }
    requires allowed { allowed (client_in dialogue.old) got.now ≡ true }
    ensures { OnOk result (Heard dialogue.old dialogue.new got.now
        × ((r : RequestOf) → wants (setting_in dialogue.old) (client_in dialogue.old) ≡ Some r
        → log.new ≡ noted keep log.old (record { request = r; reply = got.now }))) }
{
    note(alloc, dialogue, keep, log, got)?;
    dialogue.take_in(got)?;
    Ok(())
}

/// The stage after a reply that isn't allowed.
fn refused(alloc: Global, dialogue: &Dialogue, got: &Reply) -> Result<Stage, OutOfMemory>
    requires { Fits dialogue.now }
    ensures { IfOk result (λ s. s ≡ stages.Stuck (wanted (client_in dialogue.now)) got.now) }
{
    let want = dialogue.want();
    let got = copied(alloc, got)?;
    Ok(Stage::Stuck { want, got })
}

/// Hears the reply to the request that was sent.
fn hear_reply(
    alloc: Global,
    dialogue: &mut Dialogue,
    stage: &mut Stage,
    keep: bool,
    log: &mut Items<Exchange>,
    got: &Reply,
) -> Result<(), OutOfMemory>
    requires fits { Fits dialogue.old }
    requires talking { stage.old ≡ stages.Talking }
    ensures party { OnOk result ((r : RequestOf) → wants (setting_in dialogue.old) (client_in dialogue.old) ≡ Some r
        → party_by dialogue.new keep log.new stage.new
        ≡ heard_if (allowed (client_in dialogue.old) got.now) r got.now (party_by dialogue.old keep log.old stage.old)) }
    ensures holds { OnOk result (Holds stage.new dialogue.new) }
    ensures running { OnOk result (IsRunning stage.new) }
{
    if dialogue.allows(got) {
        accept(alloc, dialogue, keep, log, got)
    } else {
        *stage = refused(alloc, dialogue, got)?;
        Ok(())
    }
}

/// Hears what a call of `next` is given.
pub(crate) fn hear(
    alloc: Global,
    dialogue: &mut Dialogue,
    stage: &mut Stage,
    keep: bool,
    log: &mut Items<Exchange>,
    reply: Option<&Reply>,
) -> Result<(), OutOfMemory>
    requires { Holds stage.old dialogue.old }
    ensures party { OnOk result (party_by dialogue.new keep log.new stage.new
        ≡ told (option_copied reply.entry) (party_by dialogue.old keep log.old stage.old)) }
    ensures holds { OnOk result (Holds stage.new dialogue.new) }
    ensures running { OnOk result (IsRunning stage.new) }
{
    match stage {
        Stage::Fresh => {
            dialogue.pads.reserve()?;
            *stage = Stage::Talking;
            Ok(())
        }
        Stage::Talking => match reply {
            Some(got) => {
                if dialogue.has_ended() {
                    return Ok(());
                }
                hear_reply(alloc, dialogue, stage, keep, log, got)
            }
            None => Ok(()),
        },
        Stage::Stuck { want: _, got: _ } => Ok(()),
        Stage::Spent => Err(OutOfMemory),
    }
}

/// Says what is next where a proxy stands.
pub(crate) fn say(
    alloc: Global,
    dialogue: &mut Dialogue,
    stage: &Stage,
) -> Result<Step, OutOfMemory>
    requires holds { Holds stage.now dialogue.old }
    requires running { IsRunning stage.now }
    ensures says { IfOk result (λ step.
        said (phase_in stage.now (wants (setting_in dialogue.old) (client_in dialogue.old))) ≡ Some step) }
    ensures stays { dialogue.new ≡ dialogue.old }
{
    match stage {
        Stage::Fresh => Err(OutOfMemory),
        Stage::Talking => match dialogue.request()? {
            Some(request) => Ok(Step::Send(request)),
            None => Ok(Step::Done),
        },
        Stage::Stuck { want, got } => {
            let want = *want;
            let got = copied(alloc, got)?;
            Ok(Step::Strange { want, got })
        }
        Stage::Spent => Err(OutOfMemory),
    }
}
