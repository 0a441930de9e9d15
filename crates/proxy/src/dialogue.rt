//! A client between its exchanges: where it stands in its script, and what it sends next.

ghost use Rattle.std.specs.Prelude.{◌≡◌, ◌≤◌, ◌<◌, ◌^◌, ◌∷◌, [], drop, length, IfOk, Option, None, Some, IsTrue, ◌↔◌};
ghost use Rattle.std.specs.List.{sum_by};
ghost use Rattle.workload.specs.Validity.{numbers_inserted};
ghost use Rattle.proxy.specs.Allowed.{allowed, fits_task, fits_first};
ghost use Rattle.proxy.specs.Client.{Setting, Client, starts, wants, request_for};
ghost use Rattle.proxy.specs.Party.{setting_of, wanted, want_for};
ghost use Rattle.proxy.specs.Standing.{Fits, setting_in, client_in, stop_in, acts_at, piece_at, opening_where};
ghost use Rattle.proxy.specs.Talk.{HasEnded};
ghost use Rattle.proxy.specs.Tasks.{Task, acts_of, last_task, does};
ghost use Rattle.proxy.specs.declared.doing.Doing.TheVariants as doing;
ghost use Rattle.proxy.specs.declared.doing.Stop.{Stop as StopAt};

use crate::allowing::{
    answers_with, closes_with, is_spelled, leads_with, opens_with, puts_with, rebuilds_with,
};
use crate::doing::Doing;
use crate::outcomes::{Settings, Want};
use crate::pads::Pads;
use crate::sending::{asked, sealed_row, walk_step};
use mope_base::{Items, OutOfMemory, SessionNo};
use std::alloc::Global;
use walk_proto::{Reply, Request};
use workload::{Act, Answer, DoneTxn, Piece};

/// The client of a session. `place` counts the transactions that have ended, `act` the statements of the one in hand that
/// were answered, and `constant` the constants of the statement in hand that were taken up.
#[derive(Drop)]
pub(crate) struct Dialogue {
    pub(crate) alloc: Global,
    pub(crate) pads: Pads,
    pub(crate) first: u64,
    pub(crate) session: SessionNo,
    pub(crate) script: Items<Piece>,
    pub(crate) place: usize,
    pub(crate) doing: Doing,
    pub(crate) act: usize,
    pub(crate) constant: usize,
    pub(crate) seals: u32,
    pub(crate) base: u64,
    pub(crate) answers: Items<Answer>,
    pub(crate) done: Items<DoneTxn>,
}

/// The statements of a transaction.
#[tactic(auto, unfolding(crate::specs::Tasks::acts_of))]
pub(crate) fn acts_in(piece: &Piece) -> &[Act]
    ensures { result.now ≡ acts_of piece.now }
{
    match piece {
        Piece::Txn { acts, rollback: _ } => acts.as_slice(),
        Piece::Rebuild {
            table: _,
            column: _,
        } => &[],
    }
}

/// The transaction of a script at a place, from 0.
pub(crate) fn piece_in(script: &Items<Piece>, place: usize) -> &Piece
    requires { place < length script.now }
    ensures { result.now ≡ piece_at script.now place }
{
    &script.as_slice()[place]
}

/// The last request of a transaction.
#[tactic(auto, unfolding(crate::specs::Tasks::last_task, crate::specs::Client::request_for))]
fn last_request(piece: &Piece) -> Request
    ensures { (s : Setting) (c : Client) → request_for s c (last_task piece.now) ≡ result }
{
    match piece {
        Piece::Txn { acts: _, rollback } => Request::End { commit: !*rollback },
        Piece::Rebuild { table, column } => Request::Rebuild {
            table: *table,
            column: *column,
        },
    }
}

/// Whether a reply is one to the last request of a transaction.
#[tactic(auto, unfolding(crate::specs::Tasks::last_task, crate::specs::Allowed::fits_task))]
fn last_fits(piece: &Piece, reply: &Reply) -> bool
    ensures { (stop : Option StopAt) → fits_task stop (last_task piece.now) reply.now ≡ result }
{
    match piece {
        Piece::Txn { acts, rollback } => closes_with(*rollback, acts.as_slice(), reply),
        Piece::Rebuild { table, column: _ } => rebuilds_with(*table, reply),
    }
}

/// Whether a reply is one to the request of a statement.
#[tactic(auto, unfolding(crate::specs::Tasks::does, crate::specs::Allowed::fits_task))]
fn act_fits(act: &Act, reply: &Reply) -> bool
    ensures { (stop : Option StopAt) → fits_task stop (does act.now) reply.now ≡ result }
{
    match act {
        Act::Insert { table, values: _ } => puts_with(*table, reply),
        Act::Ask(ask) => answers_with(&ask.verb, reply),
    }
}

/// Whether a reply is one to the request of the statement at an index of a transaction, or past them to its last one.
fn act_fits_at(piece: &Piece, act: usize, reply: &Reply) -> bool
    ensures { (stop : Option StopAt) → fits_first stop (acts_at (drop act (acts_of piece.now)) (last_task piece.now ∷ [])) reply.now ≡ result }
{
    let acts = acts_in(piece);
    if act < acts.len() {
        act_fits(&acts[act], reply)
    } else {
        last_fits(piece, reply)
    }
}

/// What the last request of a transaction wants.
#[tactic(auto, unfolding(crate::specs::Tasks::last_task, crate::specs::Party::want_for))]
fn last_want(piece: &Piece) -> Want
    ensures { result ≡ want_for (last_task piece.now) }
{
    match piece {
        Piece::Txn {
            acts: _,
            rollback: _,
        } => Want::End,
        Piece::Rebuild {
            table: _,
            column: _,
        } => Want::Rebuild,
    }
}

/// To begin a transaction, if there is one.
#[tactic(auto, unfolding(crate::specs::Standing::opening_where))]
pub(crate) fn opening_if(there: bool) -> Doing
    ensures { result ≡ opening_where there }
{
    if there {
        Doing::Opening
    } else {
        Doing::Nothing
    }
}

impl Dialogue {
    pub(crate) fn new(
        alloc: Global,
        settings: Settings,
        session: SessionNo,
        script: Items<Piece>,
    ) -> Dialogue
        requires first { settings.first ≤ 2 ^ 63 }
        requires session_from { 1 ≤ session.0 }
        requires session_to { session.0 ≤ 64 }
        requires pieces { length script < 2 ^ 32 }
        requires numbers { sum_by numbers_inserted script < 2 ^ 32 }
        ensures setting { setting_in result ≡ setting_of settings session }
        ensures client { client_in result ≡ starts script }
        ensures fits { Fits result }
    {
        let doing = opening_if(0 < script.as_slice().len());
        Dialogue {
            alloc,
            pads: Pads::new(alloc, settings.key),
            first: settings.first,
            session,
            script,
            place: 0,
            doing,
            act: 0,
            constant: 0,
            seals: 0,
            base: 0,
            answers: Items::new(alloc),
            done: Items::new(alloc),
        }
    }

    /// The request of the statement in hand.
    fn act_request(&mut self) -> Result<Request, OutOfMemory>
        requires fits { Fits self.old }
        requires acting { self.old.doing ≡ doing.Acting }
        ensures wants { IfOk result (λ r. wants (setting_in self.old) (client_in self.old) ≡ Some r) }
        ensures stays { self.new ≡ self.old }
    {
        let piece = piece_in(&self.script, self.place);
        let acts = acts_in(piece);
        if self.act >= acts.len() {
            return Ok(last_request(piece));
        }
        match &acts[self.act] {
            Act::Insert { table, values } => {
                let table = *table;
                let values = values.as_slice();
                let bodies = sealed_row(
                    self.alloc,
                    &mut self.pads,
                    self.first,
                    self.session,
                    self.seals,
                    values,
                )?;
                Ok(Request::Insert { table, bodies })
            }
            Act::Ask(ask) => Ok(Request::Query(asked(self.alloc, ask)?)),
        }
    }

    /// The request that the client sends next; none where its script has ended.
    pub(crate) fn request(&mut self) -> Result<Option<Request>, OutOfMemory>
        requires { Fits self.old }
        ensures wants { IfOk result (λ r. r ≡ wants (setting_in self.old) (client_in self.old)) }
        ensures stays { self.new ≡ self.old }
    {
        match self.doing {
            Doing::Opening => Ok(Some(Request::Begin)),
            Doing::Looking {
                table,
                column,
                constant,
                stop,
            } => Ok(Some(walk_step(constant, stop, table, column))),
            Doing::Acting => Ok(Some(self.act_request()?)),
            Doing::Closing => Ok(Some(last_request(piece_in(&self.script, self.place)))),
            Doing::Nothing => Ok(None),
        }
    }

    /// Whether every transaction of the script has ended.
    pub(crate) fn has_ended(&self) -> bool
        ensures { IsTrue result ↔ HasEnded (setting_in self.now) (client_in self.now) }
    {
        match self.doing {
            Doing::Nothing => true,
            _ => false,
        }
    }

    /// What the client wants of the server.
    pub(crate) fn want(&self) -> Want
        requires { Fits self.now }
        ensures { result ≡ wanted (client_in self.now) }
    {
        match self.doing {
            Doing::Opening => Want::Begin,
            Doing::Looking {
                table: _,
                column: _,
                constant: _,
                stop: _,
            } => Want::Walk,
            Doing::Acting => {
                let piece = piece_in(&self.script, self.place);
                if self.act < acts_in(piece).len() {
                    Want::Act
                } else {
                    last_want(piece)
                }
            }
            Doing::Closing => last_want(piece_in(&self.script, self.place)),
            Doing::Nothing => Want::Begin,
        }
    }

    /// Whether a reply is one to the request that the client wanted.
    fn fits_task(&self, reply: &Reply) -> bool
        requires { Fits self.now }
        ensures { result ≡ fits_first (client_in self.now).looking (client_in self.now).tasks reply.now }
    {
        match self.doing {
            Doing::Opening => opens_with(reply),
            Doing::Looking {
                table: _,
                column: _,
                constant,
                stop,
            } => leads_with(constant, stop, reply),
            Doing::Acting => act_fits_at(piece_in(&self.script, self.place), self.act, reply),
            Doing::Closing => last_fits(piece_in(&self.script, self.place), reply),
            Doing::Nothing => false,
        }
    }

    /// Whether the client allows a reply.
    pub(crate) fn allows(&self, reply: &Reply) -> bool
        requires { Fits self.now }
        ensures { result ≡ allowed (client_in self.now) reply.now }
    {
        self.fits_task(reply) && is_spelled(reply)
    }
}
