//! What a reply makes of a client.

ghost use Rattle.std.specs.Prelude.{◌≡◌, ◌≤◌, ◌<◌, ◌+◌, ◌∷◌, [], drop, length, true, suc, ◌^◌, IfSome, IfOk, OnOk};
ghost use Rattle.proxy.specs.Allowed.{allowed};
ghost use Rattle.proxy.specs.Client as client;
ghost use Rattle.proxy.specs.Standing.{Fits, Heard, GoesOn, EndsWith, AnswersWith, client_in, tasks_left, stop_in, acts_from, piece_at, rolls_back, IsRow, statement_in, index_limit};
ghost use Rattle.proxy.specs.Tasks.{acts_of, last_task};
ghost use Rattle.proxy.specs.declared.doing.Doing.TheVariants as doing;
ghost use Rattle.walk_proto.specs.declared.messages.Reply.TheVariants as reply;
ghost use Rattle.workload.specs.declared.script.End.TheVariants as end;

use crate::allowing::table_of;
use crate::constants::constant_at;
use crate::dialogue::{Dialogue, acts_in, opening_if, piece_in};
use crate::doing::{Doing, Stop};
use crate::opening::{answer_in, end_told};
use mope_base::{Body, ColNo, Items, OutOfMemory, TableNo};
use std::mem;
use walk_proto::Reply;
use workload::{Act, Answer, DoneTxn, End, Piece, Verb};

/// What is to be done from a statement of a transaction on, of which so many constants were taken up; with the constants
/// that are then taken up.
fn doing_at(piece: &Piece, act: usize, constant: usize) -> (Doing, usize)
    ensures tasks { tasks_left result.0 piece.now act result.1
        ≡ acts_from (drop act (acts_of piece.now)) constant (last_task piece.now ∷ []) }
    ensures stop { stop_in result.0 ≡ None }
{
    let acts = acts_in(piece);
    if act >= acts.len() {
        return (Doing::Closing, constant);
    }
    let statement = &acts[act];
    match constant_at(statement, constant) {
        Some((column, value)) => {
            let looking = Doing::Looking {
                table: table_of(statement),
                column,
                constant: value,
                stop: None,
            };
            (looking, constant + 1)
        }
        None => (Doing::Acting, constant),
    }
}

/// Whether a transaction is rolled back.
#[tactic(auto, unfolding(crate::specs::Standing::rolls_back))]
fn is_rolled_back(piece: &Piece) -> bool
    ensures { result ≡ rolls_back piece.now }
{
    match piece {
        Piece::Txn { acts: _, rollback } => *rollback,
        Piece::Rebuild {
            table: _,
            column: _,
        } => false,
    }
}

/// The stop one step below another, at the top where there is none.
#[tactic(auto, unfolding(crate::specs::Client::stop_below))]
fn stop_below(stop: Option<Stop>, value: u64) -> Stop
    requires { IfSome stop (λ above. above.steps < 255) }
    ensures { result ≡ client.stop_below stop value }
{
    match stop {
        None => Stop { steps: 0, value },
        Some(above) => Stop {
            steps: above.steps + 1,
            value,
        },
    }
}

impl Dialogue {
    /// Goes on from a statement of the transaction in hand, of which so many constants were taken up.
    fn go_on(&mut self, act: usize, constant: usize)
        requires { self.old.place < length self.old.script }
        ensures { GoesOn self.old self.new act constant }
    {
        let (doing, constant) = doing_at(piece_in(&self.script, self.place), act, constant);
        self.doing = doing;
        self.act = act;
        self.constant = constant;
    }

    /// The transaction begins from the version that a reply tells.
    fn begin(&mut self, reply: &Reply)
        requires fits { Fits self.old }
        requires opening { self.old.doing ≡ doing.Opening }
        ensures { Heard self.old self.new reply.now }
    {
        match reply {
            Reply::Ended {
                how: _,
                table: _,
                number,
            } => {
                self.base = *number;
                self.go_on(self.act, self.constant);
            }
            _ => {}
        }
    }

    /// The walk comes to an item.
    fn step_down(
        &mut self,
        table: TableNo,
        column: ColNo,
        constant: u64,
        stop: Option<Stop>,
        body: Body,
    )
        requires fits { Fits self.old }
        requires looking { self.old.doing ≡ doing.Looking table column constant stop }
        requires room { IfSome stop (λ above. above.steps < 255) }
        ensures { Heard self.old self.new (reply.Node body) }
    {
        let value = self.pads.unseal(body);
        self.doing = Doing::Looking {
            table,
            column,
            constant,
            stop: Some(stop_below(stop, value)),
        };
    }

    /// The walk goes on or has its place.
    fn lead(
        &mut self,
        table: TableNo,
        column: ColNo,
        constant: u64,
        stop: Option<Stop>,
        reply: &Reply,
    )
        requires fits { Fits self.old }
        requires looking { self.old.doing ≡ doing.Looking table column constant stop }
        requires allowed { allowed (client_in self.old) reply.now ≡ true }
        ensures { Heard self.old self.new reply.now }
    {
        match reply {
            Reply::Node(body) => self.step_down(table, column, constant, stop, *body),
            Reply::Placed => self.go_on(self.act, self.constant),
            _ => {}
        }
    }

    /// The transaction ends, after so many further values of it were sealed, and the next one is taken up, if there is one.
    fn end_with(&mut self, end: End, count: u32) -> Result<(), OutOfMemory>
        requires placed { self.old.place < length self.old.script }
        requires few { length self.old.script < 2 ^ 32 }
        requires room { self.old.seals + count < 2 ^ 32 }
        ensures { OnOk result (EndsWith self.old self.new end count) }
    {
        let answers = mem::replace(&mut self.answers, Items::new(self.alloc));
        let place = (self.place + 1) as u32;
        self.done.push(DoneTxn {
            session: self.session,
            place,
            base: self.base,
            end,
            answers,
        })?;
        self.place += 1;
        let next = opening_if(self.place < self.script.as_slice().len());
        self.doing = next;
        self.act = 0;
        self.constant = 0;
        self.base = 0;
        self.seals += count;
        Ok(())
    }

    /// The server tells how the transaction ended.
    fn take_end(&mut self, reply: &Reply) -> Result<(), OutOfMemory>
        requires fits { Fits self.old }
        requires tasks { (client_in self.old).tasks ≡ last_task (piece_at self.old.script self.old.place) ∷ [] }
        ensures { OnOk result (Heard self.old self.new reply.now) }
    {
        match reply {
            Reply::Ended { how, table, number } => {
                let rollback = is_rolled_back(piece_in(&self.script, self.place));
                self.end_with(end_told(rollback, *how, *table, *number), 0)
            }
            _ => Ok(()),
        }
    }

    /// The statement in hand is answered, after so many values of it were sealed.
    fn answered(&mut self, answer: Answer, count: u32) -> Result<(), OutOfMemory>
        requires placed { self.old.place < length self.old.script }
        requires room { self.old.seals + count < 2 ^ 32 }
        requires more { self.old.act < index_limit }
        ensures { OnOk result (AnswersWith self.old self.new answer count) }
    {
        self.answers.push(answer)?;
        self.seals += count;
        self.go_on(self.act + 1, 0);
        Ok(())
    }

    /// The server answers the statement in hand.
    fn take_answer(&mut self, reply: &Reply) -> Result<(), OutOfMemory>
        requires fits { Fits self.old }
        requires acting { self.old.doing ≡ doing.Acting }
        ensures { OnOk result (Heard self.old self.new reply.now) }
    {
        let acts = acts_in(piece_in(&self.script, self.place));
        if self.act >= acts.len() {
            return self.take_end(reply);
        }
        match &acts[self.act] {
            Act::Insert { table, values } => {
                let table = *table;
                let count = values.as_slice().len() as u32;
                self.take_row(table, count, reply)
            }
            Act::Ask(ask) => match answer_in(self.alloc, &mut self.pads, &ask.verb, reply)? {
                Some(answer) => self.answered(answer, 0),
                None => Ok(()),
            },
        }
    }

    /// The server answers an INSERT of so many values.
    fn take_row(&mut self, table: TableNo, count: u32, reply: &Reply) -> Result<(), OutOfMemory>
        requires fits { Fits self.old }
        requires acting { self.old.doing ≡ doing.Acting }
        requires row { IsRow table count (statement_in self.old) }
        requires more { self.old.act < index_limit }
        ensures { OnOk result (Heard self.old self.new reply.now) }
    {
        match reply {
            Reply::Count(_) => self.answered(Answer::Inserted, count),
            Reply::No { code: _, value: _ } => self.end_with(End::Full(table), count),
            _ => Ok(()),
        }
    }

    /// Takes in a reply that the client allows.
    pub(crate) fn take_in(&mut self, reply: &Reply) -> Result<(), OutOfMemory>
        requires fits { Fits self.old }
        requires allowed { allowed (client_in self.old) reply.now ≡ true }
        ensures { OnOk result (Heard self.old self.new reply.now) }
    {
        match self.doing {
            Doing::Opening => {
                self.begin(reply);
                Ok(())
            }
            Doing::Looking {
                table,
                column,
                constant,
                stop,
            } => {
                self.lead(table, column, constant, stop, reply);
                Ok(())
            }
            Doing::Acting => self.take_answer(reply),
            Doing::Closing => self.take_end(reply),
            Doing::Nothing => Ok(()),
        }
    }
}
