//! The seat of a session: its client and its connection, and the exchanges between them.
ghost use Rattle.std.specs.Prelude.{◌≡◌, ◌++◌, ◌∷◌, [], List, IfOk, None, OnOk, Some, false, true};
ghost use Rattle.mope_base.specs.declared.numbers.SessionNo.{SessionNo as NoOfSession};
ghost use Rattle.proxy.specs.Party.{finished, waits};
ghost use Rattle.proxy.specs.declared.outcomes.Step.TheVariants.{Done, Send, Strange};
ghost use Rattle.proxy.specs.declared.outcomes.Want.{Want as Wanted};
ghost use Rattle.server_conn.specs.Handling.{receipt_for, running};
ghost use Rattle.server_conn.specs.Serving.{serve};
ghost use Rattle.server_conn.specs.declared.receipt.Receipt.{Receipt as Shown};
ghost use Rattle.step_core.specs.Inside.{IsSaid, sitting_of};
ghost use Rattle.step_core.specs.Outcomes.{Outcome, outcome};
ghost use Rattle.step_core.specs.Sittings.{AsksOn, CanGo, HasFinished, IsOpen, Went, finished_of};
ghost use Rattle.versions.specs.Turns.{replay};
ghost use Rattle.walk_proto.specs.Rules.{IsReply, IsRequest};
ghost use Rattle.walk_proto.specs.declared.messages.Reply.{Reply as Said};
ghost use Rattle.walk_proto.specs.declared.messages.Request.{Request as Asks};

use crate::turning::settle;
use mope_base::{OutOfMemory, SessionNo};
use proxy::{Finished, Proxy, Step};
use server_conn::{Conn, Receipt, Watch};
use std::alloc::Global;
use std::mem;
use txn_core::State;
use walk_proto::{Reply, Request, WireStop, read_reply, write_reply, write_request};

/// A session's client and its connection, and what the client said last.
#[derive(Drop)]
pub(crate) struct Seat {
    pub(crate) session: SessionNo,
    pub(crate) proxy: Proxy,
    pub(crate) conn: Conn,
    pub(crate) said: Step,
}

/// What a reply is to the one who reads its bytes.
fn carried(alloc: Global, reply: &Reply) -> Result<Reply, OutOfMemory>
    requires { IsReply reply.now }
    ensures { IfOk result (λ read. read ≡ reply.now) }
{
    let bytes = write_reply(alloc, reply)?;
    match read_reply(alloc, bytes.as_slice()) {
        Ok(reply) => Ok(reply),
        Err(WireStop::OutOfMemory) => Err(OutOfMemory),
        Err(_) => unreachable!(),
    }
}

/// What a connection answers to a request, over bytes and with the turn that it waits for.
fn answer(
    alloc: Global,
    state: &mut State,
    session: SessionNo,
    conn: &mut Conn,
    request: &Request,
) -> Result<Receipt, OutOfMemory>
    requires readable { IsRequest request.now }
    requires asks { AsksOn state.old (serve request.now conn.old.conn).served (serve request.now conn.old.conn).conn }
    ensures receipt { (came : Outcome) → outcome session state.old.current request.now conn.old.conn ≡ Some came
        → IfOk result (λ given. given ≡ receipt_for (Some request.now) came.reply) }
    ensures conn { (came : Outcome) → outcome session state.old.current request.now conn.old.conn ≡ Some came
        → OnOk result (conn.new ≡ running came.conn) }
    ensures turns { (came : Outcome) → outcome session state.old.current request.now conn.old.conn ≡ Some came
        → OnOk result (state.new.turns ≡ state.old.turns ++ came.turns) }
    ensures current { (came : Outcome) → outcome session state.old.current request.now conn.old.conn ≡ Some came
        → OnOk result (state.new.current ≡ replay came.turns state.old.current) }
    ensures first { (came : Outcome) → outcome session state.old.current request.now conn.old.conn ≡ Some came
        → OnOk result (state.new.first ≡ state.old.first) }
{
    let bytes = write_request(alloc, request)?;
    let served = conn.serve_bytes(bytes.as_slice())?;
    let receipt = settle(state, session, conn, served)?;
    Ok(receipt)
}

/// Takes the request that was said: `None` where the script has ended.
fn take_request(said: &mut Step) -> Option<Request>
    requires { (want : Wanted) (got : Said) → said.old ≡ Strange want got → ⊥ }
    ensures sends { (r : Asks) → said.old ≡ Send r → result ≡ Some r }
    ensures done { said.old ≡ Done → result ≡ None }
    ensures left { said.new ≡ Done }
{
    match mem::replace(said, Step::Done) {
        Step::Send(request) => Some(request),
        Step::Done => None,
        Step::Strange { want: _, got: _ } => unreachable!(),
    }
}

impl Seat {
    /// Sends a request, and hears the reply. The watch is shown the exchange.
    fn send<H: Watch>(
        &mut self,
        alloc: Global,
        state: &mut State,
        watch: &mut H,
        request: &Request,
    ) -> Result<(), OutOfMemory>
        requires { (came : Outcome) × CanGo self.old.session state.old (sitting_of self.old) request.now came }
        ensures session { OnOk result (self.new.session ≡ self.old.session) }
        ensures said { OnOk result (IsSaid self.new) }
        ensures went { (came : Outcome) → outcome self.old.session state.old.current request.now self.old.conn.conn ≡ Some came
            → OnOk result (Went state.old state.new (sitting_of self.old) (sitting_of self.new) came) }
        ensures shows { (came : Outcome) → outcome self.old.session state.old.current request.now self.old.conn.conn ≡ Some came
            → OnOk result ((earlier : List (NoOfSession × Shown)) → H.tells watch.old earlier → H.tells watch.new (earlier ++ (self.old.session, receipt_for (Some request.now) came.reply) ∷ [])) }
    {
        let receipt = answer(alloc, state, self.session, &mut self.conn, request)?;
        let reply = carried(alloc, receipt.reply())?;
        self.said = self.proxy.next(Some(&reply))?;
        watch.saw(self.session, receipt)?;
        Ok(())
    }

    /// One exchange: `false` where the client has ended. The watch is shown it.
    pub(crate) fn exchange<H: Watch>(
        &mut self,
        alloc: Global,
        state: &mut State,
        watch: &mut H,
    ) -> Result<bool, OutOfMemory>
        requires open { IsOpen self.old.session state.old (sitting_of self.old) }
        requires said { IsSaid self.old }
        ensures session { OnOk result (self.new.session ≡ self.old.session) }
        ensures said { OnOk result (IsSaid self.new) }
        ensures sent { (r : Asks) → self.old.proxy.phase ≡ waits r → IfOk result (λ went. went ≡ true) }
        ensures went { (r : Asks) (came : Outcome) → self.old.proxy.phase ≡ waits r → outcome self.old.session state.old.current r self.old.conn.conn ≡ Some came
            → OnOk result (Went state.old state.new (sitting_of self.old) (sitting_of self.new) came) }
        ensures shows { (r : Asks) (came : Outcome) → self.old.proxy.phase ≡ waits r → outcome self.old.session state.old.current r self.old.conn.conn ≡ Some came
            → OnOk result ((earlier : List (NoOfSession × Shown)) → H.tells watch.old earlier → H.tells watch.new (earlier ++ (self.old.session, receipt_for (Some r) came.reply) ∷ [])) }
        ensures ended { self.old.proxy.phase ≡ finished → IfOk result (λ went. went ≡ false) }
        ensures unchanged { self.old.proxy.phase ≡ finished → (self.new ≡ self.old) × (state.new ≡ state.old) }
        ensures silent { self.old.proxy.phase ≡ finished → (earlier : List (NoOfSession × Shown)) → H.tells watch.old earlier → H.tells watch.new earlier }
    {
        match take_request(&mut self.said) {
            None => Ok(false),
            Some(request) => {
                self.send(alloc, state, watch, &request)?;
                Ok(true)
            }
        }
    }

    /// What its script came to.
    pub(crate) fn finish(self) -> Finished
        requires { HasFinished (sitting_of self) }
        ensures { result ≡ finished_of (sitting_of self) }
    {
        let Seat {
            session: _,
            proxy,
            conn: _,
            said: _,
        } = self;
        proxy.finish()
    }
}
