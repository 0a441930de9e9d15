//! The turns that connections wait for, taken on the state.
ghost use Rattle.std.specs.Prelude.{◌≡◌, ◌++◌, ◌∷◌, [], IfOk, OnOk};
ghost use Rattle.server_conn.specs.Connections.{Held, Served as Came, awaits, begins, commit, install};
ghost use Rattle.server_conn.specs.Handling.{CanEnd, handed};
ghost use Rattle.step_core.specs.Outcomes.{Settles, TakesTurn, reply_for};
ghost use Rattle.step_core.specs.Sittings.{AsksOn};
ghost use Rattle.txn_core.specs.Courses.{IsPast};
ghost use Rattle.txn_core.specs.Outcomes.{commit_kind, install_kind, turn_on};
ghost use Rattle.versions.specs.Turns.{after_turn};
ghost use Rattle.versions.specs.declared.turn.TurnKind.TheVariants.{Began};
ghost use Rattle.walk_proto.specs.declared.messages.Reply.TheVariants.{Ended};
ghost use Rattle.walk_proto.specs.declared.messages.Request.{Request as Asks};

use mope_base::{ColNo, OutOfMemory, SessionNo, TableNo};
use server_conn::{Conn, Receipt, Served};
use txn_core::{Committed, Installed, State};
use walk_proto::How;

/// The transaction of a connection begins on the current version.
fn take_begin(
    state: &mut State,
    session: SessionNo,
    conn: &mut Conn,
) -> Result<Receipt, OutOfMemory>
    requires { conn.old.conn ≡ begins }
    ensures { IfOk result (λ given. TakesTurn session (Began state.old.current.number) conn.old.conn state.old state.new conn.new given) }
{
    let snapshot = state.begin(session)?;
    Ok(conn.began(snapshot))
}

/// How the transaction of a connection commits: how, the table and the number that its reply tells.
fn commit_on(
    state: &mut State,
    session: SessionNo,
    conn: &Conn,
) -> Result<(How, u8, u64), OutOfMemory>
    requires { (h : Held) × (conn.now.conn ≡ awaits h commit) × IsPast state.old h.base }
    ensures ends { IfOk result (λ end. CanEnd conn.now.conn end.0 end.1) }
    ensures tells { (h : Held) → conn.now.conn ≡ awaits h commit
        → IfOk result (λ end. Ended end.0 end.1 end.2 ≡ reply_for (commit_kind state.old.current h.base.number h.touched h.ops)) }
    ensures turn { (h : Held) → conn.now.conn ≡ awaits h commit
        → OnOk result (state.new.turns ≡ state.old.turns ++ turn_on session (commit_kind state.old.current h.base.number h.touched h.ops) state.old.current ∷ []) }
    ensures current { (h : Held) → conn.now.conn ≡ awaits h commit
        → OnOk result (state.new.current ≡ after_turn (commit_kind state.old.current h.base.number h.touched h.ops) state.old.current) }
    ensures first { state.new.first ≡ state.old.first }
{
    match conn.ending() {
        None => unreachable!(),
        Some(ending) => match state.commit(session, ending)? {
            Committed::Committed(number) => Ok((How::Committed, 0, number)),
            Committed::Conflict { table, number } => Ok((How::Conflict, table.0, number)),
        },
    }
}

/// The transaction of a connection commits.
fn take_commit(
    state: &mut State,
    session: SessionNo,
    conn: &mut Conn,
) -> Result<Receipt, OutOfMemory>
    requires { (h : Held) × (conn.old.conn ≡ awaits h commit) × IsPast state.old h.base }
    ensures { (h : Held) → conn.old.conn ≡ awaits h commit
        → IfOk result (λ given. TakesTurn session (commit_kind state.old.current h.base.number h.touched h.ops) conn.old.conn state.old state.new conn.new given) }
{
    let (how, table, number) = commit_on(state, session, conn)?;
    Ok(conn.ended(how, table, number))
}

/// How a column's tree that a connection waits for is balanced.
fn install_on(
    state: &mut State,
    session: SessionNo,
    conn: &Conn,
    table: TableNo,
    column: ColNo,
) -> Result<(How, u8, u64), OutOfMemory>
    requires { (h : Held) × (conn.now.conn ≡ awaits h (install table column)) × IsPast state.old h.base }
    ensures ends { IfOk result (λ end. CanEnd conn.now.conn end.0 end.1) }
    ensures tells { (h : Held) → conn.now.conn ≡ awaits h (install table column)
        → IfOk result (λ end. Ended end.0 end.1 end.2 ≡ reply_for (install_kind state.old.current h.base.number table column)) }
    ensures turn { (h : Held) → conn.now.conn ≡ awaits h (install table column)
        → OnOk result (state.new.turns ≡ state.old.turns ++ turn_on session (install_kind state.old.current h.base.number table column) state.old.current ∷ []) }
    ensures current { (h : Held) → conn.now.conn ≡ awaits h (install table column)
        → OnOk result (state.new.current ≡ after_turn (install_kind state.old.current h.base.number table column) state.old.current) }
    ensures first { state.new.first ≡ state.old.first }
{
    match conn.ending() {
        None => unreachable!(),
        Some(ending) => match state.install(session, ending.base, table, column)? {
            Installed::Installed(number) => Ok((How::Installed, 0, number)),
            Installed::Stale { table, number } => Ok((How::Stale, table.0, number)),
        },
    }
}

/// A column's tree is balanced.
fn take_install(
    state: &mut State,
    session: SessionNo,
    conn: &mut Conn,
    table: TableNo,
    column: ColNo,
) -> Result<Receipt, OutOfMemory>
    requires { (h : Held) × (conn.old.conn ≡ awaits h (install table column)) × IsPast state.old h.base }
    ensures { (h : Held) → conn.old.conn ≡ awaits h (install table column)
        → IfOk result (λ given. TakesTurn session (install_kind state.old.current h.base.number table column) conn.old.conn state.old state.new conn.new given) }
{
    let (how, table, number) = install_on(state, session, conn, table, column)?;
    Ok(conn.ended(how, table, number))
}

/// What a connection answers at last: the turn that it waits for, if it waits for one, is taken on the state.
pub(crate) fn settle(
    state: &mut State,
    session: SessionNo,
    conn: &mut Conn,
    served: Served,
) -> Result<Receipt, OutOfMemory>
    requires { (r : Asks) × (came : Came) × (served ≡ handed r came) × AsksOn state.old came conn.old.conn }
    ensures { IfOk result (λ given. Settles session served conn.old conn.new state.old state.new given) }
{
    match served {
        Served::Reply(receipt) => Ok(receipt),
        Served::Begin => Ok(take_begin(state, session, conn)?),
        Served::Commit => Ok(take_commit(state, session, conn)?),
        Served::Install { table, column } => {
            Ok(take_install(state, session, conn, table, column)?)
        }
    }
}
