//! How a run starts: the first version, and each session's seat.
ghost use Rattle.std.specs.Prelude.{◌≡◌, ◌≤◌, ◌<◌, ◌^◌, [], IfOk, length, map};
ghost use Rattle.std.specs.List.{sum_by};
ghost use Rattle.mope_base.specs.Lists.{Each};
ghost use Rattle.mope_base.specs.Modes.{is_same_time};
ghost use Rattle.step_core.specs.Inside.{AreNumbered, IsSaid, sitting_of};
ghost use Rattle.step_core.specs.Sittings.{IsNarrow, IsShort, first_sitting, first_sittings};
ghost use Rattle.versions.specs.Databases.{first_database};
ghost use Rattle.workload.specs.PlainDatabase.{row_limit};
ghost use Rattle.workload.specs.Validity.{numbers_inserted};
ghost use Rattle.workload.specs.declared.script.Decl.{Decl as Declared};

use crate::scripts::copy_script;
use crate::seat::Seat;
use mope_base::{Items, OutOfMemory, SessionNo};
use proxy::{Proxy, Settings};
use server_conn::Conn;
use std::alloc::Global;
use txn_core::State;
use versions::Version;
use workload::{Decl, Piece};

/// The most rows of a table.
const ROW_LIMIT: u32 = 65_536;

/// How many columns each table has.
fn widths(alloc: Global, tables: &[Decl]) -> Result<Vec<u8>, OutOfMemory>
    requires { Each IsNarrow tables.now }
    ensures { IfOk result (λ widths. widths.items ≡ map (λ (d : Declared). length d.columns) tables.now) }
{
    let mut widths = Vec::new(alloc);
    'tables: for i in 0..tables.len() {
        widths.push(tables[i].columns.as_slice().len() as u8)?;
    }
    Ok(widths)
}

/// The state before the first turn: the declared tables, without rows.
pub(crate) fn first_state(
    alloc: Global,
    tables: &[Decl],
    settings: Settings,
) -> Result<State, OutOfMemory>
    requires few { length tables.now ≤ 16 }
    requires narrow { Each IsNarrow tables.now }
    ensures first { IfOk result (λ state. state.first ≡ first_database (map (λ (d : Declared). length d.columns) tables.now) (is_same_time settings.mode) row_limit) }
    ensures turns { IfOk result (λ state. state.turns ≡ []) }
    ensures current { IfOk result (λ state. state.current ≡ state.first) }
{
    let widths = widths(alloc, tables)?;
    let first = Version::first(alloc, widths.as_slice(), settings.mode, ROW_LIMIT)?;
    State::new(alloc, first)
}

/// The seat of a session before its first exchange.
fn first_seat(
    alloc: Global,
    settings: Settings,
    session: SessionNo,
    script: &[Piece],
) -> Result<Seat, OutOfMemory>
    requires first { settings.first ≤ 2 ^ 63 }
    requires session_from { 1 ≤ session.0 }
    requires session_to { session.0 ≤ 64 }
    requires pieces { length script.now < 2 ^ 32 }
    requires numbers { sum_by numbers_inserted script.now < 2 ^ 32 }
    ensures sitting { IfOk result (λ seat. sitting_of seat ≡ first_sitting settings session script.now) }
    ensures session { IfOk result (λ seat. seat.session ≡ session) }
    ensures said { IfOk result (λ seat. IsSaid seat) }
{
    let script = copy_script(alloc, script)?;
    let mut proxy = Proxy::new(alloc, settings, session, script);
    let said = proxy.next(None)?;
    Ok(Seat {
        session,
        proxy,
        conn: Conn::new(alloc),
        said,
    })
}

/// The seats of all sessions before their first exchanges; the sessions are numbered from 1.
pub(crate) fn first_seats(
    alloc: Global,
    settings: Settings,
    scripts: &[Items<Piece>],
) -> Result<Vec<Seat>, OutOfMemory>
    requires first { settings.first ≤ 2 ^ 63 }
    requires many { length scripts.now ≤ 64 }
    requires short { Each IsShort scripts.now }
    ensures sittings { IfOk result (λ seats. map sitting_of seats.items ≡ first_sittings settings 1 scripts.now) }
    ensures numbered { IfOk result (λ seats. AreNumbered 1 seats.items) }
{
    let mut seats = Vec::new(alloc);
    'sessions: for i in 0..scripts.len() {
        let session = SessionNo(i as u8 + 1);
        let seat = first_seat(alloc, settings, session, scripts[i].as_slice())?;
        seats.push(seat)?;
    }
    Ok(seats)
}
