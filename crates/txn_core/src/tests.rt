//! Tests of turns on a state, with operations written by hand. There is one table, of one column.
ghost use Rattle.mope_base.specs.declared.body.Body.{Body as TheBody};
ghost use Rattle.std.specs.Prelude.{◌≡◌, ◌<◌, [], ◌∷◌, IfOk, length, true};
ghost use Rattle.table_model.specs.Operations.{InsertAt};
ghost use Rattle.tree_model.specs.declared.Place.TheVariants.{Gap};
ghost use Rattle.txn_core.specs.Courses.{IsPast};
ghost use Rattle.versions.specs.Databases.{Database, table_at};
ghost use Rattle.versions.specs.Operations.{HasColumn, OpsFit, rank_ops};

use super::*;
use mope_base::{Body, ColNo, Items, Mode, OutOfMemory, SessionNo, TableNo};
use std::alloc::Global;
use versions::{Op, Place, Table, Version};

const TABLE: TableNo = TableNo(0);

const COLUMN: ColNo = ColNo(0);

fn started(alloc: Global) -> Result<State, OutOfMemory> {
    let first = Version::first(alloc, &[1], Mode::Ordinary, 65536)?;
    let state = State::new(alloc, first)?;
    Ok(state)
}

fn begin(state: &mut State, session: u8) -> Result<Snapshot, OutOfMemory>
    ensures past { IfOk result (λ snapshot. IsPast state.new snapshot) }
    ensures later { (past : Database) → IsPast state.old past → IsPast state.new past }
{
    let snapshot = state.begin(SessionNo(session))?;
    Ok(snapshot)
}

// The one operation that inserts a value after so many others.
fn one_row(alloc: Global, rank: u32) -> Result<Op, OutOfMemory>
    ensures { IfOk result (λ op. (body : TheBody) × (rank_ops (op ∷ []) ≡ InsertAt 0 (Gap rank ∷ []) (body ∷ []) ∷ [])) }
{
    let place = Place::Gap(rank);
    let body = Body {
        nonce: 0,
        masked: u64::from(rank),
    };
    let places = Vec::from_slice(alloc, &[place])?;
    let bodies = Vec::from_slice(alloc, &[body])?;
    Ok(Op::Insert {
        table: TABLE,
        places: Items::from_vec(places),
        bodies: Items::from_vec(bodies),
    })
}

fn table_takes_row(table: &Table, rank: u32) -> bool
    ensures { result ≡ true → (d : Database) → table.now ≡ table_at d 0 → 0 < length d.shelves → (body : TheBody) → OpsFit (InsertAt 0 (Gap rank ∷ []) (body ∷ []) ∷ []) d }
{
    match table.tree(COLUMN) {
        None => false,
        Some(tree) => {
            if table.columns() != 1 {
                return false;
            }
            if tree.len() < rank {
                return false;
            }
            !table.full()
        }
    }
}

// Whether a row with a value after so many others fits the table.
fn takes_row(version: &Version, rank: u32) -> bool
    ensures { result ≡ true → (body : TheBody) → OpsFit (InsertAt 0 (Gap rank ∷ []) (body ∷ []) ∷ []) version.now }
{
    match version.table(TABLE) {
        None => false,
        Some(table) => table_takes_row(table, rank),
    }
}

// A transaction that inserts a value after so many others. Where that doesn't fit there is none.
fn commit_row(
    alloc: Global,
    state: &mut State,
    session: u8,
    base: &Snapshot,
    rank: u32,
) -> Result<Option<Committed>, OutOfMemory>
    requires { IsPast state.old base.now }
    ensures later { (past : Database) → IsPast state.old past → IsPast state.new past }
{
    if !takes_row(base.version(), rank) {
        return Ok(None);
    }
    let op = one_row(alloc, rank)?;
    let ending = Ending {
        base,
        touched: &[TABLE],
        ops: &[op],
    };
    let committed = state.commit(SessionNo(session), ending)?;
    Ok(Some(committed))
}

fn has_column(version: &Version) -> bool
    ensures { result ≡ true → HasColumn 0 0 version.now }
{
    match version.table(TABLE) {
        None => false,
        Some(table) => table.tree(COLUMN).is_some(),
    }
}

// The column's tree is balanced, if there is that column.
fn rebuild(
    state: &mut State,
    session: u8,
    base: &Snapshot,
) -> Result<Option<Installed>, OutOfMemory>
    requires { IsPast state.old base.now }
    ensures later { (past : Database) → IsPast state.old past → IsPast state.new past }
{
    if !has_column(base.version()) {
        return Ok(None);
    }
    let installed = state.install(SessionNo(session), base, TABLE, COLUMN)?;
    Ok(Some(installed))
}

// Of two transactions on one table and version, the second to end conflicts with the first, and each took two turns.
#[test]
fn first_commit_wins(rt: HostRuntime) -> Result<(), OutOfMemory> {
    let mut state = started(rt.alloc())?;
    let one = begin(&mut state, 1)?;
    let two = begin(&mut state, 2)?;
    let first = commit_row(rt.alloc(), &mut state, 1, &one, 0)?;
    assert_eq!(rt; first, Some(Committed::Committed(1)));
    let second = commit_row(rt.alloc(), &mut state, 2, &two, 0)?;
    assert_eq!(rt;
        second,
        Some(Committed::Conflict {
            table: TABLE,
            number: 1
        })
    );
    assert_eq!(rt; state.turns().len(), 4);
    assert_eq!(rt; state.snapshot().version().number(), 1);
    Ok(())
}

// A rebuild that began before a commit on its table is stale.
#[test]
fn stale_rebuild(rt: HostRuntime) -> Result<(), OutOfMemory> {
    let mut state = started(rt.alloc())?;
    let one = begin(&mut state, 1)?;
    let two = begin(&mut state, 2)?;
    let commit = commit_row(rt.alloc(), &mut state, 2, &two, 0)?;
    assert_eq!(rt; commit, Some(Committed::Committed(1)));
    let install = rebuild(&mut state, 1, &one)?;
    assert_eq!(rt;
        install,
        Some(Installed::Stale {
            table: TABLE,
            number: 1
        })
    );
    assert_eq!(rt; state.turns().len(), 4);
    assert_eq!(rt; state.snapshot().version().number(), 1);
    Ok(())
}

// A transaction that began before an install commits after it, and its row has a code of the tree that the install made.
#[test]
fn commit_across_install(rt: HostRuntime) -> Result<(), OutOfMemory> {
    let mut state = started(rt.alloc())?;
    let one = begin(&mut state, 1)?;
    let first = commit_row(rt.alloc(), &mut state, 1, &one, 0)?;
    assert_eq!(rt; first, Some(Committed::Committed(1)));
    let two = begin(&mut state, 1)?;
    let second = commit_row(rt.alloc(), &mut state, 1, &two, 1)?;
    assert_eq!(rt; second, Some(Committed::Committed(2)));
    let three = begin(&mut state, 1)?;
    let other = begin(&mut state, 2)?;
    let install = rebuild(&mut state, 2, &other)?;
    assert_eq!(rt; install, Some(Installed::Installed(3)));
    let third = commit_row(rt.alloc(), &mut state, 1, &three, 2)?;
    assert_eq!(rt; third, Some(Committed::Committed(4)));
    assert_eq!(rt; state.turns().len(), 8);
    assert_eq!(rt; only_code_added(state.turns()), Some(0xc000_0000_0000_0000));
    Ok(())
}

// The code that the last turn added, if that is all that it did.
fn only_code_added(turns: &[Turn]) -> Option<u64> {
    let [.., last] = turns else {
        return None;
    };
    let [change] = last.changes.as_slice() else {
        return None;
    };
    let summary = &change.summary;
    if !summary.moved().is_empty() || !summary.dropped().is_empty() {
        return None;
    }
    match summary.added() {
        [code] => Some(*code),
        _ => None,
    }
}

// What a snapshot shows: its number, and of its table how many rows and items it has.
fn shown(snapshot: &Snapshot) -> Option<(u64, usize, u32)> {
    let version = snapshot.version();
    let table = version.table(TABLE)?;
    let tree = table.tree(COLUMN)?;
    Some((version.number(), table.rows(), tree.len()))
}

// Commits a value after so many others, in a transaction of its own.
fn commit_alone(
    alloc: Global,
    state: &mut State,
    rank: u32,
) -> Result<Option<Committed>, OutOfMemory> {
    let base = begin(state, 1)?;
    commit_row(alloc, state, 1, &base, rank)
}

// Balances the column's tree, in a turn of its own.
fn rebuild_alone(state: &mut State) -> Result<Option<Installed>, OutOfMemory> {
    let base = begin(state, 3)?;
    rebuild(state, 3, &base)
}

// A snapshot stays as it was while ten commits and two installs go on.
#[test]
fn snapshot_stays(rt: HostRuntime) -> Result<(), OutOfMemory> {
    let mut state = started(rt.alloc())?;
    let first = commit_alone(rt.alloc(), &mut state, 0)?;
    assert_eq!(rt; first, Some(Committed::Committed(1)));
    let kept = begin(&mut state, 2)?;
    for rank in 1..11 {
        let commit = commit_alone(rt.alloc(), &mut state, rank)?;
        assert!(rt; matches!(commit, Some(Committed::Committed(_))));
        if rank % 4 == 0 {
            let install = rebuild_alone(&mut state)?;
            assert!(rt; matches!(install, Some(Installed::Installed(_))));
        }
        assert_eq!(rt; shown(&kept), Some((1, 1, 1)));
    }
    assert_eq!(rt; shown(state.snapshot()), Some((13, 11, 11)));
    Ok(())
}
