//! The public calls with ample memory, and worked examples on versions of one table with one column.
ghost use Rattle.std.specs.Prelude.{◌≡◌, ◌<◌, ◌^◌, [], ◌∷◌, IfOk, IsTrue, length, true};
ghost use Rattle.table_model.specs.Fitting.{AllAmong};
ghost use Rattle.table_model.specs.Operations.{shelf_at};
ghost use Rattle.table_model.specs.Soundness.{column_at, kept_numbers};
ghost use Rattle.tree_model.specs.Places.{holds};
ghost use Rattle.tree_model.specs.Trees.{IsPlaceOf, size};

use crate::{
    Body, ColNo, ColumnChange, Items, Mode, Op, OutOfMemory, Place, Snapshot, Stamps, Table,
    TableNo, Version, apply_ops, apply_rebuild,
};
use path_code::Recode;
use std::alloc::Global;

/// The limit of rows of the tests' tables: few, since each row is a commit of its own.
const LIMIT: u32 = 1_024;

/// A list of one element.
fn one<T: Drop>(alloc: Global, x: T) -> Result<Items<T>, OutOfMemory>
    ensures { IfOk result (λ items. items ≡ x ∷ []) }
{
    let mut items = Items::new(alloc);
    items.push(x)?;
    Ok(items)
}

/// Whether a place is one of a tree of so many items.
fn is_place(place: Place, len: u32) -> bool
    ensures { result ≡ true → IsPlaceOf len place }
{
    match place {
        Place::Found(rank) => rank < len,
        Place::Gap(rank) => rank <= len,
    }
}

/// Whether a version's first table has one column and room for one row more, and a place is one of the column's tree.
fn has_place(version: &Version, place: Place) -> bool
    ensures there { result ≡ true → 0 < length version.now.shelves }
    ensures column { result ≡ true → length (shelf_at version.now.shelves 0).columns ≡ 1 }
    ensures placed { result ≡ true → IsPlaceOf (size (column_at (shelf_at version.now.shelves 0).columns 0).tree) place }
    ensures room { result ≡ true → length (shelf_at version.now.shelves 0).kept < version.now.limit }
    ensures row { result ≡ true → (shelf_at version.now.shelves 0).next < 2 ^ 63 }
    ensures number { result ≡ true → version.now.number < 2 ^ 63 }
{
    let Some(table) = version.table(TableNo(0)) else {
        return false;
    };
    let Some(tree) = table.tree(ColNo(0)) else {
        return false;
    };
    if table.columns() != 1 || table.full() || version.number() >= 1 << 63 {
        return false;
    }
    is_place(place, tree.len())
}

/// The version after a commit of one row, and what changed. A place that isn't one ends the test.
fn put(
    alloc: Global,
    version: &Version,
    place: Place,
    value: u64,
) -> Result<(Version, Items<ColumnChange>), OutOfMemory> {
    if !has_place(version, place) {
        return Err(OutOfMemory);
    }
    let body = Body {
        nonce: 0,
        masked: value,
    };
    let op = Op::Insert {
        table: TableNo(0),
        places: one(alloc, place)?,
        bodies: one(alloc, body)?,
    };
    let ops = one(alloc, op)?;
    apply_ops(alloc, version, ops.as_slice())
}

/// Whether a table has the row of a number.
fn has_row(table: &Table, row: u64) -> bool
    ensures { result ≡ true → holds row (kept_numbers table.now.shelf.kept) ≡ true }
{
    table.position(row).is_some()
}

/// Whether a version's first table has the rows 1, 2 and 3.
fn has_three(version: &Version) -> bool
    ensures there { result ≡ true → 0 < length version.now.shelves }
    ensures rows { result ≡ true → AllAmong (kept_numbers (shelf_at version.now.shelves 0).kept) (1 ∷ 2 ∷ 3 ∷ []) }
    ensures number { result ≡ true → version.now.number < 2 ^ 63 }
{
    let Some(table) = version.table(TableNo(0)) else {
        return false;
    };
    if !has_row(table, 1) || !has_row(table, 2) || !has_row(table, 3) {
        return false;
    }
    version.number() < 1 << 63
}

/// The version after a commit that takes the rows 1, 2 and 3, and what changed. Where one isn't there the test ends.
fn take_three(
    alloc: Global,
    version: &Version,
) -> Result<(Version, Items<ColumnChange>), OutOfMemory> {
    if !has_three(version) {
        return Err(OutOfMemory);
    }
    let mut rows = Items::new(alloc);
    rows.push(1)?;
    rows.push(2)?;
    rows.push(3)?;
    let op = Op::Delete {
        table: TableNo(0),
        rows,
    };
    let ops = one(alloc, op)?;
    apply_ops(alloc, version, ops.as_slice())
}

/// The version after an install, and what changed. Where there is no table the test ends.
fn lay(alloc: Global, version: &Version) -> Result<(Version, Items<ColumnChange>), OutOfMemory> {
    let Some(table) = version.table(TableNo(0)) else {
        return Err(OutOfMemory);
    };
    if table.columns() == 0 || version.number() >= 1 << 63 {
        return Err(OutOfMemory);
    }
    apply_rebuild(alloc, version, TableNo(0), ColNo(0))
}

/// A version with so many increasing values, each by a commit of its own.
fn ascending(alloc: Global, mode: Mode, rows: u32) -> Result<Version, OutOfMemory> {
    let mut version = Version::first(alloc, &[1], mode, LIMIT)?;
    'rows: for row in 0..rows {
        let (next, _changes) = put(alloc, &version, Place::Gap(row), u64::from(row) + 1)?;
        version = next;
    }
    Ok(version)
}

/// The codes that the only change of a version added.
fn added(changes: &Items<ColumnChange>) -> &[u64] {
    match changes.as_slice() {
        [change] => change.summary.added(),
        _ => &[],
    }
}

fn pair(old: u64, new: u64) -> Recode {
    Recode { old, new }
}

/// The pairs of codes that change where a fifth ascending value is too deep.
fn moved_by_fifth() -> [Recode; 4] {
    [
        pair(0x8000_0000_0000_0000, 0x2000_0000_0000_0000),
        pair(0xc000_0000_0000_0000, 0x4000_0000_0000_0000),
        pair(0xe000_0000_0000_0000, 0x8000_0000_0000_0000),
        pair(0xf000_0000_0000_0000, 0xa000_0000_0000_0000),
    ]
}

// The fifth of five ascending values would be too deep: the root is balanced, in both modes.
#[test]
fn rebuild_on_depth(rt: HostRuntime) -> Result<(), OutOfMemory> {
    for mode in [Mode::Ordinary, Mode::SameTime] {
        let version = ascending(rt.alloc(), mode, 4)?;
        let (next, changes) = put(rt.alloc(), &version, Place::Gap(4), 5)?;
        assert_eq!(rt; next.number(), 5);
        assert_eq!(rt; changes.as_slice().len(), 1);
        let change = &changes.as_slice()[0];
        assert_eq!(rt; change.table, TableNo(0));
        assert_eq!(rt; change.column, ColNo(0));
        assert_eq!(rt; change.summary.moved(), moved_by_fifth().as_slice());
        assert_eq!(rt; change.summary.dropped().len(), 0);
        assert_eq!(rt; change.summary.added(), [0xc000_0000_0000_0000].as_slice());
    }
    Ok(())
}

// A value inserted three times and its rows deleted by one commit: the column is empty, in both modes.
#[test]
fn drop_last_duplicate(rt: HostRuntime) -> Result<(), OutOfMemory> {
    for mode in [Mode::Ordinary, Mode::SameTime] {
        let version = ascending(rt.alloc(), mode, 1)?;
        let (version, changes) = put(rt.alloc(), &version, Place::Found(0), 1)?;
        assert_eq!(rt; changes.as_slice().len(), 0);
        let (version, _changes) = put(rt.alloc(), &version, Place::Found(0), 1)?;
        let (version, changes) = take_three(rt.alloc(), &version)?;
        assert_eq!(rt; changes.as_slice().len(), 1);
        let summary = &changes.as_slice()[0].summary;
        assert_eq!(rt; summary.moved().len(), 0);
        assert_eq!(rt; summary.dropped(), [0x8000_0000_0000_0000].as_slice());
        assert_eq!(rt; summary.added().len(), 0);
        let table = version
            .table(TableNo(0))
            .expect(&rt, "a table and its column");
        assert_eq!(rt; table.rows(), 0);
        assert_eq!(rt;
            table.stamps(),
            Stamps {
                written: 4,
                laid: 0
            }
        );
        let tree = table.tree(ColNo(0)).expect(&rt, "a table and its column");
        assert_eq!(rt; tree.len(), 0);
        assert_eq!(rt; tree.max(), 0);
    }
    Ok(())
}

// An install between a transaction's begin and its commit: the row of its operation gets the code of its place in the balanced
// tree, and the table was last written by the commit and last laid by the install.
#[test]
fn commit_across_install(rt: HostRuntime) -> Result<(), OutOfMemory> {
    let two = ascending(rt.alloc(), Mode::Ordinary, 2)?;
    let (without, changes) = put(rt.alloc(), &two, Place::Gap(2), 9)?;
    assert_eq!(rt; added(&changes), [0xe000_0000_0000_0000].as_slice());
    assert_eq!(rt; without.number(), 3);
    let (laid, changes) = lay(rt.alloc(), &two)?;
    assert_eq!(rt; laid.number(), 3);
    assert_eq!(rt; changes.as_slice().len(), 1);
    let moved = [
        pair(0x8000_0000_0000_0000, 0x4000_0000_0000_0000),
        pair(0xc000_0000_0000_0000, 0x8000_0000_0000_0000),
    ];
    assert_eq!(rt; changes.as_slice()[0].summary.moved(), moved.as_slice());
    let (version, changes) = put(rt.alloc(), &laid, Place::Gap(2), 9)?;
    assert_eq!(rt; added(&changes), [0xc000_0000_0000_0000].as_slice());
    assert_eq!(rt; version.number(), 4);
    let table = version.table(TableNo(0)).expect(&rt, "a table");
    assert_eq!(rt;
        table.stamps(),
        Stamps {
            written: 4,
            laid: 3
        }
    );
    assert_eq!(rt; table.code(1, ColNo(0)), Some(0x4000_0000_0000_0000));
    assert_eq!(rt; table.code(2, ColNo(0)), Some(0x8000_0000_0000_0000));
    assert_eq!(rt; table.code(3, ColNo(0)), Some(0xc000_0000_0000_0000));
    Ok(())
}

// A table of as many rows as the limit is full, and one of a row less isn't.
#[test]
fn full_table(rt: HostRuntime) -> Result<(), OutOfMemory> {
    let most = ascending(rt.alloc(), Mode::Ordinary, LIMIT - 1)?;
    let table = most.table(TableNo(0)).expect(&rt, "a table");
    assert!(rt; !table.full());
    let (all, _changes) = put(rt.alloc(), &most, Place::Gap(LIMIT - 1), u64::from(LIMIT))?;
    let table = all.table(TableNo(0)).expect(&rt, "a table");
    assert!(rt; table.full());
    assert_eq!(rt; table.rows(), 1_024);
    assert_eq!(rt; all.number(), 1_024);
    Ok(())
}

/// What a version's first table has of its first row: how many rows there are, the code of row 1, and the stamps.
fn told(version: &Version) -> Option<(usize, u64, Stamps)> {
    let table = version.table(TableNo(0))?;
    let code = table.code(1, ColNo(0))?;
    Some((table.rows(), code, table.stamps()))
}

// A snapshot stays as it was while ten commits and two installs make further versions.
#[test]
fn snapshot_stays(rt: HostRuntime) -> Result<(), OutOfMemory> {
    let snapshot = Version::share(rt.alloc(), ascending(rt.alloc(), Mode::Ordinary, 3)?)?;
    let second = snapshot.again()?;
    let mut version = lay(rt.alloc(), second.version())?.0;
    for row in 3..13 {
        version = put(rt.alloc(), &version, Place::Gap(row), u64::from(row))?.0;
    }
    let version = lay(rt.alloc(), &version)?.0;
    assert_eq!(rt; version.number(), 15);
    let at_first = Stamps {
        written: 3,
        laid: 0,
    };
    let at_last = Stamps {
        written: 14,
        laid: 15,
    };
    assert_eq!(rt;
        told(snapshot.version()),
        Some((3, 0x8000_0000_0000_0000, at_first))
    );
    assert_eq!(rt;
        told(second.version()),
        Some((3, 0x8000_0000_0000_0000, at_first))
    );
    assert_eq!(rt; told(&version), Some((13, 0x1000_0000_0000_0000, at_last)));
    assert_eq!(rt; snapshot.version().number(), 3);
    assert_eq!(rt; snapshot.version().tables(), 1);
    assert_eq!(rt; snapshot.version().limit(), LIMIT);
    assert_eq!(rt; snapshot.version().mode(), Mode::Ordinary);
    Ok(())
}

// An install on a tree that is balanced already makes a version and changes no code.
#[test]
fn balanced_stays(rt: HostRuntime) -> Result<(), OutOfMemory> {
    let one = ascending(rt.alloc(), Mode::SameTime, 1)?;
    let (laid, changes) = lay(rt.alloc(), &one)?;
    assert_eq!(rt; changes.as_slice().len(), 0);
    assert_eq!(rt; laid.number(), 2);
    assert_eq!(rt;
        told(&laid),
        Some((
            1,
            0x8000_0000_0000_0000,
            Stamps {
                written: 1,
                laid: 2
            }
        ))
    );
    assert!(rt; laid.table(TableNo(1)).is_none());
    Ok(())
}
