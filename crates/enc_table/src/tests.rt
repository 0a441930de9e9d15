//! Tests of worked examples, and what they share with the others.
ghost use Rattle.std.specs.Prelude.{◌≡◌, true};
ghost use Rattle.table_model.specs.Fitting.{AllAmong, AllPlaced};
ghost use Rattle.table_model.specs.Soundness.{kept_numbers};
ghost use Rattle.tree_model.specs.Places.{IsIncreasing};
ghost use Rattle.tree_model.specs.Trees.{IsPlaceOf};

use super::*;
use mope_base::{Body, ColNo, Items, Mode, OutOfMemory};
use ope_tree::{Change, Place, Recode};

// Whether a place is one of a tree of so many items.
fn is_place(items: u32, place: Place) -> bool
    ensures { result ≡ true → IsPlaceOf items place }
{
    match place {
        Place::Found(rank) => rank < items,
        Place::Gap(rank) => rank <= items,
    }
}

// Whether there is a place for each column, and each is one of its column's tree.
fn are_placed(table: &Table, places: &[Place]) -> bool
    ensures { result ≡ true → AllPlaced table.now.shelf.columns places.now }
{
    let width = table.columns();
    if places.len() != width as usize {
        return false;
    }
    'columns: for at in 0..width {
        let Some(tree) = table.tree(ColNo(at)) else {
            return false;
        };
        if !is_place(tree.len(), places[at as usize]) {
            return false;
        }
    }
    true
}

// Whether numbers increase.
fn rise(rows: &[u64]) -> bool
    ensures { result ≡ true → IsIncreasing rows.now }
{
    'rows: for at in 1..rows.len() {
        if rows[at] <= rows[at - 1] {
            return false;
        }
    }
    true
}

// Whether numbers are those of rows.
fn are_rows(table: &Table, rows: &[u64]) -> bool
    ensures { result ≡ true → AllAmong (kept_numbers table.now.shelf.kept) rows.now }
{
    'rows: for at in 0..rows.len() {
        let Some(_position) = table.position(rows[at]) else {
            return false;
        };
    }
    true
}

// A row at these places. Where they aren't those of the table, the answer is that of want of memory.
pub(crate) fn insert(
    table: &mut Table,
    places: &[Place],
    bodies: &[Body],
) -> Result<Items<Change>, TableStop> {
    if bodies.len() != places.len() {
        return Err(TableStop::OutOfMemory);
    }
    if !are_placed(table, places) {
        return Err(TableStop::OutOfMemory);
    }
    table.insert_row(places, bodies)
}

// The rows of these numbers out. Where they aren't those of rows in order, the answer is that of want of memory.
pub(crate) fn delete(table: &mut Table, rows: &[u64]) -> Result<Items<Items<Change>>, OutOfMemory> {
    if !rise(rows) {
        return Err(OutOfMemory);
    }
    if !are_rows(table, rows) {
        return Err(OutOfMemory);
    }
    table.delete_rows(rows)
}

// A row of one value at a place. It answers the pairs of codes that moved.
fn insert_value(
    table: &mut Table,
    place: Place,
    masked: u64,
) -> Result<Items<Change>, OutOfMemory> {
    match insert(table, &[place], &[Body { nonce: 0, masked }]) {
        Ok(changes) => Ok(changes),
        Err(_) => Err(OutOfMemory),
    }
}

const BOTH: [Mode; 2] = [Mode::Ordinary, Mode::SameTime];

// The codes of five rows in a chain to the right, and in a balanced tree.
const CHAIN: [u64; 4] = [
    0x8000_0000_0000_0000,
    0xc000_0000_0000_0000,
    0xe000_0000_0000_0000,
    0xf000_0000_0000_0000,
];

const BALANCED: [u64; 5] = [
    0x2000_0000_0000_0000,
    0x4000_0000_0000_0000,
    0x8000_0000_0000_0000,
    0xa000_0000_0000_0000,
    0xc000_0000_0000_0000,
];

// The fifth of five ascending values stands too deep: the tree becomes balanced, and the rows' codes with it.
#[test]
fn rebuild_on_depth(rt: HostRuntime) -> Result<(), OutOfMemory> {
    for mode in BOTH {
        let mut table = Table::new(rt.alloc(), 1, mode, 65_536)?;
        for rank in 0..4 {
            let changes = insert_value(&mut table, Place::Gap(rank), u64::from(rank))?;
            assert_eq!(rt; changes.as_slice().len(), 1);
            assert_eq!(rt; changes.as_slice()[0].moved().len(), 0);
            assert_eq!(rt;
                table.code(u64::from(rank) + 1, ColNo(0)),
                Some(CHAIN[rank as usize])
            );
        }
        let changes = insert_value(&mut table, Place::Gap(4), 4)?;
        assert_eq!(rt; changes.as_slice().len(), 1);
        let change = &changes.as_slice()[0];
        assert_eq!(rt; change.moved().len(), 4);
        for at in 0..4 {
            let pair = Recode {
                old: CHAIN[at],
                new: BALANCED[at],
            };
            assert_eq!(rt; change.moved().get(at).copied(), Some(pair));
        }
        assert_eq!(rt; change.added(), [BALANCED[4]].as_slice());
        assert_eq!(rt; change.dropped().len(), 0);
        for at in 0..5 {
            assert_eq!(rt; table.code(at + 1, ColNo(0)), Some(BALANCED[at as usize]));
        }
        assert_eq!(rt; table.rows(), 5);
        assert_eq!(rt; table.next(), 6);
    }
    Ok(())
}

// A value inserted three times is one item, which goes with its last row.
#[test]
fn drop_last_duplicate(rt: HostRuntime) -> Result<(), OutOfMemory> {
    for mode in BOTH {
        let mut table = Table::new(rt.alloc(), 1, mode, 65_536)?;
        insert_value(&mut table, Place::Gap(0), 7)?;
        insert_value(&mut table, Place::Found(0), 7)?;
        insert_value(&mut table, Place::Found(0), 7)?;
        let columns = delete(&mut table, &[1, 2, 3])?;
        assert_eq!(rt; columns.as_slice().len(), 1);
        let changes = columns.as_slice()[0].as_slice();
        assert_eq!(rt; changes.len(), 3);
        assert_eq!(rt; changes[0].dropped().len(), 0);
        assert_eq!(rt; changes[1].dropped().len(), 0);
        assert_eq!(rt; changes[2].dropped(), [CHAIN[0]].as_slice());
        assert_eq!(rt; table.rows(), 0);
        assert_eq!(rt; table.next(), 4);
        let Some(tree) = table.tree(ColNo(0)) else {
            return Err(OutOfMemory);
        };
        assert_eq!(rt; tree.len(), 0);
        assert_eq!(rt; tree.max(), 0);
    }
    Ok(())
}

// So many rows, each with a value above those before it. It tells whether there was room for each.
fn fill(table: &mut Table, count: u32) -> Result<bool, OutOfMemory> {
    'rows: for rank in 0..count {
        if table.full() {
            return Ok(false);
        }
        insert_value(table, Place::Gap(rank), u64::from(rank))?;
    }
    Ok(true)
}

// Whether a table of so many rows has no room for one more, and is as it was when it is asked for one.
fn refuses(table: &mut Table, count: u32) -> bool {
    let last = u64::from(count);
    let code = table.code(last, ColNo(0));
    match insert(table, &[Place::Gap(count)], &[body(last)]) {
        Err(TableStop::Full) => {}
        _ => return false,
    }
    table.full()
        && table.rows() == count as usize
        && table.next() == last.saturating_add(1)
        && table.row_at(count.saturating_sub(1) as usize) == Some(last)
        && table.code(last, ColNo(0)) == code
}

// Whether a table of so many rows has room for one row more where the last one goes.
fn takes_one_more(table: &mut Table, count: u32) -> Result<bool, OutOfMemory> {
    let last = u64::from(count);
    let before = count.saturating_sub(1);
    delete(table, &[last])?;
    if table.full() {
        return Ok(false);
    }
    insert_value(table, Place::Gap(before), last)?;
    Ok(table.full() && table.row_at(before as usize) == Some(last.saturating_add(1)))
}

// 65,536 rows, and no room for one more until one goes.
#[test]
fn full_table(rt: HostRuntime) -> Result<(), OutOfMemory> {
    let mut table = Table::new(rt.alloc(), 1, Mode::Ordinary, 65_536)?;
    assert!(rt; fill(&mut table, 65_536)?);
    assert!(rt; refuses(&mut table, 65_536));
    assert!(rt; takes_one_more(&mut table, 65_536)?);
    Ok(())
}

// A row of two values, each at a place of its column.
fn insert_pair(table: &mut Table, places: [Place; 2], values: [u64; 2]) -> Result<(), OutOfMemory> {
    let bodies = [body(values[0]), body(values[1])];
    match insert(table, &places, &bodies) {
        Ok(_changes) => Ok(()),
        Err(_) => Err(OutOfMemory),
    }
}

fn body(masked: u64) -> Body {
    Body { nonce: 0, masked }
}

// Three rows of two columns, of which the second has one value twice; each look-up once, and a copy that stays.
#[test]
fn looks_up_rows(rt: HostRuntime) -> Result<(), OutOfMemory> {
    let mut table = Table::new(rt.alloc(), 2, Mode::Ordinary, 65_536)?;
    insert_pair(&mut table, [Place::Gap(0), Place::Gap(0)], [5, 9])?;
    insert_pair(&mut table, [Place::Gap(1), Place::Found(0)], [6, 9])?;
    let early = table.copy()?;
    insert_pair(&mut table, [Place::Gap(2), Place::Gap(0)], [7, 8])?;
    assert_eq!(rt; early.rows(), 2);
    assert_eq!(rt; table.rows(), 3);
    assert_eq!(rt; table.columns(), 2);
    assert_eq!(rt; table.row_at(2), Some(3));
    assert_eq!(rt; table.row_at(3), None);
    assert_eq!(rt; table.position(2), Some(1));
    assert_eq!(rt; table.position(4), None);
    assert_eq!(rt; table.numbers_from(1), [2, 3].as_slice());
    assert_eq!(rt; table.body(3, ColNo(1)), Some(body(8)));
    assert_eq!(rt; table.body(3, ColNo(2)), None);
    assert_eq!(rt; table.code(2, ColNo(1)), Some(CHAIN[0]));
    assert_eq!(rt; table.code(3, ColNo(1)), Some(BALANCED[1]));
    let (Some(tree), Some(index)) = (table.tree(ColNo(1)), table.index(ColNo(1))) else {
        return Err(OutOfMemory);
    };
    assert_eq!(rt; tree.item(1), Some((body(9), 2)));
    assert_eq!(rt; index.count(CHAIN[0], CHAIN[0]), 2);
    assert_eq!(rt; table.cells_from(ColNo(0), 2).len(), 1);
    let stamps = Stamps {
        written: 2,
        laid: 1,
    };
    table.stamp(stamps);
    assert_eq!(rt; table.stamps(), stamps);
    Ok(())
}
