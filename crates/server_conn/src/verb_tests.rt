//! A transaction of every verb on a table of three columns. The walks are a client's whose numbers aren't hidden: each is the
//! masked word of its body.
use crate::refusal_tests::{answers, begun, hands_over, send};
use crate::{Conn, Served};
use mope_base::OutOfMemory;
use std::alloc::Global;
use walk_proto::Reply;

// The number of the node to which a walk has come, if it goes on.
fn node_in(served: &Served) -> Option<u64> {
    match served {
        Served::Reply(receipt) => match receipt.reply() {
            Reply::Node(body) => Some(body.masked),
            _ => None,
        },
        _ => None,
    }
}

// The message of a walk to a number, at a node.
fn turn(node: u64, number: u64) -> &'static [u8] {
    if number == node {
        return &[4];
    }
    if number < node { &[3, 0] } else { &[3, 1] }
}

// Walks to the place of a number in a column.
fn find(conn: &mut Conn, table: u8, column: u8, number: u64) -> Result<(), OutOfMemory> {
    let mut served = conn.serve_bytes(&[2, table, column])?;
    'steps: for _step in 0..64 {
        let Some(node) = node_in(&served) else {
            return Ok(());
        };
        served = conn.serve_bytes(turn(node, number))?;
    }
    Ok(())
}

fn push_word(message: &mut Vec<u8>, word: u64) -> Result<(), OutOfMemory> {
    message.extend_from_slice(&word.to_be_bytes())?;
    Ok(())
}

// Walks to the places of a row, and inserts it.
fn insert(alloc: Global, conn: &mut Conn, table: u8, row: &[u64]) -> Result<Vec<u64>, OutOfMemory> {
    let mut message = Vec::from_slice(alloc, &[5, table, row.len().min(8) as u8])?;
    let mut column = 0u8;
    'columns: for number in row {
        find(conn, table, column, *number)?;
        push_word(&mut message, 0)?;
        push_word(&mut message, *number)?;
        column = column.wrapping_add(1);
    }
    send(alloc, conn, message.as_slice())
}

// A condition: a column, an operator and its numbers, two of BETWEEN.
type Cond = (u8, u8, &'static [u64]);

// A selection of rows of the first table.
struct Ask {
    verb: u8,
    target: u8,
    order: u8,
    order_column: u8,
    limit: Option<u64>,
    columns: &'static [u8],
    conds: &'static [Cond],
}

// Walks to the places of the numbers of conditions.
fn find_all(conn: &mut Conn, column: u8, numbers: &[u64]) -> Result<(), OutOfMemory> {
    'numbers: for number in numbers {
        find(conn, 0, column, *number)?;
    }
    Ok(())
}

fn push_columns(message: &mut Vec<u8>, columns: &[u8]) -> Result<(), OutOfMemory> {
    message.push(columns.len().min(8) as u8)?;
    'columns: for place in 0..8 {
        message.push(columns.get(place).copied().unwrap_or(0))?;
    }
    Ok(())
}

// A selection's message up to its conditions.
fn push_head(message: &mut Vec<u8>, ask: &Ask) -> Result<(), OutOfMemory> {
    message.extend_from_slice(&[6, 0, ask.verb, ask.target, ask.order, ask.order_column])?;
    message.push(u8::from(ask.limit.is_some()))?;
    push_word(message, ask.limit.unwrap_or(0))?;
    push_columns(message, ask.columns)
}

// Walks to the places of a selection's numbers, and asks.
fn select(alloc: Global, conn: &mut Conn, ask: &Ask) -> Result<Vec<u64>, OutOfMemory> {
    let mut message = Vec::new(alloc);
    push_head(&mut message, ask)?;
    message.push(ask.conds.len().min(8) as u8)?;
    'conds: for (column, operator, numbers) in ask.conds {
        find_all(conn, *column, numbers)?;
        message.push(*column)?;
        message.push(*operator)?;
    }
    send(alloc, conn, message.as_slice())
}

// Rows of three numbers.
const ROWS: &[&[u64]] = &[
    &[7, 30, 100],
    &[3, 10, 250],
    &[7, 20, 50],
    &[9, 10, 100],
    &[3, 30, 400],
    &[5, 20, 250],
];

// All rows, whole.
const ALL: Ask = Ask {
    verb: 0,
    target: 0,
    order: 0,
    order_column: 0,
    limit: None,
    columns: &[0, 1, 2],
    conds: &[],
};

// How many rows.
const COUNT: Ask = Ask {
    verb: 1,
    columns: &[],
    ..ALL
};

// The deletion of rows.
const DELETE: Ask = Ask {
    verb: 4,
    columns: &[],
    ..ALL
};

// Selections one after another, and the answers: the kind of the reply, its width or count, and the rows' numbers.
const ASKS: &[(Ask, &[u64])] = &[
    (
        ALL,
        &[
            11, 3, 7, 30, 100, 3, 10, 250, 7, 20, 50, 9, 10, 100, 3, 30, 400, 5, 20, 250,
        ],
    ),
    // by an equal number, upwards by another column
    (
        Ask {
            order: 1,
            order_column: 1,
            columns: &[2],
            conds: &[(0, 0, &[7])],
            ..ALL
        },
        &[11, 1, 50, 100],
    ),
    (
        Ask {
            conds: &[(1, 5, &[10, 20])],
            ..COUNT
        },
        &[12, 4],
    ),
    (
        Ask {
            conds: &[(1, 5, &[20, 10])],
            ..COUNT
        },
        &[12, 0],
    ),
    (
        Ask {
            conds: &[(0, 1, &[7])],
            ..COUNT
        },
        &[12, 3],
    ),
    (
        Ask {
            conds: &[(0, 2, &[7])],
            ..COUNT
        },
        &[12, 5],
    ),
    (
        Ask {
            conds: &[(0, 3, &[7])],
            ..COUNT
        },
        &[12, 1],
    ),
    (
        Ask {
            conds: &[(0, 4, &[7])],
            ..COUNT
        },
        &[12, 3],
    ),
    (
        Ask {
            conds: &[(0, 3, &[3]), (2, 2, &[100])],
            ..COUNT
        },
        &[12, 3],
    ),
    // a number that no row has
    (
        Ask {
            conds: &[(0, 4, &[6])],
            ..COUNT
        },
        &[12, 3],
    ),
    // the least and the greatest
    (
        Ask {
            verb: 2,
            target: 2,
            conds: &[(0, 4, &[5])],
            ..COUNT
        },
        &[11, 1, 50],
    ),
    (
        Ask {
            verb: 3,
            target: 1,
            conds: &[(0, 0, &[9])],
            ..COUNT
        },
        &[11, 1, 10],
    ),
    (
        Ask {
            verb: 3,
            target: 2,
            conds: &[(0, 0, &[4])],
            ..COUNT
        },
        &[11, 1],
    ),
    // downwards, equal ones by the number of the row, and at most three
    (
        Ask {
            order: 2,
            order_column: 2,
            limit: Some(3),
            columns: &[0, 2],
            ..ALL
        },
        &[11, 2, 3, 400, 3, 250, 5, 250],
    ),
    (
        Ask {
            limit: Some(0),
            columns: &[1],
            ..ALL
        },
        &[11, 1],
    ),
    // a limit counts the rows that the conditions leave
    (
        Ask {
            limit: Some(2),
            columns: &[0],
            conds: &[(2, 4, &[250])],
            ..ALL
        },
        &[11, 1, 3, 3],
    ),
    (
        Ask {
            conds: &[(1, 0, &[10])],
            ..DELETE
        },
        &[12, 2],
    ),
    (ALL, &[11, 3, 7, 30, 100, 7, 20, 50, 3, 30, 400, 5, 20, 250]),
    (
        Ask {
            conds: &[(2, 3, &[1_000])],
            ..DELETE
        },
        &[12, 0],
    ),
    (
        Ask {
            verb: 2,
            target: 0,
            ..COUNT
        },
        &[11, 1, 3],
    ),
    (
        Ask {
            conds: &[(0, 1, &[5])],
            ..DELETE
        },
        &[12, 1],
    ),
    (
        Ask {
            verb: 2,
            target: 0,
            ..COUNT
        },
        &[11, 1, 5],
    ),
    (COUNT, &[12, 3]),
];

// Whether each row is inserted.
fn insert_all(alloc: Global, conn: &mut Conn, rows: &[&[u64]]) -> Result<bool, OutOfMemory> {
    'rows: for row in rows {
        let got = insert(alloc, conn, 0, row)?;
        if got.as_slice() != [12, 1].as_slice() {
            return Ok(false);
        }
    }
    Ok(true)
}

// The first of these selections that isn't answered so.
fn first_other(
    alloc: Global,
    conn: &mut Conn,
    asks: &[(Ask, &[u64])],
) -> Result<Option<usize>, OutOfMemory> {
    'asks: for (at, (selection, want)) in asks.iter().enumerate() {
        let got = select(alloc, conn, selection)?;
        if got.as_slice() != *want {
            return Ok(Some(at));
        }
    }
    Ok(None)
}

#[test]
fn every_verb(rt: HostRuntime) -> Result<(), OutOfMemory> {
    let mut conn = begun(rt.alloc(), 1_024)?;
    assert!(rt; insert_all(rt.alloc(), &mut conn, ROWS)?);
    assert_eq!(rt; first_other(rt.alloc(), &mut conn, ASKS)?, None);
    assert!(rt; hands_over(&conn, 8, 29));
    Ok(())
}

// Whether a transaction that inserted these rows waits for its commit turn with an operation a row, and refuses to wait again.
fn commits(alloc: Global, rows: &[&[u64]]) -> Result<bool, OutOfMemory> {
    let mut conn = begun(alloc, 1_024)?;
    let inserted = insert_all(alloc, &mut conn, rows)?;
    let waits = answers(alloc, &mut conn, &[7, 1], &[7])?;
    let again = answers(alloc, &mut conn, &[7, 1], &[14, 2, 0])?;
    Ok(inserted && waits && again && hands_over(&conn, rows.len(), rows.len()))
}

// Whether a transaction that inserted these rows ends at once by this message, after which there is no transaction.
fn ends_by(alloc: Global, rows: &[&[u64]], message: &[u8]) -> Result<bool, OutOfMemory> {
    let mut conn = begun(alloc, 1_024)?;
    let inserted = insert_all(alloc, &mut conn, rows)?;
    let ended = answers(alloc, &mut conn, message, &[13, 1, 0, 0])?;
    let again = answers(alloc, &mut conn, message, &[14, 1, 0])?;
    Ok(inserted && ended && again && conn.ending().is_none())
}

#[test]
fn both_ends(rt: HostRuntime) -> Result<(), OutOfMemory> {
    assert!(rt; commits(rt.alloc(), ROWS)?);
    assert!(rt; ends_by(rt.alloc(), ROWS, &[7, 0])?);
    // with nothing to commit no turn is awaited
    assert!(rt; ends_by(rt.alloc(), &[], &[7, 1])?);
    Ok(())
}
