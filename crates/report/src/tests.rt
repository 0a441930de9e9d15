//! The worked examples of runs, as the text of transactions that are written down here.

use crate::{history, report_text};
use mope_base::{Items, OutOfMemory, SessionNo, TableNo};
use sql_text::Name;
use std::alloc::Global;
use std::test::Fail;
use workload::{Answer, Decl, DoneTxn, End, Workload};

/// The one table of the examples.
const T: TableNo = TableNo(0);

/// A workload with one table `t`, and no scripts: the text doesn't depend on them.
fn table_t(alloc: Global) -> Result<Workload, OutOfMemory> {
    let mut tables = Items::new(alloc);
    tables.push(Decl {
        name: Name {
            bytes: Items::from_vec(b"t".to_vec(alloc)?),
        },
        columns: Items::new(alloc),
    })?;
    Ok(Workload {
        tables,
        sessions: Items::new(alloc),
    })
}

fn txn(session: u8, place: u32, base: u64, end: End, answers: Vec<Answer>) -> DoneTxn {
    DoneTxn {
        session: SessionNo(session),
        place,
        base,
        end,
        answers: Items::from_vec(answers),
    }
}

/// The text of these transactions, under these turns.
fn text(
    alloc: Global,
    turns: &[u8],
    txns: &[DoneTxn],
    next: Option<u64>,
) -> Result<Items<u8>, OutOfMemory> {
    let w = table_t(alloc)?;
    let mut sessions = Vec::new(alloc);
    for number in turns {
        sessions.push(SessionNo(*number))?;
    }
    report_text(alloc, &w, &sessions, txns, next)
}

#[test]
fn first_commit_wins(rt: HostRuntime) -> Result<(), Fail> {
    let alloc = rt.alloc();
    let txns = [
        txn(
            2,
            1,
            0,
            End::Conflict(T, 1),
            vec![in alloc; Answer::Inserted]?,
        ),
        txn(
            1,
            1,
            0,
            End::Committed(1),
            vec![in alloc; Answer::Inserted]?,
        ),
    ];
    let expected =
        b"turns 1,2,1,2\nsession 2 transaction 1 at 0 conflict t 1\ninserted 1\nsession 1 transaction 1 at 0 committed 1\ninserted 1\nnonce 8589934592\n";
    assert_eq!(rt;
        text(alloc, &[1, 2, 1, 2], &txns, Some(8_589_934_592))?.as_slice(),
        expected.as_slice()
    );
    Ok(())
}

// The text of `first_commit_wins` without its last line.
#[test]
fn plain_turns(rt: HostRuntime) -> Result<(), Fail> {
    let alloc = rt.alloc();
    let txns = [
        txn(
            2,
            1,
            0,
            End::Conflict(T, 1),
            vec![in alloc; Answer::Inserted]?,
        ),
        txn(
            1,
            1,
            0,
            End::Committed(1),
            vec![in alloc; Answer::Inserted]?,
        ),
    ];
    let expected =
        b"turns 1,2,1,2\nsession 2 transaction 1 at 0 conflict t 1\ninserted 1\nsession 1 transaction 1 at 0 committed 1\ninserted 1\n";
    assert_eq!(rt;
        text(alloc, &[1, 2, 1, 2], &txns, None)?.as_slice(),
        expected.as_slice()
    );
    Ok(())
}

#[test]
fn empty_workload(rt: HostRuntime) -> Result<(), Fail> {
    let alloc = rt.alloc();
    assert_eq!(rt;
        text(alloc, &[], &[], Some(0))?.as_slice(),
        b"turns\nnonce 0\n".as_slice()
    );
    Ok(())
}

#[test]
fn empty_table(rt: HostRuntime) -> Result<(), Fail> {
    let alloc = rt.alloc();
    let txns = [
        txn(1, 1, 0, End::Read, vec![in alloc; Answer::Count(0)]?),
        txn(1, 2, 0, End::Read, vec![in alloc; Answer::Min(None)]?),
    ];
    let expected =
        b"turns 1,1\nsession 1 transaction 1 at 0 read\ncount 0\nsession 1 transaction 2 at 0 read\nmin none\nnonce 4294967296\n";
    assert_eq!(rt;
        text(alloc, &[1, 1], &txns, Some(4_294_967_296))?.as_slice(),
        expected.as_slice()
    );
    Ok(())
}

#[test]
fn rollback(rt: HostRuntime) -> Result<(), Fail> {
    let alloc = rt.alloc();
    let txns = [
        txn(
            1,
            1,
            0,
            End::RolledBack,
            vec![in alloc; Answer::Inserted, Answer::Count(1)]?,
        ),
        txn(1, 2, 0, End::Read, vec![in alloc; Answer::Count(0)]?),
    ];
    let expected =
        b"turns 1,1\nsession 1 transaction 1 at 0 rolled-back\ninserted 1\ncount 1\nsession 1 transaction 2 at 0 read\ncount 0\nnonce 4294967296\n";
    assert_eq!(rt;
        text(alloc, &[1, 1], &txns, Some(4_294_967_296))?.as_slice(),
        expected.as_slice()
    );
    Ok(())
}

#[test]
fn stale_rebuild(rt: HostRuntime) -> Result<(), Fail> {
    let alloc = rt.alloc();
    let txns = [
        txn(1, 1, 0, End::Stale(T, 1), Vec::new(alloc)),
        txn(
            2,
            1,
            0,
            End::Committed(1),
            vec![in alloc; Answer::Inserted]?,
        ),
    ];
    let expected =
        b"turns 1,2,2,1\nsession 1 transaction 1 at 0 stale t 1\nsession 2 transaction 1 at 0 committed 1\ninserted 1\nnonce 8589934592\n";
    assert_eq!(rt;
        text(alloc, &[1, 2, 2, 1], &txns, Some(8_589_934_592))?.as_slice(),
        expected.as_slice()
    );
    Ok(())
}

// Of four INSERTs and a SELECT of one column the last transaction alone.
#[test]
fn ties_by_row_number(rt: HostRuntime) -> Result<(), Fail> {
    let alloc = rt.alloc();
    let values = Items::from_vec(vec![in alloc; 2, 3]?);
    let txns = [txn(
        1,
        5,
        4,
        End::Read,
        vec![in alloc; Answer::Rows { width: 1, values }]?,
    )];
    let expected = b"turns\nsession 1 transaction 5 at 4 read\nrows 2\nrow 2\nrow 3\n";
    assert_eq!(rt;
        text(alloc, &[], &txns, None)?.as_slice(),
        expected.as_slice()
    );
    Ok(())
}

#[test]
fn limit_zero(rt: HostRuntime) -> Result<(), Fail> {
    let alloc = rt.alloc();
    let values = Items::new(alloc);
    let txns = [txn(
        1,
        2,
        1,
        End::Read,
        vec![in alloc; Answer::Rows { width: 1, values }]?,
    )];
    let expected = b"turns\nsession 1 transaction 2 at 1 read\nrows 0\n";
    assert_eq!(rt;
        text(alloc, &[], &txns, None)?.as_slice(),
        expected.as_slice()
    );
    Ok(())
}

// How the transaction that fills its table ends.
#[test]
fn full_table(rt: HostRuntime) -> Result<(), Fail> {
    let alloc = rt.alloc();
    let txns = [txn(
        1,
        1,
        0,
        End::Full(T),
        vec![in alloc; Answer::Inserted, Answer::Inserted]?,
    )];
    let expected =
        b"turns 1\nsession 1 transaction 1 at 0 full t\ninserted 1\ninserted 1\nnonce 4294967296\n";
    assert_eq!(rt;
        text(alloc, &[1], &txns, Some(4_294_967_296))?.as_slice(),
        expected.as_slice()
    );
    Ok(())
}

// The other answers and ends: rows of two values, a DELETE, a greatest value of 64 bits, and an install.
#[test]
fn each_other_line(rt: HostRuntime) -> Result<(), Fail> {
    let alloc = rt.alloc();
    let values = Items::from_vec(vec![in alloc; 3, 1, 5, 2]?);
    let answers = vec![in alloc;
        Answer::Rows { width: 2, values },
        Answer::Deleted(3),
        Answer::Max(Some(18_446_744_073_709_551_615)),
        Answer::Min(Some(0)),
        Answer::Max(None),
    ]?;
    let txns = [
        txn(64, 1, 0, End::Committed(1), answers),
        txn(64, 2, 1, End::Installed(2), Vec::new(alloc)),
    ];
    let expected =
        b"turns 64\nsession 64 transaction 1 at 0 committed 1\nrows 2\nrow 3 1\nrow 5 2\ndeleted 3\nmax 18446744073709551615\nmin 0\nmax none\nsession 64 transaction 2 at 1 installed 2\n";
    assert_eq!(rt;
        text(alloc, &[64], &txns, None)?.as_slice(),
        expected.as_slice()
    );
    Ok(())
}

// Two commits, a rebuild, and transactions without a number: by base, then by session, then by place.
#[test]
fn history_of_shuffled_transactions(rt: HostRuntime) -> Result<(), Fail> {
    let alloc = rt.alloc();
    let shuffled = vec![in alloc;
        txn(1, 4, 2, End::Read, Vec::new(alloc)),
        txn(2, 2, 1, End::Installed(3), Vec::new(alloc)),
        txn(2, 1, 0, End::RolledBack, Vec::new(alloc)),
        txn(1, 3, 1, End::Committed(2), Vec::new(alloc)),
        txn(1, 2, 0, End::Conflict(T, 1), Vec::new(alloc)),
        txn(1, 1, 0, End::Read, Vec::new(alloc)),
        txn(3, 1, 0, End::Committed(1), Vec::new(alloc)),
        txn(3, 2, 3, End::Full(T), Vec::new(alloc)),
    ]?;
    let in_order = history(Items::from_vec(shuffled))?;
    let expected = [
        (1, 1),
        (1, 2),
        (2, 1),
        (3, 1),
        (1, 3),
        (1, 4),
        (2, 2),
        (3, 2),
    ];
    assert_eq!(rt; in_order.as_slice().len(), expected.len());
    for (t, (session, place)) in in_order.as_slice().iter().zip(expected) {
        assert_eq!(rt; (t.session.0, t.place), (session, place));
    }
    Ok(())
}
