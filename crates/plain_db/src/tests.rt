//! The worked examples of runs, and the answers of one statement. All are over one table `t`.

mod building;
mod conditions;
mod telling;

use building::{A, B, alone, ask, filled, insert, inserts, many_inserts, over, rebuild, select};
use mope_base::Items;
use sql_text::Test;
use std::test::Fail;
use telling::{answered, full_lines, told};
use workload::{Piece, Verb};

#[test]
fn empty_table(rt: HostRuntime) -> Result<(), Fail> {
    let alloc = rt.alloc();
    let mut script = Items::new(alloc);
    script.push(alone(alloc, ask(alloc, Verb::Count, &[])?)?)?;
    script.push(alone(alloc, ask(alloc, Verb::Min(A), &[])?)?)?;
    let w = over(alloc, &["a"], vec![in alloc; script]?)?;
    assert_eq!(rt;
        told(&rt, alloc, &w, &[])?.as_str(),
        "turns 1,1\nsession 1 transaction 1 at 0 read\ncount 0\nsession 1 transaction 2 at 0 read\nmin none\n"
    );
    Ok(())
}

#[test]
fn inverted_between(rt: HostRuntime) -> Result<(), Fail> {
    let alloc = rt.alloc();
    let between = [(A, Test::Between(9, 5))];
    let mut script = inserts(alloc, &[7])?;
    script.push(alone(alloc, ask(alloc, Verb::Count, &between)?)?)?;
    let w = over(alloc, &["a"], vec![in alloc; script]?)?;
    assert_eq!(rt;
        told(&rt, alloc, &w, &[])?.as_str(),
        "turns 1,1,1\nsession 1 transaction 1 at 0 committed 1\ninserted 1\nsession 1 transaction 2 at 1 read\ncount 0\n"
    );
    Ok(())
}

#[test]
fn extreme_values(rt: HostRuntime) -> Result<(), Fail> {
    let alloc = rt.alloc();
    let ordered = select(alloc, A, Some((A, false)), None)?;
    let between = [(A, Test::Between(0, 18_446_744_073_709_551_615))];
    let mut script = inserts(alloc, &[0, 18_446_744_073_709_551_615])?;
    script.push(alone(alloc, ask(alloc, ordered, &between)?)?)?;
    let w = over(alloc, &["a"], vec![in alloc; script]?)?;
    assert_eq!(rt;
        told(&rt, alloc, &w, &[])?.as_str(),
        "turns 1,1,1,1,1\nsession 1 transaction 1 at 0 committed 1\ninserted 1\nsession 1 transaction 2 at 1 committed 2\ninserted 1\nsession 1 transaction 3 at 2 read\nrows 2\nrow 0\nrow 18446744073709551615\n"
    );
    Ok(())
}

#[test]
fn ties_by_row_number(rt: HostRuntime) -> Result<(), Fail> {
    let alloc = rt.alloc();
    let downwards = select(alloc, B, Some((A, true)), Some(2))?;
    let mut acts = Items::new(alloc);
    for values in [[3, 1], [5, 2], [5, 3], [5, 4]] {
        acts.push(insert(alloc, &values)?)?;
    }
    acts.push(ask(alloc, downwards, &[])?)?;
    let script = Items::from_vec(vec![in alloc;
        Piece::Txn {
            acts,
            rollback: false
        },
    ]?);
    let w = over(alloc, &["a", "b"], vec![in alloc; script]?)?;
    assert_eq!(rt;
        told(&rt, alloc, &w, &[])?.as_str(),
        "turns 1,1\nsession 1 transaction 1 at 0 committed 1\ninserted 1\ninserted 1\ninserted 1\ninserted 1\nrows 2\nrow 2\nrow 3\n"
    );
    Ok(())
}

#[test]
fn limit_zero(rt: HostRuntime) -> Result<(), Fail> {
    let alloc = rt.alloc();
    let limited = select(alloc, A, None, Some(0))?;
    let mut script = inserts(alloc, &[3])?;
    script.push(alone(alloc, ask(alloc, limited, &[(A, Test::Ge(1))])?)?)?;
    let w = over(alloc, &["a"], vec![in alloc; script]?)?;
    assert_eq!(rt;
        told(&rt, alloc, &w, &[])?.as_str(),
        "turns 1,1,1\nsession 1 transaction 1 at 0 committed 1\ninserted 1\nsession 1 transaction 2 at 1 read\nrows 0\n"
    );
    Ok(())
}

// The begins alone, after which each session finishes.
#[test]
fn first_commit_wins(rt: HostRuntime) -> Result<(), Fail> {
    let alloc = rt.alloc();
    let scripts = vec![in alloc; inserts(alloc, &[5])?, inserts(alloc, &[6])?]?;
    let w = over(alloc, &["a"], scripts)?;
    assert_eq!(rt;
        told(&rt, alloc, &w, &[1, 2])?.as_str(),
        "turns 1,2,1,2\nsession 2 transaction 1 at 0 conflict t 1\ninserted 1\nsession 1 transaction 1 at 0 committed 1\ninserted 1\n"
    );
    Ok(())
}

// The same run by its whole list of turns.
#[test]
fn plain_turns(rt: HostRuntime) -> Result<(), Fail> {
    let alloc = rt.alloc();
    let scripts = vec![in alloc; inserts(alloc, &[5])?, inserts(alloc, &[6])?]?;
    let w = over(alloc, &["a"], scripts)?;
    assert_eq!(rt;
        told(&rt, alloc, &w, &[1, 2, 1, 2])?.as_str(),
        "turns 1,2,1,2\nsession 2 transaction 1 at 0 conflict t 1\ninserted 1\nsession 1 transaction 1 at 0 committed 1\ninserted 1\n"
    );
    Ok(())
}

#[test]
fn commit_across_install(rt: HostRuntime) -> Result<(), Fail> {
    let alloc = rt.alloc();
    let scripts = vec![in alloc; inserts(alloc, &[1, 2, 9])?, rebuild(alloc)?]?;
    let w = over(alloc, &["a"], scripts)?;
    assert_eq!(rt;
        told(&rt, alloc, &w, &[1, 1, 1, 1, 1, 2, 2, 1])?.as_str(),
        "turns 1,1,1,1,1,2,2,1\nsession 1 transaction 1 at 0 committed 1\ninserted 1\nsession 1 transaction 2 at 1 committed 2\ninserted 1\nsession 2 transaction 1 at 2 installed 3\nsession 1 transaction 3 at 2 committed 4\ninserted 1\n"
    );
    Ok(())
}

#[test]
fn rollback(rt: HostRuntime) -> Result<(), Fail> {
    let alloc = rt.alloc();
    let mut acts = Items::new(alloc);
    acts.push(insert(alloc, &[4])?)?;
    acts.push(ask(alloc, Verb::Count, &[])?)?;
    let mut script = Items::new(alloc);
    script.push(Piece::Txn {
        acts,
        rollback: true,
    })?;
    script.push(alone(alloc, ask(alloc, Verb::Count, &[])?)?)?;
    let w = over(alloc, &["a"], vec![in alloc; script]?)?;
    assert_eq!(rt;
        told(&rt, alloc, &w, &[])?.as_str(),
        "turns 1,1\nsession 1 transaction 1 at 0 rolled-back\ninserted 1\ncount 1\nsession 1 transaction 2 at 0 read\ncount 0\n"
    );
    Ok(())
}

#[test]
fn stale_rebuild(rt: HostRuntime) -> Result<(), Fail> {
    let alloc = rt.alloc();
    let scripts = vec![in alloc; rebuild(alloc)?, inserts(alloc, &[5])?]?;
    let w = over(alloc, &["a"], scripts)?;
    assert_eq!(rt;
        told(&rt, alloc, &w, &[1, 2, 2, 1])?.as_str(),
        "turns 1,2,2,1\nsession 1 transaction 1 at 0 stale t 1\nsession 2 transaction 1 at 0 committed 1\ninserted 1\n"
    );
    Ok(())
}

// One transaction of one INSERT more than the table takes.
#[test]
fn full_table(rt: HostRuntime) -> Result<(), Fail> {
    let alloc = rt.alloc();
    let w = over(alloc, &["a"], vec![in alloc; many_inserts(alloc, 65_537)?]?)?;
    let want = full_lines(alloc, 65_536)?;
    assert!(rt; told(&rt, alloc, &w, &[])?.as_str() == want.as_str());
    Ok(())
}

// An INSERT, and each form of asking, one after another on one table.
#[test]
fn answers_of_statements(rt: HostRuntime) -> Result<(), Fail> {
    let alloc = rt.alloc();
    let mut db = filled(alloc, 3)?;
    for (act, want) in [
        (insert(alloc, &[7])?, "inserted 1\n"),
        (ask(alloc, Verb::Max(A), &[])?, "max 7\n"),
        (
            ask(alloc, Verb::Delete, &[(A, Test::Lt(3))])?,
            "deleted 2\n",
        ),
        (ask(alloc, Verb::Min(A), &[])?, "min 3\n"),
        (ask(alloc, Verb::Count, &[(A, Test::Gt(3))])?, "count 1\n"),
        (
            ask(alloc, select(alloc, A, None, None)?, &[])?,
            "rows 2\nrow 3\nrow 7\n",
        ),
    ] {
        assert_eq!(rt; answered(&rt, alloc, &mut db, &act)?.as_str(), want);
    }
    Ok(())
}

// The last row that a table takes, and one more.
#[test]
fn no_answer_on_a_full_table(rt: HostRuntime) -> Result<(), Fail> {
    let alloc = rt.alloc();
    let act = insert(alloc, &[7])?;
    let mut db = filled(alloc, 65_535)?;
    assert_eq!(rt;
        answered(&rt, alloc, &mut db, &act)?.as_str(),
        "inserted 1\n"
    );
    assert_eq!(rt; answered(&rt, alloc, &mut db, &act)?.as_str(), "");
    Ok(())
}
