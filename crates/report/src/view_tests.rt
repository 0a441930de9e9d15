//! The worked examples of views and of a summary, written down here.
ghost use Rattle.std.specs.Prelude.{◌≡◌, [], ◌∷◌, IfOk, OnOk};
ghost use Rattle.mope_base.specs.Lists.{Each};
ghost use Rattle.walk_proto.specs.Rules.{IsReply, IsRequest};
ghost use Rattle.report.specs.ViewText.{IsWritable};

use crate::{summary_text, view_text};
use mope_base::{Body, ColNo, Items, Mode, OutOfMemory, SessionNo, TableNo};
use ope_tree::{Change, Place, Tree};
use path_code::Side;
use proxy::{Exchange, View};
use sql_text::Name;
use std::alloc::Global;
use std::test::Fail;
use summary::Summary;
use versions::{ColumnChange, Turn, TurnKind};
use walk_proto::{Asked, How, Reply, Request};
use workload::{Decl, DoneTxn, End, Workload};

/// The one table of the examples, and its one column.
const T: TableNo = TableNo(0);

const A: ColNo = ColNo(0);

/// The value 5 under the nonce 0 and the zero key.
const FIVE: Body = Body {
    nonce: 0,
    masked: 0x903d_f1a0_ade0_b873,
};

/// A list of one element.
fn one<X: Drop>(alloc: Global, x: X) -> Result<Items<X>, OutOfMemory>
    ensures { IfOk result (λ items. items ≡ x ∷ []) }
{
    let mut items = Items::new(alloc);
    items.push(x)?;
    Ok(items)
}

/// A workload with a table `t` of one column `a`, and no scripts: the text doesn't depend on them.
fn table_t(alloc: Global) -> Result<Workload, OutOfMemory> {
    let column = Name {
        bytes: Items::from_vec(b"a".to_vec(alloc)?),
    };
    let table = Decl {
        name: Name {
            bytes: Items::from_vec(b"t".to_vec(alloc)?),
        },
        columns: one(alloc, column)?,
    };
    Ok(Workload {
        tables: one(alloc, table)?,
        sessions: Items::new(alloc),
    })
}

/// One exchange more, of messages that some bytes give.
fn push(log: &mut Vec<Exchange>, request: Request, reply: Reply) -> Result<(), OutOfMemory>
    requires request { IsRequest request }
    requires reply { IsReply reply }
    requires before { Each IsWritable log.old.items }
    ensures { OnOk result (Each IsWritable log.new.items) }
{
    log.push(Exchange { request, reply })?;
    Ok(())
}

fn start() -> Request
    ensures { IsRequest result }
{
    Request::WalkStart {
        table: T,
        column: A,
    }
}

fn ended(how: How, number: u64) -> Reply
    ensures { IsReply result }
{
    Reply::Ended {
        how,
        table: 0,
        number,
    }
}

/// `INSERT INTO t VALUES (5)` in an empty table.
fn insert_five(alloc: Global, log: &mut Vec<Exchange>) -> Result<(), OutOfMemory>
    requires { Each IsWritable log.old.items }
    ensures { OnOk result (Each IsWritable log.new.items) }
{
    let insert = Request::Insert {
        table: T,
        bodies: one(alloc, FIVE)?,
    };
    push(log, Request::Begin, ended(How::Began, 0))?;
    push(log, start(), Reply::Placed)?;
    push(log, insert, Reply::Count(1))?;
    push(log, Request::End { commit: true }, ended(How::Committed, 1))
}

/// `SELECT COUNT(*) FROM t WHERE a BETWEEN 1 AND 9` after it.
#[tactic(auto, unfolding(walk_proto::specs::Rules::is_asked, walk_proto::specs::Rules::are_ops))]
fn count_between(alloc: Global, log: &mut Vec<Exchange>) -> Result<(), OutOfMemory>
    requires { Each IsWritable log.old.items }
    ensures { OnOk result (Each IsWritable log.new.items) }
{
    let query = Request::Query(Asked {
        table: T,
        verb: 1,
        target: 0,
        order: 0,
        order_column: 0,
        limit: None,
        columns: Items::new(alloc),
        conds: one(alloc, (0, 5))?,
    });
    push(log, Request::Begin, ended(How::Began, 1))?;
    push(log, start(), Reply::Node(FIVE))?;
    push(log, Request::Go { side: Side::Left }, Reply::Placed)?;
    push(log, start(), Reply::Node(FIVE))?;
    push(log, Request::Go { side: Side::Right }, Reply::Placed)?;
    push(log, query, Reply::Count(1))?;
    push(log, Request::End { commit: true }, ended(How::Closed, 1))
}

/// The exchanges of the example.
#[tactic(auto, unfolding(mope_base::specs::Lists::Each))]
fn example_log(alloc: Global) -> Result<Items<Exchange>, OutOfMemory>
    ensures { IfOk result (λ log. Each IsWritable log) }
{
    let mut log = Vec::new(alloc);
    insert_five(alloc, &mut log)?;
    count_between(alloc, &mut log)?;
    Ok(Items::from_vec(log))
}

/// A turn of session 1 that changed nothing.
fn still(alloc: Global, what: TurnKind) -> Turn {
    Turn {
        session: SessionNo(1),
        what,
        changes: Items::new(alloc),
    }
}

/// A commit of session 1 that changed the codes of the column so.
fn commit(alloc: Global, number: u64, summary: Summary) -> Result<Turn, OutOfMemory> {
    let change = ColumnChange {
        table: T,
        column: A,
        summary,
    };
    Ok(Turn {
        session: SessionNo(1),
        what: TurnKind::Committed {
            number,
            ops: Items::new(alloc),
        },
        changes: one(alloc, change)?,
    })
}

/// A new item after the others. A tree of more than 1,000 items ends the test.
fn append(tree: &mut Tree) -> Result<Change, OutOfMemory> {
    let len = tree.len();
    if len > 1000 {
        return Err(OutOfMemory);
    }
    tree.insert_at(Place::Gap(len), FIVE)
}

/// The codes that the last of so many new items changes, each after the others.
fn appended(alloc: Global, count: u32) -> Result<Summary, OutOfMemory> {
    let mut tree = Tree::new(alloc);
    for _ in 1..count {
        append(&mut tree)?;
    }
    Summary::of_change(alloc, &append(&mut tree)?)
}

/// One row fewer at the first item, which goes. A tree in which it has none ends the test.
fn drop_first(tree: &mut Tree) -> Result<Change, OutOfMemory> {
    if tree.len() == 0 {
        return Err(OutOfMemory);
    }
    let Some((_body, count)) = tree.item(0) else {
        return Err(OutOfMemory);
    };
    if count == 0 {
        return Err(OutOfMemory);
    }
    tree.drop_one(0, Mode::SameTime)
}

/// The codes that change where the first of two items is dropped.
fn first_of_two_dropped(alloc: Global) -> Result<Summary, OutOfMemory> {
    let mut tree = Tree::new(alloc);
    append(&mut tree)?;
    append(&mut tree)?;
    Summary::of_change(alloc, &drop_first(&mut tree)?)
}

/// The turns of the example.
fn example_turns(alloc: Global) -> Result<Items<Turn>, OutOfMemory> {
    let mut turns = Items::new(alloc);
    turns.push(still(alloc, TurnKind::Began(0)))?;
    turns.push(commit(alloc, 1, appended(alloc, 1)?)?)?;
    turns.push(still(alloc, TurnKind::Began(1)))?;
    Ok(turns)
}

/// The other turns: of five ascending items the fifth stands too deep, and the tree is balanced; of two the first is dropped, and
/// the second moves up.
fn other_turns(alloc: Global) -> Result<Items<Turn>, OutOfMemory> {
    let install = TurnKind::Installed {
        number: 6,
        table: T,
        column: A,
    };
    let mut turns = Items::new(alloc);
    turns.push(commit(alloc, 5, appended(alloc, 5)?)?)?;
    turns.push(still(
        alloc,
        TurnKind::Conflict {
            table: T,
            number: 5,
        },
    ))?;
    turns.push(still(alloc, install))?;
    turns.push(still(
        alloc,
        TurnKind::Stale {
            table: T,
            number: 6,
        },
    ))?;
    turns.push(commit(alloc, 7, first_of_two_dropped(alloc)?)?)?;
    turns.push(commit(alloc, 8, Summary::new(alloc))?)?;
    Ok(turns)
}

#[test]
#[tactic(auto, unfolding(mope_base::specs::Lists::Each))]
fn example_view(rt: HostRuntime) -> Result<(), Fail> {
    let alloc = rt.alloc();
    let view = View {
        mode: Mode::Ordinary,
        logs: one(alloc, example_log(alloc)?)?,
        turns: example_turns(alloc)?,
    };
    let expected = b"view ordinary
session 1
> 01
< 0d00000000000000000000
> 020000
< 0a
> 0500010000000000000000903df1a0ade0b873
< 0c0000000000000001
> 0701
< 0d02000000000000000001
> 01
< 0d00000000000000000001
> 020000
< 090000000000000000903df1a0ade0b873
> 0300
< 0a
> 020000
< 090000000000000000903df1a0ade0b873
> 0301
< 0a
> 060001000000000000000000000000000000000000000000010005
< 0c0000000000000001
> 0701
< 0d01000000000000000001
turn 1 session 1 begin 0
turn 2 session 1 commit 1
column t a
new 8000000000000000
turn 3 session 1 begin 1
";
    let text = view_text(alloc, &table_t(alloc)?, &view)?;
    assert_eq!(rt; text.as_slice(), expected.as_slice());
    Ok(())
}

// No sessions, and a last turn with a column of which all codes stay.
#[test]
#[tactic(auto, unfolding(mope_base::specs::Lists::Each))]
fn each_other_turn(rt: HostRuntime) -> Result<(), Fail> {
    let alloc = rt.alloc();
    let view = View {
        mode: Mode::SameTime,
        logs: Items::new(alloc),
        turns: other_turns(alloc)?,
    };
    let expected = b"view same-time
turn 1 session 1 commit 5
column t a
map 8000000000000000 2000000000000000
map c000000000000000 4000000000000000
map e000000000000000 8000000000000000
map f000000000000000 a000000000000000
new c000000000000000
turn 2 session 1 conflict t 5
turn 3 session 1 install 6
turn 4 session 1 stale t 6
turn 5 session 1 commit 7
column t a
drop 8000000000000000
map c000000000000000 8000000000000000
turn 6 session 1 commit 8
";
    let text = view_text(alloc, &table_t(alloc)?, &view)?;
    assert_eq!(rt; text.as_slice(), expected.as_slice());
    Ok(())
}

fn txn(alloc: Global, end: End) -> DoneTxn {
    DoneTxn {
        session: SessionNo(1),
        place: 1,
        base: 0,
        end,
        answers: Items::new(alloc),
    }
}

#[test]
fn example_summary(rt: HostRuntime) -> Result<(), Fail> {
    let alloc = rt.alloc();
    let txns = [
        txn(alloc, End::Committed(1)),
        txn(alloc, End::Read),
        txn(alloc, End::RolledBack),
        txn(alloc, End::Committed(2)),
        txn(alloc, End::Conflict(T, 2)),
        txn(alloc, End::Installed(3)),
        txn(alloc, End::Stale(T, 3)),
        txn(alloc, End::Read),
        txn(alloc, End::Full(T)),
        txn(alloc, End::Read),
    ];
    let expected = b"generate 18446744073709551615
sessions 64
transactions 10
turns 20
committed 2
read 3
conflict 1
full 1
rolled-back 1
installed 1
stale 1
rows 2
";
    let text = summary_text(alloc, 18_446_744_073_709_551_615, 64, 20, &txns, 2)?;
    assert_eq!(rt; text.as_slice(), expected.as_slice());
    Ok(())
}
