//! How far a statement has come: what its tokens so far say, and which may follow.
use crate::statements::{Cond, Order, Stmt};
use crate::{Name, Test};
use mope_base::Items;

/// The tokens so far begin a statement, and this is what they say of it.
#[derive(Drop)]
pub enum State {
    Start,
    Rebuild(Rebuilding),
    Insert(Inserting),
    Select(Selecting),
    /// FROM follows.
    From(Verb),
    /// The name of the table follows.
    Table(Verb),
    Filter(Filtering),
    Arrange(Arranging),
    /// The statement has all its tokens.
    Done(Stmt),
    /// A semicolon stands behind the statement.
    Closed(Stmt),
}

/// Within a REBUILD, named for what follows.
#[derive(Drop)]
pub enum Rebuilding {
    Table,
    Open(Name),
    Column(Name),
    Close { table: Name, column: Name },
}

/// Within an INSERT, named for what follows; `More` is a comma or the end of the list.
#[derive(Drop)]
pub enum Inserting {
    Into,
    Table,
    Values(Name),
    Open(Name),
    Number { table: Name, values: Items<u64> },
    More { table: Name, values: Items<u64> },
}

/// Within what a SELECT asks for, named for what follows.
#[derive(Drop)]
pub enum Selecting {
    What,
    CountOpen,
    CountStar,
    CountClose,
    ExtremeOpen(Extreme),
    ExtremeColumn(Extreme),
    ExtremeClose(Extreme, Name),
    /// A comma, or FROM.
    More(Items<Name>),
    Column(Items<Name>),
}

/// Of a column's values, which is asked for.
#[derive(Clone, Copy)]
pub enum Extreme {
    Least,
    Greatest,
}

/// What becomes of the rows that meet the conditions.
#[derive(Drop)]
pub enum Verb {
    Delete,
    Count,
    Extreme(Extreme, Name),
    Rows(Rows),
}

/// The columns of the rows that are read.
#[derive(Drop)]
pub enum Rows {
    All,
    Columns(Items<Name>),
}

/// A statement up to its conditions.
#[derive(Drop)]
pub struct Subject {
    pub verb: Verb,
    pub table: Name,
    pub conds: Items<Cond>,
}

/// From the table on to the last condition, named for what follows.
#[derive(Drop)]
pub enum Filtering {
    /// WHERE, or what may follow the conditions.
    Where { verb: Verb, table: Name },
    Column(Subject),
    Test(Subject, Name),
    Number(Subject, Name, Operator),
    Low(Subject, Name),
    And(Subject, Name, u64),
    High(Subject, Name, u64),
    /// AND, or what may follow the conditions.
    More(Subject),
}

/// The test of a condition with one number.
#[derive(Clone, Copy)]
pub enum Operator {
    Equal,
    Less,
    LessEqual,
    Greater,
    GreaterEqual,
}

/// A SELECT of rows up to its conditions.
#[derive(Drop)]
pub struct Listing {
    pub rows: Rows,
    pub table: Name,
    pub conds: Items<Cond>,
}

/// From the conditions on, named for what follows.
#[derive(Drop)]
pub enum Arranging {
    By(Listing),
    Column(Listing),
    /// ASC, DESC, or what may follow them.
    Direction(Listing, Name),
    /// LIMIT, or the end.
    Limit(Listing, Order),
    Number(Listing, Option<Order>),
}
