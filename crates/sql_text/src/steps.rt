//! What a token makes of a statement that is begun.
ghost use Rattle.std.specs.Prelude.{◌≡◌, IfOk};
ghost use Rattle.std.specs.Prelude.{if◌then◌else◌};
ghost use Rattle.sql_text.specs.declared.states.Inserting.TheVariants.{Open, More};
ghost use Rattle.sql_text.specs.declared.states.Selecting.TheVariants as selecting;
ghost use Rattle.sql_text.specs.declared.states.State.TheVariants.{Select, From};
ghost use Rattle.sql_text.specs.Machine.{finished, insert_mark, insert_name, insert_number, on_mark, on_name, on_number, rebuild_mark, rebuild_name, select_mark, select_name, start_mark, statement_end, step, what_mark};

use crate::Name;
use crate::arrange_steps::{arrange_mark, arrange_name, arrange_number, finished_arrange};
use crate::filter_steps::{filter_mark, filter_name, filter_number, finished_filter};
use crate::marks::Mark;
use crate::statements::Stmt;
use crate::states::{Extreme, Filtering, Inserting, Rebuilding, Rows, Selecting, State, Verb};
use crate::tokens::Token;
use mope_base::{Items, OutOfMemory};
use std::alloc::Global;

/// The state after one more token, or none where it can't follow.
#[tactic(auto, unfolding(crate::specs::Machine::step))]
pub fn step(alloc: Global, state: State, token: Token) -> Result<Option<State>, OutOfMemory>
    ensures { IfOk result (λ next. next ≡ step state token) }
{
    match token {
        Token::Fixed(mark) => Ok(on_mark(alloc, state, mark)),
        Token::Named(name) => on_name(alloc, state, name),
        Token::Number(number) => on_number(state, number),
    }
}

/// The statement, where a line may end here.
pub fn finished(alloc: Global, state: State) -> Option<Stmt>
    ensures { result ≡ finished state }
{
    match state {
        State::Start => None,
        State::Rebuild(_at) => None,
        State::Insert(_at) => None,
        State::Select(_at) => None,
        State::From(_verb) => None,
        State::Table(_verb) => None,
        State::Filter(at) => finished_filter(alloc, at),
        State::Arrange(at) => finished_arrange(at),
        State::Done(stmt) => Some(stmt),
        State::Closed(stmt) => Some(stmt),
    }
}

fn on_mark(alloc: Global, state: State, mark: Mark) -> Option<State>
    ensures { result ≡ on_mark state mark }
{
    match state {
        State::Start => start_mark(mark),
        State::Rebuild(at) => rebuild_mark(at, mark),
        State::Insert(at) => insert_mark(alloc, at, mark),
        State::Select(at) => select_mark(at, mark),
        State::From(verb) => {
            if mark == Mark::From {
                Some(State::Table(verb))
            } else {
                None
            }
        }
        State::Table(_verb) => None,
        State::Filter(at) => filter_mark(alloc, at, mark),
        State::Arrange(at) => arrange_mark(at, mark),
        State::Done(stmt) => statement_end(stmt, mark),
        State::Closed(_stmt) => None,
    }
}

fn on_name(alloc: Global, state: State, name: Name) -> Result<Option<State>, OutOfMemory>
    ensures { IfOk result (λ next. next ≡ on_name state name) }
{
    match state {
        State::Start => Ok(None),
        State::Rebuild(at) => Ok(rebuild_name(at, name)),
        State::Insert(at) => Ok(insert_name(at, name)),
        State::Select(at) => select_name(alloc, at, name),
        State::From(_verb) => Ok(None),
        State::Table(verb) => Ok(Some(State::Filter(Filtering::Where { verb, table: name }))),
        State::Filter(at) => Ok(filter_name(at, name)),
        State::Arrange(at) => Ok(arrange_name(at, name)),
        State::Done(_stmt) => Ok(None),
        State::Closed(_stmt) => Ok(None),
    }
}

fn on_number(state: State, number: u64) -> Result<Option<State>, OutOfMemory>
    ensures { IfOk result (λ next. next ≡ on_number state number) }
{
    match state {
        State::Start => Ok(None),
        State::Rebuild(_at) => Ok(None),
        State::Insert(at) => insert_number(at, number),
        State::Select(_at) => Ok(None),
        State::From(_verb) => Ok(None),
        State::Table(_verb) => Ok(None),
        State::Filter(at) => filter_number(at, number),
        State::Arrange(at) => Ok(arrange_number(at, number)),
        State::Done(_stmt) => Ok(None),
        State::Closed(_stmt) => Ok(None),
    }
}

fn start_mark(mark: Mark) -> Option<State>
    ensures { result ≡ start_mark mark }
{
    if mark == Mark::Begin {
        Some(State::Done(Stmt::Begin))
    } else if mark == Mark::Commit {
        Some(State::Done(Stmt::Commit))
    } else if mark == Mark::Rollback {
        Some(State::Done(Stmt::Rollback))
    } else if mark == Mark::Rebuild {
        Some(State::Rebuild(Rebuilding::Table))
    } else if mark == Mark::Insert {
        Some(State::Insert(Inserting::Into))
    } else if mark == Mark::Delete {
        Some(State::From(Verb::Delete))
    } else if mark == Mark::Select {
        Some(State::Select(Selecting::What))
    } else {
        None
    }
}

fn rebuild_mark(at: Rebuilding, mark: Mark) -> Option<State>
    ensures { result ≡ rebuild_mark at mark }
{
    match at {
        Rebuilding::Table => None,
        Rebuilding::Open(table) => {
            if mark == Mark::Open {
                Some(State::Rebuild(Rebuilding::Column(table)))
            } else {
                None
            }
        }
        Rebuilding::Column(_table) => None,
        Rebuilding::Close { table, column } => {
            if mark == Mark::Close {
                Some(State::Done(Stmt::Rebuild { table, column }))
            } else {
                None
            }
        }
    }
}

fn rebuild_name(at: Rebuilding, name: Name) -> Option<State>
    ensures { result ≡ rebuild_name at name }
{
    match at {
        Rebuilding::Table => Some(State::Rebuild(Rebuilding::Open(name))),
        Rebuilding::Open(_table) => None,
        Rebuilding::Column(table) => Some(State::Rebuild(Rebuilding::Close {
            table,
            column: name,
        })),
        Rebuilding::Close {
            table: _table,
            column: _column,
        } => None,
    }
}

fn insert_mark(alloc: Global, at: Inserting, mark: Mark) -> Option<State>
    ensures { result ≡ insert_mark at mark }
{
    match at {
        Inserting::Into => {
            if mark == Mark::Into {
                Some(State::Insert(Inserting::Table))
            } else {
                None
            }
        }
        Inserting::Table => None,
        Inserting::Values(table) => {
            if mark == Mark::Values {
                Some(State::Insert(Inserting::Open(table)))
            } else {
                None
            }
        }
        Inserting::Open(table) => open_mark(alloc, table, mark),
        Inserting::Number {
            table: _table,
            values: _values,
        } => None,
        Inserting::More { table, values } => more_mark(table, values, mark),
    }
}

fn open_mark(alloc: Global, table: Name, mark: Mark) -> Option<State>
    ensures { result ≡ insert_mark (Open table) mark }
{
    if mark == Mark::Open {
        Some(State::Insert(Inserting::Number {
            table,
            values: Items::new(alloc),
        }))
    } else {
        None
    }
}

fn more_mark(table: Name, values: Items<u64>, mark: Mark) -> Option<State>
    ensures { result ≡ insert_mark (More table values) mark }
{
    if mark == Mark::Comma {
        Some(State::Insert(Inserting::Number { table, values }))
    } else if mark == Mark::Close {
        Some(State::Done(Stmt::Insert { table, values }))
    } else {
        None
    }
}

fn insert_name(at: Inserting, name: Name) -> Option<State>
    ensures { result ≡ insert_name at name }
{
    match at {
        Inserting::Into => None,
        Inserting::Table => Some(State::Insert(Inserting::Values(name))),
        Inserting::Values(_table) => None,
        Inserting::Open(_table) => None,
        Inserting::Number {
            table: _table,
            values: _values,
        } => None,
        Inserting::More {
            table: _table,
            values: _values,
        } => None,
    }
}

fn insert_number(at: Inserting, number: u64) -> Result<Option<State>, OutOfMemory>
    ensures { IfOk result (λ next. next ≡ insert_number at number) }
{
    match at {
        Inserting::Into => Ok(None),
        Inserting::Table => Ok(None),
        Inserting::Values(_table) => Ok(None),
        Inserting::Open(_table) => Ok(None),
        Inserting::Number { table, mut values } => {
            values.push(number)?;
            Ok(Some(State::Insert(Inserting::More { table, values })))
        }
        Inserting::More {
            table: _table,
            values: _values,
        } => Ok(None),
    }
}

fn what_mark(mark: Mark) -> Option<State>
    ensures { result ≡ what_mark mark }
{
    if mark == Mark::Star {
        Some(State::From(Verb::Rows(Rows::All)))
    } else if mark == Mark::Count {
        Some(State::Select(Selecting::CountOpen))
    } else if mark == Mark::Min {
        Some(State::Select(Selecting::ExtremeOpen(Extreme::Least)))
    } else if mark == Mark::Max {
        Some(State::Select(Selecting::ExtremeOpen(Extreme::Greatest)))
    } else {
        None
    }
}

fn select_mark(at: Selecting, mark: Mark) -> Option<State>
    ensures { result ≡ select_mark at mark }
{
    match at {
        Selecting::What => what_mark(mark),
        Selecting::CountOpen => selecting_if(mark == Mark::Open, Selecting::CountStar),
        Selecting::CountStar => selecting_if(mark == Mark::Star, Selecting::CountClose),
        Selecting::CountClose => from_if(mark == Mark::Close, Verb::Count),
        Selecting::ExtremeOpen(which) => {
            selecting_if(mark == Mark::Open, Selecting::ExtremeColumn(which))
        }
        Selecting::ExtremeColumn(_which) => None,
        Selecting::ExtremeClose(which, column) => {
            from_if(mark == Mark::Close, Verb::Extreme(which, column))
        }
        Selecting::More(columns) => columns_mark(columns, mark),
        Selecting::Column(_columns) => None,
    }
}

fn selecting_if(follows: bool, at: Selecting) -> Option<State>
    ensures { result ≡ (if follows then Some (Select at) else None) }
{
    if follows {
        Some(State::Select(at))
    } else {
        None
    }
}

fn from_if(follows: bool, verb: Verb) -> Option<State>
    ensures { result ≡ (if follows then Some (From verb) else None) }
{
    if follows {
        Some(State::From(verb))
    } else {
        None
    }
}

fn columns_mark(columns: Items<Name>, mark: Mark) -> Option<State>
    ensures { result ≡ select_mark (selecting.More columns) mark }
{
    if mark == Mark::Comma {
        Some(State::Select(Selecting::Column(columns)))
    } else if mark == Mark::From {
        Some(State::Table(Verb::Rows(Rows::Columns(columns))))
    } else {
        None
    }
}

fn select_name(alloc: Global, at: Selecting, name: Name) -> Result<Option<State>, OutOfMemory>
    ensures { IfOk result (λ next. next ≡ select_name at name) }
{
    match at {
        Selecting::What => {
            let mut columns = Items::new(alloc);
            columns.push(name)?;
            Ok(Some(State::Select(Selecting::More(columns))))
        }
        Selecting::CountOpen => Ok(None),
        Selecting::CountStar => Ok(None),
        Selecting::CountClose => Ok(None),
        Selecting::ExtremeOpen(_which) => Ok(None),
        Selecting::ExtremeColumn(which) => {
            Ok(Some(State::Select(Selecting::ExtremeClose(which, name))))
        }
        Selecting::ExtremeClose(_which, _column) => Ok(None),
        Selecting::More(_columns) => Ok(None),
        Selecting::Column(mut columns) => {
            columns.push(name)?;
            Ok(Some(State::Select(Selecting::More(columns))))
        }
    }
}

/// A semicolon ends a statement.
pub fn statement_end(stmt: Stmt, mark: Mark) -> Option<State>
    ensures { result ≡ statement_end stmt mark }
{
    if mark == Mark::Semicolon {
        Some(State::Closed(stmt))
    } else {
        None
    }
}
