//! What a token makes of a statement from its table on to its conditions.
ghost use Rattle.std.specs.Prelude.{◌≡◌, IfOk};
ghost use Rattle.sql_text.specs.declared.states.Filtering.TheVariants as filtering;
ghost use Rattle.sql_text.specs.declared.states.State.TheVariants.{Filter};
ghost use Rattle.sql_text.specs.declared.statements.Stmt.TheVariants as stmt;
ghost use Rattle.sql_text.specs.Machine.{extreme_what, filter_mark, filter_name, filter_number, finished_filter, rows_what, test_mark, test_of, verb_end, verb_statement, with_cond};

use crate::arrange_steps::listing_end;
use crate::marks::Mark;
use crate::statements::{Cond, Stmt, What};
use crate::states::{Extreme, Filtering, Listing, Operator, Rows, State, Subject, Verb};
use crate::steps::statement_end;
use crate::{Name, Test};
use mope_base::{Items, OutOfMemory};
use std::alloc::Global;

pub fn filter_mark(alloc: Global, at: Filtering, mark: Mark) -> Option<State>
    ensures { result ≡ filter_mark at mark }
{
    match at {
        Filtering::Where { verb, table } => {
            let conds = Items::new(alloc);
            if mark == Mark::Where {
                Some(State::Filter(Filtering::Column(Subject { verb, table, conds })))
            } else {
                verb_end(Subject { verb, table, conds }, mark)
            }
        }
        Filtering::Column(_subject) => None,
        Filtering::Test(subject, column) => test_mark(subject, column, mark),
        Filtering::Number(_subject, _column, _operator) => None,
        Filtering::Low(_subject, _column) => None,
        Filtering::And(subject, column, low) => {
            if mark == Mark::And {
                Some(State::Filter(Filtering::High(subject, column, low)))
            } else {
                None
            }
        }
        Filtering::High(_subject, _column, _low) => None,
        Filtering::More(subject) => {
            if mark == Mark::And {
                Some(State::Filter(Filtering::Column(subject)))
            } else {
                verb_end(subject, mark)
            }
        }
    }
}

/// What may follow the conditions.
fn verb_end(subject: Subject, mark: Mark) -> Option<State>
    ensures { result ≡ verb_end subject.verb subject.table subject.conds mark }
{
    let Subject { verb, table, conds } = subject;
    match verb {
        Verb::Delete => statement_end(Stmt::Delete { table, conds }, mark),
        Verb::Count => statement_end(select(What::Count, table, conds), mark),
        Verb::Extreme(which, column) => {
            statement_end(select(extreme_what(which, column), table, conds), mark)
        }
        Verb::Rows(rows) => listing_end(Listing { rows, table, conds }, mark),
    }
}

fn select(what: What, table: Name, conds: Items<Cond>) -> Stmt
    ensures { result ≡ stmt.Select what table conds None None }
{
    Stmt::Select {
        what,
        table,
        conds,
        order: None,
        limit: None,
    }
}

fn extreme_what(which: Extreme, column: Name) -> What
    ensures { result ≡ extreme_what which column }
{
    match which {
        Extreme::Least => What::Min(column),
        Extreme::Greatest => What::Max(column),
    }
}

pub fn rows_what(rows: Rows) -> What
    ensures { result ≡ rows_what rows }
{
    match rows {
        Rows::All => What::All,
        Rows::Columns(names) => What::Columns(names),
    }
}

fn test_mark(subject: Subject, column: Name, mark: Mark) -> Option<State>
    ensures { result ≡ test_mark subject column mark }
{
    if mark == Mark::Equal {
        compared(subject, column, Operator::Equal)
    } else if mark == Mark::Less {
        compared(subject, column, Operator::Less)
    } else if mark == Mark::LessEqual {
        compared(subject, column, Operator::LessEqual)
    } else if mark == Mark::Greater {
        compared(subject, column, Operator::Greater)
    } else if mark == Mark::GreaterEqual {
        compared(subject, column, Operator::GreaterEqual)
    } else if mark == Mark::Between {
        Some(State::Filter(Filtering::Low(subject, column)))
    } else {
        None
    }
}

fn compared(subject: Subject, column: Name, operator: Operator) -> Option<State>
    ensures { result ≡ Some (Filter (filtering.Number subject column operator)) }
{
    Some(State::Filter(Filtering::Number(subject, column, operator)))
}

pub fn filter_name(at: Filtering, name: Name) -> Option<State>
    ensures { result ≡ filter_name at name }
{
    match at {
        Filtering::Where {
            verb: _verb,
            table: _table,
        } => None,
        Filtering::Column(subject) => Some(State::Filter(Filtering::Test(subject, name))),
        Filtering::Test(_subject, _column) => None,
        Filtering::Number(_subject, _column, _operator) => None,
        Filtering::Low(_subject, _column) => None,
        Filtering::And(_subject, _column, _low) => None,
        Filtering::High(_subject, _column, _low) => None,
        Filtering::More(_subject) => None,
    }
}

pub fn filter_number(at: Filtering, number: u64) -> Result<Option<State>, OutOfMemory>
    ensures { IfOk result (λ next. next ≡ filter_number at number) }
{
    match at {
        Filtering::Where {
            verb: _verb,
            table: _table,
        } => Ok(None),
        Filtering::Column(_subject) => Ok(None),
        Filtering::Test(_subject, _column) => Ok(None),
        Filtering::Number(subject, column, operator) => {
            Ok(Some(with_cond(subject, column, test_of(operator, number))?))
        }
        Filtering::Low(subject, column) => {
            Ok(Some(State::Filter(Filtering::And(subject, column, number))))
        }
        Filtering::And(_subject, _column, _low) => Ok(None),
        Filtering::High(subject, column, low) => {
            Ok(Some(with_cond(subject, column, Test::Between(low, number))?))
        }
        Filtering::More(_subject) => Ok(None),
    }
}

fn test_of(operator: Operator, number: u64) -> Test
    ensures { result ≡ test_of operator number }
{
    match operator {
        Operator::Equal => Test::Eq(number),
        Operator::Less => Test::Lt(number),
        Operator::LessEqual => Test::Le(number),
        Operator::Greater => Test::Gt(number),
        Operator::GreaterEqual => Test::Ge(number),
    }
}

fn with_cond(subject: Subject, column: Name, test: Test) -> Result<State, OutOfMemory>
    ensures { IfOk result (λ next. next ≡ Filter (filtering.More (with_cond subject column test))) }
{
    let Subject {
        verb,
        table,
        mut conds,
    } = subject;
    conds.push(Cond { column, test })?;
    Ok(State::Filter(Filtering::More(Subject { verb, table, conds })))
}

/// The statement, where a line may end here.
pub fn finished_filter(alloc: Global, at: Filtering) -> Option<Stmt>
    ensures { result ≡ finished_filter at }
{
    match at {
        Filtering::Where { verb, table } => {
            let conds = Items::new(alloc);
            Some(verb_statement(Subject { verb, table, conds }))
        }
        Filtering::Column(_subject) => None,
        Filtering::Test(_subject, _column) => None,
        Filtering::Number(_subject, _column, _operator) => None,
        Filtering::Low(_subject, _column) => None,
        Filtering::And(_subject, _column, _low) => None,
        Filtering::High(_subject, _column, _low) => None,
        Filtering::More(subject) => Some(verb_statement(subject)),
    }
}

fn verb_statement(subject: Subject) -> Stmt
    ensures { result ≡ verb_statement subject.verb subject.table subject.conds }
{
    let Subject { verb, table, conds } = subject;
    match verb {
        Verb::Delete => Stmt::Delete { table, conds },
        Verb::Count => select(What::Count, table, conds),
        Verb::Extreme(which, column) => select(extreme_what(which, column), table, conds),
        Verb::Rows(rows) => select(rows_what(rows), table, conds),
    }
}
