//! What a token makes of a SELECT of rows behind its conditions.
ghost use Rattle.std.specs.Prelude.{◌≡◌};
ghost use Rattle.sql_text.specs.Machine.{arrange_mark, arrange_name, arrange_number, finished_arrange, limit_end, listing_end, listing_statement};
ghost use Rattle.sql_text.specs.declared.states.Arranging.TheVariants as arranging;

use crate::Name;
use crate::filter_steps::rows_what;
use crate::marks::Mark;
use crate::statements::{Order, Stmt};
use crate::states::{Arranging, Listing, State};
use crate::steps::statement_end;

/// ORDER, LIMIT or a semicolon.
pub fn listing_end(listing: Listing, mark: Mark) -> Option<State>
    ensures { result ≡ listing_end listing mark }
{
    if mark == Mark::Order {
        Some(State::Arrange(Arranging::By(listing)))
    } else {
        limit_end(listing, None, mark)
    }
}

/// LIMIT or a semicolon.
fn limit_end(listing: Listing, order: Option<Order>, mark: Mark) -> Option<State>
    ensures { result ≡ limit_end listing order mark }
{
    if mark == Mark::Limit {
        Some(State::Arrange(Arranging::Number(listing, order)))
    } else {
        statement_end(listing_statement(listing, order, None), mark)
    }
}

fn listing_statement(listing: Listing, order: Option<Order>, limit: Option<u64>) -> Stmt
    ensures { result ≡ listing_statement listing order limit }
{
    let Listing { rows, table, conds } = listing;
    Stmt::Select {
        what: rows_what(rows),
        table,
        conds,
        order,
        limit,
    }
}

pub fn arrange_mark(at: Arranging, mark: Mark) -> Option<State>
    ensures { result ≡ arrange_mark at mark }
{
    match at {
        Arranging::By(listing) => {
            if mark == Mark::By {
                Some(State::Arrange(Arranging::Column(listing)))
            } else {
                None
            }
        }
        Arranging::Column(_listing) => None,
        Arranging::Direction(listing, column) => direction_mark(listing, column, mark),
        Arranging::Limit(listing, order) => limit_end(listing, Some(order), mark),
        Arranging::Number(_listing, _order) => None,
    }
}

fn direction_mark(listing: Listing, column: Name, mark: Mark) -> Option<State>
    ensures { result ≡ arrange_mark (arranging.Direction listing column) mark }
{
    if mark == Mark::Asc {
        let order = Order {
            column,
            down: false,
        };
        Some(State::Arrange(Arranging::Limit(listing, order)))
    } else if mark == Mark::Desc {
        let order = Order { column, down: true };
        Some(State::Arrange(Arranging::Limit(listing, order)))
    } else {
        let order = Order {
            column,
            down: false,
        };
        limit_end(listing, Some(order), mark)
    }
}

pub fn arrange_name(at: Arranging, name: Name) -> Option<State>
    ensures { result ≡ arrange_name at name }
{
    match at {
        Arranging::By(_listing) => None,
        Arranging::Column(listing) => Some(State::Arrange(Arranging::Direction(listing, name))),
        Arranging::Direction(_listing, _column) => None,
        Arranging::Limit(_listing, _order) => None,
        Arranging::Number(_listing, _order) => None,
    }
}

pub fn arrange_number(at: Arranging, number: u64) -> Option<State>
    ensures { result ≡ arrange_number at number }
{
    match at {
        Arranging::By(_listing) => None,
        Arranging::Column(_listing) => None,
        Arranging::Direction(_listing, _column) => None,
        Arranging::Limit(_listing, _order) => None,
        Arranging::Number(listing, order) => {
            let stmt = listing_statement(listing, order, Some(number));
            Some(State::Done(stmt))
        }
    }
}

/// The statement, where a line may end here.
pub fn finished_arrange(at: Arranging) -> Option<Stmt>
    ensures { result ≡ finished_arrange at }
{
    match at {
        Arranging::By(_listing) => None,
        Arranging::Column(_listing) => None,
        Arranging::Direction(listing, column) => {
            let order = Order {
                column,
                down: false,
            };
            Some(listing_statement(listing, Some(order), None))
        }
        Arranging::Limit(listing, order) => Some(listing_statement(listing, Some(order), None)),
        Arranging::Number(_listing, _order) => None,
    }
}
