//! States that are let go level by level: dropped at once, all levels of a state make one proof, too large to check.
use crate::states::{Arranging, Filtering, State};

/// Drops a state.
pub fn let_go(state: State) {
    match state {
        State::Start => {}
        State::Rebuild(_at) => {}
        State::Insert(_at) => {}
        State::Select(_at) => {}
        State::From(_verb) => {}
        State::Table(_verb) => {}
        State::Filter(at) => let_go_filter(at),
        State::Arrange(at) => let_go_arrange(at),
        State::Done(_stmt) => {}
        State::Closed(_stmt) => {}
    }
}

fn let_go_filter(at: Filtering) {
    match at {
        Filtering::Where {
            verb: _verb,
            table: _table,
        } => {}
        Filtering::Column(_subject) => {}
        Filtering::Test(_subject, _column) => {}
        Filtering::Number(_subject, _column, _operator) => {}
        Filtering::Low(_subject, _column) => {}
        Filtering::And(_subject, _column, _low) => {}
        Filtering::High(_subject, _column, _low) => {}
        Filtering::More(_subject) => {}
    }
}

fn let_go_arrange(at: Arranging) {
    match at {
        Arranging::By(_listing) => {}
        Arranging::Column(_listing) => {}
        Arranging::Direction(_listing, _column) => {}
        Arranging::Limit(_listing, _order) => {}
        Arranging::Number(_listing, _order) => {}
    }
}
