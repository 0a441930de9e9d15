//! The tokens of a line.
use crate::Name;
use crate::marks::Mark;

/// A token: a keyword or a symbol, a name, or a number.
#[derive(Drop)]
pub enum Token {
    Fixed(Mark),
    Named(Name),
    Number(u64),
}
