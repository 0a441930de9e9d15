//! Changes of the codes of a column, as the server applies them to its rows and hands them to others, and their composition.
#![tactic(auto)]

mod carrying;
mod composing;
mod gathering;
mod merging;
mod summaries;

pub use path_code::Recode;
pub use summaries::Summary;

#[cfg(test)]
mod tests;
