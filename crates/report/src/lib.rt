//! The order of a history, and the texts of a run, of what its server saw and of how it went.
#![tactic(auto)]

mod answers;
mod appending;
mod changes;
mod exchanges;
mod hexadecimal;
mod history_order;
pub mod laws;
mod report_lines;
mod summary_lines;
#[cfg(test)]
mod tests;
mod transactions;
mod turns;
mod view_lines;
#[cfg(test)]
mod view_tests;

pub use history_order::history;
pub use report_lines::report_text;
pub use summary_lines::summary_text;
pub use view_lines::view_text;
