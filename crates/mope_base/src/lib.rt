//! The types, the errors and the byte streams on which every crate of mope stands.
#![tactic(auto)]

mod body;
mod errors;
mod items;
mod memory_sink;
mod memory_source;
mod numbers;
mod reading;
mod sink;
mod source;
mod status;
mod std_streams;
mod writing;

pub use body::Body;
pub use errors::{Failed, OutOfMemory};
pub use items::Items;
pub use memory_sink::MemorySink;
pub use memory_source::MemorySource;
pub use numbers::{ColNo, Mode, SessionNo, TableNo};
pub use reading::{ReadStop, read_all};
pub use sink::Sink;
pub use source::Source;
pub use status::Status;
pub use std_streams::{StdSink, StdSource};
pub use writing::write_all;

#[cfg(test)]
mod tests;
