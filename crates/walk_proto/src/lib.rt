//! The messages between the proxy and the server: their spelling as bytes, the first fault of bytes
//! that spell none, and the link over which they are exchanged.
#![tactic(auto)]

mod faults;
pub mod laws;
mod link;
mod messages;
mod parts;
mod reading;
mod reply_reading;
mod rules;
mod table;
mod writing;

pub use faults::WireStop;
pub use link::Link;
pub use messages::{Asked, Exchange, How, Reply, Request};
pub use reading::read_request;
pub use reply_reading::read_reply;
pub use rules::is_reply;
pub use writing::{write_reply, write_request};

#[cfg(test)]
mod tests;
