//! The client of a session, who alone has the key: it turns a script into requests and replies into answers.
#![tactic(auto)]

mod allowing;
mod client;
mod constants;
mod dialogue;
mod doing;
mod driving;
pub mod examples;
mod hearing;
mod opening;
mod outcomes;
mod pads;
mod sending;
#[cfg(test)]
mod tests;
mod turning;

pub use client::Proxy;
pub use doing::Stop;
pub use driving::drive;
pub use outcomes::{Driven, Finished, Settings, Step, View, Want};
pub use walk_proto::Exchange;
