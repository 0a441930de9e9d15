//! What a client with the key and a connection without it do together: definitions and laws. Nothing here runs.
#![tactic(auto)]

pub mod examples;
pub mod laws;
