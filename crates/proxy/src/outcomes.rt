//! What a proxy is given and what it gives.
use mope_base::{Items, Mode};
use value_cipher::Key;
use walk_proto::{Exchange, Reply, Request};
use workload::DoneTxn;

/// What all proxies of a run share: the secret key, the first nonce, which is at most 2^63, the mode of the tables,
/// and whether each proxy keeps its exchanges.
#[derive(Clone, Copy)]
pub struct Settings {
    pub key: Key,
    pub first: u64,
    pub mode: Mode,
    pub keep: bool,
}

/// What a script came to: its transactions in order, and its exchanges where they were kept, else none.
#[derive(Debug, Drop)]
pub struct Finished {
    pub txns: Items<DoneTxn>,
    pub log: Items<Exchange>,
}

/// What a proxy wanted of the server when it got a reply: to begin a transaction, to find a constant's place, to put in
/// a row or ask about rows, to end a transaction, or to rebuild a tree.
#[derive(Clone, Copy, Debug, PartialEq, Eq)]
pub enum Want {
    Begin,
    Walk,
    Act,
    End,
    Rebuild,
}

/// What a proxy does next.
#[derive(Debug, Drop)]
pub enum Step {
    /// It sends a request, and wants the reply to it.
    Send(Request),
    /// Every transaction of its script has ended.
    Done,
    /// It got a reply that the protocol doesn't allow to what it wanted.
    Strange { want: Want, got: Reply },
}

/// How a proxy was driven: to the end of its script, or to a reply that the protocol doesn't allow.
#[derive(Debug, Drop)]
pub enum Driven {
    Finished(Finished),
    Strange { want: Want, got: Reply },
}

/// What a server saw of a run: its mode, the exchanges of each session, and the turns that were taken.
#[derive(Debug, Drop)]
pub struct View<T> {
    pub mode: Mode,
    pub logs: Items<Items<Exchange>>,
    pub turns: Items<T>,
}
