//! What a connection makes of a request.
ghost use Rattle.std.specs.Prelude.{◌≡◌, option_copied};

use mope_base::{ColNo, TableNo};
use std::marker::Model;
use walk_proto::{Reply, Request};

/// An exchange that a connection answered. Only the calls of a connection make one, and it has no copy.
#[derive(Debug, Drop)]
pub struct Receipt {
    pub(crate) request: Option<Request>,
    pub(crate) reply: Reply,
}

impl Model for Receipt {
    ghost use Rattle.server_conn.specs.Receipts.{Exchanged};

    ghost Value = { Exchanged };

    ghost view = { λ r. record { request = r.request; reply = r.reply } };
}

impl Receipt {
    /// What was asked: `None` exactly where the bytes spelled no request.
    pub fn request(&self) -> Option<&Request>
        ensures { option_copied result ≡ self.now.request }
    {
        self.request.as_ref()
    }

    /// What was answered.
    pub fn reply(&self) -> &Reply
        ensures { result.now ≡ self.now.reply }
    {
        &self.reply
    }
}

/// What comes of a request: an exchange that is done, or a turn that has to be taken first.
#[derive(Debug, Drop)]
pub enum Served {
    /// It was answered.
    Reply(Receipt),
    /// The begin turn of a transaction; then `Conn::began` answers.
    Begin,
    /// The commit turn of the transaction; then `Conn::ended` answers.
    Commit,
    /// The install turn of a column's balanced tree; then `Conn::ended` answers.
    Install { table: TableNo, column: ColNo },
}
