//! The link between the proxy and the server.
ghost use Rattle.std.specs.Prelude.{◌≡◌, List, [], ◌∷◌, ◌++◌, IfOk, OnErr};
ghost use Rattle.walk_proto.specs.declared.messages.Exchange.{Exchange};

use crate::messages::{Reply, Request};
use mope_base::OutOfMemory;

/// A connection as the proxy has it: each request gets one reply.
pub trait Link {
    /// What it means: the exchanges so far, from the first on.
    ghost exchanges: { Self → List Exchange };

    /// Hands a request over and gives the reply to it. On `OutOfMemory` there was no exchange.
    fn exchange(&mut self, request: &Request) -> Result<Reply, OutOfMemory>
        ensures ok { IfOk result
            (λ reply. exchanges self.new ≡ exchanges self.old ++ (record { request = request.now; reply = reply }) ∷ []) }
        ensures err { OnErr result (exchanges self.new ≡ exchanges self.old) };
}
