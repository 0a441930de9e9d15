//! A proxy driven over a link.

ghost use Rattle.std.specs.Prelude.{◌≡◌, ◌++◌, ◌∷◌, [], List, Some, IfOk, OnOk, OnErr};
ghost use Rattle.walk_proto.specs.declared.messages.Exchange.{Exchange};
ghost use Rattle.proxy.specs.Party.{DrivenOver, told, said};
ghost use Rattle.proxy.specs.Talk.{Talk};

use crate::client::Proxy;
use crate::outcomes::{Driven, Step};
use mope_base::OutOfMemory;
use walk_proto::{Link, Reply, Request};

/// The reply of a link to a request.
fn reply_of<L: Link>(link: &mut L, request: Request) -> Result<Reply, OutOfMemory>
    ensures ok { IfOk result (λ got. L.exchanges link.new ≡ L.exchanges link.old ++ (record { request = request; reply = got }) ∷ []) }
    ensures err { OnErr result (L.exchanges link.new ≡ L.exchanges link.old) }
{
    link.exchange(&request)
}

/// Hands a proxy a reply.
fn hand(proxy: &mut Proxy, reply: Reply) -> Result<Step, OutOfMemory>
    ensures moves { OnOk result (proxy.new ≡ told (Some reply) proxy.old) }
    ensures says { IfOk result (λ step. said proxy.new.phase ≡ Some step) }
{
    proxy.next(Some(&reply))
}

/// Drives a proxy over a link from where it stands, until its script has ended or a reply is strange. What it adds to the
/// link's exchanges is a log whose requests are the client's; on `OutOfMemory` too.
pub fn drive<L: Link>(proxy: Proxy, link: &mut L) -> Result<Driven, OutOfMemory>
    ensures adds { (log : List Exchange) × (L.exchanges link.new ≡ L.exchanges link.old ++ log)
        × Talk proxy.setting proxy.client log × IfOk result (DrivenOver proxy log) }
{
    let mut proxy = proxy;
    let mut step = proxy.next(None)?;
    'exchanges: loop {
        match step {
            Step::Send(request) => {
                let reply = reply_of(link, request)?;
                step = hand(&mut proxy, reply)?;
            }
            Step::Done => return Ok(Driven::Finished(proxy.finish())),
            Step::Strange { want, got } => return Ok(Driven::Strange { want, got }),
        }
    }
}
