//! The lines of the messages that a server saw.

ghost use Rattle.std.specs.Prelude.{◌≡◌, ◌++◌, codes, flat_map, OnOk};
ghost use Rattle.mope_base.specs.Lists.{Each};
ghost use Rattle.walk_proto.specs.Rules.{IsReply, IsRequest};
ghost use Rattle.walk_proto.specs.Spelling.{reply_bytes, request_bytes};
ghost use Rattle.report.specs.ViewText.{IsWritable, exchange_lines, message_line, numbered_from, session_lines};

use crate::appending::{push_bytes, push_numbered_line};
use crate::hexadecimal::push_hexadecimal;
use mope_base::{Items, OutOfMemory};
use proxy::Exchange;
use walk_proto::{Reply, Request, write_reply, write_request};

/// Appends the lines of each session, numbered from 1.
pub(crate) fn push_sessions(text: &mut Vec<u8>, logs: &[Items<Exchange>]) -> Result<(), OutOfMemory>
    requires { Each (Each IsWritable) logs.now }
    ensures { OnOk result (text.new.items ≡ text.old.items ++ numbered_from session_lines 1 logs.now) }
{
    'sessions: for (index, log) in logs.iter().enumerate() {
        push_session(text, index as u64 + 1, log.as_slice())?;
    }
    Ok(())
}

/// Appends the line of a session and those of its exchanges.
fn push_session(text: &mut Vec<u8>, number: u64, log: &[Exchange]) -> Result<(), OutOfMemory>
    requires { Each IsWritable log.now }
    ensures { OnOk result (text.new.items ≡ text.old.items ++ session_lines number log.now) }
{
    push_numbered_line(text, b"session ", number)?;
    push_exchanges(text, log)?;
    Ok(())
}

/// Appends the lines of each exchange.
fn push_exchanges(text: &mut Vec<u8>, log: &[Exchange]) -> Result<(), OutOfMemory>
    requires { Each IsWritable log.now }
    ensures { OnOk result (text.new.items ≡ text.old.items ++ flat_map exchange_lines log.now) }
{
    'exchanges: for exchange in log {
        push_exchange(text, exchange)?;
    }
    Ok(())
}

/// Appends the line of a request and that of its reply.
fn push_exchange(text: &mut Vec<u8>, exchange: &Exchange) -> Result<(), OutOfMemory>
    requires { IsWritable exchange.now }
    ensures { OnOk result (text.new.items ≡ text.old.items ++ exchange_lines exchange.now) }
{
    push_request(text, &exchange.request)?;
    push_reply(text, &exchange.reply)?;
    Ok(())
}

/// Appends the line of a request.
fn push_request(text: &mut Vec<u8>, request: &Request) -> Result<(), OutOfMemory>
    requires { IsRequest request.now }
    ensures { OnOk result (text.new.items ≡ text.old.items ++ message_line (codes "> ") (request_bytes request.now)) }
{
    let bytes = write_request(*text.allocator(), request)?;
    push_message(text, b"> ", bytes.as_slice())?;
    Ok(())
}

/// Appends the line of a reply.
fn push_reply(text: &mut Vec<u8>, reply: &Reply) -> Result<(), OutOfMemory>
    requires { IsReply reply.now }
    ensures { OnOk result (text.new.items ≡ text.old.items ++ message_line (codes "< ") (reply_bytes reply.now)) }
{
    let bytes = write_reply(*text.allocator(), reply)?;
    push_message(text, b"< ", bytes.as_slice())?;
    Ok(())
}

/// Appends a line with a mark and the bytes of a message.
fn push_message(text: &mut Vec<u8>, mark: &[u8], bytes: &[u8]) -> Result<(), OutOfMemory>
    ensures { OnOk result (text.new.items ≡ text.old.items ++ message_line mark.now bytes.now) }
{
    push_bytes(text, mark)?;
    push_hexadecimal(text, bytes)?;
    push_bytes(text, b"\n")?;
    Ok(())
}
