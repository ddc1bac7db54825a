//! What stands first in bytes, as far as it is shown.

ghost use Rattle.std.specs.Prelude.{◌≡◌, ◌↔◌, length, IfOk, IsTrue};
ghost use Rattle.drb_packet.specs.Requests.{next_request};
ghost use Rattle.drb_packet.specs.Replies.{next_reply};
ghost use Rattle.packet_show.specs.Shown.{limits, call_shown, request_shown, reply_shown, shown};

use drb_outside::MemSource;
use drb_packet::{
    Inbound, Limits, PacketError, PacketRefusal, Reply, Request, fill, read_reply, read_request,
};
use drb_value::Bytes;
use std::alloc::Global;

/// How much is read of a packet, and how many arguments.
pub const LIMITS: Limits = Limits {
    load: 26_214_400,
    args: 256,
};

/// Which of the two is looked for.
#[derive(Clone, Copy, Debug)]
pub enum Kind {
    Request,
    Reply,
}

/// A request, as far as it is shown.
#[derive(Drop)]
pub struct Call {
    /// The bytes of the method's name.
    pub name: Bytes,
    /// How many arguments there are.
    pub arguments: usize,
    /// Whether there is a block.
    pub block: bool,
}

/// What stands first, and how many bytes are behind it.
#[derive(Drop)]
pub enum Seen {
    /// Nothing: there are no bytes.
    End,
    Request(Call, usize),
    /// Whether the call succeeded.
    Reply(bool, usize),
    /// Neither a request nor a reply.
    Refused(PacketRefusal, usize),
}

/// A request, as far as it is shown.
fn call_of(request: Request) -> Call
    ensures { result ≡ call_shown request }
{
    Call {
        name: request.name.bytes,
        arguments: request.args.len(),
        block: request.block.is_some(),
    }
}

/// How many bytes the source still gives.
fn left_in(alloc: Global, source: &mut MemSource) -> Result<usize, PacketError>
    ensures { IfOk result (λ left. left ≡ length source.old.bytes) }
{
    let mut rest = Vec::new(alloc);
    fill(source, &mut rest, usize::MAX)?;
    Ok(rest.len())
}

/// What stands first in what the source gives, as a request.
fn see_request(alloc: Global, source: &mut MemSource) -> Result<Seen, PacketError>
    ensures { IfOk result (λ seen. seen ≡ request_shown (next_request limits source.old.bytes)) }
{
    match read_request(alloc, source, &LIMITS)? {
        Inbound::End => Ok(Seen::End),
        Inbound::Request(request) => {
            let left = left_in(alloc, source)?;
            Ok(Seen::Request(call_of(request), left))
        }
        Inbound::Refused(why) => Ok(Seen::Refused(why, left_in(alloc, source)?)),
    }
}

/// What stands first in what the source gives, as a reply.
fn see_reply(alloc: Global, source: &mut MemSource) -> Result<Seen, PacketError>
    ensures { IfOk result (λ seen. seen ≡ reply_shown (next_reply limits.load source.old.bytes)) }
{
    match read_reply(alloc, source, &LIMITS)? {
        Reply::End => Ok(Seen::End),
        Reply::Reply(success, result) => {
            drop(result);
            let left = left_in(alloc, source)?;
            Ok(Seen::Reply(success, left))
        }
        Reply::Refused(why) => Ok(Seen::Refused(why, left_in(alloc, source)?)),
    }
}

/// What stands first in what the source gives, whatever pieces it gives.
///
/// Errors: `ReadFault` only where the source failed; `Memory` at any time.
/// Source: docs/WIRE.md, What stands first.
pub fn see_first(alloc: Global, kind: Kind, source: &mut MemSource) -> Result<Seen, PacketError>
    ensures { IfOk result (λ seen. seen ≡ shown kind source.old.bytes) }
{
    match kind {
        Kind::Request => see_request(alloc, source),
        Kind::Reply => see_reply(alloc, source),
    }
}

/// Whether two requests are shown alike.
fn same_call(a: &Call, b: &Call) -> bool
    ensures { IsTrue result ↔ (a.now ≡ b.now) }
{
    a.name.as_slice() == b.name.as_slice() && a.arguments == b.arguments && a.block == b.block
}

/// Whether the two are the same.
pub fn same(a: &Seen, b: &Seen) -> bool
    ensures { IsTrue result ↔ (a.now ≡ b.now) }
{
    match (a, b) {
        (Seen::End, Seen::End) => true,
        (Seen::Request(a, m), Seen::Request(b, n)) => m == n && same_call(a, b),
        (Seen::Reply(a, m), Seen::Reply(b, n)) => m == n && a == b,
        (Seen::Refused(a, m), Seen::Refused(b, n)) => m == n && a == b,
        _ => false,
    }
}
