//! Replies off a source.

ghost use Rattle.std.specs.Prelude.{◌≡◌, ◌≤◌, ◌<◌, IfOk, IsErrOf};
ghost use Rattle.drb_outside.specs.Told.{Rose};
ghost use Rattle.drb_outside.specs.Changes.{ChangesBytes};
ghost use Rattle.drb_value.specs.View.{layer};
ghost use Rattle.drb_packet.specs.Replies.{truth, next_reply};
ghost use Rattle.drb_packet.specs.Reads.{Parses, ReadsReply};

use crate::packet::{read_further, read_packet};
use crate::stop::Stop;
use crate::{Limits, PacketError, PacketRefusal};
use drb_outside::Source;
use drb_value::{Node, Value};
use std::alloc::Global;

/// What stands first in what a peer answers.
#[derive(Drop)]
pub enum Reply {
    /// Nothing: the input has ended.
    End,
    /// Whether the call succeeded, and its result; the exception where it failed.
    Reply(bool, Value),
    /// No reply.
    Refused(PacketRefusal),
}

/// Whether it means success: nil and false mean failure.
fn truth_in(node: &Node) -> bool
    ensures { result ≡ truth (layer node.now) }
{
    match node {
        Node::Nil => false,
        Node::Bool(truth) => *truth,
        _ => true,
    }
}

/// Both packets of a reply.
fn read_both<S: Source>(alloc: Global, source: &mut S, load: u32) -> Result<(bool, Value), Stop>
    ensures source { ChangesBytes S.left S.stays S.holds S.faults source.old source.new
        (Parses (next_reply load) result) }
    ensures failed { IsErrOf result Stop.ReadFault →
        Rose (S.faults source.old) (S.faults source.new) }
{
    let success = read_packet(alloc, source, load)?;
    let result = read_further(alloc, source, load)?;
    Ok((truth_in(&success.node), result))
}

/// Takes the next reply off the source, in whatever pieces it comes.
///
/// Reads exactly the bytes of that reply, and at a refusal exactly those that it rests on. The first packet means success
/// unless it is nil or false. Only the refusals of single packets and `CutBetween` come.
/// Errors: `ReadFault` only where the source's own count of faults rose, and then the bytes that were taken don't decide
/// what stands first; `Memory` at any time. What is left is then what was there without a front.
/// Source: Ruby's drb.rb, DRbMessage#recv_reply; docs/WIRE.md, Replies.
pub fn read_reply<S: Source>(
    alloc: Global,
    source: &mut S,
    limits: &Limits,
) -> Result<Reply, PacketError>
    ensures source { ChangesBytes S.left S.stays S.holds S.faults source.old source.new
        (ReadsReply limits.now result) }
    ensures failed { IsErrOf result PacketError.ReadFault →
        Rose (S.faults source.old) (S.faults source.new) }
{
    match read_both(alloc, source, limits.load) {
        Ok((ok, value)) => Ok(Reply::Reply(ok, value)),
        Err(Stop::End) => Ok(Reply::End),
        Err(Stop::Refused(why)) => Ok(Reply::Refused(why)),
        Err(Stop::ReadFault) => Err(PacketError::ReadFault),
        Err(Stop::Memory) => Err(PacketError::Memory),
    }
}
