//! Requests off a source.

ghost use Rattle.std.specs.Prelude.{◌≡◌, ◌≤◌, ◌<◌, IfOk, IsErrOf};
ghost use Rattle.drb_outside.specs.Told.{Rose};
ghost use Rattle.drb_outside.specs.Changes.{ChangesBytes};
ghost use Rattle.drb_value.specs.View.{layer};
ghost use Rattle.drb_packet.specs.Requests.{as_name, as_count, as_block, method_name, argument_count, arguments, block, after_name, next_request};
ghost use Rattle.drb_packet.specs.Reads.{Parses, ReadsRequest, Judges};

use crate::packet::{read_further, read_packet};
use crate::stop::Stop;
use crate::{PacketError, PacketRefusal};
use drb_outside::Source;
use drb_value::{Items, Node, Remote, Text, Value};
use std::alloc::Global;

/// How much is read.
#[derive(Clone, Copy, Debug, PartialEq, Eq)]
pub struct Limits {
    /// The load limit, in bytes: a packet's body has fewer.
    pub load: u32,
    /// The most arguments of a request.
    pub args: u32,
}

/// What a peer asks for: a method of an object, with arguments and perhaps a block.
///
/// Source: Ruby's drb.rb, DRbMessage#recv_request; docs/WIRE.md, Requests.
#[derive(Drop)]
pub struct Request {
    /// The object: nil for the front object, else its id.
    pub reference: Value,
    pub name: Text,
    pub args: Items<Value>,
    pub block: Option<Remote>,
}

/// What stands first in the input of a server.
#[derive(Drop)]
pub enum Inbound {
    /// Nothing: the input has ended.
    End,
    Request(Request),
    /// No request.
    Refused(PacketRefusal),
}

/// The text that a method's name has to be.
fn name_in(node: Node) -> Result<Text, Stop>
    ensures { Judges (as_name (layer node)) result }
{
    match node {
        Node::Text(text) => Ok(text),
        _ => Err(Stop::Refused(PacketRefusal::NotAName)),
    }
}

/// The number that a count of arguments has to be, at most the limit.
fn count_in(node: Node, most: u32) -> Result<u32, Stop>
    ensures { Judges (as_count most (layer node)) result }
{
    let Node::Int(count) = node else {
        return Err(Stop::Refused(PacketRefusal::NotACount));
    };
    if count < 0 {
        return Err(Stop::Refused(PacketRefusal::NotACount));
    }
    if count <= i128::from(most) {
        Ok(count as u32)
    } else {
        Err(Stop::Refused(PacketRefusal::TooManyArguments(count)))
    }
}

/// The reference that a block has to be, or none.
fn block_in(node: Node) -> Result<Option<Remote>, Stop>
    ensures { Judges (as_block (layer node)) result }
{
    match node {
        Node::Nil => Ok(None),
        Node::Remote(remote) => Ok(Some(remote.into_inner())),
        _ => Err(Stop::Refused(PacketRefusal::NotABlock)),
    }
}

/// The packet of the method's name.
fn read_name<S: Source>(alloc: Global, source: &mut S, load: u32) -> Result<Text, Stop>
    ensures source { ChangesBytes S.left S.stays S.holds S.faults source.old source.new
        (Parses (method_name load) result) }
    ensures failed { IsErrOf result Stop.ReadFault →
        Rose (S.faults source.old) (S.faults source.new) }
{
    let Value { node } = read_further(alloc, source, load)?;
    name_in(node)
}

/// The packet of the count of arguments.
fn read_count<S: Source>(alloc: Global, source: &mut S, limits: &Limits) -> Result<u32, Stop>
    ensures source { ChangesBytes S.left S.stays S.holds S.faults source.old source.new
        (Parses (argument_count limits.now) result) }
    ensures failed { IsErrOf result Stop.ReadFault →
        Rose (S.faults source.old) (S.faults source.new) }
{
    let Value { node } = read_further(alloc, source, limits.load)?;
    count_in(node, limits.args)
}

/// So many packets of arguments.
fn read_arguments<S: Source>(
    alloc: Global,
    source: &mut S,
    load: u32,
    count: u32,
) -> Result<Items<Value>, Stop>
    ensures source { ChangesBytes S.left S.stays S.holds S.faults source.old source.new
        (Parses (arguments load count) result) }
    ensures failed { IsErrOf result Stop.ReadFault →
        Rose (S.faults source.old) (S.faults source.new) }
{
    let count = count as usize;
    let mut arguments = Items::new(alloc);
    while arguments.len() < count {
        let argument = read_further(alloc, source, load)?;
        arguments.push(argument)?;
    }
    Ok(arguments)
}

/// The packet of the block.
fn read_block<S: Source>(alloc: Global, source: &mut S, load: u32) -> Result<Option<Remote>, Stop>
    ensures source { ChangesBytes S.left S.stays S.holds S.faults source.old source.new
        (Parses (block load) result) }
    ensures failed { IsErrOf result Stop.ReadFault →
        Rose (S.faults source.old) (S.faults source.new) }
{
    let Value { node } = read_further(alloc, source, load)?;
    block_in(node)
}

/// What follows the name: the packets of the count, the arguments and the block.
fn read_call<S: Source>(
    alloc: Global,
    source: &mut S,
    limits: &Limits,
    reference: Value,
    name: Text,
) -> Result<Request, Stop>
    ensures source { ChangesBytes S.left S.stays S.holds S.faults source.old source.new
        (Parses (after_name limits.now reference name) result) }
    ensures failed { IsErrOf result Stop.ReadFault →
        Rose (S.faults source.old) (S.faults source.new) }
{
    let count = read_count(alloc, source, limits)?;
    let args = read_arguments(alloc, source, limits.load, count)?;
    let block = read_block(alloc, source, limits.load)?;
    Ok(Request {
        reference,
        name,
        args,
        block,
    })
}

/// All the packets of a request.
fn read_packets<S: Source>(alloc: Global, source: &mut S, limits: &Limits) -> Result<Request, Stop>
    ensures source { ChangesBytes S.left S.stays S.holds S.faults source.old source.new
        (Parses (next_request limits.now) result) }
    ensures failed { IsErrOf result Stop.ReadFault →
        Rose (S.faults source.old) (S.faults source.new) }
{
    let reference = read_packet(alloc, source, limits.load)?;
    let name = read_name(alloc, source, limits.load)?;
    read_call(alloc, source, limits, reference, name)
}

/// Takes the next request off the source, in whatever pieces it comes.
///
/// Reads exactly the bytes of that request, and at a refusal exactly those that it rests on. The refusal is the first in
/// the order of the bytes. The body of a packet takes memory as its bytes come.
/// Errors: `ReadFault` only where the source's own count of faults rose, and then the bytes that were taken don't decide
/// what stands first; `Memory` at any time. What is left is then what was there without a front.
/// Source: Ruby's drb.rb, DRbMessage#recv_request; docs/WIRE.md, Requests.
pub fn read_request<S: Source>(
    alloc: Global,
    source: &mut S,
    limits: &Limits,
) -> Result<Inbound, PacketError>
    ensures source { ChangesBytes S.left S.stays S.holds S.faults source.old source.new
        (ReadsRequest limits.now result) }
    ensures failed { IsErrOf result PacketError.ReadFault →
        Rose (S.faults source.old) (S.faults source.new) }
{
    match read_packets(alloc, source, limits) {
        Ok(request) => Ok(Inbound::Request(request)),
        Err(Stop::End) => Ok(Inbound::End),
        Err(Stop::Refused(why)) => Ok(Inbound::Refused(why)),
        Err(Stop::ReadFault) => Err(PacketError::ReadFault),
        Err(Stop::Memory) => Err(PacketError::Memory),
    }
}
