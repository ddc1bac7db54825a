//! What stands first in bytes, written again.

ghost use Rattle.std.specs.Prelude.{◌≡◌, List, [], ◌∷◌, IfOk, Err, Some, true, option_map};
ghost use Rattle.drb_tree.specs.declared.Tree.{Tree};
ghost use Rattle.drb_tree.specs.declared.Tree.TheViews.{out-Tree};
ghost use Rattle.drb_value.specs.View.{layer};
ghost use Rattle.marshal_grammar.specs.Trees.{bool as bool_tree, id_of};
ghost use Rattle.drb_packet.specs.Requests.{next_request};
ghost use Rattle.drb_packet.specs.Replies.{next_reply};
ghost use Rattle.drb_packet.specs.Texts.{ask_values, packets_text, SomeLong};
ghost use Rattle.packet_show.specs.Shown.{limits};
ghost use Rattle.packet_show.specs.Again.{is_plain as is_plain_spec, request_packets, first_request, first_reply, packets_again};

use crate::pieces::source_of;
use crate::seen::{Kind, LIMITS};
use drb_outside::MemSource;
use drb_packet::{
    Inbound, PacketError, Reply, Request, read_reply, read_request, write_reply, write_request,
};
use drb_tree::all_ascii;
use drb_value::{Items, Node, RefId, Value};
use marshal_write::WriteError;
use std::alloc::{AllocError, Global};
use thiserror::Error;

/// Why nothing is written.
#[derive(Clone, Copy, Debug, Error)]
pub enum AgainError {
    /// A dump would have more than 2^30 - 1 bytes.
    #[error("too long")]
    TooLong,
    /// The source failed.
    #[error("read failed")]
    ReadFault,
    /// There was no memory.
    #[error("out of memory")]
    Memory,
}

impl From<AllocError> for AgainError {
    ghost use Rattle.std.specs.Prelude.{◌≡◌};
    ghost use Rattle.packet_show.specs.declared.again.AgainError.TheVariants.{Memory};

    ghost from_gives = { λ _ e. e ≡ Memory };

    fn from(_: AllocError) -> AgainError {
        AgainError::Memory
    }
}

/// The request or the reply that stands first in the bytes, as it is written here.
///
/// None where neither stands first, and where the request has a block, a name that isn't ASCII, or calls an object whose
/// id is neither a number nor a text.
/// Errors: `TooLong` only where a dump of it has more than 2^30 - 1 bytes; `ReadFault` only where the source failed;
/// `Memory` at any time.
/// Source: docs/WIRE.md, What stands first; docs/MARSHAL.md, The written spelling.
pub fn again(alloc: Global, kind: Kind, bytes: &[u8]) -> Result<Option<Items<u8>>, AgainError>
    ensures written { IfOk result (λ text. text
        ≡ option_map packets_text (packets_again kind bytes.now)) }
    ensures too_long { result ≡ Err AgainError.TooLong
        → (vs : List Tree) × (packets_again kind bytes.now ≡ Some vs) × SomeLong vs }
{
    let mut source = source_of(alloc, bytes, 4096)?;
    match kind {
        Kind::Request => request_again(alloc, &mut source),
        Kind::Reply => reply_again(alloc, &mut source),
    }
}

fn request_again(alloc: Global, source: &mut MemSource) -> Result<Option<Items<u8>>, AgainError>
    ensures written { IfOk result (λ text. text
        ≡ option_map packets_text (first_request (next_request limits source.old.bytes))) }
    ensures too_long { result ≡ Err AgainError.TooLong
        → (vs : List Tree) × (first_request (next_request limits source.old.bytes) ≡ Some vs)
        × SomeLong vs }
{
    match read_request(alloc, source, &LIMITS) {
        Ok(Inbound::End) => Ok(None),
        Ok(Inbound::Refused(_)) => Ok(None),
        Ok(Inbound::Request(request)) => {
            let text = request_text(alloc, &request);
            drop(request);
            text
        }
        Err(PacketError::ReadFault) => Err(AgainError::ReadFault),
        Err(PacketError::Memory) => Err(AgainError::Memory),
    }
}

fn reply_again(alloc: Global, source: &mut MemSource) -> Result<Option<Items<u8>>, AgainError>
    ensures written { IfOk result (λ text. text
        ≡ option_map packets_text (first_reply (next_reply limits.load source.old.bytes))) }
    ensures too_long { result ≡ Err AgainError.TooLong
        → (vs : List Tree) × (first_reply (next_reply limits.load source.old.bytes) ≡ Some vs)
        × SomeLong vs }
{
    match read_reply(alloc, source, &LIMITS) {
        Ok(Reply::End) => Ok(None),
        Ok(Reply::Refused(_)) => Ok(None),
        Ok(Reply::Reply(success, value)) => {
            let text = reply_text(alloc, success, &value);
            drop(value);
            text
        }
        Err(PacketError::ReadFault) => Err(AgainError::ReadFault),
        Err(PacketError::Memory) => Err(AgainError::Memory),
    }
}

/// The request's text, where it can be written.
fn request_text(alloc: Global, request: &Request) -> Result<Option<Items<u8>>, AgainError>
    ensures written { IfOk result (λ text. text
        ≡ option_map packets_text (request_packets request.now)) }
    ensures too_long { result ≡ Err AgainError.TooLong
        → (vs : List Tree) × (request_packets request.now ≡ Some vs) × SomeLong vs }
{
    if !is_plain(request) {
        return Ok(None);
    }
    match called(alloc, &request.reference)? {
        None => Ok(None),
        Some(to) => {
            let text = call_text(alloc, &to, request);
            drop(to);
            text
        }
    }
}

fn is_plain(request: &Request) -> bool
    ensures { result ≡ is_plain_spec request.now }
{
    let is_ascii = all_ascii(request.name.bytes.as_slice());
    request.block.is_none() && (is_ascii && request.args.len() <= 256)
}

/// Whom the request calls.
fn called(alloc: Global, reference: &Value) -> Result<Option<RefId>, AllocError>
    ensures { IfOk result (λ to. to ≡ id_of (out-Tree reference.now)) }
{
    called_in(alloc, &reference.node)
}

fn called_in(alloc: Global, node: &Node) -> Result<Option<RefId>, AllocError>
    ensures { IfOk result (λ to. to ≡ id_of (layer node.now)) }
{
    match node {
        Node::Nil => Ok(Some(RefId::Front)),
        Node::Int(number) => Ok(Some(RefId::Number(*number))),
        Node::Text(text) => Ok(Some(RefId::Text(text.copy(alloc)?))),
        _ => Ok(None),
    }
}

fn call_text(alloc: Global, to: &RefId, request: &Request) -> Result<Option<Items<u8>>, AgainError>
    requires { is_plain_spec request.now ≡ true }
    ensures written { IfOk result (λ text. text
        ≡ Some (packets_text (ask_values to.now request.now.name.bytes request.now.args))) }
    ensures too_long { result ≡ Err AgainError.TooLong
        → SomeLong (ask_values to.now request.now.name.bytes request.now.args) }
{
    let mut out = Vec::new(alloc);
    let name = request.name.bytes.as_slice();
    match write_request(to, name, request.args.as_slice(), &mut out) {
        Ok(()) => Ok(Some(Items::from_vec(out))),
        Err(WriteError::TooLong) => Err(AgainError::TooLong),
        Err(WriteError::Memory) => Err(AgainError::Memory),
    }
}

fn reply_text(alloc: Global, success: bool, value: &Value) -> Result<Option<Items<u8>>, AgainError>
    ensures written { IfOk result (λ text. text
        ≡ Some (packets_text (bool_tree success ∷ value.now ∷ []))) }
    ensures too_long { result ≡ Err AgainError.TooLong
        → SomeLong (bool_tree success ∷ value.now ∷ []) }
{
    let mut out = Vec::new(alloc);
    match write_reply(success, value, &mut out) {
        Ok(()) => Ok(Some(Items::from_vec(out))),
        Err(WriteError::TooLong) => Err(AgainError::TooLong),
        Err(WriteError::Memory) => Err(AgainError::Memory),
    }
}
