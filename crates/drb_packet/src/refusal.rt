//! Why no request or reply is read.

use marshal_grammar::refusal::Refusal;
use thiserror::Error;

/// Why bytes are no request, or no reply: the first reason in the order of the bytes.
///
/// Source: docs/WIRE.md, Refusals.
#[derive(Clone, Copy, Debug, PartialEq, Eq, Error)]
pub enum PacketRefusal {
    /// The input ended after one to three bytes of a size.
    #[error("premature header")]
    PrematureHeader,
    /// The size is at or above the load limit.
    #[error("too large packet {0}")]
    TooLarge(u32),
    /// The input ended before the last byte of a body.
    #[error("premature marshal format(can't read)")]
    PrematureBody,
    /// A body does not begin with a dump.
    #[error("{0}")]
    Marshal(Refusal),
    /// The second packet is no text.
    #[error("method name must be a text")]
    NotAName,
    /// The third packet is no integer, or one below 0.
    #[error("argument count must be a whole number")]
    NotACount,
    /// The count of arguments is above the limit. No argument was read.
    #[error("too many arguments")]
    TooManyArguments(i128),
    /// The last packet is neither nil nor a reference.
    #[error("block must be a reference")]
    NotABlock,
    /// The input ended before the first byte of a packet other than the first.
    #[error("connection closed")]
    CutBetween,
}

/// Why nothing was read.
#[derive(Clone, Copy, Debug, PartialEq, Eq, Error)]
pub enum PacketError {
    /// The source failed, and counted it.
    #[error("read failed")]
    ReadFault,
    /// There was no memory.
    #[error("out of memory")]
    Memory,
}
