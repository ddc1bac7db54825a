//! How a ring's work ends.

use crate::lookup::RingRefusal;
use drb_back::Back;

/// How the write of a datagram, or the answer to a lookup, ended.
///
/// Source: docs/RING.md, Ends.
#[derive(Drop)]
pub enum RingEnd {
    /// The tuple was written; or the block of a lookup was called, and answered a value.
    Served,
    /// The datagram is no lookup, and this is why. Nothing was done.
    Ignored(RingRefusal),
    /// The block of a lookup was called, and that came to this: neither a value, nor want of memory.
    Failed(Back),
    /// No lookup was there.
    NoTuple,
    /// The space is shut.
    Shut,
    /// The history has as many turns as it may have, which is so many.
    Full { turns: u64 },
    /// There was no memory.
    Memory,
}
