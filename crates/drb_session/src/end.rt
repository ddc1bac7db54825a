//! How sessions end.

use drb_packet::PacketRefusal;

/// How a session ended.
///
/// Source: docs/SESSIONS.md, Ends.
#[derive(Clone, Copy, Debug, PartialEq, Eq)]
pub enum SessionEnd {
    /// The input ended where a request would have begun.
    Ended,
    /// The last request was answered with a failure.
    Raised,
    /// The input has no request there, and this is why. It was answered with an exception, but not where the input
    /// was cut between two packets.
    Refused(PacketRefusal),
    /// The input failed.
    ReadFault,
    /// The output failed.
    WriteFault,
    /// The history has as many turns as it may have, which is so many.
    Full { turns: u64 },
    /// There was no memory.
    Memory,
}
