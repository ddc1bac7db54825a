//! What an outgoing call came to.

use drb_packet::PacketRefusal;
use drb_value::Value;

/// What an outgoing call came to.
#[derive(Drop)]
pub enum Back {
    /// The peer answered with this value.
    Value(Value),
    /// The peer raised this exception.
    Raised(Value),
    /// The reference's uri names no address.
    BadUri,
    DialFault,
    ReadFault,
    WriteFault,
    /// The peer's bytes ended before a packet's first byte.
    Cut,
    /// The peer's bytes are no reply.
    Refused(PacketRefusal),
    /// The dump of a packet of the call is too long.
    TooLong,
    /// There was no memory for it.
    Memory,
}
