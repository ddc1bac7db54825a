//! Where a server stands.

use drb_packet::Limits;
use drb_value::Text;

/// Where a server stands, as its sessions need to know: what its own objects are named by, and how much it reads.
///
/// Source: docs/SESSIONS.md, Dispatch.
#[derive(Drop)]
pub struct Place {
    /// The server's own uri, which is the uri of each reference that it answers.
    pub uri: Text,
    /// How much is read of a packet, and how many arguments of a request.
    pub limits: Limits,
}
