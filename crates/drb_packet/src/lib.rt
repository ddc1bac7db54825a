//! Packets, and the requests and replies that they make up: off a source, in whatever pieces it gives, and into bytes.
//!
//! It stands on `drb_outside`, on the reader and the writer of dumps, and on the grammar that these are proved against.
//! It promises that `read_request` and `read_reply` answer exactly what stands first in the bytes that the source told,
//! and take exactly the bytes of it; that a refusal is the first in the order of the bytes; that at every answer what is
//! left is what was there without a front; and that `write_request` and `write_reply` append exactly the stated text.
//! Only want of memory is free.
//!
//! Read `specs/Parsers.antt`, `Packets.antt`, `Requests.antt`, `Replies.antt` and `Cuts.antt` for what stands first, and
//! `Texts.antt` for what is written. Then `refusal.rt`, `request.rt` and `reply.rt` for the calls, `packet.rt` for one
//! packet, `filling.rt` for the pieces, `text.rt` for what is written, and `laws.rt` for what the definitions keep.
#![tactic(auto)]

mod filling;
mod laws;
mod packet;
mod refusal;
mod reply;
mod request;
mod sending;
mod stop;
mod text;

pub use filling::fill;
pub use laws::{any_more, behind, cuts, ends_at_end, undecided};
pub use refusal::{PacketError, PacketRefusal};
pub use reply::{Reply, read_reply};
pub use request::{Inbound, Limits, Request, read_request};
pub use sending::write_all;
pub use text::{write_reply, write_request};
