//! Calls to peers: a request to the object that a reference means, and what came back.
//!
//! It stands on `drb_outside` for the dialer, on `drb_packet` for the text of the request and the reading of the
//! reply, and on `drb_ref` for the address in a uri. It promises that `call_back` does to the dialer's list of calls
//! exactly what docs/WIRE.md says, one record at most, and that each answer has its cause: in the uri, in the lengths
//! of the request's dumps, in the dialer's count of faults, or in the bytes of the peer. Only want of memory is free.
//!
//! Read `back.rt` for the answers, `specs/Answers.antt` and `Outgoing.antt` for what each of them says of the list,
//! then `calling.rt` for the call, and `laws.rt` for what the definitions keep.
#![tactic(auto)]

mod back;
mod calling;
mod laws;

pub use back::Back;
pub use calling::call_back;
pub use laws::{appends, in_order, none_up};
