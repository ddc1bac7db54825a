//! The calls of peers that scripts make.

ghost use Rattle.std.specs.Prelude.{◌≤◌};
ghost use Rattle.drb_outside.specs.Told.{Told};
ghost use Rattle.drb_session.specs.Peers.{Says, Caused};

use drb_back::{Back, call_back};
use drb_dispatch::Place;
use drb_outside::Dialer;
use drb_reply::{arguments_of, method_of};
use drb_script::Saying;
use drb_tree::Remote;
use marshal_write::WriteError;
use std::alloc::Global;

/// Calls the peer with what the script says, and waits for its reply.
///
/// `TooLong` before anything else where the array for a block is too long; else as `call_back` says.
/// Source: docs/SESSIONS.md, Replies; docs/WIRE.md, Outgoing calls.
pub fn call_peer<D: Dialer>(
    alloc: Global,
    dialer: &mut D,
    place: &Place,
    to: &Remote,
    saying: Saying,
) -> Back
    ensures calls { Told (D.calls dialer.old) (D.calls dialer.new) (D.faults dialer.new)
        (Says place.now to.now saying result) }
    ensures later { D.faults dialer.old ≤ D.faults dialer.new }
    ensures caused { Caused place.now (D.faults dialer.old) (D.faults dialer.new)
        to.now saying result }
{
    let name = method_of(&saying);
    match arguments_of(alloc, &place.uri, saying) {
        Ok(args) => call_back(alloc, dialer, to, name, args.as_slice(), &place.limits),
        Err(WriteError::TooLong) => Back::TooLong,
        Err(WriteError::Memory) => Back::Memory,
    }
}
