//! One outgoing call.

ghost use Rattle.std.specs.Prelude.{◌≡◌, ◌≤◌, ◌↔◌, length, IsTrue};
ghost use Rattle.drb_tree.specs.Same.{all_ascii};
ghost use Rattle.drb_outside.specs.Told.{Told, Rose};
ghost use Rattle.drb_outside.specs.Calls.{peer};
ghost use Rattle.drb_packet.specs.Texts.{ask_values, SomeLong};
ghost use Rattle.drb_back.specs.Answers.{back_of};
ghost use Rattle.drb_back.specs.Outgoing.{NamesNone, Uncalled, IsFault, Outgoing, Replied, OrMemory};
ghost use Rattle.drb_back.specs.Steps.{Asked, CalledAt};

use crate::Back;
use drb_outside::{Address, Dialer, OnLine};
use drb_packet::{Limits, PacketError, PacketRefusal, Reply, read_reply, write_all, write_request};
use drb_ref::parse_uri;
use drb_value::{Remote, Value};
use marshal_write::WriteError;
use std::alloc::Global;

/// Calls the method of that name of the object that the reference means, and waits for the reply.
///
/// It takes the address out of the reference's uri, writes the request into memory, dials, sends all of it, reads the
/// reply and hangs up: one record more in the dialer's list. A call that was up before is ended by the dial.
///
/// The name is ASCII, which `drb_tree`'s `all_ascii` tests, and there are at most 256 arguments. `limits.load` is in
/// bytes, for each packet of the reply.
/// Errors: `BadUri` exactly where `parse_uri` refuses the uri, before anything else; `TooLong` exactly where, of a
/// uri that it takes apart, the dump of one of the request's packets has more than 2^30 - 1 bytes. Neither calls the
/// dialer. `DialFault`, `WriteFault` and `ReadFault` only where the dialer's count of faults rose in this call, at
/// the dial, at a send, at a receive. `Raised`, `Cut` and `Refused`, as `Value`, exactly by the bytes that the peer
/// gave and still gives. `Memory` at any time; then one record was added, of a call that was sent the whole request,
/// or the dialer wasn't called.
/// Source: Ruby's drb.rb, DRbConn#send_message; docs/WIRE.md, Outgoing calls.
pub fn call_back<D: Dialer>(
    alloc: Global,
    dialer: &mut D,
    to: &Remote,
    name: &[u8],
    args: &[Value],
    limits: &Limits,
) -> Back
    requires ascii { IsTrue (all_ascii name.now) }
    requires few { length args.now ≤ 256 }
    ensures calls { Told (D.calls dialer.old) (D.calls dialer.new) (D.faults dialer.new)
        (Outgoing limits.now to.now name.now args.now result) }
    ensures later { D.faults dialer.old ≤ D.faults dialer.new }
    ensures bad_uri { (result ≡ Back.BadUri) ↔ NamesNone to.now.uri.bytes }
    ensures too_long { result ≡ Back.TooLong →
        SomeLong (ask_values to.now.id name.now args.now) }
    ensures every_too_long { (NamesNone to.now.uri.bytes → ⊥) →
        SomeLong (ask_values to.now.id name.now args.now) → OrMemory Back.TooLong result }
    ensures uncalled { Uncalled result → dialer.new ≡ dialer.old }
    ensures fault { IsFault result → Rose (D.faults dialer.old) (D.faults dialer.new) }
    ensures replied { (Rose (D.faults dialer.old) (D.faults dialer.new) → ⊥) →
        Told (D.calls dialer.old) (D.calls dialer.new) (D.faults dialer.new)
        (Replied limits.now result) }
{
    let Ok(address) = parse_uri(to.uri.bytes.as_slice()) else {
        return Back::BadUri;
    };
    let mut text = Vec::new(alloc);
    match write_request(&to.id, name, args, &mut text) {
        Ok(()) => call_at(alloc, dialer, &address, &text, limits),
        Err(WriteError::TooLong) => Back::TooLong,
        Err(WriteError::Memory) => Back::Memory,
    }
}

/// Calls that address with the text of a request, and hangs up.
fn call_at<D: Dialer>(
    alloc: Global,
    dialer: &mut D,
    to: &Address<'_>,
    text: &[u8],
    limits: &Limits,
) -> Back
    ensures calls { Told (D.calls dialer.old) (D.calls dialer.new) (D.faults dialer.new)
        (CalledAt limits.now (peer to.now.host.now to.now.port) text.now result) }
    ensures later { D.faults dialer.old ≤ D.faults dialer.new }
    ensures called { Uncalled result → ⊥ }
    ensures fault { IsFault result → Rose (D.faults dialer.old) (D.faults dialer.new) }
{
    let Ok(()) = dialer.dial(to) else {
        return Back::DialFault;
    };
    let back = ask(alloc, dialer, text, limits);
    dialer.hang_up();
    back
}

/// Sends the text over the call that is up, and reads the reply.
fn ask<D: Dialer>(alloc: Global, dialer: &mut D, text: &[u8], limits: &Limits) -> Back
    ensures calls { Told (D.calls dialer.old) (D.calls dialer.new) (D.faults dialer.new)
        (Asked limits.now text.now result) }
    ensures later { D.faults dialer.old ≤ D.faults dialer.new }
    ensures called { Uncalled result → ⊥ }
    ensures fault { IsFault result → Rose (D.faults dialer.old) (D.faults dialer.new) }
{
    let mut line = OnLine::new(dialer);
    let back = ask_on(alloc, &mut line, text, limits);
    line.release();
    back
}

/// The same over the line that is lent.
fn ask_on<D: Dialer>(alloc: Global, line: &mut OnLine<'_, D>, text: &[u8], limits: &Limits) -> Back
    ensures same_reference { line.new.dialer.ghost_name ≡ line.old.dialer.ghost_name }
    ensures calls { Told (D.calls line.old.dialer.now) (D.calls line.new.dialer.now)
        (D.faults line.new.dialer.now) (Asked limits.now text.now result) }
    ensures later { D.faults line.old.dialer.now ≤ D.faults line.new.dialer.now }
    ensures called { Uncalled result → ⊥ }
    ensures fault { IsFault result →
        Rose (D.faults line.old.dialer.now) (D.faults line.new.dialer.now) }
{
    if !write_all(line, text) {
        return Back::WriteFault;
    }
    let reply = read_reply(alloc, line, limits);
    back_of(reply)
}

/// What the reading of a reply comes to.
fn back_of(reply: Result<Reply, PacketError>) -> Back
    ensures { result ≡ back_of reply }
{
    match reply {
        Ok(Reply::Reply(true, value)) => Back::Value(value),
        Ok(Reply::Reply(false, value)) => Back::Raised(value),
        Ok(Reply::End) => Back::Cut,
        Ok(Reply::Refused(PacketRefusal::CutBetween)) => Back::Cut,
        Ok(Reply::Refused(why)) => Back::Refused(why),
        Err(PacketError::ReadFault) => Back::ReadFault,
        Err(PacketError::Memory) => Back::Memory,
    }
}
