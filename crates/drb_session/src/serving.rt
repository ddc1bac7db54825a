//! A session, request by request.

ghost use Rattle.std.specs.Prelude.{◌≡◌, ◌≤◌, None, Some, true};
ghost use Rattle.drb_outside.specs.Told.{Rose};
ghost use Rattle.drb_dispatch.specs.Plans.{planned};
ghost use Rattle.drb_script.specs.declared.patience.Patience.TheVariants.{Wait};
ghost use Rattle.drb_session.specs.Passes.{Lawful};
ghost use Rattle.drb_session.specs.Runs.{side, Grew};
ghost use Rattle.drb_session.specs.Transcripts.{wire};
ghost use Rattle.drb_session.specs.Session.{ServesOne, Session, state, IsWhole, EndsWhole};
ghost use Rattle.drb_session.specs.Parts.{Replies, Writes, Refuses, end_of as end_spec};

use crate::answering::answer;
use crate::end::SessionEnd;
use crate::making::Halt;
use crate::replying::{is_told, say, say_refusal};
use crate::turns::Turns;
use drb_dispatch::Place;
use drb_outside::{Clock, Dialer, Sink, Source};
use drb_packet::{Inbound, PacketError, PacketRefusal, Request, read_request, write_all};
use drb_script::Patience;
use drb_value::Value;
use std::alloc::Global;

fn end_of(halt: Halt) -> SessionEnd
    ensures { result ≡ end_spec halt }
{
    match halt {
        Halt::Full { turns } => SessionEnd::Full { turns },
        Halt::Memory => SessionEnd::Memory,
    }
}

/// Serves the requests of the input one after the other, until an end.
///
/// For each request it makes the turns and the outgoing calls of its script, writes the reply as one text, and goes
/// on where that is one of success. The clock is read before each try of a turn, in milliseconds. Under
/// `Patience::Wait` the type of `turns` has to be one that can wait.
/// Ends: `Ended` exactly where the input ended at the start of a request; `Raised` exactly where the last reply was
/// one of failure and was written; `Refused(why)` exactly where the bytes have that refusal, and its exception was
/// written, but for `CutBetween`, where nothing is; `ReadFault` and `WriteFault` only where the input's, the output's
/// count of faults rose in this call; `Full { turns }` exactly where an event that finds something to do was tried
/// and the history has as many turns as it may have, which is so many; `Memory` at any time.
/// Source: Ruby's drb.rb, DRbServer#main_loop; docs/SESSIONS.md, Ends.
pub fn serve_session<T: Turns, S: Source, K: Sink, C: Clock, D: Dialer>(
    alloc: Global,
    turns: &mut T,
    place: &Place,
    input: &mut S,
    output: &mut K,
    clock: &mut C,
    dialer: &mut D,
    patience: Patience,
) -> SessionEnd
    requires waits { patience ≡ Wait → T.can_wait ≡ true }
    ensures session { Session place.now patience result
        (state (side (T.pass turns.old) (C.readings clock.old)
        (D.calls dialer.old) (D.faults dialer.old))
        (wire (S.left input.old) (S.faults input.old) (K.given output.old) (K.faults output.old)))
        (state (side (T.pass turns.new) (C.readings clock.new)
        (D.calls dialer.new) (D.faults dialer.new))
        (wire (S.left input.new) (S.faults input.new) (K.given output.new) (K.faults output.new))) }
    ensures lawful { Lawful (T.pass turns.old) → Lawful (T.pass turns.new) }
    ensures held { T.held turns.new ≡ T.held turns.old }
    ensures input_holds { S.holds input.new ≡ S.holds input.old }
    ensures output_holds { K.holds output.new ≡ K.holds output.old }
    ensures in_fault { result ≡ SessionEnd.ReadFault →
        Rose (S.faults input.old) (S.faults input.new) }
    ensures out_fault { result ≡ SessionEnd.WriteFault →
        Rose (K.faults output.old) (K.faults output.new) }
    ensures complete { IsWhole place.now.limits (S.left input.old) →
        (Rose (S.faults input.old) (S.faults input.new) → ⊥) →
        (Rose (K.faults output.old) (K.faults output.new) → ⊥) → EndsWhole result }
{
    loop {
        if let Some(end) = serve_one(alloc, turns, place, input, output, clock, dialer, patience) {
            return end;
        }
    }
}

/// The next request, as far as the session goes on; else its end.
fn serve_one<T: Turns, S: Source, K: Sink, C: Clock, D: Dialer>(
    alloc: Global,
    turns: &mut T,
    place: &Place,
    input: &mut S,
    output: &mut K,
    clock: &mut C,
    dialer: &mut D,
    patience: Patience,
) -> Option<SessionEnd>
    requires waits { patience ≡ Wait → T.can_wait ≡ true }
    ensures serves { ServesOne place.now patience result
        (state (side (T.pass turns.old) (C.readings clock.old)
        (D.calls dialer.old) (D.faults dialer.old))
        (wire (S.left input.old) (S.faults input.old) (K.given output.old) (K.faults output.old)))
        (state (side (T.pass turns.new) (C.readings clock.new)
        (D.calls dialer.new) (D.faults dialer.new))
        (wire (S.left input.new) (S.faults input.new) (K.given output.new) (K.faults output.new))) }
    ensures lawful { Lawful (T.pass turns.old) → Lawful (T.pass turns.new) }
    ensures held { T.held turns.new ≡ T.held turns.old }
    ensures input_holds { S.holds input.new ≡ S.holds input.old }
    ensures output_holds { K.holds output.new ≡ K.holds output.old }
    ensures grew { result ≡ None → Grew (T.pass turns.old) (T.pass turns.new) }
    ensures in_fault { result ≡ Some SessionEnd.ReadFault →
        Rose (S.faults input.old) (S.faults input.new) }
    ensures out_fault { result ≡ Some SessionEnd.WriteFault →
        Rose (K.faults output.old) (K.faults output.new) }
{
    match read_request(alloc, input, &place.limits) {
        Ok(Inbound::Request(request)) => {
            serve_request(
                alloc, turns, place, output, clock, dialer, patience, request,
            )
        }
        Ok(Inbound::End) => Some(SessionEnd::Ended),
        Ok(Inbound::Refused(why)) => Some(refuse(alloc, output, why)),
        Err(PacketError::ReadFault) => Some(SessionEnd::ReadFault),
        Err(PacketError::Memory) => Some(SessionEnd::Memory),
    }
}

/// One request: its actions, and its reply as far as it can be written. None where the session goes on.
fn serve_request<T: Turns, K: Sink, C: Clock, D: Dialer>(
    alloc: Global,
    turns: &mut T,
    place: &Place,
    output: &mut K,
    clock: &mut C,
    dialer: &mut D,
    patience: Patience,
    request: Request,
) -> Option<SessionEnd>
    requires waits { patience ≡ Wait → T.can_wait ≡ true }
    ensures replies { Replies place.now patience request.name.bytes (planned request)
        (side (T.pass turns.old) (C.readings clock.old) (D.calls dialer.old) (D.faults dialer.old))
        (side (T.pass turns.new) (C.readings clock.new) (D.calls dialer.new) (D.faults dialer.new))
        (K.given output.old) (K.given output.new) (K.faults output.new) result }
    ensures lawful { Lawful (T.pass turns.old) → Lawful (T.pass turns.new) }
    ensures held { T.held turns.new ≡ T.held turns.old }
    ensures output_holds { K.holds output.new ≡ K.holds output.old }
    ensures grew { result ≡ None → Grew (T.pass turns.old) (T.pass turns.new) }
    ensures later { K.faults output.old ≤ K.faults output.new }
    ensures fault { result ≡ Some SessionEnd.WriteFault →
        Rose (K.faults output.old) (K.faults output.new) }
{
    let (ok, value) = match answer(alloc, turns, clock, dialer, place, patience, request) {
        Ok(both) => both,
        Err(halt) => return Some(end_of(halt)),
    };
    write_out(alloc, output, ok, value)
}

/// Writes the reply as one text, or in place of one that is too long the failure that it is.
///
/// None where it is one of success and was written. `Raised` where it is one of failure and was written; `WriteFault`
/// only where the output's count of faults rose, after a front of the text; `Memory` at any time, and nothing written.
/// Source: docs/SESSIONS.md, Replies and Ends.
pub fn write_out<K: Sink>(
    alloc: Global,
    output: &mut K,
    ok: bool,
    value: Value,
) -> Option<SessionEnd>
    ensures writes { Writes (ok, value) result (K.given output.old) (K.given output.new)
        (K.faults output.new) }
    ensures output_holds { K.holds output.new ≡ K.holds output.old }
    ensures later { K.faults output.old ≤ K.faults output.new }
    ensures fault { result ≡ Some SessionEnd.WriteFault →
        Rose (K.faults output.old) (K.faults output.new) }
{
    let said = say(alloc, ok, &value);
    drop(value);
    let Ok(said) = said else {
        return Some(SessionEnd::Memory);
    };
    if !write_all(output, &said.text) {
        return Some(SessionEnd::WriteFault);
    }
    if !said.ok {
        return Some(SessionEnd::Raised);
    }
    None
}

/// Answers a refusal of the input, and says how the session ends.
///
/// `Refused` of that refusal, its exception written, but for `CutBetween`, where nothing is; `WriteFault` only where the
/// output's count of faults rose; `Memory` at any time, and nothing written.
/// Source: docs/SESSIONS.md, Ends.
pub fn refuse<K: Sink>(alloc: Global, output: &mut K, why: PacketRefusal) -> SessionEnd
    ensures refuses { Refuses why result (K.given output.old) (K.given output.new)
        (K.faults output.new) }
    ensures output_holds { K.holds output.new ≡ K.holds output.old }
    ensures later { K.faults output.old ≤ K.faults output.new }
    ensures fault { result ≡ SessionEnd.WriteFault →
        Rose (K.faults output.old) (K.faults output.new) }
    ensures no_read { result ≡ SessionEnd.ReadFault → ⊥ }
{
    if !is_told(why) {
        return SessionEnd::Refused(why);
    }
    match say_refusal(alloc, why) {
        Ok(text) => {
            if write_all(output, &text) {
                SessionEnd::Refused(why)
            } else {
                SessionEnd::WriteFault
            }
        }
        Err(_) => SessionEnd::Memory,
    }
}
