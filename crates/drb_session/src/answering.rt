//! What a request comes to: its script's reply, or the failure that it is refused with.

ghost use Rattle.std.specs.Prelude.{◌≡◌, true, IfOk};
ghost use Rattle.drb_dispatch.specs.Plans.{planned};
ghost use Rattle.drb_dispatch.specs.declared.planned.Planned.TheVariants as outcome;
ghost use Rattle.drb_script.specs.declared.patience.Patience.TheVariants.{Wait};
ghost use Rattle.drb_session.specs.Passes.{Lawful};
ghost use Rattle.drb_session.specs.Runs.{side, Grew};
ghost use Rattle.drb_session.specs.Parts.{Answers};

use crate::making::Halt;
use crate::running::run;
use crate::turns::Turns;
use drb_dispatch::{Call, Place, Planned, plan};
use drb_outside::{Clock, Dialer};
use drb_packet::Request;
use drb_script::Patience;
use drb_tree::Bytes;
use drb_value::Value;
use std::alloc::Global;

/// The actions of a call, and its reply to the method with that name: whether it is success, and the value.
fn answer_call<T: Turns, C: Clock, D: Dialer>(
    alloc: Global,
    turns: &mut T,
    clock: &mut C,
    dialer: &mut D,
    place: &Place,
    patience: Patience,
    name: &[u8],
    call: Call,
) -> Result<(bool, Value), Halt>
    requires waits { patience ≡ Wait → T.can_wait ≡ true }
    ensures answers { Answers place.now patience name.now (outcome.Call call)
        (side (T.pass turns.old) (C.readings clock.old) (D.calls dialer.old) (D.faults dialer.old))
        (side (T.pass turns.new) (C.readings clock.new) (D.calls dialer.new) (D.faults dialer.new))
        result }
    ensures lawful { Lawful (T.pass turns.old) → Lawful (T.pass turns.new) }
    ensures held { T.held turns.new ≡ T.held turns.old }
    ensures grew { IfOk result (λ _. Grew (T.pass turns.old) (T.pass turns.new)) }
{
    match run(alloc, turns, clock, dialer, place, patience, call) {
        Ok(reply) => match drb_reply::answer(alloc, &place.uri, name, reply) {
            Ok(both) => Ok(both),
            Err(_) => Err(Halt::Memory),
        },
        Err(halt) => Err(halt),
    }
}

/// The actions of a request, and its reply: whether it is success, and the value.
///
/// Errors: those of `run`; `Memory` also where there was none for the plan of the request or for the value.
/// Source: docs/SESSIONS.md, Dispatch, Runs and Replies.
pub fn answer<T: Turns, C: Clock, D: Dialer>(
    alloc: Global,
    turns: &mut T,
    clock: &mut C,
    dialer: &mut D,
    place: &Place,
    patience: Patience,
    request: Request,
) -> Result<(bool, Value), Halt>
    requires waits { patience ≡ Wait → T.can_wait ≡ true }
    ensures answers { Answers place.now patience request.name.bytes (planned request)
        (side (T.pass turns.old) (C.readings clock.old) (D.calls dialer.old) (D.faults dialer.old))
        (side (T.pass turns.new) (C.readings clock.new) (D.calls dialer.new) (D.faults dialer.new))
        result }
    ensures lawful { Lawful (T.pass turns.old) → Lawful (T.pass turns.new) }
    ensures held { T.held turns.new ≡ T.held turns.old }
    ensures grew { IfOk result
        (λ both. both.0 ≡ true → Grew (T.pass turns.old) (T.pass turns.new)) }
{
    let Ok(name) = Bytes::of(alloc, request.name.bytes.as_slice()) else {
        drop(request);
        return Err(Halt::Memory);
    };
    match plan(alloc, request) {
        Ok(Planned::Call(call)) => answer_call(
            alloc,
            turns,
            clock,
            dialer,
            place,
            patience,
            name.as_slice(),
            call,
        ),
        Ok(Planned::Raise(exception)) => Ok((false, exception)),
        Err(_) => Err(Halt::Memory),
    }
}
