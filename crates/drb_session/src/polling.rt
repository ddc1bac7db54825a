//! A script, done step by step by one who waits for no turn.

ghost use Rattle.std.specs.Prelude.{◌≡◌};
ghost use Rattle.drb_script.specs.declared.patience.Patience.TheVariants.{Wait};
ghost use Rattle.drb_session.specs.Passes.{Lawful};
ghost use Rattle.drb_session.specs.Runs.{StepsOn, PollsTo, Polls, side};

use crate::clearing::clear;
use crate::making::{Halt, Looked, glimpse};
use crate::peers::call_peer;
use crate::running::Stepped;
use crate::turns::Turns;
use drb_dispatch::Place;
use drb_outside::{Clock, Dialer};
use drb_script::{AfterTurn, Next, Patience};
use rinda_rules::Event;
use std::alloc::Global;

/// What a step of a poll came to.
#[derive(Drop)]
pub struct Polled {
    /// What is to be done next, or the script's end.
    pub stepped: Stepped,
    /// There was nothing to do: the same step is to be made once there are more turns.
    pub waits: bool,
}

/// One turn of a script, where there is something to do.
fn poll_turn<T: Turns, C: Clock>(
    turns: &mut T,
    clock: &mut C,
    event: Event,
    then: AfterTurn,
) -> Polled
    ensures polls { PollsTo (T.pass turns.old) (T.pass turns.new)
        (C.readings clock.old) (C.readings clock.new) event then result.waits result.stepped }
    ensures lawful { Lawful (T.pass turns.new) }
    ensures held { T.held turns.new ≡ T.held turns.old }
{
    match glimpse(turns, clock, event) {
        Looked::Done(out) => Polled {
            stepped: Stepped::Going(then.turned(Patience::Wait, out)),
            waits: false,
        },
        Looked::Again(glance) => Polled {
            stepped: Stepped::Going(Next::Turn(glance.event(), then)),
            waits: true,
        },
        Looked::Halted(halt) => {
            drop(then);
            Polled {
                stepped: Stepped::Ended(Err(halt)),
                waits: false,
            }
        }
    }
}

/// One step of a script under `Patience::Wait`. It waits for no turn, but an outgoing call it makes whole.
///
/// It waits only where the next turn's event finds nothing to do, and then it hands back the same turn. Else it has
/// made the turn or the call, or comes to the end.
/// Errors: the ends of `run`.
/// Source: docs/SESSIONS.md, Runs.
pub fn poll<T: Turns, C: Clock, D: Dialer>(
    alloc: Global,
    turns: &mut T,
    clock: &mut C,
    dialer: &mut D,
    place: &Place,
    next: Next,
) -> Polled
    ensures steps { StepsOn place.now Wait next
        (side (T.pass turns.old) (C.readings clock.old) (D.calls dialer.old) (D.faults dialer.old))
        (side (T.pass turns.new) (C.readings clock.new) (D.calls dialer.new) (D.faults dialer.new))
        result.stepped }
    ensures polls { Polls (T.pass turns.old) next (T.pass turns.new) result.waits result.stepped }
    ensures lawful { Lawful (T.pass turns.old) → Lawful (T.pass turns.new) }
    ensures held { T.held turns.new ≡ T.held turns.old }
{
    match next {
        Next::Reply(reply) => Polled {
            stepped: Stepped::Ended(Ok(reply)),
            waits: false,
        },
        Next::Lost(loose) => {
            clear(turns, clock, loose);
            Polled {
                stepped: Stepped::Ended(Err(Halt::Memory)),
                waits: false,
            }
        }
        Next::Turn(event, then) => poll_turn(turns, clock, event, then),
        Next::Call(to, saying, then) => {
            let back = call_peer(alloc, dialer, place, &to, saying);
            Polled {
                stepped: Stepped::Going(then.called(Patience::Wait, to, back)),
                waits: false,
            }
        }
    }
}
