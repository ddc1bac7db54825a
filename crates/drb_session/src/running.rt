//! A script, done.

ghost use Rattle.std.specs.Prelude.{◌≡◌, ◌<◌, length, true, false, IfOk};
ghost use Rattle.drb_script.specs.declared.patience.Patience.TheVariants.{Never, Wait};
ghost use Rattle.drb_script.specs.Rest.{is_glance, may_wait};
ghost use Rattle.drb_session.specs.Passes.{Lawful};
ghost use Rattle.drb_session.specs.Runs.{Runs, StepsOn, TurnsTo, side, IfGoing, Grew, Nearer};

use crate::clearing::clear;
use crate::making::{Halt, make};
use crate::peers::call_peer;
use crate::turns::Turns;
use drb_dispatch::{Call, Place};
use drb_outside::{Clock, Dialer};
use drb_script::{AfterTurn, Next, Patience, Reply, begin};
use rinda_rules::Event;
use std::alloc::Global;

/// What a step of a script came to.
#[derive(Drop)]
pub enum Stepped {
    /// This is to be done next.
    Going(Next),
    /// It has its reply, or goes no further.
    Ended(Result<Reply, Halt>),
}

/// One turn of a script.
fn turn<T: Turns, C: Clock>(
    turns: &mut T,
    clock: &mut C,
    patience: Patience,
    event: Event,
    then: AfterTurn,
) -> Stepped
    requires waits { patience ≡ Wait → T.can_wait ≡ true }
    requires patient { patience ≡ Never → is_glance event ≡ false }
    ensures turns { TurnsTo patience (T.pass turns.old) (T.pass turns.new)
        (C.readings clock.old) (C.readings clock.new) event then result }
    ensures patient { patience ≡ Never → IfGoing result (λ next. may_wait next ≡ false) }
    ensures lawful { Lawful (T.pass turns.new) }
    ensures held { T.held turns.new ≡ T.held turns.old }
    ensures grew { IfGoing result
        (λ _. length (T.pass turns.old).seen < length (T.pass turns.new).seen) }
{
    match make(turns, clock, patience, event) {
        Ok(out) => Stepped::Going(then.turned(patience, out)),
        Err(halt) => {
            drop(then);
            Stepped::Ended(Err(halt))
        }
    }
}

/// One step of a script.
fn step<T: Turns, C: Clock, D: Dialer>(
    alloc: Global,
    turns: &mut T,
    clock: &mut C,
    dialer: &mut D,
    place: &Place,
    patience: Patience,
    next: Next,
) -> Stepped
    requires waits { patience ≡ Wait → T.can_wait ≡ true }
    requires patient { patience ≡ Never → may_wait next ≡ false }
    ensures steps { StepsOn place.now patience next
        (side (T.pass turns.old) (C.readings clock.old) (D.calls dialer.old) (D.faults dialer.old))
        (side (T.pass turns.new) (C.readings clock.new) (D.calls dialer.new) (D.faults dialer.new))
        result }
    ensures patient { patience ≡ Never → IfGoing result (λ then. may_wait then ≡ false) }
    ensures lawful { Lawful (T.pass turns.old) → Lawful (T.pass turns.new) }
    ensures held { T.held turns.new ≡ T.held turns.old }
    ensures nearer { Nearer (T.pass turns.old) next (T.pass turns.new) result }
{
    match next {
        Next::Reply(reply) => Stepped::Ended(Ok(reply)),
        Next::Lost(loose) => {
            clear(turns, clock, loose);
            Stepped::Ended(Err(Halt::Memory))
        }
        Next::Turn(event, then) => turn(turns, clock, patience, event, then),
        Next::Call(to, saying, then) => {
            let back = call_peer(alloc, dialer, place, &to, saying);
            Stepped::Going(then.called(patience, to, back))
        }
    }
}

/// Does the script of a call, and gives its reply.
///
/// The clock is read before each try of a turn. Under `Patience::Wait` a turn whose event finds nothing to do is
/// tried again after others' turns, so the type of `turns` has to be one that can wait; under `Patience::Never` no
/// such turn is ever tried. Peers are called as docs/WIRE.md says.
/// Errors: `Full { turns }` exactly where an event was tried that finds something to do and the history has as many
/// turns as it may have, which is so many; the actions are then the first ones of the script. `Memory` at any time;
/// then at most the one turn was made for what would be left behind.
/// Source: docs/SESSIONS.md, Runs.
pub fn run<T: Turns, C: Clock, D: Dialer>(
    alloc: Global,
    turns: &mut T,
    clock: &mut C,
    dialer: &mut D,
    place: &Place,
    patience: Patience,
    call: Call,
) -> Result<Reply, Halt>
    requires waits { patience ≡ Wait → T.can_wait ≡ true }
    ensures runs { Runs place.now patience call
        (side (T.pass turns.old) (C.readings clock.old) (D.calls dialer.old) (D.faults dialer.old))
        (side (T.pass turns.new) (C.readings clock.new) (D.calls dialer.new) (D.faults dialer.new))
        result }
    ensures lawful { Lawful (T.pass turns.old) → Lawful (T.pass turns.new) }
    ensures held { T.held turns.new ≡ T.held turns.old }
    ensures grew { IfOk result (λ _. Grew (T.pass turns.old) (T.pass turns.new)) }
{
    let mut next = begin(patience, call);
    loop {
        match step(alloc, turns, clock, dialer, place, patience, next) {
            Stepped::Going(then) => next = then,
            Stepped::Ended(result) => return result,
        }
    }
}
