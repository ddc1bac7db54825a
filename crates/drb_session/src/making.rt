//! One turn, tried until there is something to do.

ghost use Rattle.std.specs.Prelude.{◌≡◌, ◌<◌, ◌≤◌, length, true, false, Ok, Err, IfOk};
ghost use Rattle.drb_script.specs.declared.patience.Patience.TheVariants.{Never, Wait};
ghost use Rattle.drb_script.specs.Rest.{is_glance};
ghost use Rattle.drb_session.specs.Passes.{Lawful};
ghost use Rattle.drb_session.specs.Glances.{glance_of as glance_spec, event_of};
ghost use Rattle.drb_session.specs.Runs.{Made, LooksTo, GrowsAt, Glimpses, halt_of as halt_spec};

use crate::turns::Turns;
use drb_outside::Clock;
use drb_script::Patience;
use rinda_rules::{Event, Out};
use rinda_space::{TurnError, Turned};

/// Why a script goes no further.
///
/// Source: docs/SESSIONS.md, Runs.
#[derive(Clone, Copy, Debug, PartialEq, Eq)]
pub enum Halt {
    /// The history has as many turns as it may have, which is so many.
    Full { turns: u64 },
    /// There was no memory.
    Memory,
}

/// An event that may find nothing to do.
#[derive(Clone, Copy, Debug, PartialEq, Eq)]
pub enum Glance {
    Collect(u64),
    Pop(u64),
    NextAsk,
    Tick,
    Shut,
}

/// What a look came to.
#[derive(Drop)]
pub enum Looked {
    Done(Out),
    /// There was nothing to do, and by now there are more turns.
    Again(Glance),
    Halted(Halt),
}

/// The event again, where it is one that may find nothing to do.
fn glance_of(event: &Event) -> Glance
    ensures { result ≡ glance_spec event.now }
{
    match event {
        Event::Collect { id } => Glance::Collect(*id),
        Event::Pop { id } => Glance::Pop(*id),
        Event::NextAsk => Glance::NextAsk,
        Event::Shut => Glance::Shut,
        _ => Glance::Tick,
    }
}

impl Glance {
    pub fn event(self) -> Event
        ensures { result ≡ event_of self }
    {
        match self {
            Glance::Collect(id) => Event::Collect { id },
            Glance::Pop(id) => Event::Pop { id },
            Glance::NextAsk => Event::NextAsk,
            Glance::Tick => Event::Tick,
            Glance::Shut => Event::Shut,
        }
    }
}

fn halt_of(error: TurnError) -> Halt
    ensures { result ≡ halt_spec error }
{
    match error {
        TurnError::Full { turns } => Halt::Full { turns },
        TurnError::Memory => Halt::Memory,
    }
}

/// Tries the event at the clock's next reading, and where there is nothing to do waits for more turns.
///
/// One who doesn't wait has no event that may find nothing to do, but `Shut`, which then ends as want of memory does.
fn look<T: Turns, C: Clock>(
    turns: &mut T,
    clock: &mut C,
    patience: Patience,
    event: Event,
) -> Looked
    requires waits { patience ≡ Wait → T.can_wait ≡ true }
    requires patient { patience ≡ Never → is_glance event ≡ false }
    ensures looks { LooksTo (T.pass turns.old) (T.pass turns.new)
        (C.readings clock.old) (C.readings clock.new) event result }
    ensures lawful { Lawful (T.pass turns.new) }
    ensures held { T.held turns.new ≡ T.held turns.old }
    ensures grew { GrowsAt (T.pass turns.old) (T.pass turns.new) result }
{
    let glance = glance_of(&event);
    let at = clock.now();
    match turns.turn(at, event) {
        Ok(Turned::Done(out)) => Looked::Done(out),
        Ok(Turned::Nothing { turns: seen }) => match patience {
            // Shut alone gets here, which no script asks for.
            Patience::Never => Looked::Halted(Halt::Memory),
            Patience::Wait => {
                turns.wait_past(seen);
                Looked::Again(glance)
            }
        },
        Err(error) => Looked::Halted(halt_of(error)),
    }
}

/// Tries the event at the clock's next reading, and waits for nobody.
pub fn glimpse<T: Turns, C: Clock>(turns: &mut T, clock: &mut C, event: Event) -> Looked
    ensures looks { LooksTo (T.pass turns.old) (T.pass turns.new)
        (C.readings clock.old) (C.readings clock.new) event result }
    ensures glimpses { Glimpses (T.pass turns.old) (T.pass turns.new) event result }
    ensures lawful { Lawful (T.pass turns.new) }
    ensures held { T.held turns.new ≡ T.held turns.old }
{
    let glance = glance_of(&event);
    let at = clock.now();
    match turns.turn(at, event) {
        Ok(Turned::Done(out)) => Looked::Done(out),
        Ok(Turned::Nothing { .. }) => Looked::Again(glance),
        Err(error) => Looked::Halted(halt_of(error)),
    }
}

/// Makes the turn of this event, as soon as there is something to do.
pub fn make<T: Turns, C: Clock>(
    turns: &mut T,
    clock: &mut C,
    patience: Patience,
    event: Event,
) -> Result<Out, Halt>
    requires waits { patience ≡ Wait → T.can_wait ≡ true }
    requires patient { patience ≡ Never → is_glance event ≡ false }
    ensures made { Made (T.pass turns.old) (T.pass turns.new)
        (C.readings clock.old) (C.readings clock.new) event result }
    ensures lawful { Lawful (T.pass turns.new) }
    ensures held { T.held turns.new ≡ T.held turns.old }
    ensures grew { IfOk result
        (λ _. length (T.pass turns.old).seen < length (T.pass turns.new).seen) }
{
    let mut event = event;
    loop {
        match look(turns, clock, patience, event) {
            Looked::Done(out) => return Ok(out),
            Looked::Halted(halt) => return Err(halt),
            Looked::Again(glance) => event = glance.event(),
        }
    }
}
