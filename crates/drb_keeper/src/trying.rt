//! One try of an event that the keeper makes.

ghost use Rattle.std.specs.Prelude.{◌≡◌};
ghost use Rattle.drb_session.specs.Passes.{Lawful};
ghost use Rattle.drb_keeper.specs.Tries.{Tells, AsksNext, asking_of};

use drb_session::{TurnError, Turned, Turns};
use drb_tree::Remote;
use rinda_rules::{Event, Out};

/// Tells the space of the event, whatever it answers.
pub fn tell<T: Turns>(turns: &mut T, at: u64, event: Event) -> Result<(), TurnError>
    ensures tells { Tells (T.pass turns.old) (T.pass turns.new) at event result }
    ensures lawful { Lawful (T.pass turns.new) }
    ensures held { T.held turns.new ≡ T.held turns.old }
{
    match turns.turn(at, event) {
        Ok(turned) => {
            drop(turned);
            Ok(())
        }
        Err(error) => Err(error),
    }
}

/// Which object is to be asked for next, and its renewer. None where there is none.
pub fn next_ask<T: Turns>(turns: &mut T, at: u64) -> Result<Option<(u64, Remote)>, TurnError>
    ensures asks { AsksNext (T.pass turns.old) (T.pass turns.new) at result }
    ensures lawful { Lawful (T.pass turns.new) }
    ensures held { T.held turns.new ≡ T.held turns.old }
{
    match turns.turn(at, Event::NextAsk) {
        Ok(turned) => Ok(asking_of(turned)),
        Err(error) => Err(error),
    }
}

/// The id and the renewer of an answer, where it has them.
fn asking_of(turned: Turned) -> Option<(u64, Remote)>
    ensures { result ≡ asking_of turned }
{
    match turned {
        Turned::Done(Out::Ask(id, renewer)) => Some((id, renewer)),
        other => {
            drop(other);
            None
        }
    }
}
