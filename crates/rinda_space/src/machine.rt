//! A space is a machine that many callers enter.

ghost use Rattle.std.specs.Prelude.{◌≡◌};

use crate::space::Space;
use crate::turned::{TurnError, Turned};
use drb_monitor::Machine;
use rinda_rules::{Event, Journal, Out, Start, Turn};

impl<J: Journal> Machine for Space<J> {
    ghost use Rattle.std.proofs.Common.{rules};
    ghost use Rattle.rinda_space.specs.Entered.{IsLawful, Names, Allows};

    type Event = Event;

    type Done = Out;

    type Fault = TurnError;

    type Turn = Turn;

    /// The stored rows that it starts from, if any, and how many turns there may be.
    type Basis = (Option<Start>, u64);

    ghost history = { λ s. s.turns };

    ghost basis = { λ s. (s.start, s.cap) };

    ghost legal = { IsLawful };

    ghost caller_of = { λ t. t.caller };

    ghost names = { Names };

    ghost allows = { Allows };

    fn turn(&mut self, caller: u64, at: u64, event: Event) -> Result<Option<Out>, TurnError> {
        match Space::turn(self, caller, at, event) {
            Ok(Turned::Done(out)) => Ok(Some(out)),
            Ok(Turned::Nothing { .. }) => Ok(None),
            Err(error) => Err(error),
        }
    }

    fn turns(&self) -> u64 {
        Space::turns(self)
    }

    fn changed(&self) -> &[u64] {
        Space::changed(self)
    }

    ghost begins = { λ basis. Prim.search rules };
}
