//! What may still be done where a call found no memory.

ghost use Rattle.std.specs.Prelude.{◌≡◌};
ghost use Rattle.drb_session.specs.Passes.{Lawful};
ghost use Rattle.drb_session.specs.Runs.{Cleared};

use crate::making::make;
use crate::turns::Turns;
use drb_outside::Clock;
use drb_script::{Loose, Patience, clearing};

/// Makes at most the one turn that is allowed for what is left behind.
///
/// Source: docs/SESSIONS.md, Scripts.
pub fn clear<T: Turns, C: Clock>(turns: &mut T, clock: &mut C, loose: Loose)
    ensures cleared { Cleared (T.pass turns.old) (T.pass turns.new)
        (C.readings clock.old) (C.readings clock.new) loose }
    ensures lawful { Lawful (T.pass turns.old) → Lawful (T.pass turns.new) }
    ensures held { T.held turns.new ≡ T.held turns.old }
{
    let Some(event) = clearing(loose) else {
        return;
    };
    drop(make(turns, clock, Patience::Never, event));
}
