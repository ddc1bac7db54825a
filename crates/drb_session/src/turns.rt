//! The turns of one caller in a history.

ghost use Rattle.std.specs.Prelude.{◌≡◌, ◌<◌, ◌≤◌, ℕ, length, Bool, true, []};
ghost use Rattle.drb_session.specs.Passes.{Pass, Lawful, Tries, Sees};

use rinda_rules::Event;
use rinda_space::{TurnError, Turned};

/// The turns of one caller in a history that others may share.
///
/// Source: docs/SESSIONS.md, Turns.
pub trait Turns {
    /// What the caller knows of the history.
    ghost pass: { Self → Pass };

    /// The name of the reference that it holds, or 0 where it holds none. No turn puts another one there.
    ghost held: { Self → ℕ };

    /// Whether it can wait for others' turns.
    ghost can_wait: { Bool };

    /// Tries the event once, at that reading of the clock, in milliseconds.
    ///
    /// `Nothing` exactly where the event finds nothing to do after the turns that were seen then, which are so many.
    /// Errors: `Full` exactly where it finds something and the history has as many turns as it may have; `Memory` at
    /// any time. Neither makes a turn.
    fn turn(&mut self, at: u64, event: Event) -> Result<Turned, TurnError>
        ensures tries { Tries (pass self.old) (pass self.new) at event result }
        ensures reached { (pass self.old).known ≤ length (pass self.new).seen }
        ensures lawful { Lawful (pass self.new) }
        ensures held { held self.new ≡ held self.old };

    /// Waits until there are more turns than so many, where it can wait.
    fn wait_past(&mut self, turns: u64)
        ensures same { Sees (pass self.old) (pass self.new) [] }
        ensures known { can_wait ≡ true → turns < (pass self.new).known }
        ensures lawful { Lawful (pass self.old) → Lawful (pass self.new) }
        ensures held { held self.new ≡ held self.old };
}
