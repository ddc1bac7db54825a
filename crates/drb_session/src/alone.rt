//! The only caller of a space.

ghost use Rattle.std.specs.Prelude.{◌≡◌, false};

use crate::turns::Turns;
use rinda_rules::{Event, Journal};
use rinda_space::{Space, TurnError, Turned};

/// The turns of the only caller of a space. It waits for nobody.
///
/// Source: docs/SESSIONS.md, Turns.
#[derive(Drop)]
pub struct Alone<'a, J: Journal> {
    space: &'a mut Space<J>,
    caller: u64,
}

impl<'a, J: Journal> Alone<'a, J> {
    /// The caller of that number, who has seen all turns of the space.
    pub fn new(space: &'a mut Space<J>, caller: u64) -> Alone<'a, J>
        ensures space { result.space.now ≡ space.old }
        ensures held { result.space.ghost_name ≡ space.entry.ghost_name }
        ensures caller { result.caller ≡ caller }
    {
        Alone { space, caller }
    }
}

impl<'a, J: Journal> Turns for Alone<'a, J> {
    ghost use Rattle.drb_session.specs.Passes.{alone};

    ghost pass = { λ a. alone a.caller a.space.now };

    ghost held = { λ a. a.space.ghost_name };

    ghost can_wait = { false };

    fn turn(&mut self, at: u64, event: Event) -> Result<Turned, TurnError> {
        self.space.turn(self.caller, at, event)
    }

    fn wait_past(&mut self, _turns: u64) {}
}
