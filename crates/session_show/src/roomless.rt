//! A history that may have no turn.

ghost use Rattle.std.specs.Prelude.{◌≡◌, false};
ghost use Rattle.session_show.specs.Roomless.{roomless, is_idle as is_idle_spec, tried as tried_spec};

use drb_session::{TurnError, Turned, Turns};
use rinda_rules::Event;

/// The turns of the only caller in an empty space whose history may have no turn.
#[derive(Drop)]
pub struct Roomless;

impl Turns for Roomless {
    ghost use Rattle.session_show.specs.Roomless.{roomless};

    ghost pass = { λ _. roomless };

    ghost held = { λ _. 0 };

    ghost can_wait = { false };

    fn turn(&mut self, _at: u64, event: Event) -> Result<Turned, TurnError> {
        let idle = is_idle(&event);
        drop(event);
        tried(idle)
    }

    fn wait_past(&mut self, _turns: u64) {}
}

/// Whether the event finds nothing to do in the empty space.
fn is_idle(event: &Event) -> bool
    ensures { result ≡ is_idle_spec event.now }
{
    matches!(event, Event::NextAsk | Event::Tick)
}

/// What a try comes to there.
fn tried(idle: bool) -> Result<Turned, TurnError>
    ensures { result ≡ tried_spec idle }
{
    if idle {
        Ok(Turned::Nothing { turns: 0 })
    } else {
        Err(TurnError::Full { turns: 0 })
    }
}
