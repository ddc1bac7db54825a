//! One of many callers of a space.

ghost use Rattle.std.specs.Prelude.{◌≡◌, true, None};
ghost use Rattle.drb_monitor.specs.Passes.{IsPassOf};
ghost use Rattle.drb_shared.specs.Sharing.{IsReady, starts_empty, turned_of};

use drb_monitor::{Entered, Monitor, Pass};
use drb_session::{TurnError, Turned, Turns};
use rinda_rules::{Event, Journal, Out};
use rinda_space::Space;
use std::sync::Wait;

/// The turns of one of many callers of a space that began empty, by its pass. It waits for others' turns.
///
/// Source: docs/SESSIONS.md, Many callers.
#[derive(Drop)]
pub struct Shared<'a, R: Wait, J: Journal> {
    rt: &'a R,
    monitor: &'a Monitor<Space<J>>,
    pass: &'a mut Pass<Space<J>>,
    // whose turns let the last event find something, where that is one object
    bell: Option<u64>,
    ghost of: { IsPassOf monitor.now pass.now },
    ghost empty: { starts_empty monitor.now.basis ≡ true },
}

impl<'a, R: Wait, J: Journal> Shared<'a, R, J> {
    /// The caller of that pass, which has to be one of this monitor.
    ///
    /// It takes no memory. Once it is dropped, the pass is one of the monitor still, and has seen and made what the
    /// caller has.
    pub fn new(
        rt: &'a R,
        monitor: &'a Monitor<Space<J>>,
        pass: &'a mut Pass<Space<J>>,
    ) -> Shared<'a, R, J>
        requires ready { IsReady monitor.now pass.old }
        ensures monitor { result.monitor.now ≡ monitor.now }
        ensures pass { result.pass.now ≡ pass.old }
        ensures held { result.pass.ghost_name ≡ pass.entry.ghost_name }
    {
        Shared {
            rt,
            monitor,
            pass,
            bell: None,
        }
    }
}

impl<'a, R: Wait, J: Journal> Turns for Shared<'a, R, J> {
    ghost use Rattle.drb_shared.specs.Sharing.{shared};

    ghost pass = { λ s. shared s.monitor.now.basis s.pass.now };

    ghost held = { λ s. s.pass.ghost_name };

    ghost can_wait = { true };

    fn turn(&mut self, at: u64, event: Event) -> Result<Turned, TurnError> {
        self.bell = bell_of(&event);
        turned(self.monitor.enter(self.rt, self.pass, at, event))
    }

    fn wait_past(&mut self, turns: u64) {
        match self.bell {
            Some(bell) => self.monitor.wait_for(self.rt, self.pass, turns, bell),
            None => self.monitor.wait_past(self.rt, self.pass, turns),
        }
    }
}

/// The object that has to change before the event finds something to do.
fn bell_of(event: &Event) -> Option<u64> {
    match event {
        Event::Collect { id } | Event::Pop { id } => Some(*id),
        _ => None,
    }
}

fn turned(entered: Result<Entered<Out>, TurnError>) -> Result<Turned, TurnError>
    ensures { result ≡ turned_of entered }
{
    match entered {
        Ok(Entered::Done(out)) => Ok(Turned::Done(out)),
        Ok(Entered::Nothing { turns }) => Ok(Turned::Nothing { turns }),
        Err(error) => Err(error),
    }
}
