//! The space that is shown, and its judge.

use crate::words::Fault;
use rinda_audit::Replay;
use rinda_marks::Secret;
use rinda_rules::{Event, Turn, VecJournal};
use rinda_space::{Space, TurnError, Turned};
use std::alloc::Global;

/// A space, and a judge to whom each of its turns is given.
#[derive(Drop)]
pub struct Shown {
    alloc: Global,
    space: Space<VecJournal>,
    judge: Replay,
}

/// What an event came to.
#[derive(Clone, Copy, Debug)]
pub enum Came {
    /// A turn was made.
    Made,
    /// No turn was made, after so many.
    Nothing { turns: u64 },
    /// No turn was made, as there may be no more than these.
    Full { turns: u64 },
}

impl Shown {
    /// A space before its first turn, which may make so many.
    pub fn new(alloc: Global, cap: u64) -> Shown {
        Shown {
            alloc,
            space: Space::new(alloc, Secret::new(1, 2), VecJournal::new(alloc, cap)),
            judge: Replay::new(alloc),
        }
    }

    /// Makes the event's turn.
    ///
    /// Errors: `Memory`; no turn is made.
    pub fn play(&mut self, caller: u64, at: u64, event: Event) -> Result<Came, Fault> {
        match self.space.turn(caller, at, event) {
            Ok(Turned::Done(out)) => {
                drop(out);
                Ok(Came::Made)
            }
            Ok(Turned::Nothing { turns }) => Ok(Came::Nothing { turns }),
            Err(TurnError::Full { turns }) => Ok(Came::Full { turns }),
            Err(TurnError::Memory) => Err(Fault::Memory),
        }
    }

    /// The last turn.
    pub fn newest(&self) -> Option<&Turn> {
        let last = self.space.turns().checked_sub(1)?;
        self.space.history().turn(last)
    }

    /// What the judge says of the last turn, which was not given to it before. Where there is no memory it is asked once
    /// more.
    pub fn judge(&mut self) -> bool {
        match self.step() {
            Some(legal) => legal,
            None => self.step().unwrap_or(false),
        }
    }

    /// What the judge says of the last turn; None where there is no memory.
    fn step(&mut self) -> Option<bool> {
        let last = self.space.turns().checked_sub(1)?;
        let turn = self.space.history().turn(last)?;
        self.judge.step(self.alloc, turn).ok()
    }

    /// The same for a history that ends where the judge says no, or has no memory. It takes less time.
    pub fn judge_on(&mut self) -> bool {
        self.replay().unwrap_or(false)
    }

    fn replay(&mut self) -> Option<bool> {
        let last = self.space.turns().checked_sub(1)?;
        let turn = self.space.history().turn(last)?;
        self.judge.replay(self.alloc, turn).ok()
    }
}
