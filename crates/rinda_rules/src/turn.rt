ghost use Rattle.std.specs.Prelude.{◌≡◌, [], IfOk};

use crate::{Event, Out};
use std::alloc::{AllocError, Global};
use std::marker::Model;

/// A match that a turn chose: the request gets the tuple.
#[derive(Clone, Copy, Debug, PartialEq, Eq)]
pub struct Pick {
    pub request: u64,
    pub tuple: u64,
}

/// The matches that a turn chose, in order.
#[derive(Debug, Drop)]
pub struct Picks {
    list: Vec<Pick>,
}

impl Model for Picks {
    ghost use Rattle.std.specs.Prelude.{List};
    ghost use Rattle.rinda_rules.specs.declared.turn.Pick.{Pick};

    ghost Value = { List Pick };

    ghost view = { λ a. a.list.items };
}

impl Picks {
    /// No pick. Takes no memory.
    pub fn new(alloc: Global) -> Picks
        ensures { result ≡ [] }
    {
        Picks {
            list: Vec::new(alloc),
        }
    }

    /// The picks of a list, in its order.
    pub fn of(list: Vec<Pick>) -> Picks
        ensures { result ≡ list.items }
    {
        Picks { list }
    }

    /// The picks, in order.
    pub fn as_slice(&self) -> &[Pick]
        ensures { result.now ≡ self.now }
    {
        self.list.as_slice()
    }

    /// The same picks.
    ///
    /// Errors: only want of memory.
    pub fn copy(&self, alloc: Global) -> Result<Picks, AllocError>
        ensures { IfOk result (λ picks. picks ≡ self.now) }
    {
        Ok(Picks {
            list: Vec::from_slice(alloc, self.list.as_slice())?,
        })
    }
}

/// One event of one caller, with what was answered and which matches were picked.
///
/// `at` is the reading of the clock, in milliseconds.
#[derive(Drop)]
pub struct Turn {
    pub caller: u64,
    pub at: u64,
    pub event: Event,
    pub out: Out,
    pub picks: Picks,
}

impl Turn {
    /// An equal turn.
    ///
    /// Errors: only want of memory.
    pub fn copy(&self, alloc: Global) -> Result<Turn, AllocError>
        ensures { IfOk result (λ turn. turn ≡ self.now) }
    {
        let picks = self.picks.copy(alloc)?;
        let out = self.out.copy(alloc)?;
        copy_with(alloc, self, out, picks)
    }
}

/// The turn again, with that answer and these picks.
///
/// Errors: only want of memory.
fn copy_with(alloc: Global, turn: &Turn, out: Out, picks: Picks) -> Result<Turn, AllocError>
    ensures { IfOk result
        (λ copied. copied ≡ record {
          caller = turn.now.caller;
          at = turn.now.at;
          event = turn.now.event;
          out = out;
          picks = picks;
        }) }
{
    let event = turn.event.copy(alloc)?;
    Ok(Turn {
        caller: turn.caller,
        at: turn.at,
        event,
        out,
        picks,
    })
}
