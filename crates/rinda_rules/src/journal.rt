//! Where a space keeps its turns.

ghost use Rattle.std.specs.Prelude.{◌≡◌, ℕ, ◌<◌, List, [], ◌++◌, ◌∷◌, length, OnOk, OnErr, IfErr, slice_get, option_copied};
ghost use Rattle.rinda_rules.specs.declared.turn.Turn.{Turn};
ghost use Rattle.rinda_rules.specs.Full.{IsFullOf};
ghost use Rattle.rinda_rules.specs.Journals.{made, empty};

use crate::{Event, Out, Picks, Turn};
use std::alloc::{AllocError, Global};
use std::marker::Model;
use thiserror::Error;

/// Why a journal has no room for one more turn.
#[derive(Clone, Copy, Debug, PartialEq, Eq, Error)]
pub enum JournalError {
    /// It holds as many turns as it may.
    #[error("the journal is full")]
    Full,
    /// There was no memory.
    #[error("out of memory")]
    Memory,
}

impl From<AllocError> for JournalError {
    ghost use Rattle.rinda_rules.specs.declared.journal.JournalError.TheVariants.{Memory};

    ghost from_gives = { λ _ e. e ≡ Memory };

    fn from(_: AllocError) -> JournalError {
        JournalError::Memory
    }
}

/// A place for the turns of a space, in order. A turn is prepared, which may fail, and then committed, which may not.
///
/// Source: docs/SPACE.md, Histories.
pub trait Journal: Drop {
    /// The turns that it holds.
    ghost turns: { Self → List Turn };

    /// The turns that it holds after the next `commit`.
    ghost ahead: { Self → List Turn };

    /// How many it may hold. This never changes.
    ghost cap: { Self → ℕ };

    /// Gets ready to append one more turn: takes all the memory that this wants, so that `commit` cannot fail.
    ///
    /// It only reads the parts of the turn. `at` is in milliseconds. A turn that was prepared before, and not
    /// committed, is forgotten.
    ///
    /// Errors: `Full` exactly where the journal holds as many turns as it may; `Memory` otherwise. The journal is then
    /// as before, and so is what the next `commit` does.
    fn prepare(
        &mut self,
        caller: u64,
        at: u64,
        event: &Event,
        out: &Out,
        picks: &Picks,
    ) -> Result<(), JournalError>
        ensures turns { turns self.new ≡ turns self.old }
        ensures cap { cap self.new ≡ cap self.old }
        ensures ahead { let turn = made caller at event.now out.now picks.now in
            OnOk result (ahead self.new ≡ turns self.old ++ turn ∷ []) }
        ensures below { OnOk result (length (turns self.old) < cap self.old) }
        ensures kept { OnErr result (ahead self.new ≡ ahead self.old) }
        ensures full { IfErr result (λ e. IsFullOf (length (turns self.old)) (cap self.old) e) };

    /// Appends the turn that was prepared; does nothing where none is. Takes no memory, and copies nothing.
    fn commit(&mut self)
        ensures turns { turns self.new ≡ ahead self.old }
        ensures ahead { ahead self.new ≡ turns self.new }
        ensures cap { cap self.new ≡ cap self.old };

    /// How many turns it holds.
    fn len(&self) -> u64
        ensures { result ≡ length (turns self.now) };
}

/// A journal that keeps its turns in memory, each a copy.
#[derive(Drop)]
pub struct VecJournal {
    list: Vec<Turn>,
    next: Option<Turn>,
    cap: u64,
    alloc: Global,
}

impl Model for VecJournal {
    ghost use Rattle.drb_tree.specs.contracts.Tree as e;
    ghost use Rattle.std.specs.Coded.{codes};
    ghost use Rattle.std.specs.Prelude.{◌++◌};
    ghost use Rattle.rinda_rules.specs.Journals.{Journaled, prepared, HasRoom};

    ghost Value = { Journaled };

    ghost coded = { Prim.hlevel (codes, e.the_row.coded) };

    ghost view = { λ j. record {
      turns = j.list.items;
      ahead = j.list.items ++ prepared j.next;
      cap = j.cap;
    } };

    ghost invariant = { λ j. HasRoom j.list j.next j.cap };
}

impl VecJournal {
    /// An empty journal of at most `cap` turns. Takes no memory.
    pub fn new(alloc: Global, cap: u64) -> VecJournal
        ensures { result ≡ empty cap }
    {
        VecJournal {
            list: Vec::new(alloc),
            next: None,
            cap,
            alloc,
        }
    }

    /// The n-th turn, from 0; None exactly where there are at most n.
    pub fn turn(&self, n: u64) -> Option<&Turn>
        ensures { option_copied result ≡ slice_get self.now.turns n }
    {
        if n < self.list.len() as u64 {
            self.list.as_slice().get(n as usize)
        } else {
            None
        }
    }
}

impl Journal for VecJournal {
    ghost turns = { λ j. j.turns };

    ghost ahead = { λ j. j.ahead };

    ghost cap = { λ j. j.cap };

    fn prepare(
        &mut self,
        caller: u64,
        at: u64,
        event: &Event,
        out: &Out,
        picks: &Picks,
    ) -> Result<(), JournalError> {
        if self.list.len() as u64 == self.cap {
            return Err(JournalError::Full);
        }
        let event = event.copy(self.alloc)?;
        let out = out.copy(self.alloc)?;
        let picks = picks.copy(self.alloc)?;
        self.list.reserve(1)?;
        self.next = Some(Turn {
            caller,
            at,
            event,
            out,
            picks,
        });
        Ok(())
    }

    fn commit(&mut self) {
        if let Some(turn) = self.next.take() {
            self.list.push_reserved(turn);
        }
    }

    fn len(&self) -> u64 {
        self.list.len() as u64
    }
}
