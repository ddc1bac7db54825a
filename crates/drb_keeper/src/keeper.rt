//! The keeper's step.

ghost use Rattle.std.specs.Prelude.{◌≡◌, None, Some, is_some};
ghost use Rattle.drb_session.specs.Passes.{Lawful};
ghost use Rattle.drb_session.specs.Runs.{side};
ghost use Rattle.drb_keeper.specs.Keeping.{Shuts, Looks, LooksNext, Asks};
ghost use Rattle.drb_keeper.specs.Keeping.{Steps, AgesBut, end_of};
ghost use Rattle.drb_keeper.specs.Tries.{Goes, Settled};
ghost use Rattle.drb_packet.specs.declared.request.Limits.{Limits};

use crate::life::life_of;
use crate::owed::{KeeperEnd, Owed};
use crate::trying::{next_ask, tell};
use drb_back::call_back;
use drb_outside::{Clock, Dialer};
use drb_packet::Limits;
use drb_reply::method_of;
use drb_script::Saying;
use drb_session::{TurnError, Turns};
use drb_tree::Remote;
use rinda_rules::Event;
use rinda_tuple::Life;
use std::alloc::Global;
use std::marker::Model;

/// Lets a space age and asks renewers, step by step.
///
/// Contracts see a keeper as what it owes.
#[derive(Drop)]
pub struct Keeper {
    owed: Option<Owed>,
}

impl Model for Keeper {
    ghost use Rattle.std.specs.Prelude.{Option};
    ghost use Rattle.drb_keeper.specs.declared.owed.Owed.{Owed};

    ghost Value = { Option Owed };

    ghost view = { λ k. k.owed };
}

impl Keeper {
    /// A keeper that owes nothing.
    pub fn new() -> Keeper
        ensures { result ≡ None }
    {
        Keeper { owed: None }
    }

    /// Whether it owes something, so that the next step shuts no space.
    pub fn owes(&self) -> bool
        ensures { result ≡ is_some self.now }
    {
        self.owed.is_some()
    }

    /// Goes on with what is owed until the space was told a life, or finds that there is nothing to do.
    ///
    /// Where nothing is owed it shuts the space, where `shut` says so, lets it age and asks which object is in doubt;
    /// then it calls that object's renewer, and tells the space the life that this answers. The clock is read before
    /// each try of an event, in milliseconds. It waits for no other caller's turn. Under `limits` the renewer's reply
    /// is read.
    /// A step with `shut` that owed nothing has shut the space, or found it shut, where it ends by `Idle` or `Asked`.
    /// Whoever shuts a space asks again after `Full` and `Memory`, and after a step that owed something.
    /// Ends: `Idle` exactly where nothing was owed and there was no object to ask for; `Asked(id)` exactly where the
    /// space was told the life of that object; `Full { turns }` exactly where an event was tried that finds something
    /// to do and the history has as many turns as it may have, which is so many; `Memory` at any time. After `Full`
    /// and `Memory` what is owed stays owed: a call that found no memory is made again by a later step. At every end
    /// but `Memory` the clock was read, and where the history has room no row is due at its last reading.
    /// Source: Ruby's tuplespace.rb, TupleSpace#keep_clean and TupleEntry#expired?; docs/SESSIONS.md, The keeper.
    pub fn step<T: Turns, C: Clock, D: Dialer>(
        &mut self,
        alloc: Global,
        turns: &mut T,
        clock: &mut C,
        dialer: &mut D,
        limits: &Limits,
        shut: bool,
    ) -> KeeperEnd
        ensures steps { Steps limits.now shut self.old self.new
            (side (T.pass turns.old) (C.readings clock.old)
            (D.calls dialer.old) (D.faults dialer.old))
            (side (T.pass turns.new) (C.readings clock.new)
            (D.calls dialer.new) (D.faults dialer.new))
            result }
        ensures ages { AgesBut (T.pass turns.new)
            (C.readings clock.old) (C.readings clock.new) result }
        ensures lawful { Lawful (T.pass turns.old) → Lawful (T.pass turns.new) }
        ensures held { T.held turns.new ≡ T.held turns.old }
    {
        match self.owed.take() {
            None if shut => self.shut(alloc, turns, clock, dialer, limits),
            None => self.age(alloc, turns, clock, dialer, limits),
            Some(Owed::Call { id, renewer }) => {
                self.ask(alloc, turns, clock, dialer, limits, id, renewer)
            }
            Some(Owed::Turn { id, life }) => self.settle(turns, clock, id, life),
        }
    }

    /// Shuts the space, and goes on.
    fn shut<T: Turns, C: Clock, D: Dialer>(
        &mut self,
        alloc: Global,
        turns: &mut T,
        clock: &mut C,
        dialer: &mut D,
        limits: &Limits,
    ) -> KeeperEnd
        requires free { self.old ≡ None }
        ensures goes { Goes limits.now Shuts self.new
            (side (T.pass turns.old) (C.readings clock.old)
            (D.calls dialer.old) (D.faults dialer.old))
            (side (T.pass turns.new) (C.readings clock.new)
            (D.calls dialer.new) (D.faults dialer.new))
            result }
        ensures lawful { Lawful (T.pass turns.new) }
        ensures held { T.held turns.new ≡ T.held turns.old }
    {
        let at = clock.now();
        match tell(turns, at, Event::Shut) {
            Ok(()) => self.age(alloc, turns, clock, dialer, limits),
            Err(error) => end_of(error),
        }
    }

    /// Lets the space age, and goes on.
    fn age<T: Turns, C: Clock, D: Dialer>(
        &mut self,
        alloc: Global,
        turns: &mut T,
        clock: &mut C,
        dialer: &mut D,
        limits: &Limits,
    ) -> KeeperEnd
        requires free { self.old ≡ None }
        ensures goes { Goes limits.now Looks self.new
            (side (T.pass turns.old) (C.readings clock.old)
            (D.calls dialer.old) (D.faults dialer.old))
            (side (T.pass turns.new) (C.readings clock.new)
            (D.calls dialer.new) (D.faults dialer.new))
            result }
        ensures lawful { Lawful (T.pass turns.new) }
        ensures held { T.held turns.new ≡ T.held turns.old }
    {
        let at = clock.now();
        match tell(turns, at, Event::Tick) {
            Ok(()) => self.look(alloc, turns, clock, dialer, limits),
            Err(error) => end_of(error),
        }
    }

    /// Looks for an object in doubt, and asks for how long it goes on.
    fn look<T: Turns, C: Clock, D: Dialer>(
        &mut self,
        alloc: Global,
        turns: &mut T,
        clock: &mut C,
        dialer: &mut D,
        limits: &Limits,
    ) -> KeeperEnd
        requires free { self.old ≡ None }
        ensures goes { Goes limits.now LooksNext self.new
            (side (T.pass turns.old) (C.readings clock.old)
            (D.calls dialer.old) (D.faults dialer.old))
            (side (T.pass turns.new) (C.readings clock.new)
            (D.calls dialer.new) (D.faults dialer.new))
            result }
        ensures lawful { Lawful (T.pass turns.new) }
        ensures held { T.held turns.new ≡ T.held turns.old }
    {
        let at = clock.now();
        match next_ask(turns, at) {
            Ok(Some((id, renewer))) => self.ask(alloc, turns, clock, dialer, limits, id, renewer),
            Ok(None) => KeeperEnd::Idle,
            Err(error) => end_of(error),
        }
    }

    /// Calls the renewer of an object in doubt.
    fn ask<T: Turns, C: Clock, D: Dialer>(
        &mut self,
        alloc: Global,
        turns: &mut T,
        clock: &mut C,
        dialer: &mut D,
        limits: &Limits,
        id: u64,
        renewer: Remote,
    ) -> KeeperEnd
        ensures goes { Goes limits.now (Asks id renewer) self.new
            (side (T.pass turns.old) (C.readings clock.old)
            (D.calls dialer.old) (D.faults dialer.old))
            (side (T.pass turns.new) (C.readings clock.new)
            (D.calls dialer.new) (D.faults dialer.new))
            result }
        ensures ages { AgesBut (T.pass turns.new)
            (C.readings clock.old) (C.readings clock.new) result }
        ensures lawful { Lawful (T.pass turns.old) → Lawful (T.pass turns.new) }
        ensures held { T.held turns.new ≡ T.held turns.old }
    {
        let name = method_of(&Saying::Renew);
        let back = call_back(alloc, dialer, &renewer, name, &[], limits);
        let life = life_of(&back);
        drop(back);
        match life {
            Some(life) => {
                drop(renewer);
                self.settle(turns, clock, id, life)
            }
            None => {
                self.owed = Some(Owed::Call { id, renewer });
                KeeperEnd::Memory
            }
        }
    }

    /// Tells the space the life of an object in doubt.
    fn settle<T: Turns, C: Clock>(
        &mut self,
        turns: &mut T,
        clock: &mut C,
        id: u64,
        life: Life,
    ) -> KeeperEnd
        ensures settled { (limits : Limits) → Settled limits id life self.new
            (T.pass turns.old) (T.pass turns.new)
            (C.readings clock.old) (C.readings clock.new) result }
        ensures lawful { Lawful (T.pass turns.new) }
        ensures held { T.held turns.new ≡ T.held turns.old }
    {
        let at = clock.now();
        match tell(turns, at, Event::Asked { id, life }) {
            Ok(()) => {
                self.owed = None;
                KeeperEnd::Asked(id)
            }
            Err(error) => {
                self.owed = Some(Owed::Turn { id, life });
                end_of(error)
            }
        }
    }
}

fn end_of(error: TurnError) -> KeeperEnd
    ensures { result ≡ end_of error }
{
    match error {
        TurnError::Full { turns } => KeeperEnd::Full { turns },
        TurnError::Memory => KeeperEnd::Memory,
    }
}
