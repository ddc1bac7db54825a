// Doors in memory.
ghost use Rattle.std.specs.Prelude.{◌≡◌, ◌≤◌, ◌↔◌, Some, IsErr, IfOk, IfNone, Contains};
ghost use Rattle.drb_outside.specs.Told.{Told, HasCause, Rose};
ghost use Rattle.drb_outside.specs.Scripts.{one_more};
ghost use Rattle.drb_doors.specs.Coming.{Comes};

use crate::{Doors, Guest};
use drb_outside::{Clock, Dialer, Failed, Sink, Source};
use std::collections::VecDeque;

/// Doors through which the guests of a list come, with chosen failures. They take no memory after they are made.
#[derive(Drop)]
pub struct MemDoors<
    S: Source + Drop + Send,
    K: Sink + Drop + Send,
    C: Clock + Drop + Send,
    D: Dialer + Drop + Send,
> {
    guests: VecDeque<Guest<S, K, C, D>>,
    fail: Vec<u64>,
    call: u64,
    faults: u64,
    ends: u64,
}

impl<
    S: Source + Drop + Send,
    K: Sink + Drop + Send,
    C: Clock + Drop + Send,
    D: Dialer + Drop + Send,
> MemDoors<S, K, C, D> {
    /// Doors through which these guests will come, in order.
    ///
    /// `fail` lists the numbers, from 1, of the calls of `accept` that are to fail.
    pub fn new(guests: VecDeque<Guest<S, K, C, D>>, fail: Vec<u64>) -> MemDoors<S, K, C, D>
        ensures guests { result.guests ≡ guests }
        ensures fail { result.fail ≡ fail }
        ensures counts { (result.call ≡ 0) × (result.faults ≡ 0) × (result.ends ≡ 0) }
    {
        MemDoors {
            guests,
            fail,
            call: 0,
            faults: 0,
            ends: 0,
        }
    }
}

impl<
    S: Source + Drop + Send,
    K: Sink + Drop + Send,
    C: Clock + Drop + Send,
    D: Dialer + Drop + Send,
> Doors for MemDoors<S, K, C, D> {
    type In = S;

    type Out = K;

    type Time = C;

    type Calls = D;

    ghost guests = { λ d. Some d.guests.items };

    ghost faults = { λ d. d.faults };

    ghost ends = { λ d. d.ends };

    /// The next guest, or a failure where this call's number is in the list of failures.
    fn accept(&mut self) -> Result<Option<Guest<S, K, C, D>>, Failed>
        ensures guests { Told (Some self.old.guests.items) (Some self.new.guests.items)
            self.new.faults (Comes result) }
        ensures cause { HasCause self.old.faults self.new.faults result }
        ensures later { self.old.ends ≤ self.new.ends }
        ensures ended { IfOk result (λ guest. IfNone guest (Rose self.old.ends self.new.ends)) }
        ensures fails { IsErr result ↔ Contains self.old.fail.items (one_more self.old.call) }
        ensures fail { self.new.fail ≡ self.old.fail }
        ensures call { self.new.call ≡ one_more self.old.call }
    {
        self.call = self.call.saturating_add(1);
        if self.fail.contains(&self.call) {
            self.faults = self.faults.saturating_add(1);
            return Err(Failed);
        }
        match self.guests.pop_front() {
            Some(guest) => Ok(Some(guest)),
            None => {
                self.ends = self.ends.saturating_add(1);
                Ok(None)
            }
        }
    }
}
