//! The events that a notifier has still to give.

ghost use Rattle.std.specs.Prelude.{◌≡◌, [], ◌∷◌, ◌++◌, IfOk, is_ok, if◌then◌else◌, option_copied};
ghost use Rattle.rinda_notify.specs.Notes.{first, rest, without_last};

use crate::chain::{Chain, Kept};
use drb_value::Value;
use std::alloc::{AllocError, Global};
use std::collections::VecDeque;
use std::marker::Model;

/// A queue of events, the first one first. Contracts see the list of them.
#[derive(Drop)]
pub struct Queue {
    back: Chain,
    events: VecDeque<Value>,
}

impl Model for Queue {
    ghost use Rattle.std.specs.Prelude.{List, ◌++◌};
    ghost use Rattle.drb_tree.specs.declared.Tree.{Tree};
    ghost use Rattle.drb_tree.specs.contracts.Tree as e;
    ghost use Rattle.std.specs.Coded.{codes};

    ghost Value = { List Tree };

    ghost coded = { Prim.hlevel (codes, e.the_row.coded) };

    ghost view = { λ q. q.back ++ q.events.items };
}

impl Queue {
    /// No event. Takes no memory.
    pub fn new(alloc: Global) -> Queue
        ensures { result ≡ [] }
    {
        Queue {
            back: Chain::new(),
            events: VecDeque::new(alloc),
        }
    }

    /// Copies of these events.
    ///
    /// Errors: only want of memory.
    pub fn of(alloc: Global, events: &[Value]) -> Result<Queue, AllocError>
        ensures { IfOk result (λ queue. queue ≡ events.now) }
    {
        let mut queue = Queue::new(alloc);
        for event in events {
            queue.push(event.copy(alloc)?)?;
        }
        Ok(queue)
    }

    /// The first event; None exactly where there is none.
    pub fn first(&self) -> Option<&Value>
        ensures { option_copied result ≡ first self.now }
    {
        match self.back.first() {
            Some(event) => Some(event),
            None => self.events.front(),
        }
    }

    /// Adds an event at the end.
    ///
    /// Errors: only want of memory; the queue is as before.
    pub(crate) fn push(&mut self, event: Value) -> Result<(), AllocError>
        ensures { self.new ≡ (if is_ok result then self.old ++ event ∷ [] else self.old) }
    {
        match self.events.push_back(event) {
            Ok(()) => Ok(()),
            Err(refused) => {
                drop(refused);
                Err(AllocError)
            }
        }
    }

    /// Takes the first event off; None exactly where there is none.
    pub(crate) fn pop(&mut self) -> Option<Value>
        ensures first { result ≡ first self.old }
        ensures rest { self.new ≡ rest self.old }
    {
        match self.back.pop() {
            Some(event) => Some(event),
            None => self.events.pop_front(),
        }
    }

    /// The event is the first one again. Takes no memory.
    pub(crate) fn give_back(&mut self, kept: Kept)
        ensures { self.new ≡ kept ∷ self.old }
    {
        self.back.put(kept);
    }

    /// Takes the last event off, if there is one.
    pub(crate) fn drop_last(&mut self)
        ensures { self.new ≡ without_last self.old }
    {
        match self.events.pop_back() {
            Some(event) => drop(event),
            None => self.back.drop_last(),
        }
    }
}
