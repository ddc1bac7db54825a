//! A plain space, and the small steps of which a turn is made.

ghost use Rattle.std.specs.Prelude.{◌≡◌, ◌+◌, ◌<◌, length, OnOk, IfOk, Some, None};
ghost use Rattle.rinda_rules.specs.Space.{tuple_at as tuple_at_spec, request_at as request_at_spec, notifier_at as notifier_at_spec, ended_at as ended_at_spec, found as found_spec, found_among as found_among_spec, opening};
ghost use Rattle.rinda_rules.specs.Phases.{advanced, raised as raised_spec, ended as ended_spec, happening_of as happening_of_spec, tuple_ended as tuple_ended_spec, request_ended as request_ended_spec, notifier_ended as notifier_ended_spec, with_tuple, with_request, with_notifier, request_in as request_in_spec};
ghost use Rattle.rinda_audit.specs.Changes.{tuple_after, request_after, notifier_after};
ghost use Rattle.rinda_audit.specs.Finds.{seen};

use crate::changes::{self, NotifierChange, RequestChange, TupleChange};
use crate::copies::{copy_entries, copy_events, copy_notifiers, copy_requests};
use crate::found::Found;
use crate::rows;
use rinda_rules::plain::{Ended, Entry, Happening, Notifier, Raised, Request};
use rinda_rules::{Last, ObjectKind, RequestState};
use std::alloc::{AllocError, Global};
use std::marker::Model;

/// A plain space: all that a history of turns leaves.
#[derive(Drop)]
pub struct Replay {
    pub(crate) clock: u64,
    pub(crate) next: u128,
    pub(crate) shut: bool,
    pub(crate) tuples: Vec<Entry>,
    pub(crate) requests: Vec<Request>,
    pub(crate) notifiers: Vec<Notifier>,
    pub(crate) events: Vec<Raised>,
    pub(crate) ended: Vec<Ended>,
}

impl Model for Replay {
    ghost use Rattle.rinda_rules.specs.Space.{Plain};
    ghost use Rattle.drb_tree.specs.contracts.Tree as e;
    ghost use Rattle.std.specs.Coded.{codes};
    ghost use Rattle.rinda_audit.specs.Counts.{Counted};

    ghost Value = { Plain };

    ghost coded = { Prim.hlevel (codes, e.the_row.coded) };

    ghost view = { λ s. record {
      clock = s.clock;
      next = s.next;
      shut = s.shut;
      tuples = s.tuples.items;
      requests = s.requests.items;
      notifiers =
          s.notifiers.items;
      events = s.events.items;
      ended = s.ended.items;
    } };

    ghost invariant = { λ s. Counted s.next s.notifiers.items s.events.items };
}

impl Replay {
    /// The space before the first turn.
    pub fn new(alloc: Global) -> Replay
        ensures { result ≡ opening }
    {
        Replay {
            clock: 0,
            next: 1,
            shut: false,
            tuples: Vec::new(alloc),
            requests: Vec::new(alloc),
            notifiers: Vec::new(alloc),
            events: Vec::new(alloc),
            ended: Vec::new(alloc),
        }
    }

    /// An equal space.
    pub(crate) fn copy(&self, alloc: Global) -> Result<Replay, AllocError>
        ensures { IfOk result (λ s. s ≡ self.now) }
    {
        let tuples = copy_entries(alloc, self.tuples.as_slice())?;
        let requests = copy_requests(alloc, self.requests.as_slice())?;
        let notifiers = copy_notifiers(alloc, self.notifiers.as_slice())?;
        let events = copy_events(alloc, self.events.as_slice())?;
        let ended = Vec::from_slice(alloc, self.ended.as_slice())?;
        Ok(Replay {
            clock: self.clock,
            next: self.next,
            shut: self.shut,
            tuples,
            requests,
            notifiers,
            events,
            ended,
        })
    }

    pub(crate) fn tuple_at(&self, alloc: Global, id: u64) -> Result<Option<Entry>, AllocError>
        ensures { IfOk result (λ t. t ≡ tuple_at_spec self.now id) }
    {
        rows::tuple_row(alloc, self.tuples.as_slice(), id)
    }

    pub(crate) fn request_at(&self, alloc: Global, id: u64) -> Result<Option<Request>, AllocError>
        ensures { IfOk result (λ r. r ≡ request_at_spec self.now id) }
    {
        rows::request_row(alloc, self.requests.as_slice(), id)
    }

    fn notifier_at(&self, alloc: Global, id: u64) -> Result<Option<Notifier>, AllocError>
        ensures { IfOk result (λ n. n ≡ notifier_at_spec self.now id) }
    {
        rows::notifier_row(alloc, self.notifiers.as_slice(), id)
    }

    pub(crate) fn ended_at(&self, id: u64) -> Option<Ended>
        ensures { result ≡ ended_at_spec self.now id }
    {
        rows::ended_row(self.ended.as_slice(), id)
    }

    /// What the id names.
    pub(crate) fn found(&self, alloc: Global, id: u64) -> Result<Found, AllocError>
        ensures { IfOk result (λ f. seen f ≡ found_spec self.now id) }
    {
        if let Some(r) = self.request_at(alloc, id)? {
            return Ok(Found::TheRequest(r));
        }
        if let Some(t) = self.tuple_at(alloc, id)? {
            return Ok(Found::TheTuple(t));
        }
        if let Some(n) = self.notifier_at(alloc, id)? {
            return Ok(Found::TheNotifier(n));
        }
        Ok(self.found_ended(id))
    }

    /// What the id names where it names nothing that is in the space.
    fn found_ended(&self, id: u64) -> Found
        ensures { seen result
            ≡ found_among_spec self.now id None None None (ended_at_spec self.now id) }
    {
        match self.ended_at(id) {
            Some(e) => Found::HasEnded(e.kind, e.last),
            None => {
                if id == 0 || self.next <= id as u128 {
                    Found::IsUnknown
                } else {
                    Found::IsRecycled
                }
            }
        }
    }

    /// Time goes on to the reading, unless that is earlier.
    pub(crate) fn advance(&mut self, at: u64)
        ensures { self.new ≡ advanced self.old at }
    {
        self.clock = self.clock.max(at);
    }

    pub(crate) fn change_tuple(
        &mut self,
        alloc: Global,
        id: u64,
        change: &TupleChange,
    ) -> Result<(), AllocError>
        ensures { OnOk result (self.new ≡ with_tuple id (tuple_after change.now) self.old) }
    {
        self.tuples = changes::change_tuples(alloc, self.tuples.as_slice(), id, change)?;
        Ok(())
    }

    pub(crate) fn change_request(
        &mut self,
        alloc: Global,
        id: u64,
        change: &RequestChange,
    ) -> Result<(), AllocError>
        ensures { OnOk result (self.new ≡ with_request id (request_after change.now) self.old) }
    {
        self.requests = changes::change_requests(alloc, self.requests.as_slice(), id, change)?;
        Ok(())
    }

    pub(crate) fn change_notifier(
        &mut self,
        alloc: Global,
        id: u64,
        change: &NotifierChange,
    ) -> Result<(), AllocError>
        ensures { OnOk result (self.new ≡ with_notifier id (notifier_after change.now) self.old) }
    {
        let rows = self.notifiers.as_slice();
        let changed = changes::change_notifiers(alloc, rows, id, change)?;
        self.notifiers = changed;
        Ok(())
    }

    /// The notifier's next event is popped.
    pub(crate) fn pop_next(&mut self, alloc: Global, n: &Notifier) -> Result<(), AllocError>
        requires listed { notifier_at_spec self.old n.now.id ≡ Some n.now }
        requires left { n.now.popped < length self.old.events }
        ensures { OnOk result
            (self.new ≡ with_notifier n.now.id (λ m. record m { popped = m.popped + 1 }) self.old) }
    {
        let rows = self.notifiers.as_slice();
        let popped = changes::popped_notifiers(alloc, rows, n.id)?;
        self.notifiers = popped;
        Ok(())
    }

    pub(crate) fn request_in(
        &mut self,
        alloc: Global,
        id: u64,
        state: RequestState,
    ) -> Result<(), AllocError>
        ensures { OnOk result (self.new ≡ request_in_spec id state self.old) }
    {
        let change = RequestChange::Enter(state);
        self.change_request(alloc, id, &change)
    }

    /// What happened to the tuple joins the events.
    pub(crate) fn raise(
        &mut self,
        alloc: Global,
        what: Happening,
        t: &Entry,
    ) -> Result<(), AllocError>
        ensures { OnOk result (self.new ≡ raised_spec what t.now self.old) }
    {
        let tuple = t.value.copy(alloc)?;
        self.events.push(Raised {
            what,
            id: t.id,
            tuple,
        })?;
        Ok(())
    }

    /// An object has ended, and is kept among the last ones.
    pub(crate) fn end(
        &mut self,
        alloc: Global,
        kind: ObjectKind,
        id: u64,
        last: Last,
    ) -> Result<(), AllocError>
        ensures { OnOk result (self.new ≡ ended_spec kind id last self.old) }
    {
        self.ended = rows::ended_with(alloc, self.ended.as_slice(), Ended { id, kind, last })?;
        Ok(())
    }

    pub(crate) fn end_tuple(
        &mut self,
        alloc: Global,
        last: Last,
        t: &Entry,
    ) -> Result<(), AllocError>
        ensures { OnOk result (self.new ≡ tuple_ended_spec last t.now self.old) }
    {
        self.tuples = rows::tuples_without(alloc, self.tuples.as_slice(), t.id)?;
        self.raise(alloc, happening_of(last), t)?;
        self.end(alloc, ObjectKind::Entry, t.id, last)
    }

    pub(crate) fn end_request(
        &mut self,
        alloc: Global,
        last: Last,
        id: u64,
    ) -> Result<(), AllocError>
        ensures { OnOk result (self.new ≡ request_ended_spec last id self.old) }
    {
        self.requests = rows::requests_without(alloc, self.requests.as_slice(), id)?;
        self.end(alloc, ObjectKind::Request, id, last)
    }

    pub(crate) fn end_notifier(
        &mut self,
        alloc: Global,
        last: Last,
        id: u64,
    ) -> Result<(), AllocError>
        ensures { OnOk result (self.new ≡ notifier_ended_spec last id self.old) }
    {
        let all = self.notifiers.as_slice();
        let left = rows::notifiers_without(alloc, all, id)?;
        self.notifiers = left;
        self.end(alloc, ObjectKind::Notifier, id, last)
    }
}

/// A tuple that is taken, expires or is canceled is raised so.
fn happening_of(last: Last) -> Happening
    ensures { result ≡ happening_of_spec last }
{
    match last {
        Last::Taken => Happening::Take,
        Last::Expired => Happening::Delete,
        Last::Canceled => Happening::Delete,
        Last::Done => Happening::Delete,
    }
}
