//! All tables of a space, and the small steps of which a turn is made.

ghost use Rattle.std.specs.Prelude.{◌≡◌, ℕ, ◌==◌, ◌<◌, ◌^◌, Some, OnOk, IfOk, length, max};
ghost use Rattle.rinda_rules.specs.declared.plain.Notifier.{Notifier};
ghost use Rattle.rinda_rules.specs.declared.plain.Hearing.TheVariants as hearing;
ghost use Rattle.rinda_rules.specs.Space.{Plain, notifier_at, opening, is_parked, is_free as is_free_spec};
ghost use Rattle.rinda_rules.specs.Phases.{advanced, raised, tuple_ended, request_ended, with_tuple, with_request, request_in, with_notifier, held_by, doubt_tuple, doubt_request, doubt_notifier, close_after, happening_of as happening_of_spec};
ghost use Rattle.rinda_rules.specs.Cases.{renewed_tuple, renewed_request, renewed_notifier, shut_down, asked_doubt as asked_doubt_spec};
ghost use Rattle.rinda_bag.specs.Changes.{let_go, marked, asked as asked_tuple};
ghost use Rattle.rinda_wait.specs.Waiting.{canceled, asked as asked_request};
ghost use Rattle.rinda_tables.specs.Holds.{Holds};
ghost use Rattle.rinda_tables.specs.Tabled.{ahead_of, list_of, Stays, Settles, Becomes, BecomesBy, BecomesFor, BecomesOf, Fresh, AddsNone, Unadded, Mints, Pops, with_new_tuple, with_new_request, with_new_notifier, with_passed_tuple, asked_notifier, last_in};
ghost use Rattle.rinda_tables.specs.Changed.{NamesChanged};
ghost use Rattle.rinda_tables.specs.Deadlines.{ahead_at, list_at, rested, tuple_in};
ghost use Rattle.rinda_lease.specs.Stages.{is_in};
ghost use Rattle.rinda_rules.specs.declared.plain.Entry.{Entry};

use crate::deadlines::Deadlines;
use crate::requests::Requests;
use crate::tuples::Tuples;
use drb_ids::IdTable;
use drb_tree::Remote;
use drb_value::Value;
use rinda_marks::Secret;
use rinda_notify::{Note, Notes, Popped, Queue};
use rinda_rules::plain::{Entry, Happening, Request};
use rinda_rules::{Doubt, Kind, Last, NoteState, ObjectKind, RequestState};
use rinda_tuple::{Template, Tuple};
use std::alloc::{AllocError, Global};

/// All tables of a space. Each change is made ahead of what stands.
#[derive(Drop)]
pub struct Tables {
    pub clock: u64,
    pub shut: bool,
    pub stood_at: u64,
    pub stood_shut: bool,
    pub ids: IdTable,
    pub tuples: Tuples,
    pub requests: Requests,
    pub notes: Notes,
    pub deadlines: Deadlines,
}

impl Tables {
    /// The tables of the space before the first turn. Takes no memory.
    ///
    /// Under the secret nobody can choose values that fall together in an index.
    pub fn new(alloc: Global, secret: Secret) -> Tables
        ensures ahead { Holds opening (ahead_of result) }
        ensures list { Holds opening (list_of result) }
        ensures unadded { Unadded result }
    {
        Tables {
            clock: 0,
            shut: false,
            stood_at: 0,
            stood_shut: false,
            ids: IdTable::new(alloc),
            tuples: Tuples::new(alloc, secret),
            requests: Requests::new(alloc, secret),
            notes: Notes::new(alloc),
            deadlines: Deadlines::new(alloc),
        }
    }

    /// Time goes on to the reading, unless that is earlier.
    pub fn advance(&mut self, at: u64)
        ensures becomes { Becomes (λ s. advanced s at) self.old self.new }
        ensures only { self.new ≡ record self.old { clock = max self.old.clock at } }
    {
        self.clock = self.clock.max(at);
    }

    /// The ids, in any order, of what the turn under way has changed for those who wait: of each request that is parked
    /// in what stands and, ahead, isn't parked or is gone; and of each notifier that runs in what stands and, ahead, is
    /// closed or gone or has more events in its queue. It may name others, and one twice.
    ///
    /// It goes over the changes of the turn, however many rows there are.
    /// Errors: only want of memory.
    /// Source: docs/SPACE.md, Changed.
    pub fn changes(&self, alloc: Global) -> Result<Vec<u64>, AllocError>
        ensures changed { IfOk result (λ ids. NamesChanged self.now ids.items) }
    {
        let mut ids = self.requests.changes(alloc)?;
        let heard = self.notes.changes(alloc)?;
        ids.extend_from_slice(heard.as_slice())?;
        Ok(ids)
    }

    /// What is ahead stands. Takes no memory.
    pub fn commit(&mut self)
        ensures settles { Settles (ahead_of self.old) self.new }
        ensures unadded { Unadded self.new }
    {
        self.stood_at = self.clock;
        self.stood_shut = self.shut;
        self.ids.commit();
        self.tuples.commit();
        self.requests.commit();
        self.notes.commit();
        self.deadlines.commit();
    }

    /// What is ahead of what stands is taken back. Takes no memory.
    pub fn forget(&mut self)
        ensures settles { Settles (list_of self.old) self.new }
        ensures unadded { Unadded self.new }
    {
        self.clock = self.stood_at;
        self.shut = self.stood_shut;
        self.ids.forget();
        self.tuples.forget();
        self.requests.forget();
        self.notes.forget();
        self.deadlines.forget();
    }

    /// Adds a tuple, and answers its id. A turn adds one row at most, and fewer than 2^64 - 1 ids may have been given out.
    ///
    /// Errors: only want of memory; the tuple is dropped, what is ahead may then be changed in part, and what stands is as
    /// it was.
    pub fn add_tuple(
        &mut self,
        value: Tuple,
        deadline: Option<u64>,
        renewer: Option<Remote>,
    ) -> Result<u64, AllocError>
        requires room { self.old.ids.ahead.next < 2 ^ 64 }
        requires fresh { Fresh self.old }
        ensures added { IfOk result (λ id.
            Mints (with_new_tuple value deadline renewer) id self.old self.new) }
        ensures stays { Stays self.old self.new }
    {
        let id = match self.ids.mint(ObjectKind::Entry) {
            Ok(id) => id,
            Err(refused) => {
                drop(value);
                drop(renewer);
                return Err(refused);
            }
        };
        let row = Entry {
            id,
            value,
            deadline,
            renewer,
            holder: None,
            marked: false,
            doubt: Doubt::No,
        };
        self.tuples.put(row)?;
        self.deadlines.set(id, deadline)?;
        Ok(id)
    }

    /// Adds a request that is reserved, and answers its id. A turn adds one row at most, and fewer than 2^64 - 1 ids may
    /// have been given out.
    ///
    /// Errors: only want of memory; the request is dropped, what is ahead may then be changed in part, and what stands is as
    /// it was.
    pub fn add_request(
        &mut self,
        caller: u64,
        kind: Kind,
        pattern: Template,
        deadline: Option<u64>,
        renewer: Option<Remote>,
    ) -> Result<u64, AllocError>
        requires room { self.old.ids.ahead.next < 2 ^ 64 }
        requires fresh { Fresh self.old }
        ensures added { IfOk result (λ id.
            Mints (with_new_request caller kind pattern deadline renewer) id self.old self.new) }
        ensures stays { Stays self.old self.new }
    {
        let id = match self.ids.mint(ObjectKind::Request) {
            Ok(id) => id,
            Err(refused) => {
                drop(pattern);
                drop(renewer);
                return Err(refused);
            }
        };
        let row = Request {
            id,
            caller,
            kind,
            pattern,
            deadline,
            renewer,
            marked: false,
            doubt: Doubt::No,
            state: RequestState::Reserved,
        };
        self.requests.reserve(row)?;
        self.deadlines.rest(id)?;
        Ok(id)
    }

    /// Adds a notifier that hears what is raised from then on, and answers its id. A turn adds one row at most, and fewer
    /// than 2^64 - 1 ids may have been given out.
    ///
    /// Errors: only want of memory; the notifier is dropped, what is ahead may then be changed in part, and what stands is as
    /// it was.
    pub fn add_note(
        &mut self,
        alloc: Global,
        event: Value,
        pattern: Template,
        deadline: Option<u64>,
        renewer: Option<Remote>,
    ) -> Result<u64, AllocError>
        requires room { self.old.ids.ahead.next < 2 ^ 64 }
        requires fresh { Fresh self.old }
        ensures added { IfOk result (λ id.
            Mints (with_new_notifier event pattern deadline renewer) id self.old self.new) }
        ensures stays { Stays self.old self.new }
    {
        let id = match self.ids.mint(ObjectKind::Notifier) {
            Ok(id) => id,
            Err(refused) => {
                drop(event);
                drop(pattern);
                drop(renewer);
                return Err(refused);
            }
        };
        let note = Note {
            id,
            event,
            pattern,
            deadline,
            renewer,
            doubt: Doubt::No,
            state: NoteState::Running,
            queue: Queue::new(alloc),
        };
        match self.notes.start(note) {
            Ok(()) => {
                self.deadlines.set(id, deadline)?;
                Ok(id)
            }
            Err(refused) => {
                drop(refused);
                Err(AllocError)
            }
        }
    }

    /// A tuple ends: it is raised as taken or deleted.
    pub fn end_tuple(&mut self, alloc: Global, last: Last, id: u64) -> Result<(), AllocError>
        ensures becomes { OnOk result (BecomesBy id (tuple_ended last) self.old self.new) }
        ensures stays { Stays self.old self.new }
        ensures none_added { AddsNone self.old self.new }
    {
        let Some(row) = self.tuples.row(id) else {
            return Ok(());
        };
        self.notes.raise(alloc, happening_of(last), &row.value)?;
        self.tuples.take_out(alloc, id)?;
        self.deadlines.rest(id)?;
        self.ids.end(id, last);
        Ok(())
    }

    /// A request holds the tuple.
    pub fn hold(&mut self, alloc: Global, id: u64, request: u64) -> Result<(), AllocError>
        ensures becomes { OnOk result
            (BecomesBy id (λ e. with_tuple id (held_by request)) self.old self.new) }
        ensures stays { Stays self.old self.new }
    {
        let Some(row) = self.tuples.row(id) else {
            return Ok(());
        };
        let doubt = row.doubt;
        let deadline = row.deadline;
        self.tuples.hold(alloc, id, request)?;
        self.deadlines.stand(id, doubt, false, deadline)
    }

    /// Nobody holds the tuple any more.
    pub fn release(&mut self, alloc: Global, id: u64) -> Result<(), AllocError>
        ensures becomes { OnOk result
            (BecomesBy id (λ e. with_tuple id let_go) self.old self.new) }
        ensures stays { Stays self.old self.new }
    {
        let Some(row) = self.tuples.row(id) else {
            return Ok(());
        };
        let doubt = row.doubt;
        let deadline = row.deadline;
        self.tuples.release(alloc, id)?;
        self.deadlines.stand(id, doubt, true, deadline)
    }

    /// The tuple is canceled while it is held.
    pub fn mark_tuple(&mut self, alloc: Global, id: u64) -> Result<(), AllocError>
        ensures becomes { OnOk result
            (BecomesBy id (λ e. with_tuple id marked) self.old self.new) }
        ensures stays { Stays self.old self.new }
    {
        self.tuples.mark(alloc, id)
    }

    /// The tuple has another lease, and no doubt.
    pub fn renew_tuple(
        &mut self,
        alloc: Global,
        id: u64,
        deadline: Option<u64>,
        renewer: Option<Remote>,
    ) -> Result<(), AllocError>
        ensures becomes { OnOk result
            (BecomesBy id (λ e. with_tuple id (renewed_tuple deadline renewer))
            self.old self.new) }
        ensures stays { Stays self.old self.new }
    {
        let Some(row) = self.tuples.row(id) else {
            drop(renewer);
            return Ok(());
        };
        let free = is_free(row);
        self.tuples.renew(alloc, id, deadline, renewer)?;
        self.deadlines.stand(id, Doubt::No, free, deadline)
    }

    /// The tuple's renewer is to be asked.
    pub fn doubt_tuple(&mut self, alloc: Global, id: u64) -> Result<(), AllocError>
        ensures becomes { OnOk result
            (BecomesBy id (λ e. with_tuple id doubt_tuple) self.old self.new) }
        ensures stays { Stays self.old self.new }
        ensures none_added { AddsNone self.old self.new }
    {
        self.tuples.doubt(alloc, id)?;
        self.deadlines.doubt(id)
    }

    /// The tuple's renewer is being asked, where it was to be.
    pub fn ask_tuple(&mut self, alloc: Global, id: u64) -> Result<(), AllocError>
        ensures becomes { OnOk result
            (BecomesBy id (λ e. with_tuple id asked_tuple) self.old self.new) }
        ensures stays { Stays self.old self.new }
    {
        let Some(row) = self.tuples.row(id) else {
            return Ok(());
        };
        let doubt = asked_doubt(row.doubt);
        let free = is_free(row);
        let deadline = row.deadline;
        self.tuples.ask(alloc, id)?;
        self.deadlines.stand(id, doubt, free, deadline)
    }

    /// A request ends.
    pub fn end_request(&mut self, last: Last, id: u64) -> Result<(), AllocError>
        ensures becomes { OnOk result
            (BecomesFor id (λ r. request_ended last id) self.old self.new) }
        ensures stays { Stays self.old self.new }
    {
        self.requests.take_out(id)?;
        self.deadlines.rest(id)?;
        self.ids.end(id, last);
        Ok(())
    }

    /// The request is in that state.
    pub fn set_request(&mut self, id: u64, state: RequestState) -> Result<(), AllocError>
        ensures becomes { OnOk result
            (BecomesFor id (λ r. request_in id state) self.old self.new) }
        ensures stays { Stays self.old self.new }
        ensures none_added { AddsNone self.old self.new }
    {
        let Some(row) = self.requests.row(id) else {
            drop(state);
            return Ok(());
        };
        let doubt = row.doubt;
        let deadline = row.deadline;
        let parked = parks(&state);
        self.requests.set(id, state)?;
        self.deadlines.stand(id, doubt, parked, deadline)
    }

    /// The request is canceled before it is submitted.
    pub fn mark_request(&mut self, id: u64) -> Result<(), AllocError>
        ensures becomes { OnOk result
            (BecomesFor id (λ r. with_request id canceled) self.old self.new) }
        ensures stays { Stays self.old self.new }
    {
        self.requests.mark(id)
    }

    /// The request has another lease, and no doubt.
    pub fn renew_request(
        &mut self,
        id: u64,
        deadline: Option<u64>,
        renewer: Option<Remote>,
    ) -> Result<(), AllocError>
        ensures becomes { OnOk result
            (BecomesFor id (λ r. with_request id (renewed_request deadline renewer))
            self.old self.new) }
        ensures stays { Stays self.old self.new }
    {
        let Some(row) = self.requests.row(id) else {
            drop(renewer);
            return Ok(());
        };
        let parked = parks(&row.state);
        self.requests.renew(id, deadline, renewer)?;
        self.deadlines.stand(id, Doubt::No, parked, deadline)
    }

    /// The request's renewer is to be asked.
    pub fn doubt_request(&mut self, id: u64) -> Result<(), AllocError>
        ensures becomes { OnOk result
            (BecomesFor id (λ r. with_request id doubt_request) self.old self.new) }
        ensures stays { Stays self.old self.new }
        ensures none_added { AddsNone self.old self.new }
    {
        self.requests.doubt(id)?;
        self.deadlines.doubt(id)
    }

    /// The request's renewer is being asked, where it was to be.
    pub fn ask_request(&mut self, id: u64) -> Result<(), AllocError>
        ensures becomes { OnOk result
            (BecomesFor id (λ r. with_request id asked_request) self.old self.new) }
        ensures stays { Stays self.old self.new }
    {
        let Some(row) = self.requests.row(id) else {
            return Ok(());
        };
        let doubt = asked_doubt(row.doubt);
        let parked = parks(&row.state);
        let deadline = row.deadline;
        self.requests.ask(id)?;
        self.deadlines.stand(id, doubt, parked, deadline)
    }

    /// A running notifier is closed after all that was raised.
    pub fn close(&mut self, alloc: Global, id: u64, last: Last) -> Result<(), AllocError>
        ensures becomes { OnOk result ((s : Plain) (n : Notifier) → Holds s (ahead_of self.old) →
            notifier_at s id ≡ Some n → n.state ≡ hearing.Running →
            Holds (with_notifier id (close_after last (length s.events)) s) (ahead_of self.new)) }
        ensures stays { Stays self.old self.new }
        ensures none_added { AddsNone self.old self.new }
    {
        let Some(note) = self.notes.note(id) else {
            return Ok(());
        };
        let doubt = note.doubt;
        let deadline = note.deadline;
        self.notes.close(alloc, id, last)?;
        self.deadlines.stand(id, doubt, false, deadline)
    }

    /// The notifier has another lease, and no doubt.
    pub fn renew_note(
        &mut self,
        alloc: Global,
        id: u64,
        deadline: Option<u64>,
        renewer: Option<Remote>,
    ) -> Result<(), AllocError>
        ensures becomes { OnOk result
            (BecomesOf id (λ n. with_notifier id (renewed_notifier deadline renewer))
            self.old self.new) }
        ensures stays { Stays self.old self.new }
    {
        let running = self.notes.is_running(id);
        self.notes.renew(alloc, id, deadline, renewer)?;
        self.deadlines.stand(id, Doubt::No, running, deadline)
    }

    /// The notifier's renewer is being asked, where it was to be.
    pub fn ask_note(&mut self, alloc: Global, id: u64) -> Result<(), AllocError>
        ensures becomes { OnOk result
            (BecomesOf id (λ n. with_notifier id asked_notifier) self.old self.new) }
        ensures stays { Stays self.old self.new }
    {
        let Some(note) = self.notes.note(id) else {
            return Ok(());
        };
        let doubt = asked_doubt(note.doubt);
        let deadline = note.deadline;
        let running = self.notes.is_running(id);
        self.notes.ask(alloc, id)?;
        self.deadlines.stand(id, doubt, running, deadline)
    }

    /// This happened to a tuple: the event comes to the queue of each notifier that runs and hears it.
    ///
    /// Errors: only want of memory; what is ahead may then be changed in part, and what stands is as it was.
    /// Source: docs/SPACE.md, Queues.
    pub fn raise(&mut self, alloc: Global, what: Happening, value: &Tuple) -> Result<(), AllocError>
        ensures becomes { OnOk result ((t : Entry) → t.value ≡ value.now →
            Becomes (raised what t) self.old self.new) }
        ensures stays { Stays self.old self.new }
    {
        self.notes.raise(alloc, what, value)
    }

    /// Gives an id to a tuple whose time is over as it is written: it has expired. A turn gives out one id at most, and
    /// fewer than 2^64 - 1 may have been given out.
    ///
    /// Errors: only want of memory; what is ahead may then be changed in part, and what stands is as it was.
    pub fn pass_tuple(&mut self) -> Result<u64, AllocError>
        requires room { self.old.ids.ahead.next < 2 ^ 64 }
        requires fresh { Fresh self.old }
        ensures passed { IfOk result (λ id. Mints with_passed_tuple id self.old self.new) }
        ensures stays { Stays self.old self.new }
    {
        let id = self.ids.mint(ObjectKind::Entry)?;
        self.ids.end(id, Last::Expired);
        Ok(id)
    }

    /// Takes the next event off the queue of the notifier: `Empty` where it runs and its queue is empty, or there is
    /// none; `Closed` where it was closed and its queue is empty; it has then ended as it was closed.
    ///
    /// Errors: only want of memory; what is ahead may then be changed in part, and what stands is as it was.
    /// Source: docs/SPACE.md, Cases, Pop.
    pub fn pop(&mut self, alloc: Global, id: u64) -> Result<Popped, AllocError>
        ensures pops { IfOk result (λ popped. Pops id popped self.old self.new) }
        ensures stays { Stays self.old self.new }
    {
        let last = match self.notes.note(id) {
            Some(note) => last_of(note.state),
            None => return Ok(Popped::Empty),
        };
        match self.notes.pop(alloc, id)? {
            Popped::Event(event) => Ok(Popped::Event(event)),
            Popped::Empty => Ok(Popped::Empty),
            Popped::Closed => {
                self.deadlines.rest(id)?;
                self.ids.end(id, last);
                Ok(Popped::Closed)
            }
        }
    }

    /// Each reserved request is marked, each parked one is answered Canceled, each running notifier is closed, and the
    /// space is shut.
    ///
    /// Errors: only want of memory; what is ahead may then be changed in part, and what stands is as it was.
    /// Source: docs/SPACE.md, Cases, Shut.
    pub fn shut_down(&mut self, alloc: Global) -> Result<(), AllocError>
        ensures becomes { OnOk result (Becomes shut_down self.old self.new) }
        ensures stays { Stays self.old self.new }
    {
        self.requests.shut(alloc)?;
        self.notes.shut(alloc)?;
        let ids = self.deadlines.timed(alloc)?;
        rest_each(&mut self.deadlines, &self.tuples, &ids)?;
        self.shut = true;
        Ok(())
    }

    /// The notifier's renewer is to be asked.
    pub fn doubt_note(&mut self, alloc: Global, id: u64) -> Result<(), AllocError>
        ensures becomes { OnOk result
            (BecomesOf id (λ n. with_notifier id doubt_notifier) self.old self.new) }
        ensures stays { Stays self.old self.new }
        ensures none_added { AddsNone self.old self.new }
    {
        self.notes.doubt(alloc, id)?;
        self.deadlines.doubt(id)
    }
}

/// A tuple that is taken, expires or is canceled is raised so.
fn happening_of(last: Last) -> Happening
    ensures { result ≡ happening_of_spec last }
{
    match last {
        Last::Taken => Happening::Take,
        Last::Expired => Happening::Delete,
        Last::Canceled => Happening::Delete,
        Last::Done => Happening::Delete,
    }
}

/// Nobody holds it.
fn is_free(row: &Entry) -> bool
    ensures { result ≡ is_free_spec row.now }
{
    row.holder.is_none()
}

/// A request in that state is parked.
pub(crate) fn parks(state: &RequestState) -> bool
    ensures { result ≡ is_parked state.now }
{
    match state {
        RequestState::Parked => true,
        _ => false,
    }
}

fn asked_doubt(doubt: Doubt) -> Doubt
    ensures { result ≡ asked_doubt_spec doubt }
{
    match doubt {
        Doubt::No => Doubt::No,
        Doubt::Waiting => Doubt::Asked,
        Doubt::Asked => Doubt::Asked,
    }
}

/// How a notifier in that state has ended.
fn last_of(state: NoteState) -> Last
    ensures { result ≡ last_in state }
{
    match state {
        NoteState::Running => Last::Done,
        NoteState::Closed(last) => last,
    }
}

/// The leases of those of the ids that are no tuples' end.
fn rest_each(deadlines: &mut Deadlines, tuples: &Tuples, ids: &[u64]) -> Result<(), AllocError>
    ensures rests { OnOk result ((q : ℕ) → ahead_at deadlines.new q
        ≡ rested (is_in q ids.now) (tuple_in q tuples.now.ahead) (ahead_at deadlines.old q)) }
    ensures stays { (q : ℕ) → list_at deadlines.new q ≡ list_at deadlines.old q }
{
    for id in ids {
        rest_one(deadlines, tuples, *id)?;
    }
    Ok(())
}

fn rest_one(deadlines: &mut Deadlines, tuples: &Tuples, id: u64) -> Result<(), AllocError>
    ensures rests { OnOk result ((q : ℕ) → ahead_at deadlines.new q
        ≡ rested (q == id) (tuple_in q tuples.now.ahead) (ahead_at deadlines.old q)) }
    ensures stays { (q : ℕ) → list_at deadlines.new q ≡ list_at deadlines.old q }
{
    match tuples.row(id) {
        Some(_) => Ok(()),
        None => deadlines.rest(id),
    }
}
