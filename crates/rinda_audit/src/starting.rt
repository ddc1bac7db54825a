//! What is stored of a space, from which another one may start.

ghost use Rattle.std.specs.Prelude.{◌≡◌, ◌++◌, true, map, IfOk};
ghost use Rattle.std.specs.List.{list_all};
ghost use Rattle.rinda_rules.specs.Sound.{Sound};
ghost use Rattle.rinda_rules.specs.Starts.{StandsFor, closed_as as closed_as_spec};
ghost use Rattle.rinda_audit.specs.Stored.{is_unasked as is_unasked_spec, nobody_is_asked as nobody_is_asked_spec, may_be_stored as may_be_stored_spec, tuple_row as tuple_row_spec, note_row as note_row_spec, start_note as start_note_spec, lease_with as lease_with_spec, is_needed as is_needed_spec, tuple_leases as tuple_leases_spec, note_leases as note_leases_spec, stored as stored_spec};

use crate::queue::queue_of;
use crate::row::is_doubted;
use crate::state::Replay;
use drb_tree::Remote;
use rinda_rules::plain::{Entry, Hearing, Notifier, Raised};
use rinda_rules::{Doubt, NoteRow, NoteState, Start, StartLease, StartNote, TupleRow};
use rinda_tuple::copy_renewer;
use sqlite_items::Items;
use std::alloc::{AllocError, Global};

impl Replay {
    /// Whether `start` may be called: the space has no requests, isn't shut, asks no renewer just now, and its next id is
    /// below 2^64.
    ///
    /// Source: docs/SPACE.md, Opening again.
    pub fn may_be_stored(&self) -> bool
        ensures { result ≡ may_be_stored_spec self.now }
    {
        let is_idle = self.requests.is_empty();
        is_idle && (!self.shut && (self.nobody_is_asked() && self.next < 1 << 64))
    }

    /// The rows with which a space starts that goes on where this one is: its tuples, its notifiers with what is left of
    /// their queues, a lease for each of them that has a deadline, a renewer or a doubt, and the last objects that ended.
    ///
    /// It stands for the space wherever that is sound, as each is that legal turns and reopenings led to.
    /// Errors: only want of memory.
    /// Source: docs/SPACE.md, Opening again.
    pub fn start(&self, alloc: Global) -> Result<Start, AllocError>
        requires { may_be_stored_spec self.now ≡ true }
        ensures stands { IfOk result (λ start. Sound self.now → StandsFor start self.now) }
    {
        self.stored(alloc)
    }

    fn nobody_is_asked(&self) -> bool
        ensures { result ≡ nobody_is_asked_spec self.now }
    {
        tuples_unasked(self.tuples.as_slice()) && notifiers_unasked(self.notifiers.as_slice())
    }

    fn stored(&self, alloc: Global) -> Result<Start, AllocError>
        requires { may_be_stored_spec self.now ≡ true }
        ensures { IfOk result (λ start. start ≡ stored_spec self.now) }
    {
        let tuples = tuple_rows(alloc, self.tuples.as_slice())?;
        let notes = start_notes(alloc, self.notifiers.as_slice(), self.events.as_slice())?;
        let leases = self.leases(alloc)?;
        let ended = Items::from_slice(alloc, self.ended.as_slice())?;
        Ok(Start {
            now: self.clock,
            next: self.next as u64,
            tuples,
            notes,
            leases,
            ended,
        })
    }

    fn leases(&self, alloc: Global) -> Result<Items<StartLease>, AllocError>
        ensures { IfOk result (λ all. all
            ≡ tuple_leases_spec self.now.tuples ++ note_leases_spec self.now.notifiers) }
    {
        let mut leases = tuple_leases(alloc, self.tuples.as_slice())?;
        let more = note_leases(alloc, self.notifiers.as_slice())?;
        leases.append(more)?;
        Ok(leases)
    }
}

fn tuples_unasked(tuples: &[Entry]) -> bool
    ensures { result ≡ list_all (λ t. is_unasked_spec t.doubt) tuples.now }
{
    tuples.iter().all(|t| is_unasked(t.doubt))
}

fn notifiers_unasked(notifiers: &[Notifier]) -> bool
    ensures { result ≡ list_all (λ n. is_unasked_spec n.doubt) notifiers.now }
{
    notifiers.iter().all(|n| is_unasked(n.doubt))
}

fn is_unasked(doubt: Doubt) -> bool
    ensures { result ≡ is_unasked_spec doubt }
{
    match doubt {
        Doubt::No => true,
        Doubt::Waiting => true,
        Doubt::Asked => false,
    }
}

fn tuple_rows(alloc: Global, tuples: &[Entry]) -> Result<Items<TupleRow>, AllocError>
    ensures { IfOk result (λ rows. rows ≡ map tuple_row_spec tuples.now) }
{
    let mut rows = Items::new(alloc);
    for t in tuples {
        rows.push(tuple_row(alloc, t)?)?;
    }
    Ok(rows)
}

fn tuple_row(alloc: Global, t: &Entry) -> Result<TupleRow, AllocError>
    ensures { IfOk result (λ row. row ≡ tuple_row_spec t.now) }
{
    let value = t.value.copy(alloc)?;
    Ok(TupleRow {
        id: t.id,
        value,
        deadline: t.deadline,
        holder: t.holder,
        marked: t.marked,
        doubted: is_doubted(t.doubt),
    })
}

fn start_notes(
    alloc: Global,
    notifiers: &[Notifier],
    events: &[Raised],
) -> Result<Items<StartNote>, AllocError>
    ensures { IfOk result (λ notes. notes ≡ map (start_note_spec events.now) notifiers.now) }
{
    let mut notes = Items::new(alloc);
    for n in notifiers {
        notes.push(start_note(alloc, n, events)?)?;
    }
    Ok(notes)
}

/// A notifier and what is left of its queue.
fn start_note(alloc: Global, n: &Notifier, events: &[Raised]) -> Result<StartNote, AllocError>
    ensures { IfOk result (λ note. note ≡ start_note_spec events.now n.now) }
{
    let row = note_row(alloc, n)?;
    match queue_of(alloc, n, events) {
        Ok(events) => Ok(StartNote { row, events }),
        Err(e) => {
            drop(row);
            Err(e)
        }
    }
}

fn note_row(alloc: Global, n: &Notifier) -> Result<NoteRow, AllocError>
    ensures { IfOk result (λ row. row ≡ note_row_spec n.now) }
{
    let event = n.event.copy(alloc)?;
    match n.pattern.copy(alloc) {
        Ok(pattern) => Ok(NoteRow {
            id: n.id,
            event,
            pattern,
            state: closed_as(n.state),
        }),
        Err(e) => {
            drop(event);
            Err(e)
        }
    }
}

fn closed_as(state: Hearing) -> NoteState
    ensures { result ≡ closed_as_spec state }
{
    match state {
        Hearing::Running => NoteState::Running,
        Hearing::Closed { last, until: _ } => NoteState::Closed(last),
    }
}

fn tuple_leases(alloc: Global, tuples: &[Entry]) -> Result<Items<StartLease>, AllocError>
    ensures { IfOk result (λ leases. leases ≡ tuple_leases_spec tuples.now) }
{
    let mut leases = Items::new(alloc);
    for t in tuples {
        if is_needed(t.deadline, &t.renewer, t.doubt) {
            leases.push(lease_with(alloc, t.id, t.deadline, &t.renewer, t.doubt)?)?;
        }
    }
    Ok(leases)
}

fn note_leases(alloc: Global, notifiers: &[Notifier]) -> Result<Items<StartLease>, AllocError>
    ensures { IfOk result (λ leases. leases ≡ note_leases_spec notifiers.now) }
{
    let mut leases = Items::new(alloc);
    for n in notifiers {
        if is_needed(n.deadline, &n.renewer, n.doubt) {
            leases.push(lease_with(alloc, n.id, n.deadline, &n.renewer, n.doubt)?)?;
        }
    }
    Ok(leases)
}

/// Whether a row with these has a lease of its own.
fn is_needed(deadline: Option<u64>, renewer: &Option<Remote>, doubt: Doubt) -> bool
    ensures { result ≡ is_needed_spec deadline renewer.now doubt }
{
    !(deadline.is_none() && (renewer.is_none() && !is_doubted(doubt)))
}

fn lease_with(
    alloc: Global,
    id: u64,
    deadline: Option<u64>,
    renewer: &Option<Remote>,
    doubt: Doubt,
) -> Result<StartLease, AllocError>
    ensures { IfOk result (λ lease. lease ≡ lease_with_spec id deadline renewer.now doubt) }
{
    let renewer = copy_renewer(alloc, renewer)?;
    Ok(StartLease {
        id,
        deadline,
        renewer,
        doubted: is_doubted(doubt),
    })
}
