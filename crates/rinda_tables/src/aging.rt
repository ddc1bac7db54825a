//! Aging: each row that is due, in rising id.

ghost use Rattle.std.specs.Prelude.{◌≡◌, Some, OnOk, if◌then◌else◌};
ghost use Rattle.rinda_rules.specs.Space.{is_over as is_over_spec, is_due_tuple as is_due_tuple_spec, is_due_request as is_due_request_spec, is_due_notifier as is_due_notifier_spec, found, is_doubted as is_doubted_spec};
ghost use Rattle.rinda_notify.specs.Notes.{is_open};
ghost use Rattle.rinda_lease.specs.Stages.{AreDue};
ghost use Rattle.rinda_tables.specs.Dues.{is_due_noted};
ghost use Rattle.rinda_rules.specs.Phases.{aged, age_tuple, age_request, age_notifier, age_found};
ghost use Rattle.rinda_tables.specs.Tabled.{Stays, AddsNone, Becomes, BecomesBy, BecomesFor, BecomesOf};

use crate::tables::{Tables, parks};
use rinda_notify::Note;
use rinda_rules::plain::{Entry, Request};
use rinda_rules::{Doubt, Last, NoteState, Out, RequestState};
use std::alloc::{AllocError, Global};

impl Tables {
    /// Each row that is due ages, in rising id.
    ///
    /// Errors: only want of memory; what is ahead may then be changed in part, and what stands is as it was.
    /// Source: docs/SPACE.md, Phases, Age.
    pub fn age(&mut self, alloc: Global) -> Result<(), AllocError>
        ensures becomes { OnOk result (Becomes aged self.old self.new) }
        ensures stays { Stays self.old self.new }
        ensures none_added { AddsNone self.old self.new }
    {
        let due = self.deadlines.due(alloc, self.clock)?;
        self.age_each(alloc, &due)
    }

    fn age_each(&mut self, alloc: Global, ids: &[u64]) -> Result<(), AllocError>
        requires due { AreDue self.old.deadlines.entries self.old.clock ids.now }
        ensures becomes { OnOk result (Becomes aged self.old self.new) }
        ensures stays { Stays self.old self.new }
        ensures none_added { AddsNone self.old self.new }
    {
        for id in ids {
            self.age_at(alloc, *id)?;
        }
        Ok(())
    }

    /// The row with that id ages where it is due: with a renewer it is doubted; without, a tuple ends and is raised as
    /// deleted, a request is answered Expired, and a notifier is closed.
    ///
    /// Errors: only want of memory; what is ahead may then be changed in part, and what stands is as it was.
    /// Source: docs/SPACE.md, Phases, Age.
    pub fn age_at(&mut self, alloc: Global, id: u64) -> Result<(), AllocError>
        ensures becomes { OnOk result
            (Becomes (λ s. age_found s (found s id)) self.old self.new) }
        ensures stays { Stays self.old self.new }
        ensures none_added { AddsNone self.old self.new }
    {
        if self.requests.row(id).is_some() {
            self.age_request(id)
        } else if self.tuples.row(id).is_some() {
            self.age_tuple(alloc, id)
        } else if self.notes.has(id) {
            self.age_note(alloc, id)
        } else {
            Ok(())
        }
    }

    fn age_tuple(&mut self, alloc: Global, id: u64) -> Result<(), AllocError>
        ensures becomes { OnOk result (BecomesBy id (λ e s.
            if is_due_tuple_spec s.clock e then age_tuple s e else s) self.old self.new) }
        ensures stays { Stays self.old self.new }
        ensures none_added { AddsNone self.old self.new }
    {
        let Some(row) = self.tuples.row(id) else {
            return Ok(());
        };
        if !is_due_tuple(self.clock, row) {
            Ok(())
        } else if row.renewer.is_none() {
            self.end_tuple(alloc, Last::Expired, id)
        } else {
            self.doubt_tuple(alloc, id)
        }
    }

    fn age_request(&mut self, id: u64) -> Result<(), AllocError>
        ensures becomes { OnOk result (BecomesFor id (λ r s.
            if is_due_request_spec s.clock r then age_request s r else s) self.old self.new) }
        ensures stays { Stays self.old self.new }
        ensures none_added { AddsNone self.old self.new }
    {
        let Some(row) = self.requests.row(id) else {
            return Ok(());
        };
        if !is_due_request(self.clock, row) {
            Ok(())
        } else if row.renewer.is_none() {
            self.set_request(id, RequestState::Answered(Out::Expired))
        } else {
            self.doubt_request(id)
        }
    }

    fn age_note(&mut self, alloc: Global, id: u64) -> Result<(), AllocError>
        ensures becomes { OnOk result (BecomesOf id (λ n s.
            if is_due_notifier_spec s.clock n then age_notifier s n else s) self.old self.new) }
        ensures stays { Stays self.old self.new }
        ensures none_added { AddsNone self.old self.new }
    {
        let Some(note) = self.notes.note(id) else {
            return Ok(());
        };
        if !is_due_note(self.clock, note) {
            Ok(())
        } else if note.renewer.is_none() {
            self.close(alloc, id, Last::Expired)
        } else {
            self.doubt_note(alloc, id)
        }
    }
}

fn is_over(now: u64, deadline: Option<u64>) -> bool
    ensures { result ≡ is_over_spec now deadline }
{
    match deadline {
        None => false,
        Some(deadline) => deadline <= now,
    }
}

fn is_due_tuple(now: u64, row: &Entry) -> bool
    ensures { result ≡ is_due_tuple_spec now row.now }
{
    row.holder.is_none() && (!is_doubted(row.doubt) && is_over(now, row.deadline))
}

fn is_due_request(now: u64, row: &Request) -> bool
    ensures { result ≡ is_due_request_spec now row.now }
{
    parks(&row.state) && !is_doubted(row.doubt) && is_over(now, row.deadline)
}

/// A notifier that has that note is due.
fn is_due_note(now: u64, note: &Note) -> bool
    ensures { result ≡ is_due_noted now note.now }
{
    runs(note.state) && (!is_doubted(note.doubt) && is_over(now, note.deadline))
}

fn runs(state: NoteState) -> bool
    ensures { result ≡ is_open state }
{
    match state {
        NoteState::Running => true,
        NoteState::Closed(_) => false,
    }
}

fn is_doubted(doubt: Doubt) -> bool
    ensures { result ≡ is_doubted_spec doubt }
{
    match doubt {
        Doubt::No => false,
        Doubt::Waiting => true,
        Doubt::Asked => true,
    }
}
