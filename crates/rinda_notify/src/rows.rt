//! Notifiers by their ids.

ghost use Rattle.std.specs.Prelude.{◌≡◌, true, [], ◌∷◌, ◌++◌, length, option_copied, IfOk, OnOk, OnErr, IfErr, if◌then◌else◌, is_ok};
ghost use Rattle.rinda_rules.specs.Rows.{rising};
ghost use Rattle.rinda_rules.specs.Space.{text_of as text_of_spec, is_over as is_over_spec};
ghost use Rattle.rinda_notify.specs.Notes.{note_at, with_note, without_note, queued, closed, renewed, answered, doubted, asked, advanced, first_at, listens_to as listens_to_spec};
ghost use Rattle.rinda_notify.specs.Undoing.{shortened, given_back, stood, is_in, left};
ghost use Rattle.rinda_notify.specs.Tables.{below, listeners, running};

use crate::chain::Kept;
use crate::event::text_of;
use crate::note::{Note, is_open};
use crate::step::Standing;
use drb_tree::Remote;
use drb_value::Value;
use rinda_rules::plain::Happening;
use rinda_rules::{Doubt, Last, NoteState};
use rinda_tuple::{Tuple, is_match, suits};
use std::alloc::{AllocError, AllocFailed, Global};
use std::collections::BTreeMap;
use std::marker::Model;
use std::mem;

/// Notifiers by their ids. Contracts see the list of them, in rising id.
#[derive(Drop)]
pub(crate) struct Rows {
    map: BTreeMap<u64, Note>,
}

impl Model for Rows {
    ghost use Rattle.std.specs.Prelude.{List};
    ghost use Rattle.std.specs.Map.{values_of};
    ghost use Rattle.std.specs.Coded.{codes};
    ghost use Rattle.drb_tree.specs.contracts.Tree as e;
    ghost use Rattle.rinda_notify.specs.declared.note.Note.{Note};
    ghost use Rattle.rinda_notify.specs.Tables.{IsTable};

    ghost Value = { List Note };

    ghost coded = { Prim.hlevel (codes, e.the_row.coded) };

    ghost view = { λ r. values_of r.map.entries };

    ghost invariant = { λ r. IsTable r.map.entries };
}

impl Rows {
    /// No row. Takes no memory.
    pub(crate) fn new(alloc: Global) -> Rows
        ensures { result ≡ [] }
    {
        Rows {
            map: BTreeMap::new(alloc),
        }
    }

    /// How many there are.
    pub(crate) fn len(&self) -> usize
        ensures { result ≡ length self.now }
    {
        self.map.len()
    }

    /// How many there are without those with these ids.
    pub(crate) fn len_without(&self, gone: &Vec<u64>) -> usize
        ensures { result ≡ length (left gone.now.items self.now) }
    {
        self.map
            .values()
            .filter(|row| !is_gone(gone, row.id))
            .count()
    }

    /// The row with that id.
    pub(crate) fn get(&self, id: u64) -> Option<&Note>
        ensures row { option_copied result ≡ note_at id self.now }
        ensures rising { rising (λ n. n.id) self.now ≡ true }
    {
        self.map.get(&id)
    }

    /// The ids of those that run and hear what happened to the tuple, in rising order.
    ///
    /// Errors: only want of memory.
    pub(crate) fn listeners(
        &self,
        alloc: Global,
        what: Happening,
        tuple: &Tuple,
    ) -> Result<Vec<u64>, AllocError>
        ensures ids { IfOk result
            (λ ids. ids.items ≡ listeners (text_of_spec what) tuple.now self.now) }
        ensures rising { OnOk result (rising (λ n. n.id) self.now ≡ true) }
    {
        let name = text_of(alloc, what)?;
        let ids = self.listeners_to(alloc, &name, tuple);
        drop(name);
        ids
    }

    /// The ids of those that run, suit that name and match that tuple.
    fn listeners_to(
        &self,
        alloc: Global,
        name: &Value,
        tuple: &Tuple,
    ) -> Result<Vec<u64>, AllocError>
        ensures ids { IfOk result (λ ids. ids.items ≡ listeners name.now tuple.now self.now) }
        ensures rising { rising (λ n. n.id) self.now ≡ true }
    {
        let mut ids = Vec::new(alloc);
        for row in self.map.values() {
            if listens_to(row, name, tuple) {
                ids.push(row.id)?;
            }
        }
        Ok(ids)
    }

    /// The ids of those that run, in rising order.
    ///
    /// Errors: only want of memory.
    pub(crate) fn running(&self, alloc: Global) -> Result<Vec<u64>, AllocError>
        ensures ids { IfOk result (λ ids. ids.items ≡ running self.now) }
        ensures rising { rising (λ n. n.id) self.now ≡ true }
    {
        let mut ids = Vec::new(alloc);
        for row in self.map.values() {
            if is_open(row.state) {
                ids.push(row.id)?;
            }
        }
        Ok(ids)
    }

    /// Adds a row, whose id is above all others.
    ///
    /// Errors: only want of memory; the row is handed back.
    pub(crate) fn put(&mut self, row: Note) -> Result<(), AllocFailed<Note>>
        requires { below row.id self.old ≡ true }
        ensures ok { OnOk result (self.new ≡ self.old ++ row ∷ []) }
        ensures kept { OnErr result (self.new ≡ self.old) }
        ensures handed_back { IfErr result (λ e. e.value ≡ row) }
    {
        match self.map.insert(row.id, row) {
            Ok(_) => Ok(()),
            Err(refused) => {
                let (_, value) = refused.value;
                Err(AllocFailed { value })
            }
        }
    }

    /// Takes the row with that id out.
    pub(crate) fn take_out(&mut self, id: u64)
        ensures { self.new ≡ without_note id self.old }
    {
        drop(self.map.remove(&id));
    }

    /// The event comes to the end of that row's queue.
    ///
    /// Errors: only want of memory; all is as before.
    pub(crate) fn queue(&mut self, id: u64, event: Value) -> Result<(), AllocError>
        ensures { self.new ≡ (if is_ok result then with_note id (queued event) self.old
            else self.old) }
    {
        match self.map.get_mut(&id) {
            Some(row) => row.queue.push(event),
            None => {
                drop(event);
                Ok(())
            }
        }
    }

    /// The last event of that row's queue leaves it.
    pub(crate) fn shorten(&mut self, id: u64)
        ensures { self.new ≡ with_note id shortened self.old }
    {
        if let Some(row) = self.map.get_mut(&id) {
            row.queue.drop_last();
        }
    }

    /// The first event of that row's queue leaves it; None exactly where there is none.
    pub(crate) fn pop(&mut self, id: u64) -> Option<Value>
        ensures first { result ≡ first_at (note_at id self.old) }
        ensures rest { self.new ≡ with_note id advanced self.old }
        ensures rising { rising (λ n. n.id) self.old ≡ true }
    {
        match self.map.get_mut(&id) {
            Some(row) => row.queue.pop(),
            None => None,
        }
    }

    /// The event is the first one of that row's queue again. Takes no memory.
    pub(crate) fn give_back(&mut self, id: u64, kept: Kept)
        ensures { self.new ≡ with_note id (given_back kept) self.old }
    {
        match self.map.get_mut(&id) {
            Some(row) => row.queue.give_back(kept),
            None => drop(kept),
        }
    }

    /// That row is closed.
    pub(crate) fn close(&mut self, id: u64, last: Last)
        ensures { self.new ≡ with_note id (closed last) self.old }
    {
        if let Some(row) = self.map.get_mut(&id) {
            row.state = NoteState::Closed(last);
        }
    }

    /// That row stands so.
    pub(crate) fn stand(&mut self, id: u64, standing: Standing)
        ensures { self.new ≡ with_note id (stood standing) self.old }
    {
        match self.map.get_mut(&id) {
            Some(row) => set_standing(row, standing),
            None => drop(standing),
        }
    }

    /// That row has another lease, and no doubt.
    pub(crate) fn renew(&mut self, id: u64, deadline: Option<u64>, renewer: Option<Remote>)
        ensures { self.new ≡ with_note id (renewed deadline renewer) self.old }
    {
        match self.map.get_mut(&id) {
            Some(row) => set_lease(row, deadline, renewer),
            None => drop(renewer),
        }
    }

    /// That row's renewer gave it a deadline.
    pub(crate) fn answer(&mut self, id: u64, deadline: Option<u64>, now: u64)
        ensures { self.new ≡ with_note id (answered deadline now) self.old }
    {
        if let Some(row) = self.map.get_mut(&id) {
            set_deadline(row, deadline, now);
        }
    }

    /// That row is doubted.
    pub(crate) fn doubt(&mut self, id: u64)
        ensures { self.new ≡ with_note id doubted self.old }
    {
        if let Some(row) = self.map.get_mut(&id) {
            row.doubt = Doubt::Waiting;
        }
    }

    /// That row's renewer is being asked, where it has to be.
    pub(crate) fn ask(&mut self, id: u64)
        ensures { self.new ≡ with_note id asked self.old }
    {
        if let Some(row) = self.map.get_mut(&id) {
            set_asked(row);
        }
    }
}

/// The id is one of these.
pub(crate) fn is_gone(gone: &Vec<u64>, id: u64) -> bool
    ensures { result ≡ is_in gone.now.items id }
{
    gone.iter().any(|i| *i == id)
}

/// The row runs, suits that name and matches that tuple.
#[tactic(auto, unfolding(crate::specs::Notes::listens_to))]
fn listens_to(row: &Note, name: &Value, tuple: &Tuple) -> bool
    ensures { result ≡ listens_to_spec name.now tuple.now row.now }
{
    is_open(row.state) && (suits(&row.event, name) && is_match(&row.pattern, tuple))
}

/// It stands so.
fn set_standing(row: &mut Note, standing: Standing)
    ensures { row.new ≡ stood standing row.old }
{
    let Standing {
        deadline,
        renewer,
        doubt,
        state,
    } = standing;
    row.deadline = deadline;
    row.doubt = doubt;
    row.state = state;
    drop(mem::replace(&mut row.renewer, renewer));
}

/// It has another lease, and no doubt.
fn set_lease(row: &mut Note, deadline: Option<u64>, renewer: Option<Remote>)
    ensures { row.new ≡ renewed deadline renewer row.old }
{
    row.deadline = deadline;
    row.doubt = Doubt::No;
    drop(mem::replace(&mut row.renewer, renewer));
}

/// It has that deadline, and no doubt; where the deadline is over, nobody is asked again.
fn set_deadline(row: &mut Note, deadline: Option<u64>, now: u64)
    ensures { row.new ≡ answered deadline now row.old }
{
    row.deadline = deadline;
    row.doubt = Doubt::No;
    if is_over(now, deadline) {
        drop(row.renewer.take());
    }
}

/// Its renewer is being asked, where it has to be.
fn set_asked(row: &mut Note)
    ensures { row.new ≡ asked row.old }
{
    match row.doubt {
        Doubt::Waiting => row.doubt = Doubt::Asked,
        Doubt::No | Doubt::Asked => {}
    }
}

/// The deadline is at most now.
fn is_over(now: u64, deadline: Option<u64>) -> bool
    ensures { result ≡ is_over_spec now deadline }
{
    match deadline {
        None => false,
        Some(deadline) => deadline <= now,
    }
}
