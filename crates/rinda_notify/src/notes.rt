//! The notifiers of a space, as they stand and as a turn has made them.

ghost use Rattle.std.specs.Prelude.{◌≡◌, true, [], ◌∷◌, ◌++◌, length, map, option_copied, Some, IfOk, OnOk, OnErr, IfErr, IsSome, is_some};
ghost use Rattle.rinda_rules.specs.declared.object.Last.TheVariants as last;
ghost use Rattle.rinda_notify.specs.declared.note.Popped.TheVariants as popped;
ghost use Rattle.rinda_notify.specs.Notes.{settled, note_at, with_note, without_note, is_open_at, told, closed, shut_note, pop_of, dry_at, left_by, advanced, renewed, answered, doubted, asked, loaded, first_at};
ghost use Rattle.rinda_notify.specs.Undoing.{has_run as has_run_spec};
ghost use Rattle.rinda_notify.specs.Changed.{NamesChanged};
ghost use Rattle.rinda_notify.specs.Tables.{below};

use crate::chain::Kept;
use crate::changes::{add, add_steps, close, keep_standing, raise, shut, sweep, undo_all};
use crate::note::{Note, Popped, is_open};
use crate::rows::{Rows, is_gone};
use crate::step::{Step, changed_ids, is_started};
use crate::stored::note_from;
use drb_tree::Remote;
use drb_value::Value;
use rinda_rules::plain::Happening;
use rinda_rules::{Last, StartLease, StartNote};
use rinda_tuple::Tuple;
use std::alloc::{AllocError, AllocFailed, Global};
use std::marker::Model;

/// The notifiers of a space with their queues. Contracts see the list of them, in rising id, as it stands and as it is
/// ahead.
///
/// Each change is made ahead, and look-ups read what is ahead. `commit` makes that stand, and `forget` takes it back.
#[derive(Drop)]
pub struct Notes {
    rows: Rows,
    gone: Vec<u64>,
    steps: Vec<Step>,
}

impl Model for Notes {
    ghost use Rattle.std.specs.Prelude.{◌≡◌, true};
    ghost use Rattle.std.specs.Coded.{codes};
    ghost use Rattle.drb_tree.specs.contracts.Tree as e;
    ghost use Rattle.rinda_notify.specs.Notes.{Standing};
    ghost use Rattle.rinda_notify.specs.Undoing.{undone, left, are_there};

    ghost Value = { Standing };

    ghost coded = { Prim.hlevel (codes, e.the_row.coded) };

    ghost view = { λ n. record {
      list = undone n.steps.items n.rows;
      ahead = left n.gone.items n.rows;
    } };

    ghost invariant = { λ n. are_there n.gone.items (undone n.steps.items n.rows) ≡ true };
}

impl Notes {
    /// No notifier. Takes no memory.
    pub fn new(alloc: Global) -> Notes
        ensures { result ≡ settled [] }
    {
        Notes {
            rows: Rows::new(alloc),
            gone: Vec::new(alloc),
            steps: Vec::new(alloc),
        }
    }

    /// How many notifiers there are, ahead.
    pub fn len(&self) -> usize
        ensures { result ≡ length self.now.ahead }
    {
        if self.gone.as_slice().is_empty() {
            return self.rows.len();
        }
        self.rows.len_without(&self.gone)
    }

    /// The notifier with that id, ahead; None exactly where there is none.
    pub fn note(&self, id: u64) -> Option<&Note>
        ensures { option_copied result ≡ note_at id self.now.ahead }
    {
        if is_gone(&self.gone, id) {
            return None;
        }
        self.rows.get(id)
    }

    /// There is a notifier with that id, ahead.
    pub fn has(&self, id: u64) -> bool
        ensures { result ≡ is_some (note_at id self.now.ahead) }
    {
        self.note(id).is_some()
    }

    /// There is a notifier with that id which runs, ahead.
    pub fn is_running(&self, id: u64) -> bool
        ensures { result ≡ is_open_at (note_at id self.now.ahead) }
    {
        match self.note(id) {
            Some(row) => is_open(row.state),
            None => false,
        }
    }

    /// The first event of that notifier's queue, ahead; None exactly where there is no such notifier, or none of its
    /// events is left.
    pub fn first(&self, id: u64) -> Option<&Value>
        ensures { option_copied result ≡ first_at (note_at id self.now.ahead) }
    {
        match self.note(id) {
            Some(row) => row.queue.first(),
            None => None,
        }
    }

    /// The ids, in any order, of the notifiers that run in what stands and, ahead, are closed or gone or have more events
    /// in their queues. It may name others, and one twice.
    ///
    /// It goes over the changes that were made ahead, however many notifiers there are.
    /// Errors: only want of memory.
    /// Source: docs/SPACE.md, Changed.
    pub fn changes(&self, alloc: Global) -> Result<Vec<u64>, AllocError>
        ensures { IfOk result (λ ids. NamesChanged self.now ids.items) }
    {
        let mut ids = changed_ids(alloc, &self.steps)?;
        ids.extend_from_slice(self.gone.as_slice())?;
        Ok(ids)
    }

    /// This happened to the tuple: the event comes to the queue of each notifier that runs and hears it, doubted or
    /// not.
    ///
    /// Errors: only want of memory; all is as before.
    /// Source: docs/SPACE.md, Queues.
    pub fn raise(&mut self, alloc: Global, what: Happening, tuple: &Tuple) -> Result<(), AllocError>
        ensures ahead { OnOk result (self.new.ahead ≡ map (told what tuple.now) self.old.ahead) }
        ensures list { self.new.list ≡ self.old.list }
        ensures kept { OnErr result (self.new ≡ self.old) }
    {
        let steps = raise(&mut self.rows, alloc, what, tuple)?;
        add_steps(&mut self.rows, &mut self.steps, steps)?;
        Ok(())
    }

    /// The notifier with that id is closed: it has ended so, keeps its queue, and hears nothing later.
    ///
    /// Errors: only want of memory; all is as before.
    pub fn close(&mut self, alloc: Global, id: u64, last: Last) -> Result<(), AllocError>
        ensures ahead { OnOk result
            (self.new.ahead ≡ with_note id (closed last) self.old.ahead) }
        ensures list { self.new.list ≡ self.old.list }
        ensures kept { OnErr result (self.new ≡ self.old) }
    {
        close(&mut self.rows, &mut self.steps, alloc, id, last)?;
        Ok(())
    }

    /// All notifiers that run are closed: they were canceled.
    ///
    /// Errors: only want of memory; all is as before.
    /// Source: docs/SPACE.md, Cases.
    pub fn shut(&mut self, alloc: Global) -> Result<(), AllocError>
        ensures ahead { OnOk result
            (self.new.ahead ≡ map (shut_note last.Canceled) self.old.ahead) }
        ensures list { self.new.list ≡ self.old.list }
        ensures kept { OnErr result (self.new ≡ self.old) }
    {
        let steps = shut(&mut self.rows, alloc, Last::Canceled)?;
        add_steps(&mut self.rows, &mut self.steps, steps)?;
        Ok(())
    }

    /// Adds a notifier, whose id is above all others.
    ///
    /// Errors: only want of memory; all is as before, and the notifier is handed back.
    pub fn start(&mut self, note: Note) -> Result<(), AllocFailed<Note>>
        requires above { below note.id self.old.ahead ≡ true }
        requires above_list { below note.id self.old.list ≡ true }
        ensures ahead { OnOk result (self.new.ahead ≡ self.old.ahead ++ note ∷ []) }
        ensures list { self.new.list ≡ self.old.list }
        ensures kept { OnErr result (self.new ≡ self.old) }
        ensures handed_back { IfErr result (λ e. e.value ≡ note) }
    {
        if self.steps.reserve(1).is_err() {
            return Err(AllocFailed { value: note });
        }
        let id = note.id;
        self.rows.put(note)?;
        self.steps.push_reserved(Step::Started(id));
        Ok(())
    }

    /// Takes the next event off the queue of that notifier: `Empty` exactly where it runs and its queue is empty, or
    /// there is none; `Closed` exactly where it was closed and its queue is empty; it is then gone.
    ///
    /// Errors: only want of memory; all is as before.
    /// Source: docs/SPACE.md, Queues.
    pub fn pop(&mut self, alloc: Global, id: u64) -> Result<Popped, AllocError>
        ensures answer { IfOk result (λ p. p ≡ pop_of (note_at id self.old.ahead)) }
        ensures ahead { IfOk result (λ p. self.new.ahead ≡ left_by id p self.old.ahead) }
        ensures list { self.new.list ≡ self.old.list }
        ensures kept { OnErr result (self.new ≡ self.old) }
    {
        match self.copy_first(alloc, id)? {
            Some(copy) => self.take_first(id, copy),
            None => self.end(id),
        }
    }

    /// A copy of the first event of that notifier's queue.
    ///
    /// Errors: only want of memory.
    fn copy_first(&self, alloc: Global, id: u64) -> Result<Option<Kept>, AllocError>
        ensures { IfOk result (λ copy. copy ≡ first_at (note_at id self.now.ahead)) }
    {
        match self.first(id) {
            Some(event) => Ok(Some(Kept::of(alloc, event)?)),
            None => Ok(None),
        }
    }

    /// The first event, of which that is a copy, leaves that notifier's queue.
    ///
    /// Errors: only want of memory; all is as before.
    fn take_first(&mut self, id: u64, copy: Kept) -> Result<Popped, AllocError>
        requires first { first_at (note_at id self.old.ahead) ≡ Some copy }
        ensures answer { IfOk result (λ p. p ≡ popped.Event copy) }
        ensures ahead { OnOk result (self.new.ahead ≡ with_note id advanced self.old.ahead) }
        ensures list { self.new.list ≡ self.old.list }
        ensures kept { OnErr result (self.new ≡ self.old) }
    {
        if self.steps.reserve(1).is_err() {
            drop(copy);
            return Err(AllocError);
        }
        let event = self.rows.pop(id).unwrap();
        self.steps.push_reserved(Step::Popped(id, copy));
        Ok(Popped::Event(event))
    }

    /// The notifier, whose queue is empty, is gone where it was closed.
    ///
    /// Errors: only want of memory; all is as before.
    fn end(&mut self, id: u64) -> Result<Popped, AllocError>
        ensures answer { IfOk result (λ p. p ≡ dry_at (note_at id self.old.ahead)) }
        ensures ahead { IfOk result (λ p. self.new.ahead ≡ left_by id p self.old.ahead) }
        ensures list { self.new.list ≡ self.old.list }
        ensures kept { OnErr result (self.new ≡ self.old) }
    {
        if self.has_run(id) {
            return Ok(Popped::Empty);
        }
        self.take_out(id)?;
        Ok(Popped::Closed)
    }

    /// No notifier with that id was closed.
    fn has_run(&self, id: u64) -> bool
        ensures { result ≡ has_run_spec (note_at id self.now.ahead) }
    {
        match self.note(id) {
            Some(row) => is_open(row.state),
            None => true,
        }
    }

    /// The notifier with that id is gone. One that is new leaves the table at once.
    ///
    /// Errors: only want of memory; all is as before.
    fn take_out(&mut self, id: u64) -> Result<(), AllocError>
        requires there { IsSome (note_at id self.old.ahead) }
        ensures ahead { OnOk result (self.new.ahead ≡ without_note id self.old.ahead) }
        ensures list { self.new.list ≡ self.old.list }
        ensures kept { OnErr result (self.new ≡ self.old) }
    {
        if is_started(&self.steps, id) {
            self.rows.take_out(id);
            return Ok(());
        }
        self.gone.push(id)?;
        Ok(())
    }

    /// The notifier with that id has another lease, and is no longer doubted.
    ///
    /// Errors: only want of memory; all is as before.
    pub fn renew(
        &mut self,
        alloc: Global,
        id: u64,
        deadline: Option<u64>,
        renewer: Option<Remote>,
    ) -> Result<(), AllocError>
        ensures ahead { OnOk result
            (self.new.ahead ≡ with_note id (renewed deadline renewer) self.old.ahead) }
        ensures list { self.new.list ≡ self.old.list }
        ensures kept { OnErr result (self.new ≡ self.old) }
    {
        match keep_standing(&mut self.steps, &self.rows, alloc, id) {
            Ok(()) => {
                self.rows.renew(id, deadline, renewer);
                Ok(())
            }
            Err(refused) => {
                drop(renewer);
                Err(refused)
            }
        }
    }

    /// The renewer of the notifier with that id gave it that deadline: it is no longer doubted, and where the deadline
    /// is at most `now`, it has no renewer from then on. Both are in milliseconds.
    ///
    /// Errors: only want of memory; all is as before.
    pub fn answer(
        &mut self,
        alloc: Global,
        id: u64,
        deadline: Option<u64>,
        now: u64,
    ) -> Result<(), AllocError>
        ensures ahead { OnOk result
            (self.new.ahead ≡ with_note id (answered deadline now) self.old.ahead) }
        ensures list { self.new.list ≡ self.old.list }
        ensures kept { OnErr result (self.new ≡ self.old) }
    {
        keep_standing(&mut self.steps, &self.rows, alloc, id)?;
        self.rows.answer(id, deadline, now);
        Ok(())
    }

    /// The renewer of the notifier with that id has to be asked.
    ///
    /// Errors: only want of memory; all is as before.
    pub fn doubt(&mut self, alloc: Global, id: u64) -> Result<(), AllocError>
        ensures ahead { OnOk result (self.new.ahead ≡ with_note id doubted self.old.ahead) }
        ensures list { self.new.list ≡ self.old.list }
        ensures kept { OnErr result (self.new ≡ self.old) }
    {
        keep_standing(&mut self.steps, &self.rows, alloc, id)?;
        self.rows.doubt(id);
        Ok(())
    }

    /// The renewer of the notifier with that id is being asked, where it had to be.
    ///
    /// Errors: only want of memory; all is as before.
    pub fn ask(&mut self, alloc: Global, id: u64) -> Result<(), AllocError>
        ensures ahead { OnOk result (self.new.ahead ≡ with_note id asked self.old.ahead) }
        ensures list { self.new.list ≡ self.old.list }
        ensures kept { OnErr result (self.new ≡ self.old) }
    {
        keep_standing(&mut self.steps, &self.rows, alloc, id)?;
        self.rows.ask(id);
        Ok(())
    }

    /// Adds a stored notifier with its queue and its lease, whose id is above all others. Nothing may be ahead of what
    /// stands.
    ///
    /// Errors: only want of memory; all is as before.
    /// Source: docs/SPACE.md, Opening again.
    pub fn load(
        &mut self,
        alloc: Global,
        stored: &StartNote,
        lease: Option<&StartLease>,
    ) -> Result<(), AllocError>
        requires above { below stored.now.row.id self.old.ahead ≡ true }
        requires settled { self.old.list ≡ self.old.ahead }
        ensures ok { OnOk result
            (self.new ≡ settled (self.old.ahead
            ++ loaded stored.now (option_copied lease.entry) ∷ [])) }
        ensures kept { OnErr result (self.new ≡ self.old) }
    {
        let note = note_from(alloc, stored, lease)?;
        sweep(&mut self.rows, &mut self.gone);
        self.steps.clear();
        add(&mut self.rows, note)?;
        Ok(())
    }

    /// What is ahead stands. Takes no memory, and as many steps as changes were made.
    pub fn commit(&mut self)
        ensures { self.new ≡ settled self.old.ahead }
    {
        sweep(&mut self.rows, &mut self.gone);
        self.steps.clear();
    }

    /// What is ahead of what stands is taken back. Takes no memory, and as many steps as changes were made.
    pub fn forget(&mut self)
        ensures { self.new ≡ settled self.old.list }
    {
        self.gone.clear();
        undo_all(&mut self.rows, &mut self.steps);
    }
}
