//! The tuples of a space, as they stand and as a turn has made them.

ghost use Rattle.std.specs.Prelude.{◌≡◌, ◌≤◌, true, false, [], ◌∷◌, ◌++◌, Some, length, option_copied, IsSome, OnOk, OnErr, IfOk};
ghost use Rattle.rinda_rules.specs.Rows.{row_of, without, changed};
ghost use Rattle.rinda_rules.specs.Phases.{held_by, doubt_tuple};
ghost use Rattle.rinda_rules.specs.Cases.{renewed_tuple};
ghost use Rattle.rinda_bag.specs.Changes.{let_go, marked, asked};
ghost use Rattle.rinda_bag.specs.Wanted.{least_wanted, all_wanted};
ghost use Rattle.rinda_tables.specs.Undoing.{settled, is_in, left, below, undo as undo_spec, undone, noted, standing_of, Keeps};

use drb_tree::Remote;
use rinda_bag::{Bag, Standing};
use rinda_marks::Secret;
use rinda_rules::plain::Entry;
use rinda_tuple::{Steps, Template, copy_renewer};
use std::alloc::{AllocError, Global};
use std::marker::Model;
use std::sync::ledger::Ledger;

/// What was done to the tuples since they last stood.
#[derive(Drop)]
pub(crate) enum Step {
    /// A row was added.
    Added(u64),
    /// A row changed that stood so.
    Stood(u64, Standing),
}

/// The tuples of a space. Contracts see the list of their rows, in rising id, as it stands and as it is ahead.
///
/// Each change is made ahead, and look-ups read what is ahead. `commit` makes that stand, and `forget` takes it back.
#[derive(Drop)]
pub struct Tuples {
    bag: Bag,
    gone: Vec<u64>,
    steps: Vec<Step>,
    stands: u64,
}

impl Model for Tuples {
    ghost use Rattle.rinda_tables.specs.Undoing.{Tupled, IsTupled, undone, left, any_added};
    ghost use Rattle.drb_tree.specs.contracts.Tree as e;
    ghost use Rattle.std.specs.Coded.{codes};

    ghost Value = { Tupled };

    ghost coded = { Prim.hlevel (codes, e.the_row.coded) };

    ghost view = { λ t. record {
      list = undone t.steps.items t.bag;
      ahead = left (λ t. t.id) t.gone.items t.bag;
      added = any_added t.steps.items;
    } };

    ghost invariant = { λ t. IsTupled t.stands t.steps.items t.gone.items t.bag };
}

impl Tuples {
    /// No row. Takes no memory.
    pub fn new(alloc: Global, secret: Secret) -> Tuples
        ensures { result ≡ settled [] }
    {
        Tuples {
            bag: Bag::new(alloc, secret),
            gone: Vec::new(alloc),
            steps: Vec::new(alloc),
            stands: 0,
        }
    }

    /// How many rows stand.
    pub fn len(&self) -> u64
        ensures { result ≡ length self.now.list }
    {
        self.stands
    }

    /// The row with that id, ahead.
    pub fn row(&self, id: u64) -> Option<&Entry>
        ensures { option_copied result ≡ row_of (λ t. t.id) id self.now.ahead }
    {
        if is_gone(&self.gone, id) {
            return None;
        }
        self.bag.row(id)
    }

    /// The least id of a live row that the template matches, ahead; with `free`, of one that nobody holds. None exactly
    /// where there is none.
    pub fn find<L: Ledger>(
        &self,
        pattern: &Template,
        free: bool,
        now: u64,
        steps: &mut Steps<L>,
    ) -> Option<u64>
        ensures { result ≡ least_wanted now free pattern.now self.now.ahead }
    {
        self.bag.find(pattern, free, now, steps)
    }

    /// The ids of all live rows that the template matches, ahead, in rising order.
    ///
    /// Errors: only want of memory.
    pub fn find_all(
        &self,
        alloc: Global,
        pattern: &Template,
        now: u64,
    ) -> Result<Vec<u64>, AllocError>
        ensures { IfOk result (λ ids. ids.items ≡ all_wanted now pattern.now self.now.ahead) }
    {
        self.bag.find_all(alloc, pattern, now)
    }

    /// Adds a row, whose id is above all that ever were. A turn adds one at most.
    ///
    /// Errors: only want of memory; the row is dropped, and all is as before.
    pub fn put(&mut self, row: Entry) -> Result<(), AllocError>
        requires above { below (λ t. t.id) row.id self.old.list ≡ true }
        requires once { self.old.added ≡ false }
        ensures ahead { OnOk result (self.new.ahead ≡ self.old.ahead ++ row ∷ []) }
        ensures list { self.new.list ≡ self.old.list }
        ensures kept { OnErr result (self.new ≡ self.old) }
    {
        self.steps.reserve(1)?;
        let id = row.id;
        self.bag.put(row)?;
        self.steps.push_reserved(Step::Added(id));
        Ok(())
    }

    /// That request holds the row with that id.
    ///
    /// Errors: only want of memory; all is as before.
    pub fn hold(&mut self, alloc: Global, id: u64, request: u64) -> Result<(), AllocError>
        ensures ahead { OnOk result (self.new.ahead
            ≡ changed (λ t. t.id) id (held_by request) self.old.ahead) }
        ensures same { OnOk result (Keeps self.old self.new) }
        ensures kept { OnErr result (self.new ≡ self.old) }
    {
        note(&mut self.steps, &self.bag, alloc, id)?;
        self.bag.hold(id, request);
        Ok(())
    }

    /// Nobody holds the row with that id any more.
    ///
    /// Errors: only want of memory; all is as before.
    pub fn release(&mut self, alloc: Global, id: u64) -> Result<(), AllocError>
        ensures ahead { OnOk result (self.new.ahead
            ≡ changed (λ t. t.id) id let_go self.old.ahead) }
        ensures same { OnOk result (Keeps self.old self.new) }
        ensures kept { OnErr result (self.new ≡ self.old) }
    {
        note(&mut self.steps, &self.bag, alloc, id)?;
        self.bag.release(id);
        Ok(())
    }

    /// The row with that id was canceled while it is held.
    ///
    /// Errors: only want of memory; all is as before.
    pub fn mark(&mut self, alloc: Global, id: u64) -> Result<(), AllocError>
        ensures ahead { OnOk result (self.new.ahead
            ≡ changed (λ t. t.id) id marked self.old.ahead) }
        ensures same { OnOk result (Keeps self.old self.new) }
        ensures kept { OnErr result (self.new ≡ self.old) }
    {
        note(&mut self.steps, &self.bag, alloc, id)?;
        self.bag.mark(id);
        Ok(())
    }

    /// The row with that id has this deadline, in milliseconds, and this renewer, and no doubt.
    ///
    /// Errors: only want of memory; all is as before.
    pub fn renew(
        &mut self,
        alloc: Global,
        id: u64,
        deadline: Option<u64>,
        renewer: Option<Remote>,
    ) -> Result<(), AllocError>
        ensures ahead { OnOk result (self.new.ahead
            ≡ changed (λ t. t.id) id (renewed_tuple deadline renewer) self.old.ahead) }
        ensures same { OnOk result (Keeps self.old self.new) }
        ensures kept { OnErr result (self.new ≡ self.old) }
    {
        match note(&mut self.steps, &self.bag, alloc, id) {
            Ok(()) => {
                self.bag.renew(id, deadline, renewer);
                Ok(())
            }
            Err(refused) => {
                drop(renewer);
                Err(refused)
            }
        }
    }

    /// The renewer of the row with that id is to be asked.
    ///
    /// Errors: only want of memory; all is as before.
    pub fn doubt(&mut self, alloc: Global, id: u64) -> Result<(), AllocError>
        ensures ahead { OnOk result (self.new.ahead
            ≡ changed (λ t. t.id) id doubt_tuple self.old.ahead) }
        ensures same { OnOk result (Keeps self.old self.new) }
        ensures kept { OnErr result (self.new ≡ self.old) }
    {
        note(&mut self.steps, &self.bag, alloc, id)?;
        self.bag.doubt(id);
        Ok(())
    }

    /// The renewer of the row with that id is being asked, where it was to be.
    ///
    /// Errors: only want of memory; all is as before.
    pub fn ask(&mut self, alloc: Global, id: u64) -> Result<(), AllocError>
        ensures ahead { OnOk result (self.new.ahead
            ≡ changed (λ t. t.id) id asked self.old.ahead) }
        ensures same { OnOk result (Keeps self.old self.new) }
        ensures kept { OnErr result (self.new ≡ self.old) }
    {
        note(&mut self.steps, &self.bag, alloc, id)?;
        self.bag.ask(id);
        Ok(())
    }

    /// Takes the row with that id out, if there is one.
    ///
    /// Errors: only want of memory; all is as before.
    pub fn take_out(&mut self, alloc: Global, id: u64) -> Result<(), AllocError>
        ensures ahead { OnOk result (self.new.ahead ≡ without (λ t. t.id) id self.old.ahead) }
        ensures same { OnOk result (Keeps self.old self.new) }
        ensures kept { OnErr result (self.new ≡ self.old) }
    {
        let Some(_) = self.bag.row(id) else {
            return Ok(());
        };
        self.gone.reserve(1)?;
        note(&mut self.steps, &self.bag, alloc, id)?;
        self.bag.mark(id);
        self.gone.push_reserved(id);
        Ok(())
    }

    /// What is ahead stands. Takes no memory.
    pub fn commit(&mut self)
        ensures { self.new ≡ settled self.old.ahead }
    {
        sweep(&mut self.bag, &mut self.gone);
        self.steps.clear();
        self.stands = self.bag.len();
    }

    /// What is ahead of what stands is taken back. Takes no memory.
    pub fn forget(&mut self)
        ensures { self.new ≡ settled self.old.list }
    {
        self.gone.clear();
        take_back(&mut self.bag, &mut self.steps);
    }
}

/// The id is one of these.
fn is_gone(gone: &Vec<u64>, id: u64) -> bool
    ensures { result ≡ is_in gone.now.items id }
{
    gone.iter().any(|i| *i == id)
}

/// How the row with that id stands, if there is one, is kept as a step.
///
/// Errors: only want of memory; no step is kept.
fn note(steps: &mut Vec<Step>, bag: &Bag, alloc: Global, id: u64) -> Result<(), AllocError>
    ensures noted { OnOk result (steps.new.items
        ≡ noted id (row_of (λ t. t.id) id bag.now) steps.old.items) }
    ensures kept { OnErr result (steps.new.items ≡ steps.old.items) }
{
    if let Some(row) = bag.row(id) {
        steps.reserve(1)?;
        let standing = standing_of(alloc, row)?;
        steps.push_reserved(Step::Stood(id, standing));
    }
    Ok(())
}

/// How a row stands.
///
/// Errors: only want of memory.
fn standing_of(alloc: Global, row: &Entry) -> Result<Standing, AllocError>
    ensures { IfOk result (λ standing. standing ≡ standing_of row.now) }
{
    let renewer = copy_renewer(alloc, &row.renewer)?;
    Ok(Standing {
        deadline: row.deadline,
        renewer,
        holder: row.holder,
        marked: row.marked,
        doubt: row.doubt,
    })
}

/// The rows with these ids are taken out.
fn sweep(bag: &mut Bag, gone: &mut Vec<u64>)
    ensures bag { bag.new ≡ left (λ t. t.id) gone.old.items bag.old }
    ensures gone { gone.new.items ≡ [] }
{
    while let Some(id) = gone.pop() {
        take_one(bag, id);
    }
}

/// The row with that id is taken out, if there is one.
fn take_one(bag: &mut Bag, id: u64)
    ensures { bag.new ≡ without (λ t. t.id) id bag.old }
{
    match bag.row(id) {
        Some(_) => drop(bag.take_out(id)),
        None => {}
    }
}

/// The steps are taken back, the last one first.
fn take_back(bag: &mut Bag, steps: &mut Vec<Step>)
    ensures bag { bag.new ≡ undone steps.old.items bag.old }
    ensures steps { steps.new.items ≡ [] }
{
    while let Some(step) = steps.pop() {
        undo(bag, step);
    }
}

fn undo(bag: &mut Bag, step: Step)
    ensures { bag.new ≡ undo_spec step bag.old }
{
    match step {
        Step::Added(id) => take_one(bag, id),
        Step::Stood(id, standing) => bag.stand(id, standing),
    }
}
