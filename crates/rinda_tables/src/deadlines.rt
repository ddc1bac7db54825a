//! Which ids of a space are due when, as it stands and as a turn has made it.

ghost use Rattle.std.specs.Prelude.{◌≡◌, ℕ, true, false, [], OnOk, OnErr, IfOk};
ghost use Rattle.std.specs.Bool.{OnTrue, OnFalse};
ghost use Rattle.rinda_lease.specs.declared.stage.Stage.TheVariants.{Still, Waiting};
ghost use Rattle.rinda_lease.specs.Stages.{stage_at, timed, is_due, AreDue, AreTimed, IsNextAsk};
ghost use Rattle.rinda_lease.specs.Orders.{is_still};
ghost use Rattle.rinda_tables.specs.Holds.{stage_by};
ghost use Rattle.rinda_tables.specs.Deadlines.{quiet, undone, ahead_at, list_at, are_there, are_lively, Comes, Stands};

use rinda_lease::{Leases, Stage};
use rinda_rules::Doubt;
use std::alloc::{AllocError, Global};
use std::marker::Model;

/// An id had that stage.
#[derive(Clone, Copy, Debug, PartialEq, Eq)]
pub(crate) struct Step {
    pub id: u64,
    pub stage: Stage,
}

/// The deadlines of a space. Contracts see the stage of each id as it stands and as it is ahead; one that is being asked
/// is as still as one that is not there.
///
/// Each change is made ahead, and look-ups read what is ahead. `commit` makes that stand, and `forget` takes it back.
#[derive(Drop)]
pub struct Deadlines {
    leases: Leases,
    idle: Vec<u64>,
    steps: Vec<Step>,
}

impl Model for Deadlines {
    ghost use Rattle.rinda_tables.specs.Deadlines.{Staged, IsStaged};

    ghost Value = { Staged };

    ghost view = { λ t. record { entries = t.leases; steps = t.steps.items } };

    ghost invariant = { λ t. IsStaged t.steps.items t.leases };
}

impl Deadlines {
    /// No deadline. Takes no memory.
    pub fn new(alloc: Global) -> Deadlines
        ensures { Stands (λ _. Still) result }
    {
        Deadlines {
            leases: Leases::new(alloc),
            idle: Vec::new(alloc),
            steps: Vec::new(alloc),
        }
    }

    /// The ids whose deadline is at most `now`, in milliseconds, ahead: all of them, in rising order.
    ///
    /// Errors: only want of memory.
    pub fn due(&self, alloc: Global, now: u64) -> Result<Vec<u64>, AllocError>
        ensures { IfOk result (λ ids. AreDue self.now.entries now ids.items) }
    {
        self.leases.due(alloc, now)
    }

    /// The ids that have a deadline, ahead: all of them.
    ///
    /// Errors: only want of memory.
    pub fn timed(&self, alloc: Global) -> Result<Vec<u64>, AllocError>
        ensures { IfOk result (λ ids. AreTimed self.now.entries ids.items) }
    {
        self.leases.timed(alloc)
    }

    /// Whether any id's deadline is at most `now`, in milliseconds, ahead.
    pub fn is_due(&self, now: u64) -> bool
        ensures some { OnTrue result
            ((id : ℕ) × (is_due now (ahead_at self.now id) ≡ true)) }
        ensures none { OnFalse result ((id : ℕ) → is_due now (ahead_at self.now id) ≡ false) }
    {
        self.leases.is_due(now)
    }

    /// The least id whose renewer is to be asked, ahead; None exactly where there is none.
    pub fn next_ask(&self) -> Option<u64>
        ensures { IsNextAsk self.now.entries result }
    {
        self.leases.next_ask()
    }

    /// The id has that deadline, in milliseconds, or none.
    ///
    /// Errors: only want of memory; all is as before.
    pub fn set(&mut self, id: u64, deadline: Option<u64>) -> Result<(), AllocError>
        ensures set { OnOk result (Comes id (timed deadline) self.old self.new) }
        ensures kept { OnErr result ((q : ℕ) → (ahead_at self.new q ≡ ahead_at self.old q)
            × (list_at self.new q ≡ list_at self.old q)) }
    {
        match deadline {
            Some(deadline) => self.place(id, Stage::Timed(deadline)),
            None => self.rest(id),
        }
    }

    /// The id stands where a row with that doubt and that deadline does, which can expire or not.
    ///
    /// Errors: only want of memory; all is as before.
    pub fn stand(
        &mut self,
        id: u64,
        doubt: Doubt,
        expires: bool,
        deadline: Option<u64>,
    ) -> Result<(), AllocError>
        ensures stands { OnOk result
            (Comes id (stage_by doubt expires deadline) self.old self.new) }
        ensures kept { OnErr result ((q : ℕ) → (ahead_at self.new q ≡ ahead_at self.old q)
            × (list_at self.new q ≡ list_at self.old q)) }
    {
        match doubt {
            Doubt::No if expires => self.set(id, deadline),
            Doubt::Waiting => self.doubt(id),
            _ => self.rest(id),
        }
    }

    /// The renewer of the id is to be asked.
    ///
    /// Errors: only want of memory; all is as before.
    pub fn doubt(&mut self, id: u64) -> Result<(), AllocError>
        ensures doubted { OnOk result (Comes id Waiting self.old self.new) }
        ensures kept { OnErr result ((q : ℕ) → (ahead_at self.new q ≡ ahead_at self.old q)
            × (list_at self.new q ≡ list_at self.old q)) }
    {
        self.place(id, Stage::Waiting)
    }

    /// The renewer of the id is being asked.
    ///
    /// Errors: only want of memory; all is as before.
    pub fn ask(&mut self, id: u64) -> Result<(), AllocError>
        ensures asked { OnOk result (Comes id Still self.old self.new) }
        ensures kept { OnErr result ((q : ℕ) → (ahead_at self.new q ≡ ahead_at self.old q)
            × (list_at self.new q ≡ list_at self.old q)) }
    {
        self.place(id, Stage::Asked)
    }

    /// Nothing comes of the id any more.
    ///
    /// Errors: only want of memory; all is as before.
    pub fn rest(&mut self, id: u64) -> Result<(), AllocError>
        ensures still { OnOk result (Comes id Still self.old self.new) }
        ensures kept { OnErr result ((q : ℕ) → (ahead_at self.new q ≡ ahead_at self.old q)
            × (list_at self.new q ≡ list_at self.old q)) }
    {
        match self.leases.stage(id) {
            Stage::Still => Ok(()),
            _ => {
                self.idle.push(id)?;
                self.place(id, Stage::Asked)
            }
        }
    }

    /// The id has that stage. One that was not there before is idle again where that is taken back.
    fn place(&mut self, id: u64, stage: Stage) -> Result<(), AllocError>
        requires { is_still stage ≡ false }
        ensures placed { OnOk result (Comes id (quiet stage) self.old self.new) }
        ensures kept { OnErr result ((q : ℕ) → (ahead_at self.new q ≡ ahead_at self.old q)
            × (list_at self.new q ≡ list_at self.old q)) }
    {
        self.steps.reserve(1)?;
        match self.leases.stage(id) {
            Stage::Still => {
                self.idle.push(id)?;
                self.leases.set(id, Some(0))?;
                self.leases.stand(id, stage);
                self.steps.push_reserved(Step {
                    id,
                    stage: Stage::Asked,
                });
            }
            was => {
                self.leases.stand(id, stage);
                self.steps.push_reserved(Step { id, stage: was });
            }
        }
        Ok(())
    }

    /// What is ahead stands. Takes no memory.
    pub fn commit(&mut self)
        ensures { Stands (λ q. ahead_at self.old q) self.new }
    {
        self.steps.clear();
        tidy(&mut self.leases, &mut self.idle);
    }

    /// What is ahead of what stands is taken back. Takes no memory.
    pub fn forget(&mut self)
        ensures { Stands (λ q. list_at self.old q) self.new }
    {
        take_back(&mut self.leases, &mut self.steps);
        tidy(&mut self.leases, &mut self.idle);
    }
}

/// Whichever of these ids is being asked is not there any more.
fn tidy(leases: &mut Leases, idle: &mut Vec<u64>)
    ensures { (q : ℕ) → quiet (stage_at leases.new q) ≡ quiet (stage_at leases.old q) }
{
    while let Some(id) = idle.pop() {
        tidy_one(leases, id);
    }
}

fn tidy_one(leases: &mut Leases, id: u64)
    ensures { (q : ℕ) → quiet (stage_at leases.new q) ≡ quiet (stage_at leases.old q) }
{
    match leases.stage(id) {
        Stage::Asked => leases.forget(id),
        _ => {}
    }
}

/// The steps are taken back, the last one first.
fn take_back(leases: &mut Leases, steps: &mut Vec<Step>)
    requires there { are_there steps.old.items leases.old ≡ true }
    requires lively { are_lively steps.old.items ≡ true }
    ensures leases { (q : ℕ) → stage_at leases.new q
        ≡ undone steps.old.items (stage_at leases.old) q }
    ensures steps { steps.new.items ≡ [] }
{
    while let Some(step) = steps.pop() {
        leases.stand(step.id, step.stage);
    }
}
