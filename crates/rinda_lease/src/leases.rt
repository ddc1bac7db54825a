ghost use Rattle.std.specs.Prelude.{◌≡◌, ℕ, ◌≤◌, true, false, [], OnOk, OnErr, IfOk};
ghost use Rattle.std.specs.Bool.{OnTrue, OnFalse};
ghost use Rattle.rinda_lease.specs.declared.stage.Stage.TheVariants.{Still, Waiting, Asked};
ghost use Rattle.rinda_lease.specs.Stages.{stage_at, Becomes, timed, is_timed, is_waiting, is_asked, is_due, AreDue, AreTimed, IsNextAsk};
ghost use Rattle.rinda_lease.specs.Orders.{is_still, IsTied};

use crate::keys::{IDS, due_ids, ids_of};
use crate::orders::{Orders, enter, leave, make_room};
use crate::stage::Stage;
use std::alloc::{AllocError, Global};
use std::collections::{BTreeMap, VecDeque};
use std::marker::Model;

/// The ids of a space that are to come up. Contracts see the stage of each that isn't still, in rising id.
#[derive(Drop)]
pub struct Leases {
    stages: BTreeMap<u64, Stage>,
    orders: Orders,
}

impl Model for Leases {
    ghost use Rattle.std.specs.Prelude.{ℕ, List};
    ghost use Rattle.rinda_lease.specs.declared.stage.Stage.{Stage};
    ghost use Rattle.rinda_lease.specs.Orders.{IsTied};

    ghost Value = { List (ℕ × Stage) };

    ghost view = { λ t. t.stages.entries };

    ghost invariant = { λ t. IsTied t.stages.entries t.orders };
}

impl Leases {
    /// Every id is still. Takes no memory.
    pub fn new(alloc: Global) -> Leases
        ensures { result ≡ [] }
    {
        Leases {
            stages: BTreeMap::new(alloc),
            orders: Orders {
                timed: VecDeque::new(alloc),
                doubted: VecDeque::new(alloc),
            },
        }
    }

    /// What is to come of that id.
    pub fn stage(&self, id: u64) -> Stage
        ensures { result ≡ stage_at self.now id }
    {
        self.stages.get(&id).copied().unwrap_or(Stage::Still)
    }

    /// The id is due at that deadline, in milliseconds, or is still where there is none, whatever it was before.
    ///
    /// It takes the memory that the later calls on that id will want.
    /// Errors: only want of memory; all is then as before.
    pub fn set(&mut self, id: u64, deadline: Option<u64>) -> Result<(), AllocError>
        ensures set { OnOk result (Becomes id (timed deadline) self.old self.new) }
        ensures kept { OnErr result (self.new ≡ self.old) }
    {
        match deadline {
            Some(deadline) => self.set_at(id, deadline),
            None => {
                self.forget(id);
                Ok(())
            }
        }
    }

    fn set_at(&mut self, id: u64, deadline: u64) -> Result<(), AllocError>
        ensures set { OnOk result (Becomes id (timed (Some deadline)) self.old self.new) }
        ensures kept { OnErr result (self.new ≡ self.old) }
    {
        make_room(&mut self.orders)?;
        let stage = Stage::Timed(deadline);
        match self.stages.insert(id, stage) {
            Ok(old) => {
                leave(&mut self.orders, id, old.unwrap_or(Stage::Still));
                enter(&mut self.orders, id, stage);
                Ok(())
            }
            Err(_) => Err(AllocError),
        }
    }

    /// The ids whose deadline is at most `now`, in milliseconds: all of them, in rising order.
    ///
    /// It looks at no others but one.
    /// Errors: only want of memory.
    pub fn due(&self, alloc: Global, now: u64) -> Result<Vec<u64>, AllocError>
        ensures { IfOk result (λ ids. AreDue self.now now ids.items) }
    {
        let mut ids = due_ids(alloc, &self.orders.timed, now)?;
        ids.sort_unstable();
        Ok(ids)
    }

    /// The ids that have a deadline: all of them, by their deadlines.
    ///
    /// Errors: only want of memory.
    pub fn timed(&self, alloc: Global) -> Result<Vec<u64>, AllocError>
        ensures { IfOk result (λ ids. AreTimed self.now ids.items) }
    {
        let ids = ids_of(alloc, &self.orders.timed)?;
        Ok(ids)
    }

    /// Whether any id's deadline is at most `now`, in milliseconds.
    pub fn is_due(&self, now: u64) -> bool
        ensures some { OnTrue result ((id : ℕ) × (is_due now (stage_at self.now id) ≡ true)) }
        ensures none { OnFalse result ((id : ℕ) → is_due now (stage_at self.now id) ≡ false) }
    {
        match self.orders.timed.front() {
            Some(key) => (*key / IDS) as u64 <= now,
            None => false,
        }
    }

    /// The id, which has a deadline, waits to have its renewer asked, and has none any more. Takes no memory.
    pub fn doubt(&mut self, id: u64)
        requires { is_timed (stage_at self.old id) ≡ true }
        ensures { Becomes id Waiting self.old self.new }
    {
        self.stand(id, Stage::Waiting);
    }

    /// The least id that waits to have its renewer asked; None exactly where none does.
    pub fn next_ask(&self) -> Option<u64>
        ensures { IsNextAsk self.now result }
    {
        match self.orders.doubted.front() {
            Some(key) if *key < IDS => Some(*key as u64),
            _ => None,
        }
    }

    /// The renewer of that id, which waits for it, is being asked. Takes no memory.
    pub fn ask(&mut self, id: u64)
        requires { is_waiting (stage_at self.old id) ≡ true }
        ensures { Becomes id Asked self.old self.new }
    {
        self.stand(id, Stage::Asked);
    }

    /// The renewer of that id was asked: the id is due at that deadline, or is still where there is none.
    ///
    /// Takes no memory.
    pub fn asked(&mut self, id: u64, deadline: Option<u64>)
        requires { is_asked (stage_at self.old id) ≡ true }
        ensures { Becomes id (timed deadline) self.old self.new }
    {
        match deadline {
            Some(deadline) => self.stand(id, Stage::Timed(deadline)),
            None => self.forget(id),
        }
    }

    /// The id is still. Takes no memory.
    pub fn forget(&mut self, id: u64)
        ensures { Becomes id Still self.old self.new }
    {
        if let Some(stage) = self.stages.remove(&id) {
            leave(&mut self.orders, id, stage);
        }
    }

    /// The id, which isn't still, has that stage from now on. Takes no memory.
    pub fn stand(&mut self, id: u64, stage: Stage)
        requires { is_still (stage_at self.old id) ≡ false }
        ensures { Becomes id stage self.old self.new }
    {
        // The id is there, so this never fails.
        if let Ok(old) = self.stages.insert(id, stage) {
            leave(&mut self.orders, id, old.unwrap_or(Stage::Still));
            enter(&mut self.orders, id, stage);
        }
    }
}
