//! The requests themselves, found by their ids.

ghost use Rattle.std.specs.Prelude.{◌≡◌, true, ◌++◌, ◌∷◌, [], option_copied, OnOk, OnErr, IsErr, length};
ghost use Rattle.rinda_rules.specs.Phases.{in_state};
ghost use Rattle.rinda_rules.specs.Cases.{asked_doubt};
ghost use Rattle.rinda_wait.specs.Waiting.{request_of, with_changed, without_request, are_below, marked_as, doubted_as, leased, asked, state_or, renewer_or};

use drb_tree::Remote;
use rinda_rules::plain::Request;
use rinda_rules::{Doubt, RequestState};
use std::alloc::{AllocError, AllocFailed, Global};
use std::collections::BTreeMap;
use std::collections::btree_map::Values;
use std::marker::Model;
use std::mem;

/// Requests by their ids. Contracts see the list of them, in rising id.
#[derive(Drop)]
pub(crate) struct Table {
    map: BTreeMap<u64, Request>,
}

impl Model for Table {
    ghost use Rattle.std.specs.Prelude.{List};
    ghost use Rattle.std.specs.Map.{values_of};
    ghost use Rattle.rinda_rules.specs.declared.plain.Request.{Request};
    ghost use Rattle.rinda_wait.specs.Table.{IsTable};
    ghost use Rattle.drb_tree.specs.contracts.Tree as e;
    ghost use Rattle.std.specs.Coded.{codes};

    ghost Value = { List Request };

    ghost coded = { Prim.hlevel (codes, e.the_row.coded) };

    ghost view = { λ t. values_of t.map.entries };

    ghost invariant = { λ t. IsTable t.map.entries };
}

impl Table {
    /// No request. Takes no memory.
    pub(crate) fn new(alloc: Global) -> Table
        ensures { result ≡ [] }
    {
        Table {
            map: BTreeMap::new(alloc),
        }
    }

    /// How many requests there are.
    pub(crate) fn len(&self) -> usize
        ensures { result ≡ length self.now }
    {
        self.map.len()
    }

    /// The request with that id.
    pub(crate) fn get(&self, id: u64) -> Option<&Request>
        ensures { option_copied result ≡ request_of id self.now }
    {
        self.map.get(&id)
    }

    /// The requests in rising id.
    pub(crate) fn values(&self) -> Values<'_, u64, Request>
        ensures { result ≡ self.now }
    {
        self.map.values()
    }

    /// Adds a request, whose id is above all others.
    ///
    /// Errors: only want of memory; all is then as before.
    pub(crate) fn put(&mut self, row: Request) -> Result<(), AllocError>
        requires { are_below row.id self.old ≡ true }
        ensures put { OnOk result (self.new ≡ self.old ++ row ∷ []) }
        ensures kept { OnErr result (self.new ≡ self.old) }
    {
        match self.map.insert(row.id, row) {
            Ok(_) => Ok(()),
            Err(refused) => refuse(refused),
        }
    }

    /// Takes the request with that id out.
    pub(crate) fn take_out(&mut self, id: u64) -> Option<Request>
        ensures row { result ≡ request_of id self.old }
        ensures rest { self.new ≡ without_request id self.old }
    {
        self.map.remove(&id)
    }

    /// The request with that id is in that state. Hands back the state that it had, or this one where it is not there.
    pub(crate) fn set_state(&mut self, id: u64, state: RequestState) -> RequestState
        ensures list { self.new ≡ with_changed id (in_state state) self.old }
        ensures before { result ≡ state_or state (request_of id self.old) }
    {
        match self.map.get_mut(&id) {
            Some(row) => mem::replace(&mut row.state, state),
            None => state,
        }
    }

    /// The request with that id is marked, or is not.
    pub(crate) fn mark_as(&mut self, id: u64, marked: bool)
        ensures { self.new ≡ with_changed id (marked_as marked) self.old }
    {
        if let Some(row) = self.map.get_mut(&id) {
            row.marked = marked;
        }
    }

    /// The request with that id has that lease, and is doubted so. Hands back the renewer that it had, or this one where
    /// it is not there.
    pub(crate) fn lease(
        &mut self,
        id: u64,
        deadline: Option<u64>,
        renewer: Option<Remote>,
        doubt: Doubt,
    ) -> Option<Remote>
        ensures list { self.new ≡ with_changed id (leased deadline renewer doubt) self.old }
        ensures before { result ≡ renewer_or renewer (request_of id self.old) }
    {
        match self.map.get_mut(&id) {
            Some(row) => {
                row.deadline = deadline;
                row.doubt = doubt;
                mem::replace(&mut row.renewer, renewer)
            }
            None => renewer,
        }
    }

    /// The request with that id is doubted so.
    pub(crate) fn doubt_as(&mut self, id: u64, doubt: Doubt)
        ensures { self.new ≡ with_changed id (doubted_as doubt) self.old }
    {
        if let Some(row) = self.map.get_mut(&id) {
            row.doubt = doubt;
        }
    }

    /// The renewer of the request with that id, which has to be asked, is being asked.
    pub(crate) fn ask(&mut self, id: u64)
        ensures { self.new ≡ with_changed id asked self.old }
    {
        if let Some(row) = self.map.get_mut(&id) {
            row.doubt = asking(row.doubt);
        }
    }
}

/// The doubt of an object whose renewer, if it has to be asked, is being asked.
fn asking(doubt: Doubt) -> Doubt
    ensures { result ≡ asked_doubt doubt }
{
    match doubt {
        Doubt::No => Doubt::No,
        Doubt::Waiting | Doubt::Asked => Doubt::Asked,
    }
}

/// A request that found no memory is let go.
fn refuse(refused: AllocFailed<(u64, Request)>) -> Result<(), AllocError>
    ensures { IsErr result }
{
    drop(refused);
    Err(AllocError)
}
