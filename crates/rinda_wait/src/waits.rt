ghost use Rattle.std.specs.Prelude.{◌≡◌, ◌<◌, true, ◌==◌, [], ◌∷◌, ◌++◌, Some, option_copied, IfOk, OnOk, OnErr, IsSome, length};
ghost use Rattle.rinda_rules.specs.Phases.{in_state, doubt_request};
ghost use Rattle.rinda_rules.specs.Cases.{renewed_request};
ghost use Rattle.rinda_rules.specs.declared.row.RequestState.TheVariants.{Parked, Granted, Answered};
ghost use Rattle.rinda_wait.specs.Waiting.{request_of, with_changed, without_request, are_below, canceled, marked_as, doubted_as, leased, asked, state_or, renewer_or, readers_of, taker_of, open_ids};
ghost use Rattle.rinda_wait.specs.Places.{without_key_of};
ghost use Rattle.rinda_wait.specs.Probes.{place_in};

use crate::places::{add_key, add_readers, first_taker, lesser, remove_key_at};
use crate::probes::{place_of, probes_of};
use crate::serving::open;
use crate::table::Table;
use drb_tree::Remote;
use rinda_marks::Secret;
use rinda_rules::plain::Request;
use rinda_rules::{Doubt, Out, RequestState};
use rinda_tuple::Tuple;
use std::alloc::{AllocError, Global};
use std::collections::BTreeSet;
use std::marker::Model;

/// The requests of a space. Contracts see the list of them, in rising id.
///
/// A call that names an id changes nothing where no request has it; `collect` requires that one has. Only `reserve`,
/// `readers` and `open` take memory. `set`, `lease`, `mark_as` and `doubt_as` take back what another call changed.
#[derive(Drop)]
pub struct Waits {
    secret: Secret,
    table: Table,
    keys: BTreeSet<u128>,
}

impl Model for Waits {
    ghost use Rattle.std.specs.Prelude.{List};
    ghost use Rattle.rinda_rules.specs.declared.plain.Request.{Request};
    ghost use Rattle.rinda_wait.specs.Places.{IsIndexed};
    ghost use Rattle.rinda_wait.specs.Probes.{place_in};
    ghost use Rattle.drb_tree.specs.contracts.Tree as e;
    ghost use Rattle.std.specs.Coded.{codes};

    ghost Value = { List Request };

    ghost coded = { Prim.hlevel (codes, e.the_row.coded) };

    ghost view = { λ w. w.table };

    ghost invariant = { λ w. IsIndexed (place_in w.secret) w.table w.keys.keys };
}

impl Waits {
    /// No request. Takes no memory.
    ///
    /// The secret is that of the index, which no client may know.
    pub fn new(alloc: Global, secret: Secret) -> Waits
        ensures { result ≡ [] }
    {
        Waits {
            secret,
            table: Table::new(alloc),
            keys: BTreeSet::new(alloc),
        }
    }

    /// How many requests there are.
    pub fn len(&self) -> u64
        ensures { result ≡ length self.now }
    {
        self.table.len() as u64
    }

    /// There is no request.
    pub fn is_empty(&self) -> bool
        ensures { result ≡ (length self.now == 0) }
    {
        self.table.len() == 0
    }

    /// The request with that id; None exactly where there is none.
    pub fn row(&self, id: u64) -> Option<&Request>
        ensures { option_copied result ≡ request_of id self.now }
    {
        self.table.get(id)
    }

    /// Adds a request, and takes all memory that it will ever want. Its id is above all others.
    ///
    /// Errors: only want of memory; all is then as before.
    /// Source: docs/SPACE.md, Cases, Reserve.
    pub fn reserve(&mut self, row: Request) -> Result<(), AllocError>
        requires { are_below row.id self.old ≡ true }
        ensures added { OnOk result (self.new ≡ self.old ++ row ∷ []) }
        ensures kept { OnErr result (self.new ≡ self.old) }
    {
        let id = bounded(row.id);
        let place = place_of(&self.secret, &row);
        self.table.put(row)?;
        match add_key(&mut self.keys, place, id) {
            Ok(()) => Ok(()),
            Err(refused) => {
                let_go(self.table.take_out(id));
                Err(refused)
            }
        }
    }

    /// The request with that id waits for a match from now on.
    ///
    /// Source: docs/SPACE.md, Cases, Submit.
    pub fn park(&mut self, id: u64)
        ensures { self.new ≡ with_changed id (in_state Parked) self.old }
    {
        let_go_state(self.table.set_state(id, RequestState::Parked));
    }

    /// The request with that id holds that tuple.
    ///
    /// Source: docs/SPACE.md, Phases, Serve.
    pub fn grant(&mut self, id: u64, tuple: u64)
        ensures { self.new ≡ with_changed id (in_state (Granted tuple)) self.old }
    {
        let_go_state(self.table.set_state(id, RequestState::Granted(tuple)));
    }

    /// The request with that id is answered so. The answer was not collected yet.
    ///
    /// Source: docs/SPACE.md, Phases, Age and Serve.
    pub fn answer(&mut self, id: u64, out: Out)
        ensures { self.new ≡ with_changed id (in_state (Answered out)) self.old }
    {
        let_go_state(self.table.set_state(id, RequestState::Answered(out)));
    }

    /// The request with that id is canceled before it is submitted: it gets the mark, and all else stays.
    ///
    /// Source: docs/SPACE.md, Cases, Cancel.
    pub fn mark(&mut self, id: u64)
        ensures { self.new ≡ with_changed id canceled self.old }
    {
        self.table.mark_as(id, true);
    }

    /// The request with that id has this deadline, in milliseconds, and this renewer, and no doubt.
    ///
    /// Source: docs/SPACE.md, Cases, Renew and Asked.
    pub fn renew(&mut self, id: u64, deadline: Option<u64>, renewer: Option<Remote>)
        ensures { self.new ≡ with_changed id (renewed_request deadline renewer) self.old }
    {
        let_go_renewer(self.table.lease(id, deadline, renewer, Doubt::No));
    }

    /// The time of the request with that id is over, and its renewer has to be asked.
    ///
    /// Source: docs/SPACE.md, Phases, Age.
    pub fn doubt(&mut self, id: u64)
        ensures { self.new ≡ with_changed id doubt_request self.old }
    {
        self.table.doubt_as(id, Doubt::Waiting);
    }

    /// The renewer of the request with that id, if it has to be asked, is being asked.
    ///
    /// Source: docs/SPACE.md, Cases, NextAsk.
    pub fn ask(&mut self, id: u64)
        ensures { self.new ≡ with_changed id asked self.old }
    {
        self.table.ask(id);
    }

    /// The request with that id is in that state. Hands back the state that it had, or this one where there is none.
    pub fn set(&mut self, id: u64, state: RequestState) -> RequestState
        ensures list { self.new ≡ with_changed id (in_state state) self.old }
        ensures before { result ≡ state_or state (request_of id self.old) }
    {
        self.table.set_state(id, state)
    }

    /// The request with that id has this deadline, in milliseconds, and this renewer, and is doubted so. Hands back the
    /// renewer that it had, or this one where there is no such request.
    pub fn lease(
        &mut self,
        id: u64,
        deadline: Option<u64>,
        renewer: Option<Remote>,
        doubt: Doubt,
    ) -> Option<Remote>
        ensures list { self.new ≡ with_changed id (leased deadline renewer doubt) self.old }
        ensures before { result ≡ renewer_or renewer (request_of id self.old) }
    {
        self.table.lease(id, deadline, renewer, doubt)
    }

    /// The request with that id is marked, or is not.
    pub fn mark_as(&mut self, id: u64, marked: bool)
        ensures { self.new ≡ with_changed id (marked_as marked) self.old }
    {
        self.table.mark_as(id, marked);
    }

    /// The request with that id is doubted so.
    pub fn doubt_as(&mut self, id: u64, doubt: Doubt)
        ensures { self.new ≡ with_changed id (doubted_as doubt) self.old }
    {
        self.table.doubt_as(id, doubt);
    }

    /// Takes the request with that id out. It is there.
    ///
    /// Source: docs/SPACE.md, Cases, Collect, Settle and Withdraw.
    pub fn collect(&mut self, id: u64) -> Request
        requires { IsSome (request_of id self.old) }
        ensures row { request_of id self.old ≡ Some result }
        ensures rest { self.new ≡ without_request id self.old }
    {
        remove_key_of(&self.secret, &self.table, &mut self.keys, id);
        self.table.take_out(id).unwrap()
    }

    /// The ids, in rising order, of the requests that wait to read the tuple.
    ///
    /// A request waits where it is parked and not doubted, whatever its deadline is: one that is due ages before.
    /// Errors: only want of memory.
    /// Source: docs/SPACE.md, Phases, Serve.
    pub fn readers(&self, alloc: Global, tuple: &Tuple) -> Result<Vec<u64>, AllocError>
        ensures { IfOk result (λ ids. ids.items ≡ readers_of tuple.now self.now) }
    {
        let probes = probes_of(&self.secret, tuple, true);
        let mut found = BTreeSet::new(alloc);
        add_readers(&self.table, &self.keys, probes.any, tuple, &mut found)?;
        add_readers(&self.table, &self.keys, probes.first, tuple, &mut found)?;
        add_readers(&self.table, &self.keys, probes.both, tuple, &mut found)?;
        listed(alloc, &found)
    }

    /// The least id of a request that waits to take or to hold the tuple; None exactly where none does.
    ///
    /// A request waits as `readers` says.
    /// Source: docs/SPACE.md, Phases, Serve.
    pub fn taker(&self, tuple: &Tuple) -> Option<u64>
        ensures { result ≡ taker_of tuple.now self.now }
    {
        let probes = probes_of(&self.secret, tuple, false);
        let any = first_taker(&self.table, &self.keys, probes.any, tuple);
        let first = first_taker(&self.table, &self.keys, probes.first, tuple);
        let both = first_taker(&self.table, &self.keys, probes.both, tuple);
        lesser(both, lesser(first, any))
    }

    /// The ids, in rising order, of all requests that are reserved or parked.
    ///
    /// Errors: only want of memory.
    /// Source: docs/SPACE.md, Cases, Shut.
    pub fn open(&self, alloc: Global) -> Result<Vec<u64>, AllocError>
        ensures { IfOk result (λ ids. ids.items ≡ open_ids self.now) }
    {
        open_in(alloc, &self.table)
    }
}

/// The number itself, which is below 2^64.
fn bounded(id: u64) -> u64
    ensures same { result ≡ id }
    ensures small { result < 18446744073709551616 }
{
    id
}

/// The key of the request with that id leaves, if it is there.
fn remove_key_of(secret: &Secret, table: &Table, keys: &mut BTreeSet<u128>, id: u64)
    ensures { keys.new.keys ≡ without_key_of (place_in secret.now) id (request_of id table.now)
        keys.old.keys }
{
    if let Some(row) = table.get(id) {
        remove_key_at(keys, place_of(secret, row), id);
    }
}

/// The ids as a list.
fn listed(alloc: Global, found: &BTreeSet<u64>) -> Result<Vec<u64>, AllocError>
    ensures { IfOk result (λ ids. ids.items ≡ found.now.keys) }
{
    let mut ids = Vec::new(alloc);
    for id in found.iter() {
        ids.push(*id)?;
    }
    Ok(ids)
}

fn open_in(alloc: Global, table: &Table) -> Result<Vec<u64>, AllocError>
    ensures { IfOk result (λ ids. ids.items ≡ open_ids table.now) }
{
    let mut ids = Vec::new(alloc);
    for row in table.values() {
        if open(&row.state) {
            ids.push(row.id)?;
        }
    }
    Ok(ids)
}

fn let_go(row: Option<Request>) {
    drop(row);
}

fn let_go_state(state: RequestState) {
    drop(state);
}

fn let_go_renewer(renewer: Option<Remote>) {
    drop(renewer);
}
