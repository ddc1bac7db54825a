//! The requests of a space, as they stand and as a turn has made them.

ghost use Rattle.std.specs.Prelude.{◌≡◌, ◌+◌, ◌≤◌, ◌<◌, true, false, [], ◌∷◌, ◌++◌, map, length, vec_len, option_copied, OnOk, OnErr, IfOk};
ghost use Rattle.std.specs.Vec.{vec_capacity};
ghost use Rattle.rinda_rules.specs.Rows.{row_of, without, changed, rising};
ghost use Rattle.rinda_rules.specs.Phases.{in_state, doubt_request};
ghost use Rattle.rinda_rules.specs.Cases.{renewed_request, shut_request};
ghost use Rattle.rinda_wait.specs.Waiting.{canceled, asked, readers_of, taker_of};
ghost use Rattle.rinda_tables.specs.Undoing.{is_in, left, below};
ghost use Rattle.rinda_tables.specs.Asking.{settled, undo as undo_spec, undone, any_added, changed_each, deadline_of, mark_of, doubt_of, reserved_in, parked_in, left_by as left_by_spec, left_ids as left_ids_spec, Keeps};
ghost use Rattle.rinda_tables.specs.Changed.{NamesLeft};

use drb_tree::Remote;
use rinda_marks::Secret;
use rinda_rules::plain::Request;
use rinda_rules::{Doubt, Out, RequestState};
use rinda_tuple::Tuple;
use rinda_wait::Waits;
use std::alloc::{AllocError, Global};
use std::marker::Model;

/// What was done to the requests since they last stood.
#[derive(Drop)]
pub(crate) enum Step {
    /// A request was added.
    Added(u64),
    /// A request left that state.
    State(u64, RequestState),
    /// A request was marked, or was not.
    Marked(u64, bool),
    /// A request lost that lease, and was doubted so.
    Leased(u64, Option<u64>, Option<Remote>, Doubt),
    /// A request was doubted so.
    Doubted(u64, Doubt),
}

/// The requests of a space. Contracts see the list of them, in rising id, as it stands and as it is ahead.
///
/// Each change is made ahead, and look-ups read what is ahead. `commit` makes that stand, and `forget` takes it back.
/// A change that names an id changes nothing where no request has it ahead.
#[derive(Drop)]
pub struct Requests {
    waits: Waits,
    gone: Vec<u64>,
    steps: Vec<Step>,
    stands: u64,
}

impl Model for Requests {
    ghost use Rattle.rinda_tables.specs.Undoing.{left};
    ghost use Rattle.rinda_tables.specs.Asking.{Requested, IsRequested, undone, any_added};
    ghost use Rattle.drb_tree.specs.contracts.Tree as e;
    ghost use Rattle.std.specs.Coded.{codes};

    ghost Value = { Requested };

    ghost coded = { Prim.hlevel (codes, e.the_row.coded) };

    ghost view = { λ t. record {
      list = undone t.steps.items t.waits;
      ahead = left (λ r. r.id) t.gone.items t.waits;
      added = any_added t.steps.items;
    } };

    ghost invariant = { λ t. IsRequested t.stands t.steps.items t.gone.items t.waits };
}

impl Requests {
    /// No request. Takes no memory.
    pub fn new(alloc: Global, secret: Secret) -> Requests
        ensures { result ≡ settled [] }
    {
        Requests {
            waits: Waits::new(alloc, secret),
            gone: Vec::new(alloc),
            steps: Vec::new(alloc),
            stands: 0,
        }
    }

    /// How many requests stand.
    pub fn len(&self) -> u64
        ensures { result ≡ length self.now.list }
    {
        self.stands
    }

    /// The request with that id, ahead.
    pub fn row(&self, id: u64) -> Option<&Request>
        ensures { option_copied result ≡ row_of (λ r. r.id) id self.now.ahead }
    {
        if is_gone(&self.gone, id) {
            return None;
        }
        self.waits.row(id)
    }

    /// The ids, in rising order, of the requests that wait to read the tuple, ahead.
    ///
    /// Errors: only want of memory.
    /// Source: docs/SPACE.md, Phases, Serve.
    pub fn readers(&self, alloc: Global, tuple: &Tuple) -> Result<Vec<u64>, AllocError>
        ensures { IfOk result (λ ids. ids.items ≡ readers_of tuple.now self.now.ahead) }
    {
        self.waits.readers(alloc, tuple)
    }

    /// The least id of a request that waits to take or to hold the tuple, ahead; None exactly where none does.
    ///
    /// Source: docs/SPACE.md, Phases, Serve.
    pub fn taker(&self, tuple: &Tuple) -> Option<u64>
        ensures { result ≡ taker_of tuple.now self.now.ahead }
    {
        self.waits.taker(tuple)
    }

    /// The ids, in any order, of the requests that are parked in what stands and, ahead, aren't parked or are gone. It may
    /// name others.
    ///
    /// It goes over the changes that were made ahead, however many requests there are.
    /// Errors: only want of memory.
    /// Source: docs/SPACE.md, Changed.
    pub fn changes(&self, alloc: Global) -> Result<Vec<u64>, AllocError>
        ensures { IfOk result (λ ids. NamesLeft self.now ids.items) }
    {
        left_ids(alloc, &self.steps)
    }

    /// Adds a request, whose id is above all that ever were. A turn adds one at most.
    ///
    /// Errors: only want of memory; the request is dropped, and all is as before.
    /// Source: docs/SPACE.md, Cases, Reserve.
    pub fn reserve(&mut self, row: Request) -> Result<(), AllocError>
        requires above { below (λ r. r.id) row.id self.old.list ≡ true }
        requires once { self.old.added ≡ false }
        ensures ahead { OnOk result (self.new.ahead ≡ self.old.ahead ++ row ∷ []) }
        ensures list { self.new.list ≡ self.old.list }
        ensures kept { OnErr result (self.new ≡ self.old) }
    {
        self.steps.reserve(1)?;
        let id = row.id;
        self.waits.reserve(row)?;
        self.steps.push_reserved(Step::Added(id));
        Ok(())
    }

    /// The request with that id is in that state.
    ///
    /// Errors: only want of memory; all is as before.
    pub fn set(&mut self, id: u64, state: RequestState) -> Result<(), AllocError>
        ensures ahead { OnOk result (self.new.ahead
            ≡ changed (λ r. r.id) id (in_state state) self.old.ahead) }
        ensures same { OnOk result (Keeps self.old self.new) }
        ensures kept { OnErr result (self.new ≡ self.old) }
    {
        if is_gone(&self.gone, id) {
            drop(state);
            return Ok(());
        }
        match self.steps.reserve(1) {
            Ok(()) => {
                let before = self.waits.set(id, state);
                self.steps.push_reserved(Step::State(id, before));
                Ok(())
            }
            Err(refused) => {
                drop(state);
                Err(refused)
            }
        }
    }

    /// The request with that id was canceled before it was submitted.
    ///
    /// Errors: only want of memory; all is as before.
    /// Source: docs/SPACE.md, Cases, Cancel.
    pub fn mark(&mut self, id: u64) -> Result<(), AllocError>
        ensures ahead { OnOk result (self.new.ahead
            ≡ changed (λ r. r.id) id canceled self.old.ahead) }
        ensures same { OnOk result (Keeps self.old self.new) }
        ensures kept { OnErr result (self.new ≡ self.old) }
    {
        self.steps.reserve(1)?;
        let before = is_marked(&self.waits, id);
        self.waits.mark(id);
        self.steps.push_reserved(Step::Marked(id, before));
        Ok(())
    }

    /// The request with that id has this deadline, in milliseconds, and this renewer, and no doubt.
    ///
    /// Errors: only want of memory; all is as before.
    /// Source: docs/SPACE.md, Cases, Renew and Asked.
    pub fn renew(
        &mut self,
        id: u64,
        deadline: Option<u64>,
        renewer: Option<Remote>,
    ) -> Result<(), AllocError>
        ensures ahead { OnOk result (self.new.ahead
            ≡ changed (λ r. r.id) id (renewed_request deadline renewer) self.old.ahead) }
        ensures same { OnOk result (Keeps self.old self.new) }
        ensures kept { OnErr result (self.new ≡ self.old) }
    {
        match self.steps.reserve(1) {
            Ok(()) => {
                let until = deadline_in(&self.waits, id);
                let doubt = doubt_in(&self.waits, id);
                let before = self.waits.lease(id, deadline, renewer, Doubt::No);
                self.steps
                    .push_reserved(Step::Leased(id, until, before, doubt));
                Ok(())
            }
            Err(refused) => {
                drop(renewer);
                Err(refused)
            }
        }
    }

    /// The renewer of the request with that id is to be asked.
    ///
    /// Errors: only want of memory; all is as before.
    /// Source: docs/SPACE.md, Phases, Age.
    pub fn doubt(&mut self, id: u64) -> Result<(), AllocError>
        ensures ahead { OnOk result (self.new.ahead
            ≡ changed (λ r. r.id) id doubt_request self.old.ahead) }
        ensures same { OnOk result (Keeps self.old self.new) }
        ensures kept { OnErr result (self.new ≡ self.old) }
    {
        self.steps.reserve(1)?;
        let before = doubt_in(&self.waits, id);
        self.waits.doubt(id);
        self.steps.push_reserved(Step::Doubted(id, before));
        Ok(())
    }

    /// The renewer of the request with that id is being asked, where it was to be.
    ///
    /// Errors: only want of memory; all is as before.
    /// Source: docs/SPACE.md, Cases, NextAsk.
    pub fn ask(&mut self, id: u64) -> Result<(), AllocError>
        ensures ahead { OnOk result (self.new.ahead
            ≡ changed (λ r. r.id) id asked self.old.ahead) }
        ensures same { OnOk result (Keeps self.old self.new) }
        ensures kept { OnErr result (self.new ≡ self.old) }
    {
        self.steps.reserve(1)?;
        let before = doubt_in(&self.waits, id);
        self.waits.ask(id);
        self.steps.push_reserved(Step::Doubted(id, before));
        Ok(())
    }

    /// Takes the request with that id out, if there is one.
    ///
    /// Errors: only want of memory; all is as before.
    /// Source: docs/SPACE.md, Cases, Collect, Settle and Withdraw.
    pub fn take_out(&mut self, id: u64) -> Result<(), AllocError>
        ensures ahead { OnOk result (self.new.ahead ≡ without (λ r. r.id) id self.old.ahead) }
        ensures same { OnOk result (Keeps self.old self.new) }
        ensures kept { OnErr result (self.new ≡ self.old) }
    {
        let Some(_) = self.waits.row(id) else {
            return Ok(());
        };
        self.gone.reserve(1)?;
        self.steps.reserve(1)?;
        let before = self.waits.set(id, RequestState::Reserved);
        self.steps.push_reserved(Step::State(id, before));
        self.gone.push_reserved(id);
        Ok(())
    }

    /// Each request that is reserved is marked, and each that is parked is answered Canceled.
    ///
    /// Errors: only want of memory; all is as before.
    /// Source: docs/SPACE.md, Cases, Shut.
    pub fn shut(&mut self, alloc: Global) -> Result<(), AllocError>
        ensures ahead { OnOk result (self.new.ahead ≡ map shut_request self.old.ahead) }
        ensures same { OnOk result (Keeps self.old self.new) }
        ensures kept { OnErr result (self.new ≡ self.old) }
    {
        let ids = self.waits.open(alloc)?;
        self.steps.reserve(ids.len())?;
        shut_each(&mut self.waits, &mut self.steps, ids.as_slice());
        Ok(())
    }

    /// What is ahead stands. Takes no memory.
    pub fn commit(&mut self)
        ensures { self.new ≡ settled self.old.ahead }
    {
        sweep(&mut self.waits, &mut self.gone);
        self.steps.clear();
        self.stands = self.waits.len();
    }

    /// What is ahead of what stands is taken back. Takes no memory.
    pub fn forget(&mut self)
        ensures { self.new ≡ settled self.old.list }
    {
        self.gone.clear();
        take_back(&mut self.waits, &mut self.steps);
    }
}

/// The id is one of these.
fn is_gone(gone: &Vec<u64>, id: u64) -> bool
    ensures { result ≡ is_in gone.now.items id }
{
    gone.iter().any(|i| *i == id)
}

/// The ids of the requests that left the parked state by these steps.
///
/// Errors: only want of memory.
fn left_ids(alloc: Global, steps: &Vec<Step>) -> Result<Vec<u64>, AllocError>
    ensures { IfOk result (λ ids. ids.items ≡ left_ids_spec steps.now.items) }
{
    let mut ids = Vec::new(alloc);
    for step in steps.iter() {
        if let Some(id) = left_by(step) {
            ids.push(id)?;
        }
    }
    Ok(ids)
}

fn left_by(step: &Step) -> Option<u64>
    ensures { result ≡ left_by_spec step.now }
{
    match step {
        Step::State(id, RequestState::Parked) => Some(*id),
        _ => None,
    }
}

/// The deadline of the request with that id.
fn deadline_in(waits: &Waits, id: u64) -> Option<u64>
    ensures { result ≡ deadline_of (row_of (λ r. r.id) id waits.now) }
{
    match waits.row(id) {
        Some(row) => row.deadline,
        None => None,
    }
}

/// The request with that id is marked.
fn is_marked(waits: &Waits, id: u64) -> bool
    ensures { result ≡ mark_of (row_of (λ r. r.id) id waits.now) }
{
    match waits.row(id) {
        Some(row) => row.marked,
        None => false,
    }
}

/// The doubt of the request with that id.
fn doubt_in(waits: &Waits, id: u64) -> Doubt
    ensures { result ≡ doubt_of (row_of (λ r. r.id) id waits.now) }
{
    match waits.row(id) {
        Some(row) => row.doubt,
        None => Doubt::No,
    }
}

/// The request with that id is reserved.
fn is_reserved(waits: &Waits, id: u64) -> bool
    ensures { result ≡ reserved_in (row_of (λ r. r.id) id waits.now) }
{
    match waits.row(id) {
        Some(row) => matches!(row.state, RequestState::Reserved),
        None => false,
    }
}

/// The request with that id is parked.
fn is_parked(waits: &Waits, id: u64) -> bool
    ensures { result ≡ parked_in (row_of (λ r. r.id) id waits.now) }
{
    match waits.row(id) {
        Some(row) => matches!(row.state, RequestState::Parked),
        None => false,
    }
}

/// The requests with these ids are shut, with a step each that takes it back. The steps have room for that.
fn shut_each(waits: &mut Waits, steps: &mut Vec<Step>, ids: &[u64])
    requires rise { rising (λ r. r.id) waits.old ≡ true }
    requires room { vec_len steps.old + length ids.now ≤ vec_capacity steps.old }
    ensures waits { waits.new ≡ changed_each ids.now shut_request waits.old }
    ensures back { undone steps.new.items waits.new ≡ undone steps.old.items waits.old }
    ensures added { any_added steps.new.items ≡ any_added steps.old.items }
{
    for id in ids {
        shut_one(waits, steps, *id);
    }
}

/// The request with that id is shut, with a step that takes it back. The steps have room for one.
fn shut_one(waits: &mut Waits, steps: &mut Vec<Step>, id: u64)
    requires rise { rising (λ r. r.id) waits.old ≡ true }
    requires room { vec_len steps.old < vec_capacity steps.old }
    ensures waits { waits.new ≡ changed (λ r. r.id) id shut_request waits.old }
    ensures back { undone steps.new.items waits.new ≡ undone steps.old.items waits.old }
    ensures added { any_added steps.new.items ≡ any_added steps.old.items }
    ensures len { vec_len steps.new ≤ vec_len steps.old + 1 }
    ensures capacity { vec_capacity steps.new ≡ vec_capacity steps.old }
{
    if is_reserved(waits, id) {
        let before = is_marked(waits, id);
        waits.mark(id);
        steps.push_reserved(Step::Marked(id, before));
    } else if is_parked(waits, id) {
        let before = waits.set(id, RequestState::Answered(Out::Canceled));
        steps.push_reserved(Step::State(id, before));
    }
}

/// The requests with these ids are taken out.
fn sweep(waits: &mut Waits, gone: &mut Vec<u64>)
    ensures waits { waits.new ≡ left (λ r. r.id) gone.old.items waits.old }
    ensures gone { gone.new.items ≡ [] }
{
    while let Some(id) = gone.pop() {
        take_one(waits, id);
    }
}

/// The request with that id is taken out, if there is one.
fn take_one(waits: &mut Waits, id: u64)
    ensures { waits.new ≡ without (λ r. r.id) id waits.old }
{
    match waits.row(id) {
        Some(_) => drop(waits.collect(id)),
        None => {}
    }
}

/// The steps are taken back, the last one first.
fn take_back(waits: &mut Waits, steps: &mut Vec<Step>)
    ensures waits { waits.new ≡ undone steps.old.items waits.old }
    ensures steps { steps.new.items ≡ [] }
{
    while let Some(step) = steps.pop() {
        undo(waits, step);
    }
}

fn undo(waits: &mut Waits, step: Step)
    ensures { waits.new ≡ undo_spec step waits.old }
{
    match step {
        Step::Added(id) => take_one(waits, id),
        Step::State(id, state) => drop(waits.set(id, state)),
        Step::Marked(id, marked) => waits.mark_as(id, marked),
        Step::Leased(id, deadline, renewer, doubt) => {
            drop(waits.lease(id, deadline, renewer, doubt))
        }
        Step::Doubted(id, doubt) => waits.doubt_as(id, doubt),
    }
}
