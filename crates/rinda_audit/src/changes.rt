//! What is done to one row, and the lists with that row changed.

ghost use Rattle.std.specs.Prelude.{◌≡◌, ◌+◌, ◌<◌, ◌^◌, ◌==◌, nat_lt, true, IfOk, if◌then◌else◌};
ghost use Rattle.std.specs.List.{list_all};
ghost use Rattle.rinda_rules.specs.Rows.{changed};
ghost use Rattle.rinda_rules.specs.Phases.{in_state, doubt_tuple, doubt_request, doubt_notifier};
ghost use Rattle.rinda_rules.specs.Cases.{asked_doubt as asked_doubt_spec, renewed_tuple, renewed_request, renewed_notifier};
ghost use Rattle.rinda_audit.specs.Changes.{tuple_after, request_after, notifier_after};

use crate::copies::{copy_entry, copy_notifier, copy_request, copy_state};
use drb_tree::Remote;
use rinda_rules::plain::{Entry, Hearing, Notifier, Request};
use rinda_rules::{Doubt, RequestState};
use rinda_tuple::copy_renewer;
use std::alloc::{AllocError, Global};

/// What is done to a tuple.
#[derive(Drop)]
pub enum TupleChange {
    /// The request with that id holds it.
    Hold(u64),
    Free,
    Mark,
    /// It has that deadline and that renewer, and no doubt.
    Renew(Option<u64>, Option<Remote>),
    /// Its renewer has to be asked.
    Doubt,
    /// Its renewer is being asked.
    Ask,
}

/// What is done to a request.
#[derive(Drop)]
pub enum RequestChange {
    Enter(RequestState),
    Mark,
    Renew(Option<u64>, Option<Remote>),
    Doubt,
    Ask,
}

/// What is done to a notifier.
#[derive(Drop)]
pub enum NotifierChange {
    Hear(Hearing),
    Renew(Option<u64>, Option<Remote>),
    Doubt,
    Ask,
}

/// The rows, with the one of that id changed.
pub fn change_tuples(
    alloc: Global,
    rows: &[Entry],
    id: u64,
    change: &TupleChange,
) -> Result<Vec<Entry>, AllocError>
    ensures { IfOk result
        (λ v. v.items ≡ changed (λ row. row.id) id (tuple_after change.now) rows.now) }
{
    let mut changed = Vec::new(alloc);
    for row in rows {
        changed.push(tuple_where(alloc, row, id, change)?)?;
    }
    Ok(changed)
}

fn tuple_where(
    alloc: Global,
    row: &Entry,
    id: u64,
    change: &TupleChange,
) -> Result<Entry, AllocError>
    ensures { IfOk result
        (λ r. r ≡ (if row.now.id == id then tuple_after change.now row.now else row.now)) }
{
    if row.id == id {
        tuple_changed(alloc, row, change)
    } else {
        copy_entry(alloc, row)
    }
}

fn tuple_changed(alloc: Global, t: &Entry, change: &TupleChange) -> Result<Entry, AllocError>
    ensures { IfOk result (λ u. u ≡ tuple_after change.now t.now) }
{
    match change {
        TupleChange::Hold(request) => Ok(tuple_held(copy_entry(alloc, t)?, Some(*request))),
        TupleChange::Free => Ok(tuple_held(copy_entry(alloc, t)?, None)),
        TupleChange::Mark => Ok(tuple_marked(copy_entry(alloc, t)?)),
        TupleChange::Renew(deadline, renewer) => tuple_with(alloc, t, *deadline, renewer),
        TupleChange::Doubt => Ok(tuple_doubted(copy_entry(alloc, t)?)),
        TupleChange::Ask => Ok(tuple_asked(copy_entry(alloc, t)?)),
    }
}

fn tuple_with(
    alloc: Global,
    t: &Entry,
    deadline: Option<u64>,
    renewer: &Option<Remote>,
) -> Result<Entry, AllocError>
    ensures { IfOk result (λ u. u ≡ renewed_tuple deadline renewer.now t.now) }
{
    let renewer = copy_renewer(alloc, renewer)?;
    let copied = copy_entry(alloc, t)?;
    Ok(tuple_renewed(copied, deadline, renewer))
}

fn tuple_held(mut t: Entry, holder: Option<u64>) -> Entry
    ensures { result ≡ record t { holder = holder } }
{
    t.holder = holder;
    t
}

fn tuple_marked(mut t: Entry) -> Entry
    ensures { result ≡ record t { marked = true } }
{
    t.marked = true;
    t
}

fn tuple_doubted(mut t: Entry) -> Entry
    ensures { result ≡ doubt_tuple t }
{
    t.doubt = Doubt::Waiting;
    t
}

fn tuple_asked(mut t: Entry) -> Entry
    ensures { result ≡ record t { doubt = asked_doubt_spec t.doubt } }
{
    t.doubt = asked_doubt(t.doubt);
    t
}

fn tuple_renewed(mut t: Entry, deadline: Option<u64>, renewer: Option<Remote>) -> Entry
    ensures { result ≡ renewed_tuple deadline renewer t }
{
    t.deadline = deadline;
    t.renewer = renewer;
    t.doubt = Doubt::No;
    t
}

fn asked_doubt(doubt: Doubt) -> Doubt
    ensures { result ≡ asked_doubt_spec doubt }
{
    match doubt {
        Doubt::No => Doubt::No,
        Doubt::Waiting => Doubt::Asked,
        Doubt::Asked => Doubt::Asked,
    }
}

/// The rows, with the one of that id changed.
pub fn change_requests(
    alloc: Global,
    rows: &[Request],
    id: u64,
    change: &RequestChange,
) -> Result<Vec<Request>, AllocError>
    ensures { IfOk result
        (λ v. v.items ≡ changed (λ row. row.id) id (request_after change.now) rows.now) }
{
    let mut changed = Vec::new(alloc);
    for row in rows {
        changed.push(request_where(alloc, row, id, change)?)?;
    }
    Ok(changed)
}

fn request_where(
    alloc: Global,
    row: &Request,
    id: u64,
    change: &RequestChange,
) -> Result<Request, AllocError>
    ensures { IfOk result
        (λ r. r ≡ (if row.now.id == id then request_after change.now row.now else row.now)) }
{
    if row.id == id {
        request_changed(alloc, row, change)
    } else {
        copy_request(alloc, row)
    }
}

fn request_changed(
    alloc: Global,
    r: &Request,
    change: &RequestChange,
) -> Result<Request, AllocError>
    ensures { IfOk result (λ u. u ≡ request_after change.now r.now) }
{
    match change {
        RequestChange::Enter(state) => request_in(alloc, r, state),
        RequestChange::Mark => Ok(request_marked(copy_request(alloc, r)?)),
        RequestChange::Renew(deadline, renewer) => request_with(alloc, r, *deadline, renewer),
        RequestChange::Doubt => Ok(request_doubted(copy_request(alloc, r)?)),
        RequestChange::Ask => Ok(request_asked(copy_request(alloc, r)?)),
    }
}

fn request_in(alloc: Global, r: &Request, state: &RequestState) -> Result<Request, AllocError>
    ensures { IfOk result (λ u. u ≡ in_state state.now r.now) }
{
    let state = copy_state(alloc, state)?;
    let copied = copy_request(alloc, r)?;
    Ok(request_entered(copied, state))
}

fn request_with(
    alloc: Global,
    r: &Request,
    deadline: Option<u64>,
    renewer: &Option<Remote>,
) -> Result<Request, AllocError>
    ensures { IfOk result (λ u. u ≡ renewed_request deadline renewer.now r.now) }
{
    let renewer = copy_renewer(alloc, renewer)?;
    let copied = copy_request(alloc, r)?;
    Ok(request_renewed(copied, deadline, renewer))
}

pub fn request_entered(mut r: Request, state: RequestState) -> Request
    ensures { result ≡ in_state state r }
{
    r.state = state;
    r
}

pub fn request_marked(mut r: Request) -> Request
    ensures { result ≡ record r { marked = true } }
{
    r.marked = true;
    r
}

fn request_doubted(mut r: Request) -> Request
    ensures { result ≡ doubt_request r }
{
    r.doubt = Doubt::Waiting;
    r
}

fn request_asked(mut r: Request) -> Request
    ensures { result ≡ record r { doubt = asked_doubt_spec r.doubt } }
{
    r.doubt = asked_doubt(r.doubt);
    r
}

fn request_renewed(mut r: Request, deadline: Option<u64>, renewer: Option<Remote>) -> Request
    ensures { result ≡ renewed_request deadline renewer r }
{
    r.deadline = deadline;
    r.renewer = renewer;
    r.doubt = Doubt::No;
    r
}

/// The rows, with the one of that id changed.
pub fn change_notifiers(
    alloc: Global,
    rows: &[Notifier],
    id: u64,
    change: &NotifierChange,
) -> Result<Vec<Notifier>, AllocError>
    ensures { IfOk result
        (λ v. v.items ≡ changed (λ row. row.id) id (notifier_after change.now) rows.now) }
{
    let mut changed = Vec::new(alloc);
    for row in rows {
        changed.push(notifier_where(alloc, row, id, change)?)?;
    }
    Ok(changed)
}

fn notifier_where(
    alloc: Global,
    row: &Notifier,
    id: u64,
    change: &NotifierChange,
) -> Result<Notifier, AllocError>
    ensures { IfOk result
        (λ r. r ≡ (if row.now.id == id then notifier_after change.now row.now else row.now)) }
{
    if row.id == id {
        notifier_changed(alloc, row, change)
    } else {
        copy_notifier(alloc, row)
    }
}

fn notifier_changed(
    alloc: Global,
    n: &Notifier,
    change: &NotifierChange,
) -> Result<Notifier, AllocError>
    ensures { IfOk result (λ u. u ≡ notifier_after change.now n.now) }
{
    match change {
        NotifierChange::Hear(state) => Ok(notifier_heard(copy_notifier(alloc, n)?, *state)),
        NotifierChange::Renew(deadline, renewer) => notifier_with(alloc, n, *deadline, renewer),
        NotifierChange::Doubt => Ok(notifier_doubted(copy_notifier(alloc, n)?)),
        NotifierChange::Ask => Ok(notifier_asked(copy_notifier(alloc, n)?)),
    }
}

fn notifier_with(
    alloc: Global,
    n: &Notifier,
    deadline: Option<u64>,
    renewer: &Option<Remote>,
) -> Result<Notifier, AllocError>
    ensures { IfOk result (λ u. u ≡ renewed_notifier deadline renewer.now n.now) }
{
    let renewer = copy_renewer(alloc, renewer)?;
    let copied = copy_notifier(alloc, n)?;
    Ok(notifier_renewed(copied, deadline, renewer))
}

pub fn notifier_heard(mut n: Notifier, state: Hearing) -> Notifier
    ensures { result ≡ record n { state = state } }
{
    n.state = state;
    n
}

fn notifier_doubted(mut n: Notifier) -> Notifier
    ensures { result ≡ doubt_notifier n }
{
    n.doubt = Doubt::Waiting;
    n
}

fn notifier_asked(mut n: Notifier) -> Notifier
    ensures { result ≡ record n { doubt = asked_doubt_spec n.doubt } }
{
    n.doubt = asked_doubt(n.doubt);
    n
}

fn notifier_renewed(mut n: Notifier, deadline: Option<u64>, renewer: Option<Remote>) -> Notifier
    ensures { result ≡ renewed_notifier deadline renewer n }
{
    n.deadline = deadline;
    n.renewer = renewer;
    n.doubt = Doubt::No;
    n
}

/// The rows, with the one of that id popped once more.
pub fn popped_notifiers(
    alloc: Global,
    rows: &[Notifier],
    id: u64,
) -> Result<Vec<Notifier>, AllocError>
    requires { list_all (λ row. nat_lt row.popped (2 ^ 63)) rows.now ≡ true }
    ensures { IfOk result
        (λ v. v.items ≡ changed (λ row. row.id) id (λ row. record row { popped = row.popped + 1 })
        rows.now) }
{
    let mut popped = Vec::new(alloc);
    for row in rows {
        popped.push(popped_where(alloc, row, id)?)?;
    }
    Ok(popped)
}

fn popped_where(alloc: Global, row: &Notifier, id: u64) -> Result<Notifier, AllocError>
    requires { row.now.popped < 2 ^ 63 }
    ensures { IfOk result
        (λ r. r ≡ (if row.now.id == id then record row.now { popped = row.now.popped + 1 }
        else row.now)) }
{
    let copied = copy_notifier(alloc, row)?;
    Ok(if row.id == id {
        popped_once_more(copied)
    } else {
        copied
    })
}

fn popped_once_more(mut n: Notifier) -> Notifier
    requires { n.popped < 2 ^ 63 }
    ensures { result ≡ record n { popped = n.popped + 1 } }
{
    n.popped += 1;
    n
}
