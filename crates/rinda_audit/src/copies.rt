//! Copies of the rows, made with their values.

ghost use Rattle.std.specs.Prelude.{◌≡◌, IfOk};

use rinda_rules::RequestState;
use rinda_rules::plain::{Entry, Notifier, Raised, Request};
use rinda_tuple::copy_renewer;
use std::alloc::{AllocError, Global};

pub fn copy_entry(alloc: Global, t: &Entry) -> Result<Entry, AllocError>
    ensures { IfOk result (λ u. u ≡ t.now) }
{
    let value = t.value.copy(alloc)?;
    let renewer = copy_renewer(alloc, &t.renewer)?;
    Ok(Entry {
        id: t.id,
        value,
        deadline: t.deadline,
        renewer,
        holder: t.holder,
        marked: t.marked,
        doubt: t.doubt,
    })
}

pub fn copy_state(alloc: Global, state: &RequestState) -> Result<RequestState, AllocError>
    ensures { IfOk result (λ s. s ≡ state.now) }
{
    Ok(match state {
        RequestState::Reserved => RequestState::Reserved,
        RequestState::Parked => RequestState::Parked,
        RequestState::Granted(tuple) => RequestState::Granted(*tuple),
        RequestState::Answered(out) => RequestState::Answered(out.copy(alloc)?),
    })
}

pub fn copy_request(alloc: Global, r: &Request) -> Result<Request, AllocError>
    ensures { IfOk result (λ q. q ≡ r.now) }
{
    let pattern = r.pattern.copy(alloc)?;
    let renewer = copy_renewer(alloc, &r.renewer)?;
    let state = copy_state(alloc, &r.state)?;
    Ok(Request {
        id: r.id,
        caller: r.caller,
        kind: r.kind,
        pattern,
        deadline: r.deadline,
        renewer,
        marked: r.marked,
        doubt: r.doubt,
        state,
    })
}

pub fn copy_notifier(alloc: Global, n: &Notifier) -> Result<Notifier, AllocError>
    ensures { IfOk result (λ m. m ≡ n.now) }
{
    let event = n.event.copy(alloc)?;
    let pattern = n.pattern.copy(alloc)?;
    let renewer = copy_renewer(alloc, &n.renewer)?;
    Ok(Notifier {
        id: n.id,
        event,
        pattern,
        deadline: n.deadline,
        renewer,
        doubt: n.doubt,
        state: n.state,
        since: n.since,
        popped: n.popped,
    })
}

pub fn copy_raised(alloc: Global, e: &Raised) -> Result<Raised, AllocError>
    ensures { IfOk result (λ f. f ≡ e.now) }
{
    let tuple = e.tuple.copy(alloc)?;
    Ok(Raised {
        what: e.what,
        id: e.id,
        tuple,
    })
}

pub fn copy_entries(alloc: Global, rows: &[Entry]) -> Result<Vec<Entry>, AllocError>
    ensures { IfOk result (λ copied. copied.items ≡ rows.now) }
{
    let mut copied = Vec::new(alloc);
    for row in rows {
        copied.push(copy_entry(alloc, row)?)?;
    }
    Ok(copied)
}

pub fn copy_requests(alloc: Global, rows: &[Request]) -> Result<Vec<Request>, AllocError>
    ensures { IfOk result (λ copied. copied.items ≡ rows.now) }
{
    let mut copied = Vec::new(alloc);
    for row in rows {
        copied.push(copy_request(alloc, row)?)?;
    }
    Ok(copied)
}

pub fn copy_notifiers(alloc: Global, rows: &[Notifier]) -> Result<Vec<Notifier>, AllocError>
    ensures { IfOk result (λ copied. copied.items ≡ rows.now) }
{
    let mut copied = Vec::new(alloc);
    for row in rows {
        copied.push(copy_notifier(alloc, row)?)?;
    }
    Ok(copied)
}

pub fn copy_events(alloc: Global, events: &[Raised]) -> Result<Vec<Raised>, AllocError>
    ensures { IfOk result (λ copied. copied.items ≡ events.now) }
{
    let mut copied = Vec::new(alloc);
    for event in events {
        copied.push(copy_raised(alloc, event)?)?;
    }
    Ok(copied)
}
