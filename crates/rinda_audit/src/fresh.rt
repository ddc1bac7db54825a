//! New rows, and the requests that read a tuple that is over as it is written.

ghost use Rattle.std.specs.Prelude.{◌≡◌, map, IfOk};
ghost use Rattle.rinda_rules.specs.Cases.{read_by as read_by_spec};
ghost use Rattle.rinda_audit.specs.Changes.{tuple_from, request_from, notifier_from};
ghost use Rattle.rinda_tuple.specs.Tuples.{value_of as value_of_spec};
ghost use Rattle.rinda_rules.specs.Phases.{in_state};

use crate::changes::request_entered;
use crate::copies::copy_request;
use crate::row::{is_read, is_waiting, renewer_of};
use drb_value::Value;
use rinda_rules::plain::{Entry, Hearing, Notifier, Request};
use rinda_rules::{Doubt, Kind, Out, RequestState};
use rinda_tuple::{Lease, Template, Tuple, copy_renewer, deadline, is_match};
use std::alloc::{AllocError, Global};

/// A tuple with that id, written at that time.
pub fn new_tuple(
    alloc: Global,
    id: u64,
    now: u64,
    value: &Tuple,
    lease: &Lease,
) -> Result<Entry, AllocError>
    ensures { IfOk result (λ t. t ≡ tuple_from id now value.now lease.now) }
{
    let value = value.copy(alloc)?;
    let renewer = copy_renewer(alloc, &lease.renewer)?;
    let deadline = deadline(&lease.life, now);
    Ok(Entry {
        id,
        value,
        deadline,
        renewer: renewer_of(deadline, renewer, now),
        holder: None,
        marked: false,
        doubt: Doubt::No,
    })
}

/// A request with that id, made at that time.
pub fn new_request(
    alloc: Global,
    id: u64,
    now: u64,
    caller: u64,
    kind: Kind,
    pattern: &Template,
    lease: &Lease,
) -> Result<Request, AllocError>
    ensures { IfOk result (λ r. r ≡ request_from id now caller kind pattern.now lease.now) }
{
    let pattern = pattern.copy(alloc)?;
    let renewer = copy_renewer(alloc, &lease.renewer)?;
    let deadline = deadline(&lease.life, now);
    Ok(Request {
        id,
        caller,
        kind,
        pattern,
        deadline,
        renewer: renewer_of(deadline, renewer, now),
        marked: false,
        doubt: Doubt::No,
        state: RequestState::Reserved,
    })
}

/// A notifier with that id, made at that time, after so many events.
pub fn new_notifier(
    alloc: Global,
    id: u64,
    now: u64,
    since: u64,
    event: &Value,
    pattern: &Template,
    lease: &Lease,
) -> Result<Notifier, AllocError>
    ensures { IfOk result (λ n. n ≡ notifier_from id now since event.now pattern.now lease.now) }
{
    let event = event.copy(alloc)?;
    let pattern = pattern.copy(alloc)?;
    let renewer = copy_renewer(alloc, &lease.renewer)?;
    let deadline = deadline(&lease.life, now);
    Ok(Notifier {
        id,
        event,
        pattern,
        deadline,
        renewer: renewer_of(deadline, renewer, now),
        doubt: Doubt::No,
        state: Hearing::Running,
        since,
        popped: 0,
    })
}

/// The requests, each waiting Read whose pattern matches the tuple answered with it.
pub fn all_read_by(
    alloc: Global,
    requests: &[Request],
    value: &Tuple,
) -> Result<Vec<Request>, AllocError>
    ensures { IfOk result (λ v. v.items ≡ map (read_by_spec value.now) requests.now) }
{
    let mut all = Vec::new(alloc);
    for r in requests {
        all.push(read_by(alloc, value, r)?)?;
    }
    Ok(all)
}

fn read_by(alloc: Global, value: &Tuple, r: &Request) -> Result<Request, AllocError>
    ensures { IfOk result (λ q. q ≡ read_by_spec value.now r.now) }
{
    if is_read(r.kind) && (is_waiting(r) && is_match(&r.pattern, value)) {
        answered_with(alloc, value, r)
    } else {
        copy_request(alloc, r)
    }
}

fn answered_with(alloc: Global, value: &Tuple, r: &Request) -> Result<Request, AllocError>
    ensures { IfOk result
        (λ q. q ≡ in_state (RequestState.Answered (Out.Answer (value_of_spec value.now))) r.now) }
{
    let answer = value.to_value(alloc)?;
    let copied = copy_request(alloc, r)?;
    Ok(request_entered(copied, RequestState::Answered(Out::Answer(answer))))
}
