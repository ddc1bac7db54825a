//! The tests of one row, each a word of the rules.

ghost use Rattle.std.specs.Prelude.{◌≡◌, IfOk};
ghost use Rattle.rinda_rules.specs.Space.{hears as hears_spec, is_over as is_over_spec, renewer_of as renewer_of_spec, is_doubted as is_doubted_spec, is_free as is_free_spec, is_live as is_live_spec, is_due_tuple as is_due_tuple_spec, is_reserved as is_reserved_spec, is_parked as is_parked_spec, is_read as is_read_spec, is_waiting as is_waiting_spec, is_due_request as is_due_request_spec, may_have as may_have_spec, is_running as is_running_spec, is_due_notifier as is_due_notifier_spec, text_of as text_of_spec};

use drb_tree::{Bytes, Code, Remote, Text};
use drb_value::{Node, Value};
use rinda_rules::plain::{Entry, Happening, Hearing, Notifier, Raised, Request};
use rinda_rules::{Doubt, Kind, RequestState};
use rinda_tuple::{is_match, suits};
use std::alloc::{AllocError, Global};

pub fn is_over(now: u64, deadline: Option<u64>) -> bool
    ensures { result ≡ is_over_spec now deadline }
{
    match deadline {
        None => false,
        Some(deadline) => deadline <= now,
    }
}

pub fn is_doubted(doubt: Doubt) -> bool
    ensures { result ≡ is_doubted_spec doubt }
{
    match doubt {
        Doubt::No => false,
        Doubt::Waiting => true,
        Doubt::Asked => true,
    }
}

pub fn is_free(t: &Entry) -> bool
    ensures { result ≡ is_free_spec t.now }
{
    t.holder.is_none()
}

pub fn is_live(now: u64, t: &Entry) -> bool
    ensures { result ≡ is_live_spec now t.now }
{
    !t.marked && (!is_doubted(t.doubt) && (!is_free(t) || !is_over(now, t.deadline)))
}

pub fn is_due_tuple(now: u64, t: &Entry) -> bool
    ensures { result ≡ is_due_tuple_spec now t.now }
{
    is_free(t) && (!is_doubted(t.doubt) && is_over(now, t.deadline))
}

pub fn is_reserved(state: &RequestState) -> bool
    ensures { result ≡ is_reserved_spec state.now }
{
    matches!(state, RequestState::Reserved)
}

pub fn is_parked(state: &RequestState) -> bool
    ensures { result ≡ is_parked_spec state.now }
{
    matches!(state, RequestState::Parked)
}

pub fn is_read(kind: Kind) -> bool
    ensures { result ≡ is_read_spec kind }
{
    matches!(kind, Kind::Read)
}

pub fn is_waiting(r: &Request) -> bool
    ensures { result ≡ is_waiting_spec r.now }
{
    is_parked(&r.state) && !is_doubted(r.doubt)
}

pub fn is_due_request(now: u64, r: &Request) -> bool
    ensures { result ≡ is_due_request_spec now r.now }
{
    is_waiting(r) && is_over(now, r.deadline)
}

pub fn may_have(now: u64, r: &Request, t: &Entry) -> bool
    ensures { result ≡ may_have_spec now r.now t.now }
{
    is_match(&r.pattern, &t.value) && (is_live(now, t) && (is_read(r.kind) || is_free(t)))
}

pub fn is_running(state: Hearing) -> bool
    ensures { result ≡ is_running_spec state }
{
    matches!(state, Hearing::Running)
}

pub fn is_due_notifier(now: u64, n: &Notifier) -> bool
    ensures { result ≡ is_due_notifier_spec now n.now }
{
    is_running(n.state) && (!is_doubted(n.doubt) && is_over(now, n.deadline))
}

/// Who is asked for more: nobody where the lease is over as it is set.
pub fn renewer_of(deadline: Option<u64>, renewer: Option<Remote>, now: u64) -> Option<Remote>
    ensures { result ≡ renewer_of_spec deadline renewer now }
{
    if is_over(now, deadline) {
        None
    } else {
        renewer
    }
}

/// The name of what happened, as a text.
pub fn text_of(alloc: Global, what: Happening) -> Result<Value, AllocError>
    ensures { IfOk result (λ v. v ≡ text_of_spec what) }
{
    let bytes = match what {
        Happening::Write => Bytes::of(alloc, b"write")?,
        Happening::Take => Bytes::of(alloc, b"take")?,
        Happening::Delete => Bytes::of(alloc, b"delete")?,
    };
    Ok(Value {
        node: Node::Text(Text {
            bytes,
            code: Code::Utf8,
        }),
    })
}

/// The notifier hears the event.
pub fn hears(alloc: Global, n: &Notifier, e: &Raised) -> Result<bool, AllocError>
    ensures { IfOk result (λ b. b ≡ hears_spec n.now e.now) }
{
    let text = text_of(alloc, e.what)?;
    Ok(suits(&n.event, &text) && is_match(&n.pattern, &e.tuple))
}
