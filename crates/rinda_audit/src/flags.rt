//! The three flags of an object.

ghost use Rattle.std.specs.Prelude.{◌≡◌};
ghost use Rattle.rinda_rules.specs.Cases.{flags as flags_spec, tuple_flags as tuple_flags_spec, request_flags as request_flags_spec, notifier_flags as notifier_flags_spec, ended_flags as ended_flags_spec, is_expired as is_expired_spec, is_canceled as is_canceled_spec, state_last as state_last_spec, hearing_last as hearing_last_spec, last_of as last_of_spec};

use crate::row::{is_doubted, is_free, is_over, is_running};
use rinda_rules::plain::{Entry, Hearing, Notifier, Request};
use rinda_rules::{Doubt, Flags, Last, Out, RequestState};

fn flags(expired: bool, canceled: bool, doubt: Doubt) -> Flags
    ensures { result ≡ flags_spec expired canceled doubt }
{
    Flags {
        alive: !expired && (!canceled && !is_doubted(doubt)),
        expired,
        canceled,
    }
}

fn is_expired(last: Last) -> bool
    ensures { result ≡ is_expired_spec last }
{
    match last {
        Last::Taken => false,
        Last::Expired => true,
        Last::Canceled => false,
        Last::Done => false,
    }
}

fn is_canceled(last: Last) -> bool
    ensures { result ≡ is_canceled_spec last }
{
    match last {
        Last::Taken => false,
        Last::Expired => false,
        Last::Canceled => true,
        Last::Done => false,
    }
}

/// How a request ends that is answered so.
pub fn last_of(out: &Out) -> Last
    ensures { result ≡ last_of_spec out.now }
{
    match out {
        Out::Expired => Last::Expired,
        Out::Canceled => Last::Canceled,
        _ => Last::Done,
    }
}

fn state_last(state: &RequestState) -> Last
    ensures { result ≡ state_last_spec state.now }
{
    match state {
        RequestState::Reserved => Last::Done,
        RequestState::Parked => Last::Done,
        RequestState::Granted(_) => Last::Done,
        RequestState::Answered(out) => last_of(out),
    }
}

fn hearing_last(state: Hearing) -> Last
    ensures { result ≡ hearing_last_spec state }
{
    match state {
        Hearing::Running => Last::Done,
        Hearing::Closed { last, until: _ } => last,
    }
}

pub fn tuple_flags(now: u64, t: &Entry) -> Flags
    ensures { result ≡ tuple_flags_spec now t.now }
{
    let expired = is_free(t) && (!is_doubted(t.doubt) && is_over(now, t.deadline));
    flags(expired, t.marked, t.doubt)
}

pub fn request_flags(now: u64, r: &Request) -> Flags
    ensures { result ≡ request_flags_spec now r.now }
{
    let last = state_last(&r.state);
    let expired = is_expired(last) || (!is_doubted(r.doubt) && is_over(now, r.deadline));
    let canceled = r.marked || is_canceled(last);
    flags(expired, canceled, r.doubt)
}

pub fn notifier_flags(now: u64, n: &Notifier) -> Flags
    ensures { result ≡ notifier_flags_spec now n.now }
{
    let last = hearing_last(n.state);
    let expired = is_expired(last)
        || (is_running(n.state) && (!is_doubted(n.doubt) && is_over(now, n.deadline)));
    flags(expired, is_canceled(last), n.doubt)
}

pub fn ended_flags(last: Last) -> Flags
    ensures { result ≡ ended_flags_spec last }
{
    Flags {
        alive: false,
        expired: is_expired(last),
        canceled: is_canceled(last),
    }
}
