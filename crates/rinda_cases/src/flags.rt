//! The three flags of an object.

ghost use Rattle.std.specs.Prelude.{◌≡◌};
ghost use Rattle.rinda_rules.specs.Space.{is_doubted as is_doubted_spec, is_over as is_over_spec};
ghost use Rattle.rinda_rules.specs.Cases.{flags as flags_spec, tuple_flags as tuple_flags_spec, request_flags as request_flags_spec, ended_flags as ended_flags_spec, is_expired as is_expired_spec, is_canceled as is_canceled_spec, state_last as state_last_spec, last_of as last_of_spec};
ghost use Rattle.rinda_notify.specs.Notes.{is_open};
ghost use Rattle.rinda_cases.specs.Flagged.{note_flags as note_flags_spec, note_last as note_last_spec};

use rinda_notify::Note;
use rinda_rules::plain::{Entry, Request};
use rinda_rules::{Doubt, Flags, Last, NoteState, Out, RequestState};

pub(crate) fn tuple_flags(now: u64, t: &Entry) -> Flags
    ensures { result ≡ tuple_flags_spec now t.now }
{
    let expired = t.holder.is_none() && (!is_doubted(t.doubt) && is_over(now, t.deadline));
    flags(expired, t.marked, t.doubt)
}

pub(crate) fn request_flags(now: u64, r: &Request) -> Flags
    ensures { result ≡ request_flags_spec now r.now }
{
    let last = state_last(&r.state);
    let expired = is_expired(last) || (!is_doubted(r.doubt) && is_over(now, r.deadline));
    let canceled = r.marked || is_canceled(last);
    flags(expired, canceled, r.doubt)
}

/// The flags of a notifier that has that note.
pub(crate) fn note_flags(now: u64, n: &Note) -> Flags
    ensures { result ≡ note_flags_spec now n.now }
{
    let last = note_last(n.state);
    let expired = is_expired(last)
        || (runs(n.state) && (!is_doubted(n.doubt) && is_over(now, n.deadline)));
    flags(expired, is_canceled(last), n.doubt)
}

pub(crate) fn ended_flags(last: Last) -> Flags
    ensures { result ≡ ended_flags_spec last }
{
    Flags {
        alive: false,
        expired: is_expired(last),
        canceled: is_canceled(last),
    }
}

/// The deadline is at most `now`.
pub(crate) fn is_over(now: u64, deadline: Option<u64>) -> bool
    ensures { result ≡ is_over_spec now deadline }
{
    match deadline {
        None => false,
        Some(deadline) => deadline <= now,
    }
}

fn flags(expired: bool, canceled: bool, doubt: Doubt) -> Flags
    ensures { result ≡ flags_spec expired canceled doubt }
{
    Flags {
        alive: !expired && (!canceled && !is_doubted(doubt)),
        expired,
        canceled,
    }
}

fn is_expired(last: Last) -> bool
    ensures { result ≡ is_expired_spec last }
{
    match last {
        Last::Taken => false,
        Last::Expired => true,
        Last::Canceled => false,
        Last::Done => false,
    }
}

fn is_canceled(last: Last) -> bool
    ensures { result ≡ is_canceled_spec last }
{
    match last {
        Last::Taken => false,
        Last::Expired => false,
        Last::Canceled => true,
        Last::Done => false,
    }
}

/// How a request ends that is answered so.
fn last_of(out: &Out) -> Last
    ensures { result ≡ last_of_spec out.now }
{
    match out {
        Out::Expired => Last::Expired,
        Out::Canceled => Last::Canceled,
        _ => Last::Done,
    }
}

/// How a request in that state has ended so far.
fn state_last(state: &RequestState) -> Last
    ensures { result ≡ state_last_spec state.now }
{
    match state {
        RequestState::Reserved => Last::Done,
        RequestState::Parked => Last::Done,
        RequestState::Granted(_) => Last::Done,
        RequestState::Answered(out) => last_of(out),
    }
}

/// How a notifier in that state has ended so far.
fn note_last(state: NoteState) -> Last
    ensures { result ≡ note_last_spec state }
{
    match state {
        NoteState::Running => Last::Done,
        NoteState::Closed(last) => last,
    }
}

fn runs(state: NoteState) -> bool
    ensures { result ≡ is_open state }
{
    match state {
        NoteState::Running => true,
        NoteState::Closed(_) => false,
    }
}

fn is_doubted(doubt: Doubt) -> bool
    ensures { result ≡ is_doubted_spec doubt }
{
    match doubt {
        Doubt::No => false,
        Doubt::Waiting => true,
        Doubt::Asked => true,
    }
}
