//! Aging: each row that is due, in rising id.

ghost use Rattle.std.specs.Prelude.{◌≡◌, ◌<◌, ◌≤◌, ◌^◌, not, ◌||◌, nat_lt, nat_le, true, OnOk};
ghost use Rattle.std.specs.List.{list_all};
ghost use Rattle.rinda_rules.specs.Space.{found as found_spec, is_due_tuple as is_due_tuple_spec, is_due_request as is_due_request_spec, is_due_notifier as is_due_notifier_spec};
ghost use Rattle.rinda_rules.specs.Phases.{aged as aged_spec, age_found as age_found_spec, age_tuple as age_tuple_spec, age_request as age_request_spec, age_notifier as age_notifier_spec, nothing_due as nothing_due_spec};
ghost use Rattle.rinda_audit.specs.Aging.{none_due, NextDue};
ghost use Rattle.rinda_audit.specs.Finds.{seen};

use crate::changes::{NotifierChange, RequestChange, TupleChange};
use crate::found::Found;
use crate::row::{is_due_notifier, is_due_request, is_due_tuple};
use crate::state::Replay;
use rinda_rules::plain::{Entry, Hearing, Notifier, Request};
use rinda_rules::{Last, Out, RequestState};
use std::alloc::{AllocError, Global};

impl Replay {
    /// Each row that is due is doubted, ends, is answered or is closed, in rising id.
    pub(crate) fn age(&mut self, alloc: Global) -> Result<(), AllocError>
        ensures { OnOk result (self.new ≡ aged_spec self.old) }
    {
        let mut from = 0u128;
        while let Some(id) = self.next_due(from) {
            self.age_at(alloc, id)?;
            from = id as u128 + 1;
        }
        Ok(())
    }

    /// The least id from that one on of a row that is due.
    fn next_due(&self, from: u128) -> Option<u64>
        requires { from ≤ self.now.next }
        ensures { NextDue self.now from result }
    {
        let now = self.clock;
        let tuple = least_tuple(self.tuples.as_slice(), now, from, self.next);
        let request = least_request(self.requests.as_slice(), now, from, tuple);
        let least = least_notifier(self.notifiers.as_slice(), now, from, request);
        if least < self.next {
            Some(least as u64)
        } else {
            None
        }
    }

    fn age_at(&mut self, alloc: Global, id: u64) -> Result<(), AllocError>
        ensures { OnOk result (self.new ≡ age_found_spec self.old (found_spec self.old id)) }
    {
        let found = self.found(alloc, id)?;
        let done = self.age_found(alloc, &found);
        drop(found);
        done
    }

    fn age_found(&mut self, alloc: Global, found: &Found) -> Result<(), AllocError>
        ensures { OnOk result (self.new ≡ age_found_spec self.old (seen found.now)) }
    {
        let now = self.clock;
        match found {
            Found::TheTuple(t) if is_due_tuple(now, t) => self.age_tuple(alloc, t),
            Found::TheRequest(r) if is_due_request(now, r) => self.age_request(alloc, r),
            Found::TheNotifier(n) if is_due_notifier(now, n) => self.age_notifier(alloc, n),
            _ => Ok(()),
        }
    }

    fn age_tuple(&mut self, alloc: Global, t: &Entry) -> Result<(), AllocError>
        ensures { OnOk result (self.new ≡ age_tuple_spec self.old t.now) }
    {
        if t.renewer.is_none() {
            self.end_tuple(alloc, Last::Expired, t)
        } else {
            self.change_tuple(alloc, t.id, &TupleChange::Doubt)
        }
    }

    fn age_request(&mut self, alloc: Global, r: &Request) -> Result<(), AllocError>
        ensures { OnOk result (self.new ≡ age_request_spec self.old r.now) }
    {
        if r.renewer.is_none() {
            self.request_in(alloc, r.id, RequestState::Answered(Out::Expired))
        } else {
            self.change_request(alloc, r.id, &RequestChange::Doubt)
        }
    }

    fn age_notifier(&mut self, alloc: Global, n: &Notifier) -> Result<(), AllocError>
        ensures { OnOk result (self.new ≡ age_notifier_spec self.old n.now) }
    {
        if n.renewer.is_none() {
            let closed = Hearing::Closed {
                last: Last::Expired,
                until: self.events.len() as u64,
            };
            self.change_notifier(alloc, n.id, &NotifierChange::Hear(closed))
        } else {
            self.change_notifier(alloc, n.id, &NotifierChange::Doubt)
        }
    }

    /// No row is due.
    pub(crate) fn nothing_due(&self) -> bool
        ensures { result ≡ nothing_due_spec self.now }
    {
        no_tuple_due(self.tuples.as_slice(), self.clock)
            && (no_request_due(self.requests.as_slice(), self.clock)
                && no_notifier_due(self.notifiers.as_slice(), self.clock))
    }
}

/// The least id from that one on of a tuple that is due, where it is less than the most.
fn least_tuple(rows: &[Entry], now: u64, from: u128, most: u128) -> u128
    ensures most { result ≤ most }
    ensures from { from ≤ most → from ≤ result }
    ensures id { result < most → result < 2 ^ 64 }
    ensures undue { none_due (λ t. t.id) (is_due_tuple_spec now) from result rows.now ≡ true }
{
    let mut least = most;
    for t in rows {
        least = sooner(is_due_tuple(now, t), t.id, from, least);
    }
    least
}

/// The least id from that one on of a request that is due, where it is less than the most.
fn least_request(rows: &[Request], now: u64, from: u128, most: u128) -> u128
    ensures most { result ≤ most }
    ensures from { from ≤ most → from ≤ result }
    ensures id { result < most → result < 2 ^ 64 }
    ensures undue { none_due (λ r. r.id) (is_due_request_spec now) from result rows.now ≡ true }
{
    let mut least = most;
    for r in rows {
        least = sooner(is_due_request(now, r), r.id, from, least);
    }
    least
}

/// The least id from that one on of a notifier that is due, where it is less than the most.
fn least_notifier(rows: &[Notifier], now: u64, from: u128, most: u128) -> u128
    ensures most { result ≤ most }
    ensures from { from ≤ most → from ≤ result }
    ensures id { result < most → result < 2 ^ 64 }
    ensures undue { none_due (λ n. n.id) (is_due_notifier_spec now) from result rows.now ≡ true }
{
    let mut least = most;
    for n in rows {
        least = sooner(is_due_notifier(now, n), n.id, from, least);
    }
    least
}

/// That id, where it is due, not before the first one and less than the least so far, and else the least so far.
fn sooner(due: bool, id: u64, from: u128, least: u128) -> u128
    ensures least { result ≤ least }
    ensures from { from ≤ least → from ≤ result }
    ensures id { result < least → result < 2 ^ 64 }
    ensures undue { (not due || (nat_lt id from || nat_le result id)) ≡ true }
{
    let id = id as u128;
    if due && from <= id && id < least {
        id
    } else {
        least
    }
}

fn no_tuple_due(tuples: &[Entry], now: u64) -> bool
    ensures { result ≡ list_all (λ t. not (is_due_tuple_spec now t)) tuples.now }
{
    tuples.iter().all(|t| !is_due_tuple(now, t))
}

fn no_request_due(requests: &[Request], now: u64) -> bool
    ensures { result ≡ list_all (λ r. not (is_due_request_spec now r)) requests.now }
{
    requests.iter().all(|r| !is_due_request(now, r))
}

fn no_notifier_due(notifiers: &[Notifier], now: u64) -> bool
    ensures { result ≡ list_all (λ n. not (is_due_notifier_spec now n)) notifiers.now }
{
    notifiers.iter().all(|n| !is_due_notifier(now, n))
}
