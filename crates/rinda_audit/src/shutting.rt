//! Shut: nothing new is taken in, and all waiting ends.

ghost use Rattle.std.specs.Prelude.{◌≡◌, map, OnOk, IfOk};
ghost use Rattle.rinda_rules.specs.Cases.{shut_request as shut_request_spec, shut_notifier as shut_notifier_spec, shut_down as shut_down_spec, shut as shut_spec};
ghost use Rattle.rinda_audit.specs.Replays.{Is};

use crate::changes::{notifier_heard, request_entered, request_marked};
use crate::copies::{copy_notifier, copy_request};
use crate::row::{is_parked, is_reserved, is_running};
use crate::state::Replay;
use rinda_rules::plain::{Hearing, Notifier, Request};
use rinda_rules::{Last, Out, RequestState};
use std::alloc::{AllocError, Global};

impl Replay {
    pub(crate) fn shut(&mut self, alloc: Global) -> Result<Out, AllocError>
        ensures { IfOk result (λ o. Is o self.new (shut_spec self.old)) }
    {
        if self.shut {
            return Ok(Out::NotYet);
        }
        self.shut_down(alloc)?;
        Ok(Out::Plain)
    }

    fn shut_down(&mut self, alloc: Global) -> Result<(), AllocError>
        ensures { OnOk result (self.new ≡ shut_down_spec self.old) }
    {
        let until = self.events.len() as u64;
        let all_requests = self.requests.as_slice();
        let all_notifiers = self.notifiers.as_slice();
        let requests = shut_requests(alloc, all_requests)?;
        let notifiers = shut_notifiers(alloc, all_notifiers, until)?;
        self.requests = requests;
        self.notifiers = notifiers;
        self.shut = true;
        Ok(())
    }
}

/// Each reserved request is marked, and each parked one is answered Canceled.
fn shut_requests(alloc: Global, rows: &[Request]) -> Result<Vec<Request>, AllocError>
    ensures { IfOk result (λ v. v.items ≡ map shut_request_spec rows.now) }
{
    let mut all = Vec::new(alloc);
    for row in rows {
        all.push(shut_request(alloc, row)?)?;
    }
    Ok(all)
}

fn shut_request(alloc: Global, r: &Request) -> Result<Request, AllocError>
    ensures { IfOk result (λ q. q ≡ shut_request_spec r.now) }
{
    let copied = copy_request(alloc, r)?;
    Ok(request_shut(copied))
}

fn request_shut(r: Request) -> Request
    ensures { result ≡ shut_request_spec r }
{
    if is_reserved(&r.state) {
        return request_marked(r);
    }
    if is_parked(&r.state) {
        return request_entered(r, RequestState::Answered(Out::Canceled));
    }
    r
}

/// Each running notifier is closed, after so many events.
fn shut_notifiers(alloc: Global, rows: &[Notifier], until: u64) -> Result<Vec<Notifier>, AllocError>
    ensures { IfOk result (λ v. v.items ≡ map (shut_notifier_spec until) rows.now) }
{
    let mut all = Vec::new(alloc);
    for row in rows {
        all.push(shut_notifier(alloc, row, until)?)?;
    }
    Ok(all)
}

fn shut_notifier(alloc: Global, n: &Notifier, until: u64) -> Result<Notifier, AllocError>
    ensures { IfOk result (λ m. m ≡ shut_notifier_spec until n.now) }
{
    let copied = copy_notifier(alloc, n)?;
    Ok(notifier_shut(copied, until))
}

fn notifier_shut(n: Notifier, until: u64) -> Notifier
    ensures { result ≡ shut_notifier_spec until n }
{
    if is_running(n.state) {
        notifier_heard(
            n,
            Hearing::Closed {
                last: Last::Canceled,
                until,
            },
        )
    } else {
        n
    }
}
