//! What can be made of any object by its id: Pop, Withdraw, Cancel, Renew, Look, Value and Asked.

ghost use Rattle.std.specs.Prelude.{◌≡◌, ◌+◌, ◌<◌, length, Some, OnOk, IfOk};
ghost use Rattle.rinda_rules.specs.Space.{notifier_at as notifier_at_spec, renewer_of as renewer_of_spec};
ghost use Rattle.rinda_rules.specs.Phases.{with_tuple, with_request, with_notifier};
ghost use Rattle.rinda_rules.specs.Cases.{answers, renewed_tuple, renewed_request, renewed_notifier, pop_empty as pop_empty_spec, pop_notifier as pop_notifier_spec, pop_ended as pop_ended_spec, pop as pop_spec, withdraw_request as withdraw_request_spec, withdraw as withdraw_spec, cancel_tuple as cancel_tuple_spec, cancel_request as cancel_request_spec, cancel_notifier as cancel_notifier_spec, cancel as cancel_spec, renew_request as renew_request_spec, renew_notifier as renew_notifier_spec, renew_with as renew_with_spec, look as look_spec, value_ended as value_ended_spec, value as value_spec, is_asked as is_asked_spec, told as told_spec, told_tuple as told_tuple_spec, told_request as told_request_spec, told_notifier as told_notifier_spec};
ghost use Rattle.rinda_audit.specs.Counts.{Listed};
ghost use Rattle.rinda_audit.specs.Finds.{seen};
ghost use Rattle.rinda_audit.specs.Replays.{Is};

use crate::changes::{NotifierChange, RequestChange, TupleChange};
use crate::flags;
use crate::found::Found;
use crate::queue::first_of;
use crate::row::renewer_of;
use crate::state::Replay;
use drb_tree::Remote;
use drb_value::Value;
use rinda_rules::plain::{Entry, Hearing, Notifier, Request};
use rinda_rules::{Doubt, Last, ObjectKind, Out, RequestState};
use rinda_tuple::copy_renewer;
use std::alloc::{AllocError, Global};

impl Replay {
    pub(crate) fn pop(&mut self, alloc: Global, found: &Found) -> Result<Out, AllocError>
        requires { Listed self.old (seen found.now) }
        ensures { IfOk result (λ o. Is o self.new (pop_spec self.old (seen found.now))) }
    {
        match found {
            Found::TheRequest(_) => Ok(Out::WrongKind),
            Found::TheTuple(_) => Ok(Out::WrongKind),
            Found::TheNotifier(n) => self.pop_notifier(alloc, &Out::NotYet, n),
            Found::HasEnded(kind, _) => Ok(pop_ended(*kind)),
            Found::IsRecycled => Ok(Out::Recycled),
            Found::IsUnknown => Ok(Out::Unknown),
        }
    }

    fn pop_notifier(
        &mut self,
        alloc: Global,
        nothing: &Out,
        n: &Notifier,
    ) -> Result<Out, AllocError>
        requires { notifier_at_spec self.old n.now.id ≡ Some n.now }
        ensures { IfOk result (λ o. Is o self.new (pop_notifier_spec self.old nothing.now n.now)) }
    {
        match first_of(alloc, n, self.events.as_slice())? {
            Some(event) => self.pop_first(alloc, n, event),
            None => self.pop_empty(alloc, nothing, n),
        }
    }

    fn pop_first(&mut self, alloc: Global, n: &Notifier, event: Value) -> Result<Out, AllocError>
        requires listed { notifier_at_spec self.old n.now.id ≡ Some n.now }
        requires left { n.now.popped < length self.old.events }
        ensures { IfOk result
            (λ o. Is o self.new (answers
            (with_notifier n.now.id (λ m. record m { popped = m.popped + 1 }) self.old)
            (Out.Event event))) }
    {
        self.pop_next(alloc, n)?;
        Ok(Out::Event(event))
    }

    fn pop_empty(&mut self, alloc: Global, nothing: &Out, n: &Notifier) -> Result<Out, AllocError>
        ensures { IfOk result
            (λ o. Is o self.new (pop_empty_spec self.old n.now nothing.now n.now.state)) }
    {
        match n.state {
            Hearing::Running => nothing.copy(alloc),
            Hearing::Closed { last, until: _ } => {
                self.end_notifier(alloc, last, n.id)?;
                Ok(Out::Closed)
            }
        }
    }

    pub(crate) fn withdraw(
        &mut self,
        alloc: Global,
        caller: u64,
        found: &Found,
    ) -> Result<Out, AllocError>
        requires { Listed self.old (seen found.now) }
        ensures { IfOk result
            (λ o. Is o self.new (withdraw_spec self.old caller (seen found.now))) }
    {
        match found {
            Found::TheRequest(r) => {
                if r.caller == caller {
                    self.withdraw_request(alloc, r)
                } else {
                    Ok(Out::WrongKind)
                }
            }
            Found::TheTuple(_) => Ok(Out::WrongKind),
            Found::TheNotifier(n) => self.pop_notifier(alloc, &Out::WouldWait, n),
            Found::HasEnded(kind, _) => Ok(pop_ended(*kind)),
            Found::IsRecycled => Ok(Out::Recycled),
            Found::IsUnknown => Ok(Out::Unknown),
        }
    }

    fn withdraw_request(&mut self, alloc: Global, r: &Request) -> Result<Out, AllocError>
        ensures { IfOk result
            (λ o. Is o self.new (withdraw_request_spec self.old r.now r.now.state)) }
    {
        match &r.state {
            RequestState::Reserved => {
                self.end_request(alloc, Last::Done, r.id)?;
                Ok(Out::Plain)
            }
            RequestState::Parked => {
                self.end_request(alloc, Last::Done, r.id)?;
                Ok(Out::WouldWait)
            }
            RequestState::Granted(_) => self.collect(alloc, r),
            RequestState::Answered(_) => self.collect(alloc, r),
        }
    }

    pub(crate) fn cancel(&mut self, alloc: Global, found: &Found) -> Result<Out, AllocError>
        ensures { IfOk result (λ o. Is o self.new (cancel_spec self.old (seen found.now))) }
    {
        match found {
            Found::TheRequest(r) => {
                self.cancel_request(alloc, r)?;
                Ok(Out::Plain)
            }
            Found::TheTuple(t) => {
                self.cancel_tuple(alloc, t)?;
                Ok(Out::Plain)
            }
            Found::TheNotifier(n) => {
                self.cancel_notifier(alloc, n)?;
                Ok(Out::Plain)
            }
            Found::HasEnded(_, _) => Ok(Out::Plain),
            Found::IsRecycled => Ok(Out::Recycled),
            Found::IsUnknown => Ok(Out::Unknown),
        }
    }

    fn cancel_tuple(&mut self, alloc: Global, t: &Entry) -> Result<(), AllocError>
        ensures { OnOk result (self.new ≡ cancel_tuple_spec self.old t.now t.now.holder) }
    {
        match t.holder {
            Some(_) => self.change_tuple(alloc, t.id, &TupleChange::Mark),
            None => self.end_tuple(alloc, Last::Canceled, t),
        }
    }

    fn cancel_request(&mut self, alloc: Global, r: &Request) -> Result<(), AllocError>
        ensures { OnOk result (self.new ≡ cancel_request_spec self.old r.now r.now.state) }
    {
        match &r.state {
            RequestState::Reserved => self.change_request(alloc, r.id, &RequestChange::Mark),
            RequestState::Parked => {
                self.request_in(alloc, r.id, RequestState::Answered(Out::Canceled))
            }
            RequestState::Granted(_) => Ok(()),
            RequestState::Answered(_) => Ok(()),
        }
    }

    fn cancel_notifier(&mut self, alloc: Global, n: &Notifier) -> Result<(), AllocError>
        ensures { OnOk result (self.new ≡ cancel_notifier_spec self.old n.now n.now.state) }
    {
        match n.state {
            Hearing::Running => {
                let closed = Hearing::Closed {
                    last: Last::Canceled,
                    until: self.events.len() as u64,
                };
                self.change_notifier(alloc, n.id, &NotifierChange::Hear(closed))
            }
            Hearing::Closed { last: _, until: _ } => Ok(()),
        }
    }

    pub(crate) fn renew_with(
        &mut self,
        alloc: Global,
        deadline: Option<u64>,
        renewer: Option<Remote>,
        found: &Found,
    ) -> Result<Out, AllocError>
        ensures { IfOk result
            (λ o. Is o self.new (renew_with_spec self.old deadline renewer (seen found.now))) }
    {
        match found {
            Found::TheRequest(r) => {
                self.renew_request(alloc, deadline, renewer, r)?;
                Ok(Out::Plain)
            }
            Found::TheTuple(t) => {
                self.lease_tuple(alloc, t.id, deadline, renewer)?;
                Ok(Out::Plain)
            }
            Found::TheNotifier(n) => {
                self.renew_notifier(alloc, deadline, renewer, n)?;
                Ok(Out::Plain)
            }
            Found::HasEnded(_, _) => Ok(Out::Plain),
            Found::IsRecycled => Ok(Out::Recycled),
            Found::IsUnknown => Ok(Out::Unknown),
        }
    }

    fn renew_request(
        &mut self,
        alloc: Global,
        deadline: Option<u64>,
        renewer: Option<Remote>,
        r: &Request,
    ) -> Result<(), AllocError>
        ensures { OnOk result
            (self.new ≡ renew_request_spec self.old deadline renewer r.now r.now.state) }
    {
        match &r.state {
            RequestState::Reserved => self.lease_request(alloc, r.id, deadline, renewer),
            RequestState::Parked => self.lease_request(alloc, r.id, deadline, renewer),
            RequestState::Granted(_) => Ok(()),
            RequestState::Answered(_) => Ok(()),
        }
    }

    fn renew_notifier(
        &mut self,
        alloc: Global,
        deadline: Option<u64>,
        renewer: Option<Remote>,
        n: &Notifier,
    ) -> Result<(), AllocError>
        ensures { OnOk result
            (self.new ≡ renew_notifier_spec self.old deadline renewer n.now n.now.state) }
    {
        match n.state {
            Hearing::Running => self.lease_notifier(alloc, n.id, deadline, renewer),
            Hearing::Closed { last: _, until: _ } => Ok(()),
        }
    }

    /// The tuple has that deadline and that renewer, and no doubt.
    fn lease_tuple(
        &mut self,
        alloc: Global,
        id: u64,
        deadline: Option<u64>,
        renewer: Option<Remote>,
    ) -> Result<(), AllocError>
        ensures { OnOk result (self.new ≡ with_tuple id (renewed_tuple deadline renewer) self.old) }
    {
        let change = TupleChange::Renew(deadline, renewer);
        let done = self.change_tuple(alloc, id, &change);
        drop(change);
        done
    }

    /// The request has that deadline and that renewer, and no doubt.
    fn lease_request(
        &mut self,
        alloc: Global,
        id: u64,
        deadline: Option<u64>,
        renewer: Option<Remote>,
    ) -> Result<(), AllocError>
        ensures { OnOk result
            (self.new ≡ with_request id (renewed_request deadline renewer) self.old) }
    {
        let change = RequestChange::Renew(deadline, renewer);
        let done = self.change_request(alloc, id, &change);
        drop(change);
        done
    }

    /// The notifier has that deadline and that renewer, and no doubt.
    fn lease_notifier(
        &mut self,
        alloc: Global,
        id: u64,
        deadline: Option<u64>,
        renewer: Option<Remote>,
    ) -> Result<(), AllocError>
        ensures { OnOk result
            (self.new ≡ with_notifier id (renewed_notifier deadline renewer) self.old) }
    {
        let change = NotifierChange::Renew(deadline, renewer);
        let done = self.change_notifier(alloc, id, &change);
        drop(change);
        done
    }

    pub(crate) fn look(&self, found: &Found) -> Out
        ensures { Is result self.now (look_spec self.now (seen found.now)) }
    {
        match found {
            Found::TheRequest(r) => Out::State(flags::request_flags(self.clock, r)),
            Found::TheTuple(t) => Out::State(flags::tuple_flags(self.clock, t)),
            Found::TheNotifier(n) => Out::State(flags::notifier_flags(self.clock, n)),
            Found::HasEnded(_, last) => Out::State(flags::ended_flags(*last)),
            Found::IsRecycled => Out::Recycled,
            Found::IsUnknown => Out::Unknown,
        }
    }

    pub(crate) fn value(&self, alloc: Global, found: &Found) -> Result<Out, AllocError>
        ensures { IfOk result (λ o. Is o self.now (value_spec self.now (seen found.now))) }
    {
        match found {
            Found::TheRequest(_) => Ok(Out::WrongKind),
            Found::TheTuple(t) => Ok(Out::Answer(t.value.to_value(alloc)?)),
            Found::TheNotifier(_) => Ok(Out::WrongKind),
            Found::HasEnded(kind, _) => Ok(value_ended(*kind)),
            Found::IsRecycled => Ok(Out::Recycled),
            Found::IsUnknown => Ok(Out::Unknown),
        }
    }

    pub(crate) fn told(
        &mut self,
        alloc: Global,
        deadline: Option<u64>,
        found: &Found,
    ) -> Result<Out, AllocError>
        ensures { IfOk result (λ o. Is o self.new (told_spec self.old deadline (seen found.now))) }
    {
        match found {
            Found::TheRequest(r) => {
                self.told_request(alloc, deadline, r)?;
                Ok(Out::Plain)
            }
            Found::TheTuple(t) => {
                self.told_tuple(alloc, deadline, t)?;
                Ok(Out::Plain)
            }
            Found::TheNotifier(n) => {
                self.told_notifier(alloc, deadline, n)?;
                Ok(Out::Plain)
            }
            Found::HasEnded(_, _) => Ok(Out::Plain),
            Found::IsRecycled => Ok(Out::Recycled),
            Found::IsUnknown => Ok(Out::Unknown),
        }
    }

    fn told_tuple(
        &mut self,
        alloc: Global,
        deadline: Option<u64>,
        t: &Entry,
    ) -> Result<(), AllocError>
        ensures { OnOk result (self.new ≡ told_tuple_spec self.old deadline t.now) }
    {
        if is_asked(t.doubt) {
            self.tell_tuple(alloc, deadline, t)
        } else {
            Ok(())
        }
    }

    fn tell_tuple(
        &mut self,
        alloc: Global,
        deadline: Option<u64>,
        t: &Entry,
    ) -> Result<(), AllocError>
        ensures { OnOk result
            (self.new ≡ with_tuple t.now.id
            (renewed_tuple deadline (renewer_of_spec deadline t.now.renewer self.old.clock))
            self.old) }
    {
        let renewer = renewer_for(alloc, deadline, &t.renewer, self.clock)?;
        self.lease_tuple(alloc, t.id, deadline, renewer)
    }

    fn told_request(
        &mut self,
        alloc: Global,
        deadline: Option<u64>,
        r: &Request,
    ) -> Result<(), AllocError>
        ensures { OnOk result (self.new ≡ told_request_spec self.old deadline r.now) }
    {
        if is_asked(r.doubt) {
            self.tell_request(alloc, deadline, r)
        } else {
            Ok(())
        }
    }

    fn tell_request(
        &mut self,
        alloc: Global,
        deadline: Option<u64>,
        r: &Request,
    ) -> Result<(), AllocError>
        ensures { OnOk result
            (self.new ≡ with_request r.now.id
            (renewed_request deadline (renewer_of_spec deadline r.now.renewer self.old.clock))
            self.old) }
    {
        let renewer = renewer_for(alloc, deadline, &r.renewer, self.clock)?;
        self.lease_request(alloc, r.id, deadline, renewer)
    }

    fn told_notifier(
        &mut self,
        alloc: Global,
        deadline: Option<u64>,
        n: &Notifier,
    ) -> Result<(), AllocError>
        ensures { OnOk result (self.new ≡ told_notifier_spec self.old deadline n.now) }
    {
        if is_asked(n.doubt) {
            self.tell_notifier(alloc, deadline, n)
        } else {
            Ok(())
        }
    }

    fn tell_notifier(
        &mut self,
        alloc: Global,
        deadline: Option<u64>,
        n: &Notifier,
    ) -> Result<(), AllocError>
        ensures { OnOk result
            (self.new ≡ with_notifier n.now.id
            (renewed_notifier deadline (renewer_of_spec deadline n.now.renewer self.old.clock))
            self.old) }
    {
        let renewer = renewer_for(alloc, deadline, &n.renewer, self.clock)?;
        self.lease_notifier(alloc, n.id, deadline, renewer)
    }
}

/// A copy of the renewer, where it is asked for more from now on.
pub(crate) fn renewer_for(
    alloc: Global,
    deadline: Option<u64>,
    renewer: &Option<Remote>,
    now: u64,
) -> Result<Option<Remote>, AllocError>
    ensures { IfOk result (λ x. x ≡ renewer_of_spec deadline renewer.now now) }
{
    let copied = copy_renewer(alloc, renewer)?;
    Ok(renewer_of(deadline, copied, now))
}

fn is_asked(doubt: Doubt) -> bool
    ensures { result ≡ is_asked_spec doubt }
{
    match doubt {
        Doubt::No => false,
        Doubt::Waiting => false,
        Doubt::Asked => true,
    }
}

fn pop_ended(kind: ObjectKind) -> Out
    ensures { result ≡ pop_ended_spec kind }
{
    match kind {
        ObjectKind::Entry => Out::WrongKind,
        ObjectKind::Request => Out::WrongKind,
        ObjectKind::Notifier => Out::Expired,
    }
}

fn value_ended(kind: ObjectKind) -> Out
    ensures { result ≡ value_ended_spec kind }
{
    match kind {
        ObjectKind::Entry => Out::Answer(Value::nil()),
        ObjectKind::Request => Out::WrongKind,
        ObjectKind::Notifier => Out::WrongKind,
    }
}
