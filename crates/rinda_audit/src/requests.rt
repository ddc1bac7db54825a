//! Write and Reserve, and what a request's own caller makes of it: Submit, Collect and Settle.

ghost use Rattle.std.specs.Prelude.{◌≡◌, ◌+◌, ◌<◌, ◌^◌, false, OnOk, IfOk, Some};
ghost use Rattle.rinda_rules.specs.Space.{tuple_at as tuple_at_spec};
ghost use Rattle.rinda_rules.specs.Cases.{minted, written as written_spec, written_over as written_over_spec, write_tuple as write_tuple_spec, write as write_spec, reserve as reserve_spec, submit_unmatched as submit_unmatched_spec, submit_matched as submit_matched_spec, submit as submit_spec, collect_served as collect_served_spec, value_at as value_at_spec, collect as collect_spec, let_go as let_go_spec, settle_tuple as settle_tuple_spec, settle as settle_spec, on_own};
ghost use Rattle.rinda_audit.specs.Finds.{seen};
ghost use Rattle.rinda_audit.specs.Replays.{Is};

use crate::changes::TupleChange;
use crate::flags::last_of;
use crate::found::Found;
use crate::fresh::{all_read_by, new_request, new_tuple};
use crate::row::is_over;
use crate::state::Replay;
use drb_value::Value;
use rinda_rules::plain::{Entry, Happening, Request};
use rinda_rules::{Kind, Last, ObjectKind, Out, RequestState};
use rinda_tuple::{Lease, Template, Tuple};
use std::alloc::{AllocError, Global};

impl Replay {
    /// Takes the next id.
    pub(crate) fn mint(&mut self)
        requires { self.old.next < 2 ^ 64 }
        ensures { self.new ≡ minted self.old }
    {
        self.next += 1;
    }

    /// Writes a tuple.
    pub(crate) fn write(
        &mut self,
        alloc: Global,
        value: &Tuple,
        lease: &Lease,
    ) -> Result<Out, AllocError>
        requires { self.old.shut ≡ false → self.old.next < 2 ^ 64 }
        ensures { IfOk result (λ o. Is o self.new (write_spec self.old value.now lease.now)) }
    {
        if self.shut {
            return Ok(Out::Shut);
        }
        let id = self.next as u64;
        let t = new_tuple(alloc, id, self.clock, value, lease)?;
        self.write_tuple(alloc, t)?;
        Ok(Out::Entry(id))
    }

    fn write_tuple(&mut self, alloc: Global, t: Entry) -> Result<(), AllocError>
        requires { self.old.next < 2 ^ 64 }
        ensures { OnOk result (self.new ≡ write_tuple_spec self.old t) }
    {
        self.mint();
        if is_over(self.clock, t.deadline) {
            self.write_over(alloc, &t)
        } else {
            self.write_in(alloc, t)
        }
    }

    fn write_over(&mut self, alloc: Global, t: &Entry) -> Result<(), AllocError>
        ensures { OnOk result (self.new ≡ written_over_spec t.now self.old) }
    {
        self.requests = all_read_by(alloc, self.requests.as_slice(), &t.value)?;
        self.raise(alloc, Happening::Write, t)?;
        self.raise(alloc, Happening::Delete, t)?;
        self.end(alloc, ObjectKind::Entry, t.id, Last::Expired)
    }

    fn write_in(&mut self, alloc: Global, t: Entry) -> Result<(), AllocError>
        ensures { OnOk result (self.new ≡ written_spec t self.old) }
    {
        self.raise(alloc, Happening::Write, &t)?;
        self.tuples.push(t)?;
        Ok(())
    }

    /// Makes a request.
    pub(crate) fn reserve(
        &mut self,
        alloc: Global,
        caller: u64,
        kind: Kind,
        pattern: &Template,
        lease: &Lease,
    ) -> Result<Out, AllocError>
        requires { self.old.shut ≡ false → self.old.next < 2 ^ 64 }
        ensures { IfOk result
            (λ o. Is o self.new (reserve_spec self.old caller kind pattern.now lease.now)) }
    {
        if self.shut {
            return Ok(Out::Shut);
        }
        let id = self.next as u64;
        let r = new_request(alloc, id, self.clock, caller, kind, pattern, lease)?;
        self.requests.push(r)?;
        self.mint();
        Ok(Out::Reserved(id))
    }

    /// The caller's own request is served at once, or waits.
    pub(crate) fn on_submit(
        &mut self,
        alloc: Global,
        caller: u64,
        found: &Found,
        choice: &Option<Entry>,
    ) -> Result<Out, AllocError>
        ensures { IfOk result
            (λ o. Is o self.new (on_own self.old caller
            (λ r. submit_spec self.old r choice.now r.state) (seen found.now))) }
    {
        match found {
            Found::TheRequest(r) => {
                if r.caller == caller {
                    self.submit(alloc, r, choice)
                } else {
                    Ok(Out::WrongKind)
                }
            }
            Found::TheTuple(_) => Ok(Out::WrongKind),
            Found::TheNotifier(_) => Ok(Out::WrongKind),
            Found::HasEnded(_, _) => Ok(Out::WrongKind),
            Found::IsRecycled => Ok(Out::Recycled),
            Found::IsUnknown => Ok(Out::Unknown),
        }
    }

    fn submit(
        &mut self,
        alloc: Global,
        r: &Request,
        choice: &Option<Entry>,
    ) -> Result<Out, AllocError>
        ensures { IfOk result
            (λ o. Is o self.new (submit_spec self.old r.now choice.now r.now.state)) }
    {
        match &r.state {
            RequestState::Reserved => self.submit_matched(alloc, r, choice),
            RequestState::Parked => Ok(Out::WrongKind),
            RequestState::Granted(_) => Ok(Out::WrongKind),
            RequestState::Answered(_) => Ok(Out::WrongKind),
        }
    }

    fn submit_matched(
        &mut self,
        alloc: Global,
        r: &Request,
        choice: &Option<Entry>,
    ) -> Result<Out, AllocError>
        ensures { IfOk result (λ o. Is o self.new (submit_matched_spec self.old r.now choice.now)) }
    {
        match choice {
            None => self.submit_unmatched(alloc, r),
            Some(t) => {
                self.serve_with(alloc, r, t)?;
                self.collect_served(alloc, r, t)
            }
        }
    }

    fn collect_served(&mut self, alloc: Global, r: &Request, t: &Entry) -> Result<Out, AllocError>
        ensures { IfOk result
            (λ o. Is o self.new (collect_served_spec self.old r.now t.now r.now.kind)) }
    {
        match r.kind {
            Kind::Read => {
                self.end_request(alloc, Last::Done, r.id)?;
                Ok(Out::Answer(t.value.to_value(alloc)?))
            }
            Kind::Take => {
                self.end_request(alloc, Last::Done, r.id)?;
                Ok(Out::Answer(t.value.to_value(alloc)?))
            }
            Kind::Move => Ok(Out::Granted(r.id, t.value.to_value(alloc)?)),
        }
    }

    fn submit_unmatched(&mut self, alloc: Global, r: &Request) -> Result<Out, AllocError>
        ensures { IfOk result (λ o. Is o self.new (submit_unmatched_spec self.old r.now)) }
    {
        if r.marked {
            self.end_request(alloc, Last::Canceled, r.id)?;
            return Ok(Out::Canceled);
        }
        if is_over(self.clock, r.deadline) && r.renewer.is_none() {
            self.end_request(alloc, Last::Expired, r.id)?;
            return Ok(Out::Expired);
        }
        self.request_in(alloc, r.id, RequestState::Parked)?;
        Ok(Out::Parked(r.id))
    }

    /// The answer of the caller's own request.
    pub(crate) fn on_collect(
        &mut self,
        alloc: Global,
        caller: u64,
        found: &Found,
    ) -> Result<Out, AllocError>
        ensures { IfOk result
            (λ o. Is o self.new (on_own self.old caller (λ r. collect_spec self.old r r.state)
            (seen found.now))) }
    {
        match found {
            Found::TheRequest(r) => {
                if r.caller == caller {
                    self.collect(alloc, r)
                } else {
                    Ok(Out::WrongKind)
                }
            }
            Found::TheTuple(_) => Ok(Out::WrongKind),
            Found::TheNotifier(_) => Ok(Out::WrongKind),
            Found::HasEnded(_, _) => Ok(Out::WrongKind),
            Found::IsRecycled => Ok(Out::Recycled),
            Found::IsUnknown => Ok(Out::Unknown),
        }
    }

    pub(crate) fn collect(&mut self, alloc: Global, r: &Request) -> Result<Out, AllocError>
        ensures { IfOk result (λ o. Is o self.new (collect_spec self.old r.now r.now.state)) }
    {
        match &r.state {
            RequestState::Reserved => Ok(Out::WrongKind),
            RequestState::Parked => Ok(Out::NotYet),
            RequestState::Granted(tuple) => {
                Ok(Out::Granted(r.id, self.value_held(alloc, *tuple)?))
            }
            RequestState::Answered(out) => {
                self.end_request(alloc, last_of(out), r.id)?;
                out.copy(alloc)
            }
        }
    }

    fn value_held(&self, alloc: Global, tuple: u64) -> Result<Value, AllocError>
        ensures { IfOk result (λ v. v ≡ value_at_spec (tuple_at_spec self.now tuple)) }
    {
        match self.tuple_at(alloc, tuple)? {
            None => Ok(Value::nil()),
            Some(t) => t.value.to_value(alloc),
        }
    }

    /// Whether the tuple that the caller's own request holds has arrived.
    pub(crate) fn on_settle(
        &mut self,
        alloc: Global,
        caller: u64,
        found: &Found,
        ok: bool,
    ) -> Result<Out, AllocError>
        ensures { IfOk result
            (λ o. Is o self.new (on_own self.old caller (λ r. settle_spec self.old r ok r.state)
            (seen found.now))) }
    {
        match found {
            Found::TheRequest(r) => {
                if r.caller == caller {
                    self.settle(alloc, r, ok)
                } else {
                    Ok(Out::WrongKind)
                }
            }
            Found::TheTuple(_) => Ok(Out::WrongKind),
            Found::TheNotifier(_) => Ok(Out::WrongKind),
            Found::HasEnded(_, _) => Ok(Out::WrongKind),
            Found::IsRecycled => Ok(Out::Recycled),
            Found::IsUnknown => Ok(Out::Unknown),
        }
    }

    fn settle(&mut self, alloc: Global, r: &Request, ok: bool) -> Result<Out, AllocError>
        ensures { IfOk result (λ o. Is o self.new (settle_spec self.old r.now ok r.now.state)) }
    {
        match &r.state {
            RequestState::Reserved => Ok(Out::WrongKind),
            RequestState::Parked => Ok(Out::WrongKind),
            RequestState::Granted(tuple) => {
                self.settle_tuple(alloc, ok, *tuple)?;
                self.end_request(alloc, Last::Done, r.id)?;
                Ok(Out::Plain)
            }
            RequestState::Answered(_) => Ok(Out::WrongKind),
        }
    }

    fn settle_tuple(&mut self, alloc: Global, ok: bool, tuple: u64) -> Result<(), AllocError>
        ensures { OnOk result
            (self.new ≡ settle_tuple_spec ok (tuple_at_spec self.old tuple) self.old) }
    {
        match self.tuple_at(alloc, tuple)? {
            None => Ok(()),
            Some(t) => self.settle_row(alloc, ok, &t),
        }
    }

    fn settle_row(&mut self, alloc: Global, ok: bool, t: &Entry) -> Result<(), AllocError>
        ensures { OnOk result (self.new ≡ settle_tuple_spec ok (Some t.now) self.old) }
    {
        if ok {
            self.end_tuple(alloc, Last::Taken, t)
        } else {
            self.let_go(alloc, t)
        }
    }

    /// The tuple that was held is free, or ends where it was canceled meanwhile.
    pub(crate) fn let_go(&mut self, alloc: Global, t: &Entry) -> Result<(), AllocError>
        ensures { OnOk result (self.new ≡ let_go_spec t.now self.old) }
    {
        if t.marked {
            self.end_tuple(alloc, Last::Canceled, t)
        } else {
            self.change_tuple(alloc, t.id, &TupleChange::Free)
        }
    }
}
