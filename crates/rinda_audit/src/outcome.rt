//! What each event does, between the two agings: the case table.

ghost use Rattle.std.specs.Prelude.{◌≡◌, ◌<◌, ◌^◌, false, map, filter, ◌&&◌, OnOk, IfOk};
ghost use Rattle.rinda_tuple.specs.Matching.{matches as matches_spec};
ghost use Rattle.rinda_tuple.specs.Tuples.{value_of as value_of_spec};
ghost use Rattle.rinda_rules.specs.Space.{is_live as is_live_spec, found as found_spec};
ghost use Rattle.rinda_rules.specs.Cases.{on_own, submit as submit_spec, collect as collect_spec, settle as settle_spec, withdraw as withdraw_spec, cancel as cancel_spec, look as look_spec, value as value_spec, pop as pop_spec, notify as notify_spec, renew as renew_spec, ask as ask_spec, askings, least, asked_for as asked_for_spec, told, outcome as outcome_spec};
ghost use Rattle.rinda_tuple.specs.Lives.{deadline as deadline_spec};
ghost use Rattle.rinda_audit.specs.Asks.{best_seen};
ghost use Rattle.rinda_audit.specs.Finds.{seen};
ghost use Rattle.rinda_audit.specs.Replays.{Is, HasRoom};

use crate::asking::{Asking, least_notifier, least_request, least_tuple};
use crate::changes::{NotifierChange, RequestChange, TupleChange};
use crate::found::Found;
use crate::fresh::new_notifier;
use crate::objects::renewer_for;
use crate::row::is_live;
use crate::state::Replay;
use drb_value::Value;
use rinda_rules::plain::Entry;
use rinda_rules::{Event, Out};
use rinda_tuple::{Lease, Life, Template, deadline, is_match};
use sqlite_items::Items;
use std::alloc::{AllocError, Global};

impl Replay {
    /// What the event does between the two agings, and its answer.
    ///
    /// A Submit that has a match gets that choice.
    pub(crate) fn outcome(
        &mut self,
        alloc: Global,
        caller: u64,
        event: &Event,
        choice: &Option<Entry>,
    ) -> Result<Out, AllocError>
        requires room { HasRoom self.old event.now }
        ensures { IfOk result
            (λ o. Is o self.new (outcome_spec self.old caller event.now choice.now)) }
    {
        match event {
            Event::Write { value, lease } => self.write(alloc, value, lease),
            Event::Reserve {
                kind,
                pattern,
                lease,
            } => self.reserve(alloc, caller, *kind, pattern, lease),
            Event::Submit { id } => self.submit_at(alloc, caller, *id, choice),
            Event::Collect { id } => self.collect_at(alloc, caller, *id),
            Event::Settle { id, ok } => self.settle_at(alloc, caller, *id, *ok),
            Event::Withdraw { id } => self.withdraw_at(alloc, caller, *id),
            Event::Cancel { id } => self.cancel_at(alloc, *id),
            Event::Renew { id, lease } => self.renew(alloc, *id, lease),
            Event::Look { id } => self.look_at(alloc, *id),
            Event::Value { id } => self.value_at(alloc, *id),
            Event::ReadAll { pattern } => {
                Ok(Out::All(all_of(alloc, self.clock, pattern, self.tuples.as_slice())?))
            }
            Event::Notify {
                event,
                pattern,
                lease,
            } => self.notify(alloc, event, pattern, lease),
            Event::Pop { id } => self.pop_at(alloc, *id),
            Event::NextAsk => self.ask(alloc),
            Event::Asked { id, life } => self.asked(alloc, *id, life),
            Event::Tick => Ok(Out::Plain),
            Event::Shut => self.shut(alloc),
        }
    }

    fn submit_at(
        &mut self,
        alloc: Global,
        caller: u64,
        id: u64,
        choice: &Option<Entry>,
    ) -> Result<Out, AllocError>
        ensures { IfOk result
            (λ o. Is o self.new (on_own self.old caller
            (λ r. submit_spec self.old r choice.now r.state) (found_spec self.old id))) }
    {
        let found = self.found(alloc, id)?;
        let out = self.on_submit(alloc, caller, &found, choice);
        drop(found);
        out
    }

    fn collect_at(&mut self, alloc: Global, caller: u64, id: u64) -> Result<Out, AllocError>
        ensures { IfOk result
            (λ o. Is o self.new (on_own self.old caller (λ r. collect_spec self.old r r.state)
            (found_spec self.old id))) }
    {
        let found = self.found(alloc, id)?;
        let out = self.on_collect(alloc, caller, &found);
        drop(found);
        out
    }

    fn settle_at(
        &mut self,
        alloc: Global,
        caller: u64,
        id: u64,
        ok: bool,
    ) -> Result<Out, AllocError>
        ensures { IfOk result
            (λ o. Is o self.new (on_own self.old caller (λ r. settle_spec self.old r ok r.state)
            (found_spec self.old id))) }
    {
        let found = self.found(alloc, id)?;
        let out = self.on_settle(alloc, caller, &found, ok);
        drop(found);
        out
    }

    fn withdraw_at(&mut self, alloc: Global, caller: u64, id: u64) -> Result<Out, AllocError>
        ensures { IfOk result
            (λ o. Is o self.new (withdraw_spec self.old caller (found_spec self.old id))) }
    {
        let found = self.found(alloc, id)?;
        let out = self.withdraw(alloc, caller, &found);
        drop(found);
        out
    }

    fn cancel_at(&mut self, alloc: Global, id: u64) -> Result<Out, AllocError>
        ensures { IfOk result (λ o. Is o self.new (cancel_spec self.old (found_spec self.old id))) }
    {
        let found = self.found(alloc, id)?;
        let out = self.cancel(alloc, &found);
        drop(found);
        out
    }

    fn look_at(&self, alloc: Global, id: u64) -> Result<Out, AllocError>
        ensures { IfOk result (λ o. Is o self.now (look_spec self.now (found_spec self.now id))) }
    {
        let found = self.found(alloc, id)?;
        let out = self.look(&found);
        drop(found);
        Ok(out)
    }

    fn value_at(&self, alloc: Global, id: u64) -> Result<Out, AllocError>
        ensures { IfOk result (λ o. Is o self.now (value_spec self.now (found_spec self.now id))) }
    {
        let found = self.found(alloc, id)?;
        let out = self.value(alloc, &found);
        drop(found);
        out
    }

    fn pop_at(&mut self, alloc: Global, id: u64) -> Result<Out, AllocError>
        ensures { IfOk result (λ o. Is o self.new (pop_spec self.old (found_spec self.old id))) }
    {
        let found = self.found(alloc, id)?;
        let out = self.pop(alloc, &found);
        drop(found);
        out
    }

    fn renew(&mut self, alloc: Global, id: u64, lease: &Lease) -> Result<Out, AllocError>
        ensures { IfOk result
            (λ o. Is o self.new (renew_spec self.old lease.now (found_spec self.old id))) }
    {
        let found = self.found(alloc, id)?;
        let out = self.renew_found(alloc, lease, &found);
        drop(found);
        out
    }

    fn renew_found(
        &mut self,
        alloc: Global,
        lease: &Lease,
        found: &Found,
    ) -> Result<Out, AllocError>
        ensures { IfOk result
            (λ o. Is o self.new (renew_spec self.old lease.now (seen found.now))) }
    {
        let deadline = deadline(&lease.life, self.clock);
        let renewer = renewer_for(alloc, deadline, &lease.renewer, self.clock)?;
        self.renew_with(alloc, deadline, renewer, found)
    }

    fn asked(&mut self, alloc: Global, id: u64, life: &Life) -> Result<Out, AllocError>
        ensures { IfOk result
            (λ o. Is o self.new (told self.old (deadline_spec life.now self.old.clock)
            (found_spec self.old id))) }
    {
        let found = self.found(alloc, id)?;
        let deadline = deadline(life, self.clock);
        let out = self.told(alloc, deadline, &found);
        drop(found);
        out
    }

    fn notify(
        &mut self,
        alloc: Global,
        event: &Value,
        pattern: &Template,
        lease: &Lease,
    ) -> Result<Out, AllocError>
        requires { self.old.shut ≡ false → self.old.next < 2 ^ 64 }
        ensures { IfOk result
            (λ o. Is o self.new (notify_spec self.old event.now pattern.now lease.now)) }
    {
        if self.shut {
            return Ok(Out::Shut);
        }
        let id = self.next as u64;
        let since = self.events.len() as u64;
        let n = new_notifier(alloc, id, self.clock, since, event, pattern, lease)?;
        self.notifiers.push(n)?;
        self.next += 1;
        Ok(Out::Notifier(id))
    }

    /// The row whose renewer is asked next.
    pub(crate) fn least_asking(&self, alloc: Global) -> Result<Option<Asking>, AllocError>
        ensures { IfOk result (λ a. best_seen a ≡ least (askings self.now)) }
    {
        let notifiers = self.notifiers.as_slice();
        let requests = self.requests.as_slice();
        let tuples = self.tuples.as_slice();
        let of_notifiers = least_notifier(alloc, notifiers, None)?;
        let of_both = least_request(alloc, requests, of_notifiers)?;
        least_tuple(alloc, tuples, of_both)
    }

    fn ask(&mut self, alloc: Global) -> Result<Out, AllocError>
        ensures { IfOk result (λ o. Is o self.new (ask_spec self.old (least (askings self.old)))) }
    {
        match self.least_asking(alloc)? {
            None => Ok(Out::NotYet),
            Some(a) => {
                self.ask_for(alloc, a.id)?;
                Ok(Out::Ask(a.id, a.renewer))
            }
        }
    }

    fn ask_for(&mut self, alloc: Global, id: u64) -> Result<(), AllocError>
        ensures { OnOk result (self.new ≡ asked_for_spec id self.old) }
    {
        self.change_notifier(alloc, id, &NotifierChange::Ask)?;
        self.change_request(alloc, id, &RequestChange::Ask)?;
        self.change_tuple(alloc, id, &TupleChange::Ask)
    }
}

/// The live tuples that the pattern matches, as a caller sees them.
fn all_of(
    alloc: Global,
    now: u64,
    pattern: &Template,
    tuples: &[Entry],
) -> Result<Items<Value>, AllocError>
    ensures { IfOk result
        (λ all. all ≡ map (λ t. value_of_spec t.value)
        (filter (λ t. matches_spec pattern.now t.value && is_live_spec now t) tuples.now)) }
{
    let mut all = Items::new(alloc);
    for t in tuples {
        if is_match(pattern, &t.value) && is_live(now, t) {
            all.push(t.value.to_value(alloc)?)?;
        }
    }
    Ok(all)
}
