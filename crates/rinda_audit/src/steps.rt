//! Whether a turn may come next, and what it leaves.

ghost use Rattle.std.specs.Prelude.{◌≡◌, ◌↔◌, ◌&&◌, Some, IsTrue, IfOk, OnErr, is_none, if◌then◌else◌};
ghost use Rattle.rinda_rules.specs.Space.{found as found_spec};
ghost use Rattle.rinda_rules.specs.Phases.{aged as aged_spec};
ghost use Rattle.rinda_rules.specs.Cases.{askings, least, outcome as outcome_spec};
ghost use Rattle.rinda_rules.specs.Steps.{matched as matched_spec, chooser as chooser_spec};
ghost use Rattle.rinda_rules.specs.Nothing.{waits_for as waits_for_spec, hears_nothing as hears_nothing_spec, finds_nothing as finds_nothing_spec};
ghost use Rattle.rinda_rules.specs.Fixed.{picks_serve, picks_fit_case, case_with, after};
ghost use Rattle.rinda_audit.specs.Finds.{seen};
ghost use Rattle.rinda_audit.specs.Replays.{IsStep, TellsId, HasRoom, case_after};

use crate::equality::is_same_out;
use crate::found::Found;
use crate::queue::is_empty;
use crate::row::{is_parked, is_reserved, is_running};
use crate::state::Replay;
use rinda_rules::plain::{Entry, Request};
use rinda_rules::{Event, Out, Pick, Turn};
use std::alloc::{AllocError, Global};

impl Replay {
    /// Replays one turn: true exactly where the turn, with its answer and its picks, is a step from here and not
    /// nothing, and the space is then the next one. Otherwise the space stays as it was.
    ///
    /// Errors: only want of memory, which leaves the space as it was.
    /// Source: docs/SPACE.md, Phases and Nothing.
    pub fn step(&mut self, alloc: Global, turn: &Turn) -> Result<bool, AllocError>
        ensures yes { IfOk result (λ b. IsTrue b ↔ IsStep self.old turn.now) }
        ensures next { IfOk result
            (λ b. self.new ≡ (if b then after self.old turn.now else self.old)) }
        ensures err { OnErr result (self.new ≡ self.old) }
    {
        let mut next = self.copy(alloc)?;
        if !next.replay(alloc, turn)? {
            return Ok(false);
        }
        *self = next;
        Ok(true)
    }

    /// Replays one turn as `step` does, for a caller that goes on only after a yes: it copies no space, and after a no
    /// or an error nothing is said of the space.
    ///
    /// Errors: only want of memory.
    /// Source: docs/SPACE.md, Phases and Nothing.
    pub fn replay(&mut self, alloc: Global, turn: &Turn) -> Result<bool, AllocError>
        ensures yes { IfOk result (λ b. IsTrue b ↔ IsStep self.old turn.now) }
        ensures next { IfOk result (λ b. IsTrue b → self.new ≡ after self.old turn.now) }
    {
        let quiet = self.finds_nothing(alloc, turn.caller, &turn.event)?;
        self.advance(turn.at);
        if self.nothing_due() && quiet {
            return Ok(false);
        }
        self.age(alloc)?;
        if !self.tells_id(&turn.event, &turn.out) {
            return Ok(false);
        }
        self.play(
            alloc,
            turn.caller,
            &turn.event,
            &turn.out,
            turn.picks.as_slice(),
        )
    }

    /// The event's own case and what follows it, with these picks and this answer.
    fn play(
        &mut self,
        alloc: Global,
        caller: u64,
        event: &Event,
        out: &Out,
        picks: &[Pick],
    ) -> Result<bool, AllocError>
        requires room { HasRoom self.old event.now }
        ensures fits { IfOk result
            (λ b. IsTrue b ↔ (IsTrue
            (picks_fit_case self.old caller event.now (chooser_spec self.old caller event.now)
            picks.now) × (out.now
            ≡ (case_with self.old caller event.now (chooser_spec self.old caller event.now)
            picks.now).out))) }
        ensures after { IfOk result
            (λ b. IsTrue b → self.new
            ≡ (case_with self.old caller event.now (chooser_spec self.old caller event.now)
            picks.now).after) }
    {
        match self.chooser(alloc, caller, event)? {
            None => self.play_on(alloc, caller, event, &None, out, picks),
            Some(r) => self.play_choice(alloc, caller, event, &r, out, picks),
        }
    }

    /// The first pick is the match of the request that is submitted.
    fn play_choice(
        &mut self,
        alloc: Global,
        caller: u64,
        event: &Event,
        r: &Request,
        out: &Out,
        picks: &[Pick],
    ) -> Result<bool, AllocError>
        requires room { HasRoom self.old event.now }
        ensures fits { IfOk result
            (λ b. IsTrue b ↔ (IsTrue
            (picks_fit_case self.old caller event.now (Some r.now) picks.now)
            × (out.now ≡ (case_with self.old caller event.now (Some r.now) picks.now).out))) }
        ensures after { IfOk result
            (λ b. IsTrue b → self.new
            ≡ (case_with self.old caller event.now (Some r.now) picks.now).after) }
    {
        match picks {
            [] => Ok(false),
            [pick, rest @ ..] => {
                if !self.is_match(alloc, r, *pick)? {
                    return Ok(false);
                }
                let choice = self.tuple_at(alloc, pick.tuple)?;
                self.play_on(alloc, caller, event, &choice, out, rest)
            }
        }
    }

    /// The case with that choice, then aging, then serving.
    fn play_on(
        &mut self,
        alloc: Global,
        caller: u64,
        event: &Event,
        choice: &Option<Entry>,
        out: &Out,
        picks: &[Pick],
    ) -> Result<bool, AllocError>
        requires room { HasRoom self.old event.now }
        ensures fits { IfOk result
            (λ b. IsTrue b ↔ (IsTrue
            (picks_serve (aged_spec (outcome_spec self.old caller event.now choice.now).after)
            picks.now) × (out.now ≡ (outcome_spec self.old caller event.now choice.now).out))) }
        ensures after { IfOk result
            (λ b. IsTrue b → self.new
            ≡ (case_after self.old caller event.now choice.now picks.now).after) }
    {
        if !self.tells(alloc, caller, event, choice, out)? {
            return Ok(false);
        }
        self.age(alloc)?;
        self.serve(alloc, picks)
    }

    /// The event's own case, and whether this is its answer.
    fn tells(
        &mut self,
        alloc: Global,
        caller: u64,
        event: &Event,
        choice: &Option<Entry>,
        out: &Out,
    ) -> Result<bool, AllocError>
        requires room { HasRoom self.old event.now }
        ensures out { IfOk result
            (λ b. IsTrue b ↔ (out.now ≡ (outcome_spec self.old caller event.now choice.now).out)) }
        ensures after { IfOk result
            (λ _. self.new ≡ (outcome_spec self.old caller event.now choice.now).after) }
    {
        let told = self.outcome(alloc, caller, event, choice)?;
        let same = is_same_out(out, &told);
        drop(told);
        Ok(same)
    }

    /// The request for which the event's own case picks a match.
    fn chooser(
        &self,
        alloc: Global,
        caller: u64,
        event: &Event,
    ) -> Result<Option<Request>, AllocError>
        ensures { IfOk result (λ r. r ≡ chooser_spec self.now caller event.now) }
    {
        match event {
            Event::Submit { id } => self.matched(alloc, caller, *id),
            _ => Ok(None),
        }
    }

    fn matched(&self, alloc: Global, caller: u64, id: u64) -> Result<Option<Request>, AllocError>
        ensures { IfOk result (λ r. r ≡ matched_spec self.now caller (found_spec self.now id)) }
    {
        match self.found(alloc, id)? {
            Found::TheRequest(r) => Ok(self.where_matched(caller, r)),
            found => {
                drop(found);
                Ok(None)
            }
        }
    }

    fn where_matched(&self, caller: u64, r: Request) -> Option<Request>
        ensures { result ≡ matched_spec self.now caller (seen (Found.TheRequest r)) }
    {
        if r.caller == caller && (is_reserved(&r.state) && self.has_match(&r)) {
            Some(r)
        } else {
            drop(r);
            None
        }
    }

    fn finds_nothing(&self, alloc: Global, caller: u64, event: &Event) -> Result<bool, AllocError>
        ensures { IfOk result (λ b. b ≡ finds_nothing_spec self.now caller event.now) }
    {
        match event {
            Event::Collect { id } => self.collects_nothing(alloc, caller, *id),
            Event::Pop { id } => self.pops_nothing(alloc, *id),
            Event::NextAsk => self.asks_nobody(alloc),
            Event::Tick => Ok(true),
            Event::Shut => Ok(self.shut),
            _ => Ok(false),
        }
    }

    fn collects_nothing(&self, alloc: Global, caller: u64, id: u64) -> Result<bool, AllocError>
        ensures { IfOk result (λ b. b ≡ waits_for_spec caller (found_spec self.now id)) }
    {
        let found = self.found(alloc, id)?;
        let nothing = waits_for(caller, &found);
        drop(found);
        Ok(nothing)
    }

    fn pops_nothing(&self, alloc: Global, id: u64) -> Result<bool, AllocError>
        ensures { IfOk result (λ b. b ≡ hears_nothing_spec self.now (found_spec self.now id)) }
    {
        let found = self.found(alloc, id)?;
        let nothing = self.hears_nothing(alloc, &found);
        drop(found);
        nothing
    }

    /// No renewer has to be asked.
    fn asks_nobody(&self, alloc: Global) -> Result<bool, AllocError>
        ensures { IfOk result (λ b. b ≡ is_none (least (askings self.now))) }
    {
        let least = self.least_asking(alloc)?;
        Ok(least.is_none())
    }

    /// The answer has the next id where the event makes an object, or is Shut.
    fn tells_id(&self, event: &Event, out: &Out) -> bool
        ensures tells { IsTrue result ↔ TellsId self.now.shut self.now.next event.now out.now }
        ensures room { IsTrue result → HasRoom self.now event.now }
    {
        match event {
            Event::Write { value: _, lease: _ } => {
                if self.shut {
                    return matches!(out, Out::Shut);
                }
                matches!(out, Out::Entry(id) if *id as u128 == self.next)
            }
            Event::Reserve {
                kind: _,
                pattern: _,
                lease: _,
            } => {
                if self.shut {
                    return matches!(out, Out::Shut);
                }
                matches!(out, Out::Reserved(id) if *id as u128 == self.next)
            }
            Event::Notify {
                event: _,
                pattern: _,
                lease: _,
            } => {
                if self.shut {
                    return matches!(out, Out::Shut);
                }
                matches!(out, Out::Notifier(id) if *id as u128 == self.next)
            }
            _ => true,
        }
    }

    fn hears_nothing(&self, alloc: Global, found: &Found) -> Result<bool, AllocError>
        ensures { IfOk result (λ b. b ≡ hears_nothing_spec self.now (seen found.now)) }
    {
        match found {
            Found::TheNotifier(n) => {
                let empty = is_empty(alloc, n, self.events.as_slice())?;
                Ok(is_running(n.state) && empty)
            }
            _ => Ok(false),
        }
    }
}

fn waits_for(caller: u64, found: &Found) -> bool
    ensures { result ≡ waits_for_spec caller (seen found.now) }
{
    match found {
        Found::TheRequest(r) => r.caller == caller && is_parked(&r.state),
        _ => false,
    }
}
