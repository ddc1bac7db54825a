//! Serve: which picks may be made, and what they do.

ghost use Rattle.std.specs.Prelude.{◌≡◌, OnOk, IfOk, IsTrue, Some};
ghost use Rattle.rinda_tuple.specs.Tuples.{value_of as value_of_spec};
ghost use Rattle.rinda_rules.specs.Space.{tuple_at as tuple_at_spec, has_match as has_match_spec, can_be_served as can_be_served_spec};
ghost use Rattle.rinda_rules.specs.Phases.{read_waits as read_waits_spec, nobody_waits as nobody_waits_spec, is_match as is_match_spec, may_serve as may_serve_spec, may_serve_row as may_serve_row_spec, served_rows, served as served_spec, served_with as served_with_spec, request_in as request_in_spec};
ghost use Rattle.rinda_rules.specs.Fixed.{served_all, picks_serve};

use crate::changes::TupleChange;
use crate::row::{is_read, is_waiting, may_have};
use crate::state::Replay;
use rinda_rules::plain::{Entry, Request};
use rinda_rules::{Kind, Last, Out, Pick, RequestState};
use rinda_tuple::Tuple;
use std::alloc::{AllocError, Global};

impl Replay {
    pub(crate) fn has_match(&self, r: &Request) -> bool
        ensures { result ≡ has_match_spec self.now r.now }
    {
        self.tuples.iter().any(|t| may_have(self.clock, r, t))
    }

    pub(crate) fn can_be_served(&self, r: &Request) -> bool
        ensures { result ≡ can_be_served_spec self.now r.now }
    {
        is_waiting(r) && self.has_match(r)
    }

    pub(crate) fn read_waits(&self) -> bool
        ensures { result ≡ read_waits_spec self.now }
    {
        self.requests
            .iter()
            .any(|r| is_read(r.kind) && self.can_be_served(r))
    }

    pub(crate) fn nobody_waits(&self) -> bool
        ensures { result ≡ nobody_waits_spec self.now }
    {
        self.requests.iter().all(|r| !self.can_be_served(r))
    }

    /// The pick is a match of that request.
    pub(crate) fn is_match(
        &self,
        alloc: Global,
        r: &Request,
        pick: Pick,
    ) -> Result<bool, AllocError>
        ensures { IfOk result (λ b. b ≡ is_match_spec self.now r.now pick) }
    {
        Ok(match self.tuple_at(alloc, pick.tuple)? {
            None => false,
            Some(t) => pick.request == r.id && may_have(self.clock, r, &t),
        })
    }

    fn may_serve(&self, alloc: Global, pick: Pick) -> Result<bool, AllocError>
        ensures { IfOk result (λ b. b ≡ may_serve_spec self.now pick) }
    {
        match self.request_at(alloc, pick.request)? {
            None => Ok(false),
            Some(r) => {
                let may = self.may_serve_row(alloc, &r, pick);
                drop(r);
                may
            }
        }
    }

    fn may_serve_row(&self, alloc: Global, r: &Request, pick: Pick) -> Result<bool, AllocError>
        ensures { IfOk result (λ b. b ≡ may_serve_row_spec self.now pick (Some r.now)) }
    {
        let matches = self.is_match(alloc, r, pick)?;
        Ok(is_waiting(r) && (matches && (is_read(r.kind) || !self.read_waits())))
    }

    /// A request reads, takes or holds a tuple.
    pub(crate) fn serve_with(
        &mut self,
        alloc: Global,
        r: &Request,
        t: &Entry,
    ) -> Result<(), AllocError>
        ensures { OnOk result (self.new ≡ served_with_spec r.now t.now self.old) }
    {
        match r.kind {
            Kind::Read => self.answer_with(alloc, r.id, &t.value),
            Kind::Take => {
                self.end_tuple(alloc, Last::Taken, t)?;
                self.answer_with(alloc, r.id, &t.value)
            }
            Kind::Move => {
                self.change_tuple(alloc, t.id, &TupleChange::Hold(r.id))?;
                self.request_in(alloc, r.id, RequestState::Granted(t.id))
            }
        }
    }

    fn answer_with(&mut self, alloc: Global, id: u64, tuple: &Tuple) -> Result<(), AllocError>
        ensures { OnOk result
            (self.new ≡ request_in_spec id
            (RequestState.Answered (Out.Answer (value_of_spec tuple.now))) self.old) }
    {
        let answer = RequestState::Answered(Out::Answer(tuple.to_value(alloc)?));
        self.request_in(alloc, id, answer)
    }

    fn serve_pick(&mut self, alloc: Global, pick: Pick) -> Result<(), AllocError>
        ensures { OnOk result (self.new ≡ served_spec self.old pick) }
    {
        match self.request_at(alloc, pick.request)? {
            None => Ok(()),
            Some(r) => {
                let done = self.serve_row(alloc, &r, pick.tuple);
                drop(r);
                done
            }
        }
    }

    fn serve_row(&mut self, alloc: Global, r: &Request, tuple: u64) -> Result<(), AllocError>
        ensures { OnOk result
            (self.new ≡ served_rows self.old (Some r.now) (tuple_at_spec self.old tuple)) }
    {
        match self.tuple_at(alloc, tuple)? {
            None => Ok(()),
            Some(t) => {
                let done = self.serve_with(alloc, r, &t);
                drop(t);
                done
            }
        }
    }

    /// Serves the picks, each in its turn: false where one may not be, or where somebody waits in the end.
    pub(crate) fn serve(&mut self, alloc: Global, picks: &[Pick]) -> Result<bool, AllocError>
        ensures fits { IfOk result (λ b. b ≡ picks_serve self.old picks.now) }
        ensures after { IfOk result (λ b. IsTrue b → self.new ≡ served_all self.old picks.now) }
    {
        for pick in picks {
            if !self.may_serve(alloc, *pick)? {
                return Ok(false);
            }
            self.serve_pick(alloc, *pick)?;
        }
        Ok(self.nobody_waits())
    }
}
