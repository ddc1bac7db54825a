//! Doors with an access list.

ghost use Rattle.std.specs.Prelude.{◌≡◌, ◌≤◌, ◌+◌, ℕ, length, replicate, IfOk, IfNone};
ghost use Rattle.drb_outside.specs.Told.{Told, HasCause, Rose};
ghost use Rattle.drb_doors.specs.Coming.{Comes};
ghost use Rattle.drb_acl.specs.Judging.{access};
ghost use Rattle.drb_acl.specs.Guarding.{admitted_of, count_place, raised, Guards};

use crate::acl::{Acl, Judged};
use crate::listing::{Listing, judge};
use crate::rule::{Order, Rule};
use drb_doors::{Doors, Guest, Known};
use drb_outside::Failed;
use std::sync::Wait;

/// Doors that hand on the guests of other doors whom an access list admits, and count those whom it refuses.
///
/// A guest that is refused is let go of, and nothing is read from it or written to it.
#[derive(Drop)]
pub struct Guarded<'a, R: Wait, N: Doors> {
    rt: &'a R,
    order: Order,
    rules: Vec<Rule>,
    counts: Vec<u64>,
    doors: N,
}

impl<'a, R: Wait, N: Doors> Guarded<'a, R, N> {
    /// These doors with that access list. Takes no memory.
    pub fn new(rt: &'a R, acl: Acl, doors: N) -> Guarded<'a, R, N>
        ensures listing { access result.order result.rules.items ≡ acl }
        ensures doors { result.doors ≡ doors }
        ensures counts { result.counts.items ≡ replicate (length acl.rules + 1) 0 }
    {
        let Acl { listing, counts } = acl;
        let Listing { order, rules } = listing;
        Guarded {
            rt,
            order,
            rules,
            counts,
            doors,
        }
    }

    /// How many guests each rule refused, and at last how many were refused by no rule.
    ///
    /// A count at the greatest u64 stays there. Source: docs/ACCESS.md, At the door.
    pub fn judged(&self) -> &[u64]
        ensures { result.now ≡ self.now.counts.items }
    {
        self.counts.as_slice()
    }

    /// The rules, as they stand in the file.
    pub fn rules(&self) -> &[Rule]
        ensures { result.now ≡ self.now.rules.items }
    {
        self.rules.as_slice()
    }

    /// The other doors.
    pub fn doors(&self) -> &N
        ensures { result.now ≡ self.now.doors }
    {
        &self.doors
    }
}

/// Where a guest is counted that was refused so.
fn count_place(rules: usize, rule: Option<usize>) -> usize
    ensures { result ≡ count_place rules rule }
{
    rule.unwrap_or(rules)
}

/// Raises the count that stands there.
fn raise(counts: &mut Vec<u64>, place: usize)
    ensures { counts.new.items ≡ raised place counts.old.items }
{
    if place < counts.len() {
        counts[place] = counts[place].saturating_add(1);
    }
}

impl<'a, R: Wait, N: Doors> Doors for Guarded<'a, R, N>
where
    N::In: Known,
{
    type In = N::In;

    type Out = N::Out;

    type Time = N::Time;

    type Calls = N::Calls;

    ghost guests = { λ d. admitted_of (access d.order d.rules.items) (λ g. N.In.Known.peer g.input)
        (N.guests d.doors) };

    ghost faults = { λ d. N.faults d.doors };

    ghost ends = { λ d. N.ends d.doors };

    /// Waits for the next guest whom the list admits.
    ///
    /// Source: docs/ACCESS.md, At the door.
    fn accept(&mut self) -> Result<Option<Guest<N::In, N::Out, N::Time, N::Calls>>, Failed>
        ensures guests { Told
            (admitted_of (access self.old.order self.old.rules.items)
            (λ g. N.In.Known.peer g.input) (N.guests self.old.doors))
            (admitted_of (access self.new.order self.new.rules.items)
            (λ g. N.In.Known.peer g.input) (N.guests self.new.doors))
            (N.faults self.new.doors) (Comes result) }
        ensures cause { HasCause (N.faults self.old.doors) (N.faults self.new.doors) result }
        ensures later { N.ends self.old.doors ≤ N.ends self.new.doors }
        ensures ended { IfOk result (λ guest. IfNone guest
            (Rose (N.ends self.old.doors) (N.ends self.new.doors))) }
        ensures guards { Guards (access self.old.order self.old.rules.items)
            (λ g. N.In.Known.peer g.input)
            self.old.counts.items self.new.counts.items
            (N.guests self.old.doors) (N.guests self.new.doors) (N.faults self.new.doors) result }
        ensures order { self.new.order ≡ self.old.order }
        ensures rules { self.new.rules ≡ self.old.rules }
    {
        for _ in self.rt.forever() {
            match self.doors.accept() {
                Ok(Some(guest)) => {
                    match judge(self.order, self.rules.as_slice(), guest.input.peer()) {
                        Judged::Admitted(_) => return Ok(Some(guest)),
                        Judged::Refused(rule) => {
                            let place = count_place(self.rules.len(), rule);
                            raise(&mut self.counts, place);
                        }
                    }
                }
                Ok(None) => return Ok(None),
                Err(Failed) => return Err(Failed),
            }
        }
        unreachable!()
    }
}
