// Doors through which no more than so many guests come.
ghost use Rattle.std.specs.Prelude.{◌≡◌, ◌≤◌, IfOk, IfNone};
ghost use Rattle.drb_outside.specs.Told.{Told, HasCause, Rose};
ghost use Rattle.drb_doors.specs.Coming.{Comes, first_told, is_used_up, one_fewer, Spends};

use crate::{Doors, Guest};
use drb_outside::Failed;

/// Doors through which so many guests of other doors come, or all, and then nobody.
///
/// Only a guest that is handed on counts. Once so many were, the other doors are asked no more.
#[derive(Drop)]
pub struct Limited<N: Doors> {
    doors: N,
    left: Option<u64>,
    ends: u64,
}

impl<N: Doors> Limited<N> {
    /// So many guests of these doors at most; with `None` all of them.
    pub fn new(doors: N, most: Option<u64>) -> Limited<N>
        ensures doors { result.doors ≡ doors }
        ensures most { result.left ≡ most }
        ensures ends { result.ends ≡ 0 }
    {
        Limited {
            doors,
            left: most,
            ends: 0,
        }
    }

    /// The other doors.
    pub fn doors(&self) -> &N
        ensures { result.now ≡ self.now.doors }
    {
        &self.doors
    }
}

/// Whether nobody more may come.
fn is_used_up(left: Option<u64>) -> bool
    ensures { result ≡ is_used_up left }
{
    matches!(left, Some(0))
}

/// What is left once one came.
fn one_fewer(left: Option<u64>) -> Option<u64>
    ensures { result ≡ one_fewer left }
{
    match left {
        Some(left) => Some(left.saturating_sub(1)),
        None => None,
    }
}

impl<N: Doors> Doors for Limited<N> {
    type In = N::In;

    type Out = N::Out;

    type Time = N::Time;

    type Calls = N::Calls;

    ghost guests = { λ d. first_told d.left (N.guests d.doors) };

    ghost faults = { λ d. N.faults d.doors };

    ghost ends = { λ d. d.ends };

    /// The next guest, where one more may come.
    fn accept(&mut self) -> Result<Option<Guest<N::In, N::Out, N::Time, N::Calls>>, Failed>
        ensures guests { Told (first_told self.old.left (N.guests self.old.doors))
            (first_told self.new.left (N.guests self.new.doors)) (N.faults self.new.doors)
            (Comes result) }
        ensures cause { HasCause (N.faults self.old.doors) (N.faults self.new.doors) result }
        ensures later { self.old.ends ≤ self.new.ends }
        ensures ended { IfOk result (λ guest. IfNone guest (Rose self.old.ends self.new.ends)) }
        ensures spends { Spends self.old.left self.new.left result }
    {
        if is_used_up(self.left) {
            self.ends = self.ends.saturating_add(1);
            return Ok(None);
        }
        match self.doors.accept()? {
            Some(guest) => {
                self.left = one_fewer(self.left);
                Ok(Some(guest))
            }
            None => {
                self.ends = self.ends.saturating_add(1);
                Ok(None)
            }
        }
    }
}
