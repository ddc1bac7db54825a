//! The doors under their lock.

ghost use Rattle.std.specs.Prelude.{◌≡◌, ◌≤◌, ℕ, true};
ghost use Rattle.drb_outside.specs.Told.{Rose};
ghost use Rattle.drb_doors.specs.Coming.{none_left};
ghost use Rattle.drb_serving.specs.declared.entrance.Stand.TheVariants.{Open, Ended, Broken};

use drb_doors::{Doors, Guest};
use std::marker::{Brand, PhantomData};

/// The counts of the doors as they were handed in. The call that begins to serve picks them.
pub(crate) trait Naming {
    ghost faults: { ℕ };

    ghost ends: { ℕ };
}

impl Naming for Brand {
    ghost faults = { 0 };

    ghost ends = { 0 };
}

/// Whether guests are still taken, and why not.
#[derive(Clone, Copy)]
pub(crate) enum Stand {
    Open,
    Ended,
    Broken,
}

/// The doors, how many guests came, and whether more are taken.
#[derive(Drop)]
pub(crate) struct Entrance<N: Doors, B: Naming> {
    pub doors: N,
    pub came: u64,
    pub stand: Stand,
    pub of: PhantomData<B>,
    ghost faults: { B.faults ≤ N.faults doors },
    ghost ends: { B.ends ≤ N.ends doors },
    ghost broken: { stand ≡ Broken → Rose B.faults (N.faults doors) },
    ghost ended: { stand ≡ Ended → Rose B.ends (N.ends doors) },
    ghost none_left: { stand ≡ Ended → none_left (N.guests doors) ≡ true },
}

impl<N: Doors, B: Naming> Entrance<N, B> {
    pub(crate) fn new(doors: N) -> Entrance<N, B>
        requires faults { B.faults ≡ N.faults doors }
        requires ends { B.ends ≡ N.ends doors }
    {
        Entrance {
            doors,
            came: 0,
            stand: Stand::Open,
            of: PhantomData,
        }
    }

    /// The next guest and its number. None once no more are taken.
    pub(crate) fn admit(&mut self) -> Option<(u64, Guest<N::In, N::Out, N::Time, N::Calls>)> {
        if !matches!(self.stand, Stand::Open) {
            return None;
        }
        match self.doors.accept() {
            Ok(Some(guest)) => {
                self.came = self.came.saturating_add(1);
                Some((self.came, guest))
            }
            Ok(None) => {
                self.stand = Stand::Ended;
                None
            }
            Err(_) => {
                self.stand = Stand::Broken;
                None
            }
        }
    }
}
