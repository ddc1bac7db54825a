// Where guests come from, by what it tells.
ghost use Rattle.std.specs.Prelude.{◌≡◌, ◌≤◌, List, ℕ, IfOk, IfNone};
ghost use Rattle.std.specs.declared.option.Option.{Option};
ghost use Rattle.drb_outside.specs.Told.{Told, HasCause, Rose};
ghost use Rattle.drb_doors.specs.Coming.{Comes};
ghost use Rattle.drb_doors.specs.declared.traits.Guest.{Guest};

use drb_outside::{Clock, Dialer, Failed, Sink, Source};

/// One who is served.
#[derive(Drop)]
pub struct Guest<S, K, C, D> {
    /// What it sends.
    pub input: S,
    /// What is sent to it.
    pub output: K,
    /// The clock by which it is served.
    pub clock: C,
    /// Makes the calls that its requests lead to.
    pub dialer: D,
}

/// Where guests come from, one after the other.
pub trait Doors {
    /// What a guest sends.
    type In: Source + Drop + Send;
    /// What is sent to a guest.
    type Out: Sink + Drop + Send;
    /// The clock of a guest.
    type Time: Clock + Drop + Send;
    /// The dialer of a guest.
    type Calls: Dialer + Drop + Send;

    /// The guests that will come, where it tells them.
    ghost guests: { Self → Option (List (Guest Self.In Self.Out Self.Time Self.Calls)) };

    /// How often it has failed, up to the greatest u64.
    ghost faults: { Self → ℕ };

    /// How often it has answered that nobody will come, up to the greatest u64.
    ghost ends: { Self → ℕ };

    /// Waits for the next guest. `None`: no further guest will come.
    ///
    /// `Failed` took no guest. Doors whose type has a part of the runtime that waits may wait without end.
    fn accept(
        &mut self,
    ) -> Result<Option<Guest<Self::In, Self::Out, Self::Time, Self::Calls>>, Failed>
        ensures guests { Told (guests self.old) (guests self.new) (faults self.new) (Comes result) }
        ensures cause { HasCause (faults self.old) (faults self.new) result }
        ensures later { ends self.old ≤ ends self.new }
        ensures ended { IfOk result (λ guest. IfNone guest (Rose (ends self.old) (ends self.new))) };
}

/// Knows who its peer is.
pub trait Known {
    /// The peer's IPv4 address as a number, the first of its four numbers in front; None for one that has none.
    ghost peer: { Self → Option ℕ };

    /// The peer.
    fn peer(&self) -> Option<u32>
        ensures { result ≡ peer self.now };
}
