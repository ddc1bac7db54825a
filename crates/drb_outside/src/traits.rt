// The outside, by what it tells.
ghost use Rattle.std.specs.Prelude.{◌≡◌, ◌<◌, ◌≤◌, List, ℕ, length, IfOk};
ghost use Rattle.std.specs.declared.option.Option.{Option};
ghost use Rattle.std.specs.Io.{ReadsAtMost, WritesAtMost};
ghost use Rattle.drb_outside.specs.Told.{Told, HasCause, ReadTakes, WriteGives, Reads};
ghost use Rattle.drb_outside.specs.Records.{Record};
ghost use Rattle.drb_outside.specs.Calls.{Dials, Sends, Receives, hung_up, peer};

use thiserror::Error;

/// A call failed, and the object's count of faults rose.
///
/// A count that stands at the greatest u64 counts as risen.
#[derive(Clone, Copy, Debug, PartialEq, Eq, Error)]
#[error("the call failed")]
pub struct Failed;

/// Where bytes come from.
pub trait Source {
    /// The bytes that are left, where it tells them.
    ghost left: { Self → Option (List ℕ) };

    /// How often it has failed, up to the greatest u64.
    ghost faults: { Self → ℕ };

    /// The name of the reference that it holds, or 0 where it holds none. No read puts another one there.
    ghost holds: { Self → ℕ };

    /// What no read changes.
    ghost stays: { Self → List Record };

    /// Reads the next bytes into the front of the buffer, and says how many they are.
    ///
    /// 0 for a buffer that isn't empty is the end of the input. `Failed` took nothing.
    /// Source: Rust's `std::io::Read::read`.
    fn read(&mut self, buf: &mut [u8]) -> Result<usize, Failed>
        ensures bound { ReadsAtMost result buf.new }
        ensures bytes { Told (left self.old) (left self.new) (faults self.new)
            (ReadTakes result buf.new) }
        ensures stays { Told (left self.old) (left self.new) (faults self.new)
            (λ _ _. stays self.new ≡ stays self.old) }
        ensures holds { holds self.new ≡ holds self.old }
        ensures cause { HasCause (faults self.old) (faults self.new) result };
}

/// Where bytes go to.
pub trait Sink {
    /// The bytes that it was given, where it tells them.
    ghost given: { Self → Option (List ℕ) };

    /// How often it has failed, up to the greatest u64.
    ghost faults: { Self → ℕ };

    /// The name of the reference that it holds, or 0 where it holds none. No write puts another one there.
    ghost holds: { Self → ℕ };

    /// What no write changes.
    ghost stays: { Self → List Record };

    /// Takes the first bytes of the piece, and says how many they are: at least one of a piece that isn't empty.
    ///
    /// `Failed` took nothing. Source: Rust's `std::io::Write::write`.
    fn write(&mut self, piece: &[u8]) -> Result<usize, Failed>
        ensures bound { WritesAtMost result piece.now }
        ensures some { 0 < length piece.now → IfOk result (λ n. 0 < n) }
        ensures bytes { Told (given self.old) (given self.new) (faults self.new)
            (WriteGives result piece.now) }
        ensures stays { Told (given self.old) (given self.new) (faults self.new)
            (λ _ _. stays self.new ≡ stays self.old) }
        ensures holds { holds self.new ≡ holds self.old }
        ensures cause { HasCause (faults self.old) (faults self.new) result };
}

/// A clock in milliseconds. It can't fail, and a later reading may be smaller.
pub trait Clock {
    /// The readings that it has given, where it tells them.
    ghost readings: { Self → Option (List ℕ) };

    /// The time now, in milliseconds.
    fn now(&mut self) -> u64
        ensures { Reads (readings self.old) (readings self.new) result };
}

/// Whom to call: a host's name or number as it is written, and a port.
#[derive(Clone, Copy)]
pub struct Address<'a> {
    pub host: &'a [u8],
    pub port: u16,
}

/// Calls to peers, at most one of them up at a time.
pub trait Dialer {
    /// The records of the calls, first to last, where it tells them.
    ghost calls: { Self → Option (List Record) };

    /// How often it has failed, up to the greatest u64.
    ghost faults: { Self → ℕ };

    /// Ends the call that is up, if one is, and makes another.
    ///
    /// `Failed` leaves no call up, and the record of a failed dial.
    fn dial(&mut self, to: &Address<'_>) -> Result<(), Failed>
        ensures calls { Told (calls self.old) (calls self.new) (faults self.new)
            (Dials (peer to.now.host.now to.now.port) result) }
        ensures cause { HasCause (faults self.old) (faults self.new) result };

    /// Sends the first bytes of the piece over the call that is up, as a sink takes them.
    ///
    /// `Failed` sent nothing, and is the answer where no call is up.
    fn send(&mut self, piece: &[u8]) -> Result<usize, Failed>
        ensures bound { WritesAtMost result piece.now }
        ensures some { 0 < length piece.now → IfOk result (λ n. 0 < n) }
        ensures calls { Told (calls self.old) (calls self.new) (faults self.new)
            (Sends piece.now result) }
        ensures cause { HasCause (faults self.old) (faults self.new) result };

    /// Receives the next bytes over the call that is up, as a source gives them.
    ///
    /// `Failed` received nothing, and is the answer where no call is up.
    fn receive(&mut self, buf: &mut [u8]) -> Result<usize, Failed>
        ensures bound { ReadsAtMost result buf.new }
        ensures calls { Told (calls self.old) (calls self.new) (faults self.new)
            (Receives result buf.new) }
        ensures cause { HasCause (faults self.old) (faults self.new) result };

    /// Ends the call that is up, or does nothing.
    fn hang_up(&mut self)
        ensures calls { Told (calls self.old) (calls self.new) (faults self.new)
            (λ old new. new ≡ hung_up old) }
        ensures later { faults self.old ≤ faults self.new };
}
