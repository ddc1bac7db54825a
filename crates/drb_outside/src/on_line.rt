// The call that is up, as a source and as a sink.
ghost use Rattle.std.specs.Prelude.{◌≡◌};
ghost use Rattle.drb_outside.specs.Lines.{line_left, line_stays, line_given, line_keeps};

use crate::{Dialer, Failed, Sink, Source};

/// The call of a dialer that is up: a source of the bytes that its peer gives, and a sink of those that are sent to it.
///
/// What a read leaves as it is are the dialer's records, where of the call that is up the bytes received and those that
/// its peer still gives stand as one list. What a write leaves are the records, but for the bytes sent over that call.
#[derive(Drop)]
pub struct OnLine<'a, D: Dialer> {
    pub dialer: &'a mut D,
}

impl<'a, D: Dialer> OnLine<'a, D> {
    /// The call of this dialer that is up.
    pub fn new(dialer: &'a mut D) -> OnLine<'a, D>
        ensures same_reference { result.dialer.ghost_name ≡ dialer.entry.ghost_name }
        ensures value { result.dialer.now ≡ dialer.old }
    {
        OnLine { dialer }
    }

    /// Gives the dialer back as it is now.
    pub fn release(self)
        ensures { self.exit.0.now ≡ self.entry.dialer.now }
    {
        let OnLine { dialer: _dialer } = self;
    }
}

impl<'a, D: Dialer> Source for OnLine<'a, D> {
    ghost left = { λ s. line_left (D.calls s.dialer.now) };

    ghost faults = { λ s. D.faults s.dialer.now };

    ghost holds = { λ s. s.dialer.ghost_name };

    ghost stays = { λ s. line_stays (D.calls s.dialer.now) };

    fn read(&mut self, buf: &mut [u8]) -> Result<usize, Failed> {
        self.dialer.receive(buf)
    }
}

impl<'a, D: Dialer> Sink for OnLine<'a, D> {
    ghost given = { λ s. line_given (D.calls s.dialer.now) };

    ghost faults = { λ s. D.faults s.dialer.now };

    ghost holds = { λ s. s.dialer.ghost_name };

    ghost stays = { λ s. line_keeps (D.calls s.dialer.now) };

    fn write(&mut self, piece: &[u8]) -> Result<usize, Failed> {
        self.dialer.send(piece)
    }
}
