// A source with its peer.
ghost use Rattle.std.specs.Prelude.{◌≡◌};

use crate::Known;
use drb_outside::{Failed, Source};

/// A source, and who its peer is. It tells what the source tells.
#[derive(Drop)]
pub struct PeerSource<S: Source> {
    pub source: S,
    /// The peer's IPv4 address as a number, or None for one that has none.
    pub peer: Option<u32>,
}

impl<S: Source> Known for PeerSource<S> {
    ghost peer = { λ s. s.peer };

    fn peer(&self) -> Option<u32> {
        self.peer
    }
}

impl<S: Source> Source for PeerSource<S> {
    ghost left = { λ s. S.left s.source };

    ghost faults = { λ s. S.faults s.source };

    ghost holds = { λ s. S.holds s.source };

    ghost stays = { λ s. S.stays s.source };

    fn read(&mut self, buf: &mut [u8]) -> Result<usize, Failed> {
        self.source.read(buf)
    }
}
