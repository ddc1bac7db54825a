// The two ends of a connection that was taken.
ghost use Rattle.std.specs.Prelude.{None};
ghost use Rattle.drb_outside.specs.Records.{no_records};

use crate::again::{read_again, write_again};
use drb_outside::{Failed, Sink, Source};
use std::alloc::Global;
use std::net::{Shutdown, TcpStream};
use std::rt::Clock;
use std::sync::Arc;
use std::time::{Duration, Instant};

/// The most bytes that are let pass when a connection is let go of.
const DRAINED: usize = 1 << 25;

/// How many milliseconds bytes are let pass in all, and how many the next one is waited for.
const DRAIN_MILLIS: u64 = 4_000;

const PAUSE_MILLIS: u64 = 1_000;

/// What the peer of a connection sends. A read waits for as long as the peer sends nothing.
///
/// Where it was read from, and not to its end, letting go of it shuts the sending side and lets what still comes pass:
/// up to 32 MiB, for some four seconds, and until nothing came for one. Otherwise the reset that answers bytes nobody
/// read could overtake the last reply. So it is let go of once all was written. One that was never read from is let go
/// of at once.
pub struct TcpSource<'a, R: Clock> {
    rt: &'a R,
    stream: Arc<TcpStream, Global>,
    faults: u64,
    begun: bool,
    ended: bool,
}

impl<'a, R: Clock> TcpSource<'a, R> {
    pub(crate) fn new(rt: &'a R, stream: Arc<TcpStream, Global>) -> TcpSource<'a, R> {
        TcpSource {
            rt,
            stream,
            faults: 0,
            begun: false,
            ended: false,
        }
    }
}

/// Shuts the sending side, and lets pass what still comes.
fn drain<R: Clock>(rt: &R, stream: &TcpStream) {
    let Ok(start) = Instant::now(rt) else {
        return;
    };
    if stream.shutdown(Shutdown::Write).is_err()
        || stream
            .set_read_timeout(Some(Duration::from_millis(PAUSE_MILLIS)))
            .is_err()
    {
        return;
    }
    let mut passed = [0; 16_384];
    let mut stream = stream;
    let mut left = DRAINED;
    for _ in 0..DRAINED {
        match read_again(&mut stream, &mut passed) {
            Ok(count) if count > 0 => left = left.saturating_sub(count),
            _ => return,
        }
        match start.elapsed(rt) {
            Ok(time) if time < Duration::from_millis(DRAIN_MILLIS) && left > 0 => {}
            _ => return,
        }
    }
}

impl<'a, R: Clock> Drop for TcpSource<'a, R> {
    fn drop(self) {
        if self.begun && !self.ended {
            drain(self.rt, &self.stream);
        }
        let TcpSource {
            rt: _rt,
            stream: _stream,
            faults: _faults,
            begun: _begun,
            ended: _ended,
        } = self;
    }
}

impl<'a, R: Clock> Source for TcpSource<'a, R> {
    ghost left = { λ _. None };

    ghost faults = { λ s. s.faults };

    ghost holds = { λ _. 0 };

    ghost stays = { λ _. no_records };

    fn read(&mut self, buf: &mut [u8]) -> Result<usize, Failed> {
        self.begun = true;
        let mut stream = &*self.stream;
        match read_again(&mut stream, buf) {
            Ok(count) => {
                self.ended = count == 0 && !buf.is_empty();
                Ok(count)
            }
            Err(_) => {
                self.faults = self.faults.saturating_add(1);
                Err(Failed)
            }
        }
    }
}

/// What is sent to the peer of a connection. It holds nothing back.
///
/// A write waits for as long as the peer takes nothing, and fails where the peer is gone.
#[derive(Drop)]
pub struct TcpSink {
    stream: Arc<TcpStream, Global>,
    faults: u64,
}

impl TcpSink {
    pub(crate) fn new(stream: Arc<TcpStream, Global>) -> TcpSink {
        TcpSink { stream, faults: 0 }
    }
}

impl Sink for TcpSink {
    ghost given = { λ _. None };

    ghost faults = { λ s. s.faults };

    ghost holds = { λ _. 0 };

    ghost stays = { λ _. no_records };

    fn write(&mut self, piece: &[u8]) -> Result<usize, Failed> {
        let mut stream = &*self.stream;
        match write_again(&mut stream, piece) {
            Ok(count) => Ok(count),
            Err(_) => {
                self.faults = self.faults.saturating_add(1);
                Err(Failed)
            }
        }
    }
}
