// Guests in memory that are seen from outside, and those who hold them.

ghost use Rattle.std.specs.Prelude.{◌≤◌, length, None};
ghost use Rattle.drb_outside.specs.Records.{no_records};

use drb_outside::{Clock, Failed, Sink, Source};
use drb_serving::Gate;
use std::alloc::Global;
use std::sync::atomic::{AtomicU64, Ordering};
use std::sync::{Arc, Mutex, Wait};
use std::thread;

/// How often it is looked whether it may go on, at most.
const LOOKS: u64 = 10_000_000;

/// What is written, where others see it.
#[derive(Drop)]
pub struct SeenSink<'a, R> {
    rt: &'a R,
    bytes: Arc<Mutex<Vec<u8>>, Global>,
    faults: u64,
}

impl<'a, R: Wait> SeenSink<'a, R> {
    pub fn new(rt: &'a R, bytes: Arc<Mutex<Vec<u8>>, Global>) -> SeenSink<'a, R> {
        SeenSink {
            rt,
            bytes,
            faults: 0,
        }
    }
}

impl<'a, R: Wait> Sink for SeenSink<'a, R> {
    ghost given = { λ _. None };

    ghost faults = { λ s. s.faults };

    ghost holds = { λ _. 0 };

    ghost stays = { λ _. no_records };

    fn write(&mut self, piece: &[u8]) -> Result<usize, Failed> {
        let kept = self.bytes.lock(self.rt).extend_from_slice(piece);
        if kept.is_ok() {
            return Ok(piece.len());
        }
        self.faults = self.faults.saturating_add(1);
        Err(Failed)
    }
}

/// A clock that shows how often it was read. Each reading is the last one and so many milliseconds.
#[derive(Drop)]
pub struct SeenClock {
    reads: Arc<AtomicU64, Global>,
    next: u64,
    step: u64,
}

impl SeenClock {
    pub fn new(reads: Arc<AtomicU64, Global>, first: u64, step: u64) -> SeenClock {
        SeenClock {
            reads,
            next: first,
            step,
        }
    }
}

impl Clock for SeenClock {
    ghost readings = { λ _. None };

    fn now(&mut self) -> u64 {
        let reading = self.next;
        self.next = self.next.saturating_add(self.step);
        self.reads.fetch_add(1, Ordering::SeqCst);
        reading
    }
}

/// Waits until the count is above that; whether it came to be.
fn comes_above(count: &AtomicU64, least: u64) -> bool {
    for _ in 0..LOOKS {
        if count.load(Ordering::SeqCst) > least {
            return true;
        }
        thread::yield_now();
    }
    false
}

/// A source of two parts. The second comes once a clock was read so many times more; where that doesn't come to be, it
/// fails.
#[derive(Drop)]
pub struct HeldSource {
    first: Vec<u8>,
    second: Vec<u8>,
    at: usize,
    held: bool,
    reads: Arc<AtomicU64, Global>,
    more: u64,
    faults: u64,
}

impl HeldSource {
    pub fn new(
        first: Vec<u8>,
        second: Vec<u8>,
        reads: Arc<AtomicU64, Global>,
        more: u64,
    ) -> HeldSource {
        HeldSource {
            first,
            second,
            at: 0,
            held: true,
            reads,
            more,
            faults: 0,
        }
    }
}

/// Puts the next bytes into the buffer, and says how many they are.
fn give(bytes: &[u8], at: usize, buf: &mut [u8]) -> usize
    ensures { result ≤ length buf.new }
{
    let rest = bytes.get(at..).unwrap_or(&[]);
    let count = rest.len().min(buf.len());
    buf[..count].copy_from_slice(&rest[..count]);
    count
}

impl Source for HeldSource {
    ghost left = { λ _. None };

    ghost faults = { λ s. s.faults };

    ghost holds = { λ _. 0 };

    ghost stays = { λ _. no_records };

    fn read(&mut self, buf: &mut [u8]) -> Result<usize, Failed> {
        if self.held && self.at >= self.first.len() {
            let before = self.reads.load(Ordering::SeqCst);
            if !comes_above(
                &self.reads,
                before.saturating_add(self.more.saturating_sub(1)),
            ) {
                self.faults = self.faults.saturating_add(1);
                return Err(Failed);
            }
            self.held = false;
            self.at = 0;
        }
        let bytes = if self.held { &self.first } else { &self.second };
        let count = give(bytes.as_slice(), self.at, buf);
        self.at = self.at.saturating_add(count);
        Ok(count)
    }
}

/// Holds the first session until the second has started.
#[derive(Drop)]
pub struct Meeting {
    started: AtomicU64,
}

impl Meeting {
    pub fn new() -> Meeting {
        Meeting {
            started: AtomicU64::new(0),
        }
    }
}

impl Gate for Meeting {
    fn started(&self, session: u64) {
        self.started.fetch_add(1, Ordering::SeqCst);
        if session == 1 {
            comes_above(&self.started, 1);
        }
    }
}

/// Holds nobody.
#[derive(Drop)]
pub struct Open;

impl Gate for Open {
    fn started(&self, _session: u64) {}
}
