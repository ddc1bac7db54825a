// Readers and writers of the system, as standard input and output.
ghost use Rattle.std.specs.Prelude.{◌≡◌, None};
ghost use Rattle.drb_outside.specs.Records.{no_records};

use crate::again::{read_again, write_again};
use drb_outside::{Failed, Sink, Source};
use std::io::{Read, Write};

/// A source over a reader of the system. An error of the reader is a failure; a signal is none.
#[derive(Drop)]
pub struct Reading<R: Drop> {
    inner: R,
    faults: u64,
}

impl<R: Read + Drop> Reading<R> {
    /// What this reader reads.
    pub fn new(inner: R) -> Reading<R>
        ensures { result.faults ≡ 0 }
    {
        Reading { inner, faults: 0 }
    }
}

impl<R: Read + Drop> Source for Reading<R> {
    ghost left = { λ _. None };

    ghost faults = { λ s. s.faults };

    ghost holds = { λ _. 0 };

    ghost stays = { λ _. no_records };

    fn read(&mut self, buf: &mut [u8]) -> Result<usize, Failed> {
        match read_again(&mut self.inner, buf) {
            Ok(count) => Ok(count),
            Err(_) => {
                self.faults = self.faults.saturating_add(1);
                Err(Failed)
            }
        }
    }
}

/// A sink over a writer of the system. It holds nothing back that the writer doesn't.
///
/// An error of the writer is a failure, and so is a write that takes nothing; a signal is none.
#[derive(Drop)]
pub struct Writing<W: Drop> {
    inner: W,
    faults: u64,
}

impl<W: Write + Drop> Writing<W> {
    /// What this writer writes.
    pub fn new(inner: W) -> Writing<W>
        ensures { result.faults ≡ 0 }
    {
        Writing { inner, faults: 0 }
    }
}

impl<W: Write + Drop> Sink for Writing<W> {
    ghost given = { λ _. None };

    ghost faults = { λ s. s.faults };

    ghost holds = { λ _. 0 };

    ghost stays = { λ _. no_records };

    fn write(&mut self, piece: &[u8]) -> Result<usize, Failed> {
        match write_again(&mut self.inner, piece) {
            Ok(count) => Ok(count),
            Err(_) => {
                self.faults = self.faults.saturating_add(1);
                Err(Failed)
            }
        }
    }
}
