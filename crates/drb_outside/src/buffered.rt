// A source that reads ahead.
ghost use Rattle.std.specs.Prelude.{◌≡◌, ◌≤◌, ◌<◌, ◌-◌, ◌++◌, [], length, take, min, vec_len, IfOk, IfErr};
ghost use Rattle.drb_outside.specs.Told.{Told, HasCause};
ghost use Rattle.drb_outside.specs.Buffers.{held, in_front};

use crate::{Failed, Source};
use std::alloc::Global;

/// The most bytes that are read ahead.
const AHEAD: usize = 16_384;

/// A source that reads up to 16,384 bytes at once off another one, and hands them out in pieces.
///
/// What it tells is what the other one tells, with the bytes that it holds in front.
#[derive(Drop)]
pub struct Buffered<S: Source> {
    inner: S,
    buffer: Vec<u8>,
    // where the next byte stands
    at: usize,
    // where those that were read end
    end: usize,
    ghost some: { 0 < vec_len buffer },
    ghost within: { end ≤ vec_len buffer },
    ghost ordered: { at ≤ end },
}

impl<S: Source> Buffered<S> {
    /// A source that reads ahead off this one. It takes its memory here, and none later.
    ///
    /// Without memory it hands the source back.
    pub fn new(alloc: Global, inner: S) -> Result<Buffered<S>, S>
        ensures same { IfOk result (λ b. b.inner ≡ inner) }
        ensures none { IfOk result (λ b. held b.buffer.items b.at b.end ≡ []) }
        ensures back { IfErr result (λ s. s ≡ inner) }
    {
        let Ok(buffer) = vec![in alloc; 0; AHEAD] else {
            return Err(inner);
        };
        Ok(Buffered {
            inner,
            buffer,
            at: 0,
            end: 0,
        })
    }

    /// Reads ahead, where nothing is held.
    fn refill(&mut self) -> Result<(), Failed>
        requires { self.old.end ≤ self.old.at }
        ensures bytes { Told (in_front (held self.old.buffer.items self.old.at self.old.end)
            (S.left self.old.inner))
            (in_front (held self.new.buffer.items self.new.at self.new.end) (S.left self.new.inner))
            (S.faults self.new.inner) (λ left left'. left' ≡ left) }
        ensures ended { IfOk result (λ _.
            Told (in_front (held self.old.buffer.items self.old.at self.old.end)
            (S.left self.old.inner))
            (in_front (held self.new.buffer.items self.new.at self.new.end) (S.left self.new.inner))
            (S.faults self.new.inner)
            (λ left _. held self.new.buffer.items self.new.at self.new.end ≡ [] → left ≡ [])) }
        ensures stays { Told (S.left self.old.inner) (S.left self.new.inner)
            (S.faults self.new.inner)
            (λ _ _. S.stays self.new.inner ≡ S.stays self.old.inner) }
        ensures holds { S.holds self.new.inner ≡ S.holds self.old.inner }
        ensures cause { HasCause (S.faults self.old.inner) (S.faults self.new.inner) result }
    {
        self.at = 0;
        self.end = 0;
        self.end = self.inner.read(&mut self.buffer)?;
        Ok(())
    }

    /// Gives as many of the bytes that are held as fit, and says how many they were.
    fn give(&mut self, buf: &mut [u8]) -> usize
        ensures bound { result ≤ length buf.new }
        ensures given { held self.old.buffer.items self.old.at self.old.end
            ≡ take result buf.new ++ held self.new.buffer.items self.new.at self.new.end }
        ensures none { result ≡ 0 → 0 < length buf.new →
            held self.old.buffer.items self.old.at self.old.end ≡ [] }
        ensures inner { self.new.inner ≡ self.old.inner }
    {
        let count = (self.end - self.at).min(buf.len());
        buf[..count].copy_from_slice(&self.buffer[self.at..self.at + count]);
        self.at += count;
        count
    }
}

impl<S: Source> Source for Buffered<S> {
    ghost left = { λ b. in_front (held b.buffer.items b.at b.end) (S.left b.inner) };

    ghost faults = { λ b. S.faults b.inner };

    ghost holds = { λ b. S.holds b.inner };

    ghost stays = { λ b. S.stays b.inner };

    fn read(&mut self, buf: &mut [u8]) -> Result<usize, Failed> {
        if self.at == self.end {
            self.refill()?;
        }
        Ok(self.give(buf))
    }
}
