// A source over bytes in memory.
ghost use Rattle.std.specs.Prelude.{◌≡◌, ◌≤◌, ◌<◌, ◌-◌, ◌+◌, ◌↔◌, Some, drop, take, length, min, vec_len, ℕ, IsErr, IfOk, Contains, List};
ghost use Rattle.std.specs.Io.{ReadsAtMost};
ghost use Rattle.drb_outside.specs.Records.{no_records};
ghost use Rattle.drb_outside.specs.Told.{Told, HasCause, ReadTakes};
ghost use Rattle.drb_outside.specs.Scripts.{piece_of, one_more};

use crate::{Failed, Source};
use std::marker::Model;

/// A source over bytes in memory, which come in pieces of chosen sizes and with chosen failures.
#[derive(Drop)]
pub struct MemSource {
    bytes: Vec<u8>,
    pieces: Vec<usize>,
    fail: Vec<u64>,
    at: usize,
    call: u64,
    faults: u64,
}

impl Model for MemSource {
    ghost use Rattle.std.specs.Prelude.{◌≤◌, drop, vec_len};
    ghost use Rattle.drb_outside.specs.Scripts.{Pieces};

    ghost Value = { Pieces };

    ghost view = { λ s. record {
      bytes = drop s.at s.bytes.items;
      pieces = s.pieces.items;
      fail = s.fail.items;
      calls = s.call;
      faults = s.faults;
    } };

    ghost invariant = { λ s. s.at ≤ vec_len s.bytes };
}

impl MemSource {
    /// A source over these bytes.
    ///
    /// The k-th read, from 1, gives at most as many bytes as `pieces` says at k - 1 (a 0 counts as 1), and past that
    /// list's end as many as the buffer takes. `fail` lists the numbers, from 1, of the reads that are to fail.
    pub fn new(bytes: Vec<u8>, pieces: Vec<usize>, fail: Vec<u64>) -> Self
        ensures { result ≡ record {
          bytes = bytes.items;
          pieces = pieces.items;
          fail = fail.items;
          calls = 0;
          faults = 0;
        } }
    {
        MemSource {
            bytes,
            pieces,
            fail,
            at: 0,
            call: 0,
            faults: 0,
        }
    }
}

/// How many bytes the read after so many calls may give.
fn piece_of(pieces: &[usize], calls: u64, room: usize) -> usize
    ensures value { result ≡ piece_of pieces.now calls room }
    ensures some { 0 < room → 0 < result }
    ensures most { result ≤ room }
{
    match pieces.get(calls as usize) {
        Some(most) => room.min((*most).max(1)),
        None => room,
    }
}

/// Copies the bytes from there on that fit, and says how many they were.
pub(crate) fn give(bytes: &[u8], at: usize, most: usize, buf: &mut [u8]) -> usize
    requires within { at ≤ length bytes.now }
    requires room { most ≤ length buf.old }
    ensures count { result ≡ min most (length bytes.now - at) }
    ensures copied { take result buf.new ≡ take result (drop at bytes.now) }
{
    let count = most.min(bytes.len() - at);
    buf[..count].copy_from_slice(&bytes[at..at + count]);
    count
}

impl Source for MemSource {
    ghost left = { λ s. Some s.bytes };

    ghost faults = { λ s. s.faults };

    ghost holds = { λ _. 0 };

    ghost stays = { λ _. no_records };

    /// Gives the next piece, or fails where this call's number is in the list of failures.
    fn read(&mut self, buf: &mut [u8]) -> Result<usize, Failed>
        ensures bound { ReadsAtMost result buf.new }
        ensures bytes { Told (Some self.old.bytes) (Some self.new.bytes) self.new.faults
            (ReadTakes result buf.new) }
        ensures stays { Told (Some self.old.bytes) (Some self.new.bytes) self.new.faults
            (λ _ _. no_records ≡ no_records) }
        ensures cause { HasCause self.old.faults self.new.faults result }
        ensures fails { IsErr result ↔ Contains self.old.fail (one_more self.old.calls) }
        ensures gives { IfOk result (λ n. n ≡
            min (piece_of self.old.pieces self.old.calls (length buf.new))
            (length self.old.bytes)) }
        ensures calls { self.new ≡ record self.old {
          bytes = self.new.bytes;
          calls = one_more self.old.calls;
          faults = self.new.faults;
        } }
    {
        let calls = self.call;
        self.call = calls.saturating_add(1);
        if self.fail.contains(&self.call) {
            self.faults = self.faults.saturating_add(1);
            return Err(Failed);
        }
        let most = piece_of(&self.pieces, calls, buf.len());
        let count = give(&self.bytes, self.at, most, buf);
        self.at += count;
        Ok(count)
    }
}
