//! What is said of bytes.

ghost use Rattle.std.specs.Prelude.{◌<◌, length};

use crate::names::{event_name, out_name};
use rinda_journal::{ReadTurnError, TurnTextError, read_turn, write_turn};
use rinda_rules::Turn;
use std::alloc::Global;
use std::fmt;
use thiserror::Error;

/// Why nothing is said of a turn.
#[derive(Clone, Copy, Debug, Error)]
pub enum Fault {
    #[error("not a line")]
    NotALine,
    #[error("not a turn")]
    NotATurn,
    #[error("out of memory")]
    Memory,
}

/// A turn that was read, in short.
#[derive(Clone, Copy, Debug)]
pub struct Seen {
    caller: u64,
    at: u64,
    event: &'static str,
    out: &'static str,
    picks: usize,
    bytes: usize,
    again: bool,
}

impl fmt::Display for Seen {
    fn fmt<W: fmt::Write>(&self, f: &mut fmt::Formatter<W>) -> fmt::Result {
        let again = if self.again {
            "written again"
        } else {
            "written otherwise"
        };
        write!(
            f,
            "caller {} at {}: {} gives {}, {} picks, {} bytes, {}",
            self.caller, self.at, self.event, self.out, self.picks, self.bytes, again
        )
    }
}

/// How many texts were of no turn, of a turn that is written so, and of a turn that is written otherwise.
#[derive(Clone, Copy, Debug)]
pub struct Counts {
    none: u64,
    again: u64,
    otherwise: u64,
}

impl fmt::Display for Counts {
    fn fmt<W: fmt::Write>(&self, f: &mut fmt::Formatter<W>) -> fmt::Result {
        write!(
            f,
            "{} no turns, {} turns written again, {} turns written otherwise",
            self.none, self.again, self.otherwise
        )
    }
}

/// Whether the turn is written as these bytes.
fn is_again(alloc: Global, turn: &Turn, bytes: &[u8]) -> Result<bool, Fault> {
    let mut text = Vec::new(alloc);
    match write_turn(alloc, turn, &mut text) {
        Ok(()) => Ok(text.as_slice() == bytes),
        Err(TurnTextError::DoesNotFit) => Ok(false),
        Err(TurnTextError::Memory) => Err(Fault::Memory),
    }
}

/// The turn in short, whose text has these bytes.
fn in_short(alloc: Global, turn: &Turn, bytes: &[u8]) -> Result<Seen, Fault> {
    let again = is_again(alloc, turn, bytes)?;
    Ok(Seen {
        caller: turn.caller,
        at: turn.at,
        event: event_name(&turn.event),
        out: out_name(&turn.out),
        picks: turn.picks.as_slice().len(),
        bytes: bytes.len(),
        again,
    })
}

/// The turn whose text the bytes begin with.
pub fn turn_seen(alloc: Global, bytes: &[u8]) -> Result<Seen, Fault> {
    match read_turn(alloc, bytes, 0) {
        Ok((turn, end)) => {
            let said = in_short(alloc, &turn, &bytes[..end]);
            drop(turn);
            said
        }
        Err(ReadTurnError::NotATurn) => Err(Fault::NotATurn),
        Err(ReadTurnError::Memory) => Err(Fault::Memory),
    }
}

/// Counts what the bytes are.
fn count(alloc: Global, bytes: &[u8], counts: &mut Counts) -> Result<(), Fault> {
    match turn_seen(alloc, bytes) {
        Ok(turn) => {
            if turn.again {
                counts.again = counts.again.saturating_add(1);
            } else {
                counts.otherwise = counts.otherwise.saturating_add(1);
            }
            Ok(())
        }
        Err(Fault::NotATurn) => {
            counts.none = counts.none.saturating_add(1);
            Ok(())
        }
        Err(fault) => Err(fault),
    }
}

const NOTHING: Counts = Counts {
    none: 0,
    again: 0,
    otherwise: 0,
};

/// What each shorter front of the bytes is.
pub fn cut(alloc: Global, bytes: &[u8]) -> Result<Counts, Fault> {
    let mut counts = NOTHING;
    for end in 0..bytes.len() {
        count(alloc, &bytes[..end], &mut counts)?;
    }
    Ok(counts)
}

/// Counts what the bytes are with the one at that place changed.
fn change(alloc: Global, bytes: &mut [u8], at: usize, counts: &mut Counts) -> Result<(), Fault>
    requires { at < length bytes.old }
{
    let was = bytes[at];
    for byte in 0..=255u8 {
        if byte != was {
            bytes[at] = byte;
            count(alloc, bytes, counts)?;
        }
    }
    bytes[at] = was;
    Ok(())
}

/// What the bytes are with each of them changed in turn, to each other byte.
pub fn changed(alloc: Global, bytes: &mut [u8]) -> Result<Counts, Fault> {
    let mut counts = NOTHING;
    for at in 0..bytes.len() {
        change(alloc, bytes, at, &mut counts)?;
    }
    Ok(counts)
}
