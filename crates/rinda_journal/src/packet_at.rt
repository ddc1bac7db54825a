//! A packet at the front of bytes.

ghost use Rattle.std.specs.Prelude.{◌≡◌, List, ℕ};
ghost use Rattle.rinda_journal.specs.Streams.{packet_then, dump_then, PacketIs};
ghost use Rattle.marshal_grammar.specs.Dumps.{dump_of};

use crate::ReadTurnError;
use drb_value::Value;
use marshal_read::{ReadError, read_dump};
use std::alloc::Global;

/// The value that the bytes begin with a dump of, and what follows it.
fn dump_at(alloc: Global, bytes: &[u8]) -> Result<(Value, &[u8]), ReadTurnError>
    ensures { PacketIs (dump_then (dump_of bytes.now)) result }
{
    match read_dump(alloc, bytes) {
        Ok((value, size)) => Ok((value, &bytes[size..])),
        Err(ReadError::Refused(_)) => Err(ReadTurnError::NotATurn),
        Err(ReadError::Memory) => Err(ReadTurnError::Memory),
    }
}

/// The value of the packet at the front, whatever size it says, and what follows it.
pub fn packet_at(alloc: Global, bytes: &[u8]) -> Result<(Value, &[u8]), ReadTurnError>
    ensures { PacketIs (packet_then bytes.now) result }
{
    match bytes {
        [_, _, _, _, rest @ ..] => dump_at(alloc, rest),
        _ => Err(ReadTurnError::NotATurn),
    }
}
