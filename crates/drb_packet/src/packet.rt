//! One packet off a source.

ghost use Rattle.std.specs.Prelude.{◌≡◌, ◌≤◌, ◌<◌, ◌^◌, IfOk, IsErrOf};
ghost use Rattle.drb_outside.specs.Told.{Rose};
ghost use Rattle.drb_outside.specs.Changes.{ChangesBytes};
ghost use Rattle.marshal_grammar.specs.Dumps.{dump_of};
ghost use Rattle.drb_packet.specs.Packets.{size, dumped, loaded, packet, further};
ghost use Rattle.drb_packet.specs.Reads.{Parses, Judges};

use crate::filling::fill;
use crate::stop::Stop;
use crate::{PacketError, PacketRefusal};
use byteorder::{BigEndian, ByteOrder};
use drb_outside::Source;
use drb_value::Value;
use marshal_read::{ReadError, read_dump};
use std::alloc::Global;

/// A size.
fn read_size<S: Source>(alloc: Global, source: &mut S, load: u32) -> Result<u32, Stop>
    ensures source { ChangesBytes S.left S.stays S.holds S.faults source.old source.new
        (Parses (size load) result) }
    ensures failed { IsErrOf result Stop.ReadFault →
        Rose (S.faults source.old) (S.faults source.new) }
{
    let mut header = Vec::new(alloc);
    if !fill(source, &mut header, 4)? {
        return Err(if header.is_empty() {
            Stop::End
        } else {
            Stop::Refused(PacketRefusal::PrematureHeader)
        });
    }
    let size = BigEndian::read_u32(&header);
    if size < load {
        Ok(size)
    } else {
        Err(Stop::Refused(PacketRefusal::TooLarge(size)))
    }
}

/// The value that a whole body begins with a dump of.
fn value_in(alloc: Global, body: &[u8]) -> Result<Value, Stop>
    ensures { Judges (dumped (dump_of body.now)) result }
{
    match read_dump(alloc, body) {
        Ok((value, _)) => Ok(value),
        Err(ReadError::Refused(refusal)) => Err(Stop::Refused(PacketRefusal::Marshal(refusal))),
        Err(ReadError::Memory) => Err(Stop::Memory),
    }
}

/// A body of this size, and the value that it begins with a dump of.
fn read_body<S: Source>(alloc: Global, source: &mut S, size: u32) -> Result<Value, Stop>
    ensures source { ChangesBytes S.left S.stays S.holds S.faults source.old source.new
        (Parses (loaded size) result) }
    ensures failed { IsErrOf result Stop.ReadFault →
        Rose (S.faults source.old) (S.faults source.new) }
{
    let mut body = Vec::new(alloc);
    if !fill(source, &mut body, size as usize)? {
        return Err(Stop::Refused(PacketRefusal::PrematureBody));
    }
    value_in(alloc, &body)
}

/// The first packet: a size below the limit, and a body of that size.
pub fn read_packet<S: Source>(alloc: Global, source: &mut S, load: u32) -> Result<Value, Stop>
    ensures source { ChangesBytes S.left S.stays S.holds S.faults source.old source.new
        (Parses (packet load) result) }
    ensures failed { IsErrOf result Stop.ReadFault →
        Rose (S.faults source.old) (S.faults source.new) }
{
    let size = read_size(alloc, source, load)?;
    read_body(alloc, source, size)
}

/// A packet that isn't the first, before which the input must not end.
pub fn read_further<S: Source>(alloc: Global, source: &mut S, load: u32) -> Result<Value, Stop>
    ensures source { ChangesBytes S.left S.stays S.holds S.faults source.old source.new
        (Parses (further load) result) }
    ensures failed { IsErrOf result Stop.ReadFault →
        Rose (S.faults source.old) (S.faults source.new) }
{
    match read_packet(alloc, source, load) {
        Err(Stop::End) => Err(Stop::Refused(PacketRefusal::CutBetween)),
        answer => answer,
    }
}
