//! Bytes off a source, in whatever pieces it gives.

ghost use Rattle.std.specs.Prelude.{◌≡◌, ◌≤◌, ◌<◌, ◌+◌, vec_len, IfOk, OnErr, IsErrOf, IsTrue};
ghost use Rattle.drb_outside.specs.Told.{Rose};
ghost use Rattle.drb_outside.specs.Changes.{ChangesBytes};
ghost use Rattle.drb_packet.specs.Reads.{Fills, ReadsMore};

use crate::PacketError;
use drb_outside::Source;

/// The most bytes of one read.
const CHUNK: usize = 4096;

/// One read of at most the room that is left there, added to the list; says how many bytes it gave.
fn read_more<S: Source>(
    source: &mut S,
    out: &mut Vec<u8>,
    room: usize,
) -> Result<usize, PacketError>
    requires { 0 < room }
    ensures source { ChangesBytes S.left S.stays S.holds S.faults source.old source.new
        (ReadsMore result out.old.items out.new.items) }
    ensures bound { IfOk result (λ n. (n ≤ room) × (vec_len out.new ≡ vec_len out.old + n)) }
    ensures same { OnErr result (vec_len out.new ≡ vec_len out.old) }
    ensures failed { IsErrOf result PacketError.ReadFault →
        Rose (S.faults source.old) (S.faults source.new) }
{
    let room = room.min(CHUNK);
    if out.reserve(room).is_err() {
        return Err(PacketError::Memory);
    }
    let mut chunk = [0; CHUNK];
    let Ok(count) = source.read(&mut chunk[..room]) else {
        return Err(PacketError::ReadFault);
    };
    out.extend_from_slice(&chunk[..count]).unwrap();
    Ok(count)
}

/// Fills the list up to the wanted number of bytes, by as many reads as it takes. False where the source ended first.
///
/// The list grows as bytes come, and no byte past the wanted number is taken.
/// Errors: `ReadFault` only where the source's own count of faults rose; `Memory` at any time. The bytes that were taken
/// are in the list.
pub fn fill<S: Source>(source: &mut S, out: &mut Vec<u8>, want: usize) -> Result<bool, PacketError>
    requires { vec_len out.old ≤ want }
    ensures source { ChangesBytes S.left S.stays S.holds S.faults source.old source.new
        (Fills want result out.old.items out.new.items) }
    ensures full { IfOk result (λ b. IsTrue b → vec_len out.new ≡ want) }
    ensures failed { IsErrOf result PacketError.ReadFault →
        Rose (S.faults source.old) (S.faults source.new) }
{
    while out.len() < want {
        let count = read_more(source, out, want - out.len())?;
        if count == 0 {
            return Ok(false);
        }
    }
    Ok(true)
}
