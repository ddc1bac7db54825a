//! The packets of a turn's text.

ghost use Rattle.std.specs.Prelude.{◌≡◌, ◌++◌, ◌∷◌, [], ◌≤◌, length, drop};
ghost use Rattle.byteorder.specs.Endian.{big_bytes};
ghost use Rattle.drb_tree.specs.Kept.{Fits, WellKept, Ranged};
ghost use Rattle.rinda_journal.specs.Writes.{Adds};

use crate::TurnTextError;
use byteorder::{BigEndian, ByteOrder};
use drb_value::{Value, fits};
use marshal_write::{WriteError, write_dump};

/// Puts the size of the body that stands at the end before it, in place of the four bytes there.
fn put_size(out: &mut [u8], size: u32)
    requires { 4 ≤ length out.old }
    ensures { out.new ≡ big_bytes 4 size ++ drop 4 out.old }
{
    BigEndian::write_u32(out, size);
}

/// Appends the packet of a value that fits. At an error the bytes that were there stand in front.
fn put_fitting(value: &Value, out: &mut Vec<u8>) -> Result<(), TurnTextError>
    requires fits { Fits value.now }
    requires kept { WellKept value.now × Ranged value.now }
    ensures { Adds (value.now ∷ []) result out.old.items out.new.items }
{
    let start = out.len();
    out.extend_from_slice(&[0; 4])?;
    match write_dump(value, out) {
        Ok(()) => {
            let size = out.len() - start - 4;
            put_size(&mut out[start..], size as u32);
            Ok(())
        }
        Err(WriteError::TooLong) => Err(TurnTextError::DoesNotFit),
        Err(WriteError::Memory) => Err(TurnTextError::Memory),
    }
}

/// Appends the packet of a value. At an error the bytes that were there stand in front.
fn put_packet(value: &Value, out: &mut Vec<u8>) -> Result<(), TurnTextError>
    ensures { Adds (value.now ∷ []) result out.old.items out.new.items }
{
    if fits(value) {
        put_fitting(value, out)
    } else {
        Err(TurnTextError::DoesNotFit)
    }
}

/// Appends the packets of these values. At an error the bytes that were there stand in front.
pub fn put_packets(values: &[Value], out: &mut Vec<u8>) -> Result<(), TurnTextError>
    ensures { Adds values.now result out.old.items out.new.items }
{
    for value in values {
        put_packet(value, out)?;
    }
    Ok(())
}
