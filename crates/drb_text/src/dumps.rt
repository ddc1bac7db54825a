//! Values that are written as their dump.

ghost use Rattle.std.specs.Prelude.{◌≡◌, ◌≤◌, ◌<◌, length, Ok, Err, MatchResult, IfOk};
ghost use Rattle.std.specs.List.{prefix_len};
ghost use Rattle.hex.specs.Hex.{decode_of};
ghost use Rattle.marshal_grammar.specs.Dumps.{dump_of};
ghost use Rattle.drb_text.specs.Bytes.{is_hex};
ghost use Rattle.drb_text.specs.Texts.{dump, dump_in, whole_dump};
ghost use Rattle.drb_text.specs.Told.{ReadsAs, Faults};

use crate::fault::Fault;
use crate::pieces::is_hex;
use drb_value::Value;
use hex::FromHexError;
use marshal_read::{ReadError, read_dump};
use std::alloc::{AllocError, Global};

/// The value whose dump stands in hexadecimal behind the first byte, a `#`, and what stands behind it.
pub(crate) fn read_hex(alloc: Global, bytes: &[u8]) -> Result<(Value, &[u8]), Fault>
    requires { 0 < length bytes.now }
    ensures { MatchResult result
        (λ r. ReadsAs (dump bytes.now) bytes.now r.0 r.1.now)
        (λ f. Faults (dump bytes.now) bytes.now f) }
{
    let (digits, rest) = (&bytes[1..]).split_at(hex_len(&bytes[1..]));
    match decoded(alloc, digits)? {
        Some(value) => Ok((value, rest)),
        None => Err(Fault::Stuck { left: bytes.len() }),
    }
}

/// How many hexadecimal digits there are.
fn hex_len(bytes: &[u8]) -> usize
    ensures exact { result ≡ prefix_len is_hex bytes.now }
    ensures within { result ≤ length bytes.now }
{
    match bytes.iter().position(|b| !is_hex(*b)) {
        Some(end) => end,
        None => bytes.len(),
    }
}

/// The value of hexadecimal digits that are one dump.
fn decoded(alloc: Global, digits: &[u8]) -> Result<Option<Value>, AllocError>
    ensures { IfOk result (λ v. dump_in (decode_of digits.now) ≡ v) }
{
    match hex::decode(alloc, digits) {
        Ok(bytes) => whole(alloc, bytes.as_slice()),
        Err(FromHexError::OutOfMemory) => Err(AllocError),
        Err(_) => Ok(None),
    }
}

/// The value of bytes that are one dump, with nothing behind it.
fn whole(alloc: Global, bytes: &[u8]) -> Result<Option<Value>, AllocError>
    ensures { IfOk result (λ v. whole_dump (dump_of bytes.now) ≡ v) }
{
    match read_dump(alloc, bytes) {
        Ok((value, len)) => {
            if len < bytes.len() {
                drop(value);
                return Ok(None);
            }
            Ok(Some(value))
        }
        Err(ReadError::Refused(_)) => Ok(None),
        Err(ReadError::Memory) => Err(AllocError),
    }
}
