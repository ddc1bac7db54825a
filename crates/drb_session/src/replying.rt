//! Replies as they are written.

ghost use Rattle.std.specs.Prelude.{◌≡◌, IfOk};
ghost use Rattle.drb_ref.specs.declared.causes.Cause.TheVariants as cause;
ghost use Rattle.drb_ref.specs.Causes.{exception_of as exception_of_spec};
ghost use Rattle.drb_session.specs.Replies.{within, text_of as text_of_spec, too_long, is_told as is_told_spec, refused_reply};

use drb_packet::{PacketRefusal, write_reply};
use drb_ref::{Cause, exception_of};
use drb_reply::reply_too_long;
use drb_value::Value;
use marshal_write::WriteError;
use std::alloc::{AllocError, Global};

/// A reply as it is written.
#[derive(Drop)]
pub struct Said {
    /// Whether it is one of success.
    pub ok: bool,
    /// Its bytes.
    pub text: Vec<u8>,
}

/// The failure that the reply is too long, as it is written.
fn say_too_long(alloc: Global) -> Result<Said, AllocError>
    ensures ok { IfOk result (λ s. s.ok ≡ too_long.0) }
    ensures text { IfOk result (λ s. s.text.items ≡ text_of_spec too_long) }
{
    let value = reply_too_long(alloc)?;
    let mut text = Vec::new(alloc);
    match write_reply(false, &value, &mut text) {
        Ok(()) => Ok(Said { ok: false, text }),
        Err(_) => Err(AllocError),
    }
}

/// A reply as it is written; where the dump of its value is too long, the failure that it is.
///
/// Errors: only want of memory.
/// Source: docs/SESSIONS.md, Replies.
pub fn say(alloc: Global, ok: bool, value: &Value) -> Result<Said, AllocError>
    ensures ok { IfOk result (λ s. s.ok ≡ (within (ok, value.now)).0) }
    ensures text { IfOk result (λ s. s.text.items ≡ text_of_spec (within (ok, value.now))) }
{
    let mut text = Vec::new(alloc);
    match write_reply(ok, value, &mut text) {
        Ok(()) => Ok(Said { ok, text }),
        Err(WriteError::TooLong) => say_too_long(alloc),
        Err(WriteError::Memory) => Err(AllocError),
    }
}

/// Whether this refusal of the input is answered: all are, but an input that was cut between two packets.
pub fn is_told(why: PacketRefusal) -> bool
    ensures { result ≡ is_told_spec why }
{
    !matches!(why, PacketRefusal::CutBetween)
}

/// The bytes that answer a refusal of the input.
///
/// Errors: only want of memory.
/// Source: docs/WIRE.md, Refusals.
pub fn say_refusal(alloc: Global, why: PacketRefusal) -> Result<Vec<u8>, AllocError>
    ensures { IfOk result (λ text. text.items ≡ text_of_spec (refused_reply why)) }
{
    let exception = exception_of(alloc, &Cause::Packet(why))?;
    let said = say(alloc, false, &exception)?;
    Ok(said.text)
}
