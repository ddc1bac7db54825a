//! Causes by their names.

use drb_packet::{PacketError, PacketRefusal};
use drb_ref::Cause;
use marshal_grammar::refusal::Refusal;
use marshal_read::{ReadError, read_dump};
use std::alloc::Global;

/// Why a dump in hexadecimal is refused.
fn dump_refusal(alloc: Global, text: &str) -> Option<Refusal> {
    let bytes = hex::decode(alloc, text).ok()?;
    match read_dump(alloc, bytes.as_slice()) {
        Err(ReadError::Refused(refusal)) => Some(refusal),
        _ => None,
    }
}

/// The refusal of a packet that has this name: `Marshal` with a dump that is refused, `TooLarge` and `TooManyArguments`
/// with a number.
pub fn refusal_of(alloc: Global, text: &str) -> Option<PacketRefusal> {
    let (name, rest) = text.split_once(' ').unwrap_or((text, ""));
    match name {
        "PrematureHeader" => Some(PacketRefusal::PrematureHeader),
        "TooLarge" => rest.parse().ok().map(PacketRefusal::TooLarge),
        "PrematureBody" => Some(PacketRefusal::PrematureBody),
        "Marshal" => dump_refusal(alloc, rest).map(PacketRefusal::Marshal),
        "NotAName" => Some(PacketRefusal::NotAName),
        "NotACount" => Some(PacketRefusal::NotACount),
        "TooManyArguments" => rest.parse().ok().map(PacketRefusal::TooManyArguments),
        "NotABlock" => Some(PacketRefusal::NotABlock),
        "CutBetween" => Some(PacketRefusal::CutBetween),
        _ => None,
    }
}

/// The error of a packet that has this name.
pub fn packet_error_of(name: &str) -> Option<PacketError> {
    match name {
        "ReadFault" => Some(PacketError::ReadFault),
        "Memory" => Some(PacketError::Memory),
        _ => None,
    }
}

/// The counts given, least and most.
fn wrong_count(text: &str) -> Option<Cause<'_>> {
    let mut counts = text.split(' ');
    let given = counts.next()?.parse().ok()?;
    let least = counts.next()?.parse().ok()?;
    let most = counts.next()?.parse().ok()?;
    Some(Cause::WrongCount { given, least, most })
}

/// The cause that has this name, with what it carries behind it.
pub fn cause_of(alloc: Global, text: &str) -> Option<Cause<'_>> {
    let (name, rest) = text.split_once(' ').unwrap_or((text, ""));
    match name {
        "NoMethod" => Some(Cause::NoMethod(rest.as_bytes())),
        "Insecure" => Some(Cause::Insecure),
        "WrongCount" => wrong_count(rest),
        "NotATuple" => Some(Cause::NotATuple),
        "BadKey" => Some(Cause::BadKey),
        "NotAnId" => Some(Cause::NotAnId),
        "BadPort" => Some(Cause::BadPort),
        "Expired" => Some(Cause::Expired),
        "Canceled" => Some(Cause::Canceled),
        "WouldWait" => Some(Cause::WouldWait),
        "Shut" => Some(Cause::Shut),
        "Recycled" => Some(Cause::Recycled(rest.parse().ok()?)),
        "Unknown" => Some(Cause::Unknown(rest.parse().ok()?)),
        "ReplyTooLong" => Some(Cause::ReplyTooLong),
        "ArgumentTooLong" => Some(Cause::ArgumentTooLong),
        "BadUri" => Some(Cause::BadUri(rest.as_bytes())),
        "DialFault" => Some(Cause::DialFault),
        "ReadFault" => Some(Cause::ReadFault),
        "WriteFault" => Some(Cause::WriteFault),
        "Cut" => Some(Cause::Cut),
        _ => Some(Cause::Packet(refusal_of(alloc, text)?)),
    }
}
