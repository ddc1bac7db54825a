//! Why a call fails, and the exception that tells its caller so.

ghost use Rattle.std.specs.Prelude.{◌≡◌, ◌++◌, IfOk, IsTrue, codes, decimal};
ghost use Rattle.drb_tree.specs.Same.{all_ascii};
ghost use Rattle.drb_ref.specs.Causes.{refused_at, wrong_count, raised, exception_of};

use crate::exceptions::exception;
use drb_packet::PacketRefusal;
use drb_value::Value;
use itoa::Buffer;
use marshal_grammar::refusal::Refusal;
use std::alloc::{AllocError, Global};

/// Why a call fails, at the server or in a call to a peer.
///
/// Each cause has one class and one text, `raised` in `specs/Causes.antt`. Names and uris are borrowed, so making a cause
/// takes no memory. An exception that a peer answered is none of these: it is handed on as it is.
/// Source: docs/WIRE.md, Exceptions.
#[derive(Clone, Copy, Debug)]
pub enum Cause<'a> {
    /// The bytes were refused, as a request or as a peer's reply.
    Packet(PacketRefusal),
    /// The object of the reference has no method of this name, also where its id is of another kind.
    NoMethod(&'a [u8]),
    /// The method is `__send__`, which would call any other.
    Insecure,
    /// The method takes `least` to `most` arguments.
    WrongCount {
        given: usize,
        least: usize,
        most: usize,
    },
    /// What stands for a tuple is neither an array nor a hash.
    NotATuple,
    /// What stands for a tuple is a hash with a key that is no text.
    BadKey,
    /// The reference is neither nil nor the number of an id.
    NotAnId,
    /// The port is neither nil nor a reference.
    BadPort,
    /// The request's time is over.
    Expired,
    /// The request was canceled.
    Canceled,
    /// The answer is not there, and nobody waits for it.
    WouldWait,
    /// The space is shut.
    Shut,
    /// The object of this id is gone.
    Recycled(u64),
    /// No object ever had this id.
    Unknown(u64),
    /// The dump of a reply's result is too long.
    ReplyTooLong,
    /// The dump of an argument of a call to a peer is too long.
    ArgumentTooLong,
    /// A peer's uri is none.
    BadUri(&'a [u8]),
    /// A peer was not reached.
    DialFault,
    /// A peer's reply was not read.
    ReadFault,
    /// A request to a peer was not written.
    WriteFault,
    /// A peer's reply ended before the first byte of a packet.
    Cut,
}

/// The exception that tells of the cause: of the class and with the text of its row in docs/WIRE.md, Exceptions.
///
/// Errors: only want of memory.
pub fn exception_of(alloc: Global, cause: &Cause<'_>) -> Result<Value, AllocError>
    ensures { IfOk result (λ value. value ≡ exception_of cause.now) }
{
    let text = text_of(alloc, cause)?;
    exception(alloc, class_of(cause), text.as_slice())
}

fn class_of(cause: &Cause<'_>) -> &'static [u8]
    ensures class { result.now ≡ (raised cause.now).0 }
    ensures ascii { IsTrue (all_ascii result.now) }
{
    match *cause {
        Cause::Packet(refusal) => class_of_refusal(refusal),
        Cause::NoMethod(_) => b"NoMethodError",
        Cause::Insecure => b"SecurityError",
        Cause::WrongCount { .. } => b"ArgumentError",
        Cause::NotATuple | Cause::NotAnId | Cause::BadPort => b"TypeError",
        Cause::BadKey => b"Rinda::InvalidHashTupleKey",
        Cause::Expired => b"Rinda::RequestExpiredError",
        Cause::Canceled => b"Rinda::RequestCanceledError",
        Cause::WouldWait => b"ThreadError",
        Cause::Shut => b"RuntimeError",
        Cause::Recycled(_) | Cause::Unknown(_) => b"RangeError",
        Cause::ReplyTooLong | Cause::ArgumentTooLong => b"RangeError",
        Cause::BadUri(_) => b"DRb::DRbBadURI",
        Cause::DialFault | Cause::ReadFault | Cause::WriteFault | Cause::Cut =>
            b"DRb::DRbConnError",
    }
}

fn class_of_refusal(refusal: PacketRefusal) -> &'static [u8]
    ensures class { result.now ≡ (raised (Cause.Packet refusal)).0 }
    ensures ascii { IsTrue (all_ascii result.now) }
{
    match refusal {
        PacketRefusal::Marshal(_) => b"ArgumentError",
        PacketRefusal::NotAName | PacketRefusal::NotACount | PacketRefusal::NotABlock =>
            b"TypeError",
        PacketRefusal::PrematureHeader
        | PacketRefusal::TooLarge(_)
        | PacketRefusal::PrematureBody
        | PacketRefusal::TooManyArguments(_)
        | PacketRefusal::CutBetween => b"DRb::DRbConnError",
    }
}

fn text_of(alloc: Global, cause: &Cause<'_>) -> Result<Vec<u8>, AllocError>
    ensures { IfOk result (λ text. text.items ≡ (raised cause.now).1) }
{
    match *cause {
        Cause::Packet(refusal) => text_of_refusal(alloc, refusal),
        Cause::NoMethod(name) => joined(alloc, b"no method ", name),
        Cause::Insecure => Vec::from_slice(alloc, b"insecure method __send__"),
        Cause::WrongCount { given, least, most } => wrong_count(alloc, given, least, most),
        Cause::NotATuple => Vec::from_slice(alloc, b"tuple must be an array or a hash"),
        Cause::BadKey => Vec::from_slice(alloc, b"hash tuple keys must be texts"),
        Cause::NotAnId => Vec::from_slice(alloc, b"reference must be nil or a number"),
        Cause::BadPort => Vec::from_slice(alloc, b"port must be a reference"),
        Cause::Expired => Vec::from_slice(alloc, b"request expired"),
        Cause::Canceled => Vec::from_slice(alloc, b"request canceled"),
        Cause::WouldWait => Vec::from_slice(alloc, b"would wait"),
        Cause::Shut => Vec::from_slice(alloc, b"space is shut"),
        Cause::Recycled(id) => after_id(alloc, id, b" is recycled object"),
        Cause::Unknown(id) => after_id(alloc, id, b" is not id value"),
        Cause::ReplyTooLong => Vec::from_slice(alloc, b"reply too long"),
        Cause::ArgumentTooLong => Vec::from_slice(alloc, b"argument too long"),
        Cause::BadUri(uri) => joined(alloc, b"bad uri:", uri),
        Cause::DialFault => Vec::from_slice(alloc, b"dial failed"),
        Cause::ReadFault => Vec::from_slice(alloc, b"read failed"),
        Cause::WriteFault => Vec::from_slice(alloc, b"write failed"),
        Cause::Cut => Vec::from_slice(alloc, b"connection closed"),
    }
}

fn text_of_refusal(alloc: Global, refusal: PacketRefusal) -> Result<Vec<u8>, AllocError>
    ensures { IfOk result (λ text. text.items ≡ (raised (Cause.Packet refusal)).1) }
{
    match refusal {
        PacketRefusal::PrematureHeader => Vec::from_slice(alloc, b"premature header"),
        PacketRefusal::TooLarge(size) => too_large(alloc, size),
        PacketRefusal::PrematureBody => Vec::from_slice(
            alloc,
            b"premature marshal format(can't read)",
        ),
        PacketRefusal::Marshal(refusal) => refused(alloc, refusal),
        PacketRefusal::NotAName => Vec::from_slice(alloc, b"method name must be a text"),
        PacketRefusal::NotACount => Vec::from_slice(
            alloc,
            b"argument count must be a whole number",
        ),
        PacketRefusal::TooManyArguments(_) => Vec::from_slice(alloc, b"too many arguments"),
        PacketRefusal::NotABlock => Vec::from_slice(alloc, b"block must be a reference"),
        PacketRefusal::CutBetween => Vec::from_slice(alloc, b"connection closed"),
    }
}

fn joined(alloc: Global, head: &[u8], tail: &[u8]) -> Result<Vec<u8>, AllocError>
    ensures { IfOk result (λ text. text.items ≡ head.now ++ tail.now) }
{
    let mut text = Vec::from_slice(alloc, head)?;
    text.extend_from_slice(tail)?;
    Ok(text)
}

fn after_id(alloc: Global, id: u64, tail: &[u8]) -> Result<Vec<u8>, AllocError>
    ensures { IfOk result (λ text. text.items ≡ decimal id ++ tail.now) }
{
    joined(alloc, Buffer::new().format(id).as_bytes(), tail)
}

fn too_large(alloc: Global, size: u32) -> Result<Vec<u8>, AllocError>
    ensures { IfOk result (λ text. text.items ≡ codes "too large packet " ++ decimal size) }
{
    joined(
        alloc,
        b"too large packet ",
        Buffer::new().format(size).as_bytes(),
    )
}

fn refused(alloc: Global, refusal: Refusal) -> Result<Vec<u8>, AllocError>
    ensures { IfOk result (λ text. text.items ≡ refused_at refusal) }
{
    let mut buffer = Buffer::new();
    let mut text = Vec::from_slice(alloc, b"marshal refusal ")?;
    text.extend_from_slice(buffer.format(refusal.why.number()).as_bytes())?;
    text.extend_from_slice(b" at ")?;
    text.extend_from_slice(buffer.format(refusal.at).as_bytes())?;
    Ok(text)
}

fn wrong_count(
    alloc: Global,
    given: usize,
    least: usize,
    most: usize,
) -> Result<Vec<u8>, AllocError>
    ensures { IfOk result (λ text. text.items ≡ wrong_count given least most) }
{
    let mut buffer = Buffer::new();
    let mut text = Vec::from_slice(alloc, b"wrong number of arguments (given ")?;
    text.extend_from_slice(buffer.format(given).as_bytes())?;
    text.extend_from_slice(b", expected ")?;
    text.extend_from_slice(buffer.format(least).as_bytes())?;
    if least != most {
        text.extend_from_slice(b"..")?;
        text.extend_from_slice(buffer.format(most).as_bytes())?;
    }
    text.extend_from_slice(b")")?;
    Ok(text)
}
