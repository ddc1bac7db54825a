//! Failures, and the exceptions that tell of them.

ghost use Rattle.std.specs.Prelude.{◌≡◌, IfOk};
ghost use Rattle.drb_ref.specs.Causes.{exception_of as exception_of_spec};
ghost use Rattle.drb_reply.specs.Replies.{exception_for as exception_for_spec, exception_for_back};

use drb_back::Back;
use drb_ref::{Cause, exception_of};
use drb_script::Failure;
use drb_tree::Remote;
use drb_value::Value;
use std::alloc::{AllocError, Global};

/// The exception that tells of the failure of the method with that name, the bytes of the request.
///
/// What a peer raised is handed on as it is, and `bad uri:` has the uri that was called.
/// Errors: only want of memory.
/// Source: docs/WIRE.md, Exceptions; docs/SESSIONS.md, Replies.
pub fn exception_for(alloc: Global, name: &[u8], failure: Failure) -> Result<Value, AllocError>
    ensures { IfOk result (λ value. value ≡ exception_for_spec name.now failure) }
{
    match failure {
        Failure::Expired => exception_of(alloc, &Cause::Expired),
        Failure::Canceled => exception_of(alloc, &Cause::Canceled),
        Failure::WouldWait => exception_of(alloc, &Cause::WouldWait),
        Failure::Shut => exception_of(alloc, &Cause::Shut),
        Failure::Recycled(id) => exception_of(alloc, &Cause::Recycled(id)),
        Failure::Unknown(id) => exception_of(alloc, &Cause::Unknown(id)),
        Failure::WrongKind => exception_of(alloc, &Cause::NoMethod(name)),
        Failure::Call { to, back } => exception_for_back(alloc, to, back),
    }
}

/// The exception for a call of that peer that came to this.
fn exception_for_back(alloc: Global, to: Remote, back: Back) -> Result<Value, AllocError>
    ensures { IfOk result (λ value. value ≡ exception_for_back to back) }
{
    match back {
        Back::Value(value) => handed_on(to, value),
        Back::Raised(exception) => handed_on(to, exception),
        Back::BadUri => bad_uri(alloc, to),
        Back::DialFault => told(alloc, to, &Cause::DialFault),
        Back::ReadFault => told(alloc, to, &Cause::ReadFault),
        Back::WriteFault => told(alloc, to, &Cause::WriteFault),
        Back::Cut => told(alloc, to, &Cause::Cut),
        Back::Refused(refusal) => told(alloc, to, &Cause::Packet(refusal)),
        Back::TooLong => told(alloc, to, &Cause::ArgumentTooLong),
        Back::Memory => told(alloc, to, &Cause::Cut),
    }
}

fn handed_on(to: Remote, value: Value) -> Result<Value, AllocError>
    ensures { IfOk result (λ same. same ≡ value) }
{
    drop(to);
    Ok(value)
}

fn bad_uri(alloc: Global, to: Remote) -> Result<Value, AllocError>
    ensures { IfOk result (λ value. value ≡ exception_for_back to Back.BadUri) }
{
    let raised = exception_of(alloc, &Cause::BadUri(to.uri.bytes.as_slice()));
    drop(to);
    raised
}

fn told(alloc: Global, to: Remote, cause: &Cause<'_>) -> Result<Value, AllocError>
    ensures { IfOk result (λ value. value ≡ exception_of_spec cause.now) }
{
    drop(to);
    exception_of(alloc, cause)
}
