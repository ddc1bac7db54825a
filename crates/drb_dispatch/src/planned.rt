//! What a request is planned as.

ghost use Rattle.std.specs.Prelude.{◌≡◌, IfOk, IsOk};
ghost use Rattle.drb_dispatch.specs.Plans.{judged as judged_spec, call_of as call_spec, planned};

use crate::call::Call;
use crate::calls::call_of;
use crate::checks::called;
use crate::fault::Fault;
use drb_packet::Request;
use drb_value::{Items, Remote, Value};
use std::alloc::{AllocError, Global};

/// What comes of a request.
#[derive(Drop)]
pub enum Planned {
    /// It asks this of the space.
    Call(Call),
    /// It asks nothing, and its caller is answered with this exception.
    Raise(Value),
}

/// The call of a request, or the exception of the first check that it fails.
///
/// The checks are those of docs/SESSIONS.md, Dispatch, in their order there. The arguments and the block move into the
/// call, and nothing of them is copied.
/// Errors: only want of memory, and never where the request passes each check.
/// Source: Ruby's drb.rb, DRbServer::InvokeMethod; docs/SESSIONS.md, Dispatch.
pub fn plan(alloc: Global, request: Request) -> Result<Planned, AllocError>
    ensures planned { IfOk result (λ p. p ≡ planned request) }
    ensures passed { IsOk (call_spec request) → IsOk result }
{
    let Request {
        reference,
        name,
        args,
        block,
    } = request;
    let name = name.bytes;
    match judged(reference, name.as_slice(), args, block) {
        Ok(call) => Ok(Planned::Call(call)),
        Err(fault) => Ok(Planned::Raise(fault.exception(alloc, name.as_slice())?)),
    }
}

/// The call of a request with these parts, or the first check that it fails.
#[tactic(auto, unfolding(crate::specs::Plans::judged))]
fn judged(
    reference: Value,
    name: &[u8],
    args: Items<Value>,
    block: Option<Remote>,
) -> Result<Call, Fault>
    ensures { result ≡ judged_spec reference name.now args block }
{
    let method = called(&reference, name, args.len())?;
    call_of(method, args, block)
}
