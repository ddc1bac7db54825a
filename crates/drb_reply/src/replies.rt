//! Replies, and their values.

ghost use Rattle.std.specs.Prelude.{◌≡◌, IfOk};
ghost use Rattle.drb_ref.specs.declared.causes.Cause.TheVariants.{ReplyTooLong};
ghost use Rattle.drb_ref.specs.Causes.{exception_of as exception_of_spec};
ghost use Rattle.drb_reply.specs.Replies.{answered};

use crate::failure::exception_for;
use crate::values::{close, reference};
use drb_ref::{Cause, exception_of};
use drb_script::Reply;
use drb_tree::Text;
use drb_value::Value;
use std::alloc::{AllocError, Global};

/// What the server at that uri writes for a reply to the method with that name, the bytes of the request: whether it is
/// success, and the value.
///
/// Whether the value's dump is too long is not looked at here: then `reply_too_long` is written in its place.
/// Errors: only want of memory.
/// Source: docs/SESSIONS.md, Replies.
pub fn answer(
    alloc: Global,
    uri: &Text,
    name: &[u8],
    reply: Reply,
) -> Result<(bool, Value), AllocError>
    ensures { IfOk result (λ both. both ≡ answered uri.now name.now reply) }
{
    match reply {
        Reply::Nil => Ok((true, Value::nil())),
        Reply::Flag(flag) => Ok((true, Value::boolean(flag))),
        Reply::Object(id) => Ok((true, reference(alloc, uri, id)?)),
        Reply::Value(value) => Ok((true, value)),
        Reply::List(values) => Ok((true, Value::list(values))),
        Reply::Close => Ok((true, close(alloc)?)),
        Reply::Failure(failure) => Ok((false, exception_for(alloc, name, failure)?)),
    }
}

/// The exception that is written, as a failure, in place of a value whose dump is too long.
///
/// Errors: only want of memory.
/// Source: docs/WIRE.md, Exceptions; docs/SESSIONS.md, Replies.
pub fn reply_too_long(alloc: Global) -> Result<Value, AllocError>
    ensures { IfOk result (λ value. value ≡ exception_of_spec ReplyTooLong) }
{
    exception_of(alloc, &Cause::ReplyTooLong)
}
