//! What an outgoing call says: its method and its arguments.

ghost use Rattle.std.specs.Prelude.{◌≡◌, ◌≤◌, [], ◌∷◌, length, IfOk, OnOk, IsTrue, Err};
ghost use Rattle.drb_tree.specs.Same.{all_ascii};
ghost use Rattle.drb_ref.specs.Blocks.{IsTooLong};
ghost use Rattle.drb_reply.specs.Arguments.{method_of as method_of_spec, Arguments, ArgumentForBlock, IsTooLongFor};

use crate::values::{close, reference};
use drb_ref::array_for_block;
use drb_script::Saying;
use drb_tree::Text;
use drb_value::Value;
use marshal_write::WriteError;
use sqlite_items::Items;
use std::alloc::{AllocError, Global};

/// The method that a peer is called by: `renew`, `call` or `push`.
///
/// Source: Ruby's tuplespace.rb, TupleEntry#renewer and TupleSpace#move; docs/SESSIONS.md, Replies.
pub fn method_of(saying: &Saying) -> &'static [u8]
    ensures method { result.now ≡ method_of_spec saying.now }
    ensures ascii { IsTrue (all_ascii result.now) }
{
    match saying {
        Saying::Renew => b"renew",
        Saying::Object(_) | Saying::Event(_) | Saying::Close => b"call",
        Saying::Push(_) => b"push",
    }
}

/// The arguments of a call by the server at that uri, one at most.
///
/// Errors: `TooLong` exactly where an array for a block is too long, as of `array_for_block`; `Memory` at any time.
/// Source: docs/SESSIONS.md, Replies.
pub fn arguments_of(alloc: Global, uri: &Text, saying: Saying) -> Result<Items<Value>, WriteError>
    ensures arguments { IfOk result (λ args. Arguments uri.now saying args) }
    ensures few { IfOk result (λ args. length args ≤ 1) }
    ensures within { OnOk result (IsTooLongFor saying → ⊥) }
    ensures too_long { result ≡ Err WriteError.TooLong → IsTooLongFor saying }
{
    match saying {
        Saying::Renew => Ok(Items::new(alloc)),
        Saying::Object(id) => Ok(referring(alloc, uri, id)?),
        Saying::Event(value) => for_block(alloc, value),
        Saying::Close => for_block(alloc, close(alloc)?),
        Saying::Push(value) => Ok(only(alloc, value)?),
    }
}

/// A list of this value alone.
fn only(alloc: Global, value: Value) -> Result<Items<Value>, AllocError>
    ensures { IfOk result (λ args. args ≡ value ∷ []) }
{
    let mut args = Items::new(alloc);
    args.push(value)?;
    Ok(args)
}

fn referring(alloc: Global, uri: &Text, id: u64) -> Result<Items<Value>, AllocError>
    ensures { IfOk result (λ args. Arguments uri.now (Saying.Object id) args) }
{
    only(alloc, reference(alloc, uri, id)?)
}

/// The argument that a block is sent for this value.
fn for_block(alloc: Global, value: Value) -> Result<Items<Value>, WriteError>
    ensures arguments { IfOk result (λ args. ArgumentForBlock value args) }
    ensures within { OnOk result (IsTooLong value → ⊥) }
    ensures too_long { result ≡ Err WriteError.TooLong → IsTooLong value }
{
    let sent = array_for_block(alloc, &value);
    drop(value);
    Ok(only(alloc, sent?)?)
}
