//! The two values that a place makes of its own: the reference of an object, and the last event of a notifier.

ghost use Rattle.std.specs.Prelude.{◌≡◌, IfOk};
ghost use Rattle.drb_reply.specs.Values.{reference as reference_spec, close as close_spec};

use drb_tree::{Code, RefId, Remote, Text};
use drb_value::Value;
use sqlite_items::Items;
use std::alloc::{AllocError, Global};

/// The reference of the object with that id, of the server at that uri.
///
/// Errors: only want of memory.
/// Source: Ruby's drb.rb, DRbObject; docs/SESSIONS.md, Replies.
pub fn reference(alloc: Global, uri: &Text, id: u64) -> Result<Value, AllocError>
    ensures { IfOk result (λ value. value ≡ reference_spec uri.now id) }
{
    let uri = uri.copy(alloc)?;
    let id = RefId::Number(id as i128);
    Value::remote(alloc, Remote { uri, id })
}

/// `["close"]`, which tells that a notifier has ended and has no events left.
///
/// Errors: only want of memory.
/// Source: Ruby's tuplespace.rb, NotifyTemplateEntry#notify; docs/SESSIONS.md, Replies.
pub fn close(alloc: Global) -> Result<Value, AllocError>
    ensures { IfOk result (λ value. value ≡ close_spec) }
{
    let text = Text::of(alloc, b"close", Code::Utf8)?;
    let mut items = Items::new(alloc);
    items.push(Value::text(text))?;
    Ok(Value::list(items))
}
