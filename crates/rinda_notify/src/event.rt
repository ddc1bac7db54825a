//! An event as a notifier gives it.

ghost use Rattle.std.specs.Prelude.{◌≡◌, IfOk};
ghost use Rattle.rinda_rules.specs.Space.{text_of as text_of_spec};
ghost use Rattle.rinda_notify.specs.Notes.{event_of as event_of_spec};

use drb_tree::{Bytes, Code, Text};
use drb_value::Value;
use rinda_rules::plain::Happening;
use rinda_tuple::Tuple;
use sqlite_items::Items;
use std::alloc::{AllocError, Global};

/// The name of what happened, as a text.
///
/// Errors: only want of memory.
pub(crate) fn text_of(alloc: Global, what: Happening) -> Result<Value, AllocError>
    ensures { IfOk result (λ v. v ≡ text_of_spec what) }
{
    let bytes = match what {
        Happening::Write => Bytes::of(alloc, b"write")?,
        Happening::Take => Bytes::of(alloc, b"take")?,
        Happening::Delete => Bytes::of(alloc, b"delete")?,
    };
    Ok(Value::text(Text {
        bytes,
        code: Code::Utf8,
    }))
}

/// The name of what happened and a copy of the tuple.
///
/// Errors: only want of memory.
pub(crate) fn event_of(alloc: Global, what: Happening, tuple: &Tuple) -> Result<Value, AllocError>
    ensures { IfOk result (λ v. v ≡ event_of_spec what tuple.now) }
{
    let mut parts = Items::new(alloc);
    parts.push(text_of(alloc, what)?)?;
    parts.push(tuple.to_value(alloc)?)?;
    Ok(Value::list(parts))
}
