//! The block of a lookup, and what it is told.

ghost use Rattle.std.specs.Prelude.{◌≡◌, IfOk};
ghost use Rattle.drb_value.specs.View.{layer};
ghost use Rattle.rinda_ring.specs.Lookups.{first_of, words_of};
ghost use Rattle.rinda_ring.specs.Blocks.{front, nobody, remote_at, remote_of, second_of, block_of};

use crate::lookup::{first_of, words_of};
use drb_tree::{Bytes, Code, RefId, Remote, Text};
use drb_value::{Node, Value};
use sqlite_items::Items;
use std::alloc::{AllocError, Global};

/// The reference of the front of the server at that uri.
pub fn front(alloc: Global, uri: &Text) -> Result<Value, AllocError>
    ensures { IfOk result (λ value. value ≡ front uri.now) }
{
    let uri = uri.copy(alloc)?;
    Value::remote(
        alloc,
        Remote {
            uri,
            id: RefId::Front,
        },
    )
}

/// The block of a lookup that was taken: its second item.
pub fn block_of(alloc: Global, tuple: Value) -> Remote
    ensures { result ≡ block_of tuple }
{
    match words_of(tuple) {
        Some(words) => remote_of(alloc, second_of(words)),
        None => nobody(alloc),
    }
}

/// The second item, or nil where there is none.
fn second_of(mut items: Items<Value>) -> Value
    ensures { result ≡ second_of items }
{
    if items.is_empty() {
        return Value::nil();
    }
    drop(items.remove(0));
    first_of(items)
}

/// The reference that a value is, or one that names nobody.
#[tactic(auto, using(crate::proofs::Outer::outer))]
fn remote_of(alloc: Global, value: Value) -> Remote
    ensures { result ≡ remote_of value }
{
    let Value { node } = value;
    remote_in(alloc, node)
}

fn remote_in(alloc: Global, node: Node) -> Remote
    ensures { result ≡ remote_at (layer node) }
{
    match node {
        Node::Remote(block) => block.into_inner(),
        other => {
            drop(other);
            nobody(alloc)
        }
    }
}

/// A reference of an empty uri.
fn nobody(alloc: Global) -> Remote
    ensures { result ≡ nobody }
{
    let Ok(bytes) = Bytes::of(alloc, b"") else {
        unreachable!();
    };
    Remote {
        uri: Text {
            bytes,
            code: Code::Utf8,
        },
        id: RefId::Front,
    }
}
