//! What can be asked of a space, and the request that each makes first.

ghost use Rattle.std.specs.Prelude.{◌≡◌, ◌≤◌, ◌∷◌, [], length, IfOk, IsTrue};
ghost use Rattle.drb_tree.specs.Same.{all_ascii};
ghost use Rattle.drb_value.specs.View.{layer};
ghost use Rattle.rinda_proxy.specs.Requests.{method_of as method_of_spec, arguments_of as arguments_of_spec, with_life as with_life_spec, pops_of as pops_of_spec, front_at as front_at_spec, nobody as nobody_spec, named_in as named_in_spec, named_by as named_by_spec, says_close as says_close_spec, only_close as only_close_spec, closes as closes_spec, is_last as is_last_spec};

use drb_back::Back;
use drb_value::{Code, Items, Node, RefId, Remote, Text, Value};
use std::alloc::{AllocError, Global};

/// What is asked of a space.
///
/// Lives are in seconds. Source: Ruby's tuplespace.rb, TupleSpace; docs/CLIENT.md, Commands.
#[derive(Drop)]
pub enum Asking {
    /// Writes a tuple, for that long where a life is named.
    Write {
        tuple: Value,
        life: Option<i128>,
    },
    /// Reads a tuple that matches, and waits that long for one where a life is named.
    Read {
        tuple: Value,
        life: Option<i128>,
    },
    /// Reads all tuples that match.
    ReadAll {
        tuple: Value,
    },
    /// Waits for events of tuples that match, at most so many. The event is a text, or nil for any.
    Watch {
        event: Value,
        tuple: Value,
        count: u64,
    },
}

/// The method that is called first.
pub(crate) fn method_of(asking: &Asking) -> &'static [u8]
    ensures method { result.now ≡ method_of_spec asking.now }
    ensures ascii { IsTrue (all_ascii result.now) }
{
    match asking {
        Asking::Write { .. } => b"write",
        Asking::Read { .. } => b"read",
        Asking::ReadAll { .. } => b"read_all",
        Asking::Watch { .. } => b"notify",
    }
}

/// The arguments that it is called with.
pub(crate) fn arguments_of(alloc: Global, asking: &Asking) -> Result<Items<Value>, AllocError>
    ensures arguments { IfOk result (λ args. args ≡ arguments_of_spec asking.now) }
    ensures few { IfOk result (λ args. length args ≤ 2) }
{
    match asking {
        Asking::Write { tuple, life } => with_life(alloc, tuple, *life),
        Asking::Read { tuple, life } => with_life(alloc, tuple, *life),
        Asking::ReadAll { tuple } => with_life(alloc, tuple, None),
        Asking::Watch { event, tuple, .. } => with_event(alloc, event, tuple),
    }
}

fn with_life(alloc: Global, tuple: &Value, life: Option<i128>) -> Result<Items<Value>, AllocError>
    ensures arguments { IfOk result (λ args. args ≡ with_life_spec tuple.now life) }
    ensures few { IfOk result (λ args. length args ≤ 2) }
{
    let mut args = Items::new(alloc);
    args.push(tuple.copy(alloc)?)?;
    if let Some(seconds) = life {
        args.push(Value::int(seconds))?;
    }
    Ok(args)
}

fn with_event(alloc: Global, event: &Value, tuple: &Value) -> Result<Items<Value>, AllocError>
    ensures arguments { IfOk result (λ args. args ≡ event.now ∷ tuple.now ∷ []) }
    ensures few { IfOk result (λ args. length args ≤ 2) }
{
    let mut args = Items::new(alloc);
    args.push(event.copy(alloc)?)?;
    args.push(tuple.copy(alloc)?)?;
    Ok(args)
}

/// How often an event is asked for at most; None where none is.
pub(crate) fn pops_of(asking: &Asking) -> Option<u64>
    ensures { result ≡ pops_of_spec asking.now }
{
    match asking {
        Asking::Write { .. } => None,
        Asking::Read { .. } => None,
        Asking::ReadAll { .. } => None,
        Asking::Watch { count, .. } => Some(*count),
    }
}

/// The space of the server at that uri.
pub(crate) fn front_at(alloc: Global, uri: &Text) -> Result<Remote, AllocError>
    ensures { IfOk result (λ to. to ≡ front_at_spec uri.now) }
{
    let uri = uri.copy(alloc)?;
    Ok(Remote {
        uri,
        id: RefId::Front,
    })
}

/// The object that a reply names; where it is no reference, one at an empty uri.
#[tactic(auto, using(crate::proofs::Outer::outer))]
pub(crate) fn named_by(alloc: Global, value: Value) -> Result<Remote, AllocError>
    ensures { IfOk result (λ to. to ≡ named_by_spec value) }
{
    let Value { node } = value;
    named_in(alloc, node)
}

fn named_in(alloc: Global, node: Node) -> Result<Remote, AllocError>
    ensures { IfOk result (λ to. to ≡ named_in_spec (layer node)) }
{
    match node {
        Node::Remote(remote) => Ok(remote.into_inner()),
        _ => nobody(alloc),
    }
}

fn nobody(alloc: Global) -> Result<Remote, AllocError>
    ensures { IfOk result (λ to. to ≡ nobody_spec) }
{
    let uri = Text::of(alloc, b"", Code::Utf8)?;
    Ok(Remote {
        uri,
        id: RefId::Front,
    })
}

/// Whether no further event is asked for after this answer.
#[tactic(auto, using(crate::proofs::Outer::outer))]
pub(crate) fn is_last(back: &Back) -> bool
    ensures { result ≡ is_last_spec back.now }
{
    match back {
        Back::Value(value) => closes(&value.node),
        _ => true,
    }
}

fn closes(node: &Node) -> bool
    ensures { result ≡ closes_spec (layer node.now) }
{
    match node {
        Node::List(items) => only_close(items.as_slice()),
        _ => false,
    }
}

#[tactic(auto, using(crate::proofs::Outer::outer))]
fn only_close(items: &[Value]) -> bool
    ensures { result ≡ only_close_spec items.now }
{
    match items {
        [item] => says_close(&item.node),
        _ => false,
    }
}

fn says_close(node: &Node) -> bool
    ensures { result ≡ says_close_spec (layer node.now) }
{
    match node {
        Node::Text(text) => text.bytes.as_slice() == b"close".as_slice(),
        _ => false,
    }
}
