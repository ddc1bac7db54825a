//! Lookups: what a datagram asks to be written, read and written.

ghost use Rattle.std.specs.Prelude.{◌≡◌, ◌⊎◌, ◌++◌, ◌<◌, ◌≤◌, length, IfOk, OnOk, OnErr, Ok, Err};
ghost use Rattle.std.specs.declared.result.Result.{Result};
ghost use Rattle.drb_value.specs.View.{layer};
ghost use Rattle.marshal_grammar.specs.Spelled.{spelled};
ghost use Rattle.marshal_write.specs.Limits.{max_dump};
ghost use Rattle.rinda_ring.specs.Lookups.{Finds, said, lookup_of, lookup_at, pair_of, first_of, words_of, words_at, lookup_name, words_tree, lookup_tree};

use drb_tree::Remote;
use drb_value::{Name, NameError, Node, Value};
use marshal_grammar::refusal::Refusal;
use marshal_read::{ReadError, read_dump};
use marshal_write::{WriteError, write_dump};
use rinda_tuple::Tuple;
use sqlite_items::Items;
use std::alloc::{AllocError, Global};
use thiserror::Error;

/// What a datagram asks a ring to write.
///
/// Source: Ruby's ring.rb, RingServer#do_write; docs/RING.md, Lookups.
#[derive(Drop)]
pub struct Lookup {
    /// The tuple.
    pub tuple: Tuple,
    /// How long it stays, as the life argument of a write says it; nil where the datagram says nothing.
    pub life: Value,
}

/// Why a datagram is no lookup.
///
/// Source: docs/RING.md, Lookups.
#[derive(Clone, Copy, Debug, PartialEq, Eq, Error)]
pub enum RingRefusal {
    /// Its bytes are refused as a dump.
    #[error("the datagram is no dump: {0}")]
    Marshal(Refusal),
    /// Its value is no array, or an empty one.
    #[error("the datagram is no array of a tuple and a life")]
    NotAPair,
    /// The first item is no array.
    #[error("the datagram's tuple is no array")]
    NotATuple,
}

/// Why no lookup is read.
#[derive(Clone, Copy, Debug, PartialEq, Eq, Error)]
pub enum RingError {
    /// The datagram is none.
    #[error(transparent)]
    Refused(RingRefusal),
    /// There was no memory.
    #[error("out of memory")]
    Memory,
}

/// The lookup that a datagram begins with.
///
/// A life that is missing is nil. Further items, and what follows the dump, are ignored.
/// Errors: `Refused` exactly where the datagram is no lookup: `Marshal` where its bytes are refused as a dump, for that
/// reason at that place; `NotAPair` where they begin with the dump of anything but an array of one item or more;
/// `NotATuple` where its first item is no array. `Memory` at any time.
/// Source: Ruby's ring.rb, RingServer#do_write; docs/RING.md, Lookups.
pub fn read_lookup(alloc: Global, datagram: &[u8]) -> Result<Lookup, RingError>
    ensures lookup { IfOk result (λ lookup. Finds datagram.now (Ok lookup)) }
    ensures refusal { (why : RingRefusal) → result ≡ Err (RingError.Refused why) →
        Finds datagram.now (Err why) }
    ensures every { (found : Result Lookup RingRefusal) → Finds datagram.now found →
        (result ≡ said found) ⊎ (result ≡ Err RingError.Memory) }
{
    match read_dump(alloc, datagram) {
        Ok((value, _)) => said(lookup_of(value)),
        Err(ReadError::Refused(refusal)) => Err(RingError::Refused(RingRefusal::Marshal(refusal))),
        Err(ReadError::Memory) => Err(RingError::Memory),
    }
}

fn said(found: Result<Lookup, RingRefusal>) -> Result<Lookup, RingError>
    ensures { result ≡ said found }
{
    match found {
        Ok(lookup) => Ok(lookup),
        Err(why) => Err(RingError::Refused(why)),
    }
}

/// The lookup that a value is.
#[tactic(auto, using(crate::proofs::Outer::outer))]
fn lookup_of(value: Value) -> Result<Lookup, RingRefusal>
    ensures { result ≡ lookup_of value }
{
    let Value { node } = value;
    lookup_in(node)
}

fn lookup_in(node: Node) -> Result<Lookup, RingRefusal>
    ensures { result ≡ lookup_at (layer node) }
{
    match node {
        Node::List(items) => pair_of(items),
        _ => Err(RingRefusal::NotAPair),
    }
}

/// The lookup that the items of an array are.
fn pair_of(mut items: Items<Value>) -> Result<Lookup, RingRefusal>
    ensures { result ≡ pair_of items }
{
    if items.is_empty() {
        return Err(RingRefusal::NotAPair);
    }
    let first = items.remove(0);
    let life = first_of(items);
    match words_of(first) {
        Some(words) => Ok(Lookup {
            tuple: Tuple::List(words),
            life,
        }),
        None => {
            drop(life);
            Err(RingRefusal::NotATuple)
        }
    }
}

/// The first item, or nil where there is none.
pub fn first_of(mut items: Items<Value>) -> Value
    ensures { result ≡ first_of items }
{
    if items.is_empty() {
        return Value::nil();
    }
    items.remove(0)
}

/// The items of a value that is an array.
#[tactic(auto, using(crate::proofs::Outer::outer))]
pub fn words_of(value: Value) -> Option<Items<Value>>
    ensures { result ≡ words_of value }
{
    let Value { node } = value;
    words_in(node)
}

fn words_in(node: Node) -> Option<Items<Value>>
    ensures { result ≡ words_at (layer node) }
{
    match node {
        Node::List(items) => Some(items),
        _ => None,
    }
}

/// Appends the datagram by which a client looks for a ring: its block is called with the front of each server that hears
/// it, and the tuple stays for so many seconds.
///
/// Errors: `TooLong` exactly where the spelling has more than 2^30 - 1 bytes; `Memory` at any time. At an error `out` has
/// the bytes that it had; only its capacity may have grown.
/// Source: Ruby's ring.rb, RingFinger#lookup_ring; docs/RING.md, Lookups.
pub fn write_lookup(
    alloc: Global,
    block: &Remote,
    seconds: i128,
    out: &mut Vec<u8>,
) -> Result<(), WriteError>
    ensures written { OnOk result
        (out.new.items ≡ out.old.items ++ spelled (lookup_tree block.now seconds)) }
    ensures within { OnOk result (length (spelled (lookup_tree block.now seconds)) ≤ max_dump) }
    ensures too_long { result ≡ Err WriteError.TooLong →
        max_dump < length (spelled (lookup_tree block.now seconds)) }
    ensures unchanged { OnErr result (out.new.items ≡ out.old.items) }
{
    match lookup_value(alloc, block, seconds) {
        Ok(value) => {
            let written = write_dump(&value, out);
            drop(value);
            written
        }
        Err(_) => Err(WriteError::Memory),
    }
}

/// The value of a lookup.
fn lookup_value(alloc: Global, block: &Remote, seconds: i128) -> Result<Value, AllocError>
    ensures { IfOk result (λ value. value ≡ lookup_tree block.now seconds) }
{
    let mut pair = Items::new(alloc);
    pair.push(words_value(alloc, block)?)?;
    pair.push(Value::int(seconds))?;
    Ok(Value::list(pair))
}

/// The tuple of a lookup.
fn words_value(alloc: Global, block: &Remote) -> Result<Value, AllocError>
    ensures { IfOk result (λ value. value ≡ words_tree block.now) }
{
    let mut words = Items::new(alloc);
    words.push(Value::sym(lookup_name(alloc)?))?;
    words.push(Value::remote(alloc, block.copy(alloc)?)?)?;
    Ok(Value::list(words))
}

/// The symbol in front of a lookup's tuple.
pub fn lookup_name(alloc: Global) -> Result<Name, AllocError>
    ensures { IfOk result (λ name. name ≡ lookup_name) }
{
    match Name::of(alloc, b"lookup_ring") {
        Ok(name) => Ok(name),
        Err(NameError::Memory) | Err(NameError::NotUtf8) => Err(AllocError),
    }
}
