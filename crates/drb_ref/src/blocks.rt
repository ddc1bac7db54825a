//! Arrays on their way to a block, which Ruby sends as dumps of their own.

ghost use Rattle.std.specs.Prelude.{◌≡◌, ◌<◌, ◌≤◌, ℕ, List, [], length, ◌⊎◌, IfOk, OnOk, Ok, Err, MatchOption, MatchResult, IsTrue, ◌↔◌, slice_index};
ghost use Rattle.drb_tree.specs.declared.Tree.{Tree};
ghost use Rattle.drb_tree.specs.Trees.{dumped_tree, list_tree};
ghost use Rattle.marshal_grammar.specs.declared.refusal.Why.{Why};
ghost use Rattle.marshal_grammar.specs.declared.refusal.Refusal.{Refusal};
ghost use Rattle.marshal_grammar.specs.Spelled.{spelled};
ghost use Rattle.marshal_write.specs.Limits.{max_dump};
ghost use Rattle.drb_ref.specs.Blocks.{array_class, ForBlock, IsTooLong, IsList, Holds, DumpsList, IsListIn, RefusesArray, refused_as, IsOrLacksMemory};

use crate::exceptions::ascii_name;
use drb_value::{Dumped, FieldList, Items, Node, Value};
use marshal_grammar::refusal::{Refusal, Why};
use marshal_read::{ReadError, read_dump};
use marshal_write::{WriteError, write_dump};
use std::alloc::{AllocError, Global};

/// What a block is sent for a value: of an array a `DRb::DRbArray` that holds its dump, of every other value a copy.
///
/// Errors: `TooLong` exactly where the value is an array whose dump is longer than a dump may be; `Memory` at any time.
/// Source: Ruby's drb.rb, DRbArray#_dump; docs/WIRE.md, Arrays for blocks.
pub fn array_for_block(alloc: Global, v: &Value) -> Result<Value, WriteError>
    ensures sent { IfOk result (λ w. ForBlock v.now w) }
    ensures within { OnOk result (IsTooLong v.now → ⊥) }
    ensures too_long { result ≡ Err WriteError.TooLong → IsTooLong v.now }
{
    if !is_list(v) {
        return Ok(v.copy(alloc)?);
    }
    let dump = dump_of(alloc, v)?;
    Ok(holding(alloc, &dump)?)
}

fn dump_of(alloc: Global, v: &Value) -> Result<Vec<u8>, WriteError>
    ensures dump { IfOk result (λ dump. dump.items ≡ spelled v.now) }
    ensures within { OnOk result (length (spelled v.now) ≤ max_dump) }
    ensures too_long { result ≡ Err WriteError.TooLong → max_dump < length (spelled v.now) }
{
    let mut dump = Vec::new(alloc);
    write_dump(v, &mut dump)?;
    Ok(dump)
}

/// The `DRb::DRbArray` that holds these bytes.
fn holding(alloc: Global, bytes: &[u8]) -> Result<Value, AllocError>
    ensures { IfOk result (λ w. w ≡ dumped_tree array_class bytes.now []) }
{
    let class = ascii_name(alloc, b"DRb::DRbArray")?;
    let bytes = Items::from_slice(alloc, bytes)?;
    let vars = FieldList::new(alloc);
    Value::dumped(alloc, Dumped::of(class, bytes, vars))
}

/// The value that a block was sent: of a `DRb::DRbArray` the array that it holds, and every other value as it is.
///
/// A `DRb::DRbArray` may have variables, which are dropped.
/// Errors: `Refused` exactly where a `DRb::DRbArray` holds bytes that are refused as a dump, for that reason at that place, or
/// bytes that begin with the dump of something else than an array: `BadType` of its type byte, at 2. `Memory` at any time that
/// a `DRb::DRbArray` is read.
/// Source: Ruby's drb.rb, DRbArray._load; docs/WIRE.md, Arrays for blocks.
pub fn array_from_block(alloc: Global, v: Value) -> Result<Value, ReadError>
    ensures other { ((bytes : List ℕ) → Holds v bytes → ⊥) → result ≡ Ok v }
    ensures list { (bytes : List ℕ) → Holds v bytes → IfOk result (λ w. IsListIn bytes w) }
    ensures every_list { (bytes : List ℕ) (items : List Tree) → Holds v bytes
        → DumpsList bytes items → IsOrLacksMemory (Ok (list_tree items)) result }
    ensures refusal { (f : Refusal) → result ≡ Err (ReadError.Refused f)
        → (bytes : List ℕ) × Holds v bytes × RefusesArray bytes f.why f.at }
    ensures every_refusal { (bytes : List ℕ) (why : Why) (at : ℕ) → Holds v bytes
        → RefusesArray bytes why at → IsOrLacksMemory (refused_as why at) result }
{
    match held(&v) {
        Some(bytes) => read_array(alloc, bytes),
        None => Ok(v),
    }
}

fn is_list(v: &Value) -> bool
    ensures { IsTrue result ↔ IsList v.now }
{
    matches!(v.node, Node::List(_))
}

/// The bytes that a `DRb::DRbArray` holds; None of every other value.
fn held(v: &Value) -> Option<&[u8]>
    ensures { MatchOption result ((bytes : List ℕ) → Holds v.now bytes → ⊥)
        (λ b. Holds v.now b.now) }
{
    match &v.node {
        Node::Dumped(dumped) => held_by(dumped.get()),
        _ => None,
    }
}

fn held_by(dumped: &Dumped) -> Option<&[u8]>
    ensures { MatchOption result (dumped.now.0 ≡ array_class → ⊥)
        (λ b. (dumped.now.0 ≡ array_class) × (b.now ≡ dumped.now.1)) }
{
    if dumped.class().as_slice() == b"DRb::DRbArray".as_slice() {
        Some(dumped.bytes())
    } else {
        None
    }
}

/// The array that these bytes begin with a dump of.
fn read_array(alloc: Global, bytes: &[u8]) -> Result<Value, ReadError>
    ensures list { IfOk result (λ w. IsListIn bytes.now w) }
    ensures every_list { (items : List Tree) → DumpsList bytes.now items
        → IsOrLacksMemory (Ok (list_tree items)) result }
    ensures refusal { (f : Refusal) → result ≡ Err (ReadError.Refused f)
        → RefusesArray bytes.now f.why f.at }
    ensures every_refusal { (why : Why) (at : ℕ) → RefusesArray bytes.now why at
        → IsOrLacksMemory (refused_as why at) result }
{
    match read_dump(alloc, bytes) {
        Ok((value, _)) => only_array(value, bytes),
        Err(error) => Err(error),
    }
}

/// The value where it is an array, and else its refusal, as the value that these bytes begin with a dump of.
fn only_array(value: Value, bytes: &[u8]) -> Result<Value, ReadError>
    ensures { MatchResult result (λ w. IsList value × (w ≡ value)) (λ e. (IsList value → ⊥)
        × (e ≡ ReadError.Refused
        (record { why = Why.BadType (slice_index bytes.now 2); at = 2 }))) }
{
    if is_list(&value) {
        return Ok(value);
    }
    let why = Why::BadType(byte_at(bytes, 2));
    Err(ReadError::Refused(Refusal { why, at: 2 }))
}

fn byte_at(bytes: &[u8], at: usize) -> u8
    ensures { result ≡ slice_index bytes.now at }
{
    match bytes.get(at) {
        Some(byte) => *byte,
        None => 0,
    }
}
