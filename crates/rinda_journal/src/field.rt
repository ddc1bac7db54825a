//! The plain fields of a turn, of which the head of its text is made.

ghost use Rattle.std.specs.Prelude.{◌≡◌, ◌++◌, IfOk, OnOk};
ghost use Rattle.drb_tree.specs.Trees.{list_tree};
ghost use Rattle.rinda_journal.specs.Fields.{number as number_spec, life_field as life_field_spec, told as told_spec, kind_word as kind_word_spec, field_value as field_value_spec, head_value as head_value_spec};

use crate::word::Word;
use drb_tree::Remote;
use drb_value::{Bytes, Items, Name, Value};
use rinda_rules::Kind;
use rinda_tuple::Life;
use std::alloc::{AllocError, Global};

/// A plain field: nil, a truth value, a number, or a name.
///
/// Source: docs/JOURNAL.md, The head.
#[derive(Clone, Copy, Debug, PartialEq, Eq)]
pub enum Field {
    Nil,
    Truth(bool),
    Number(i128),
    Word(Word),
}

/// An id, a time or a count.
pub fn number(n: u64) -> Field
    ensures { result ≡ number_spec n }
{
    Field::Number(n as i128)
}

/// A life: nil for ever, true where it is over at once, or its seconds.
pub fn life_field(life: &Life) -> Field
    ensures { result ≡ life_field_spec life.now }
{
    match life {
        Life::Never => Field::Nil,
        Life::Gone => Field::Truth(true),
        Life::Seconds(s) => Field::Number(*s),
    }
}

/// Whether somebody is there who renews.
pub fn told(renewer: &Option<Remote>) -> Field
    ensures { result ≡ told_spec renewer.now }
{
    match renewer {
        None => Field::Truth(false),
        Some(_) => Field::Truth(true),
    }
}

/// The name of a kind of request.
pub fn kind_word(kind: Kind) -> Word
    ensures { result ≡ kind_word_spec kind }
{
    match kind {
        Kind::Read => Word::Read,
        Kind::Take => Word::Take,
        Kind::Move => Word::Move,
    }
}

/// Appends these fields.
///
/// Errors: only want of memory.
pub fn put(fields: &mut Vec<Field>, more: &[Field]) -> Result<(), AllocError>
    ensures { OnOk result (fields.new.items ≡ fields.old.items ++ more.now) }
{
    fields.extend_from_slice(more)
}

/// A field as a value.
///
/// Errors: only want of memory.
fn field_value(alloc: Global, field: Field) -> Result<Value, AllocError>
    ensures { IfOk result (λ v. v ≡ field_value_spec field) }
{
    match field {
        Field::Nil => Ok(Value::nil()),
        Field::Truth(truth) => Ok(Value::boolean(truth)),
        Field::Number(number) => Ok(Value::int(number)),
        Field::Word(word) => word_value(alloc, word),
    }
}

/// A name as a symbol.
///
/// Errors: only want of memory.
fn word_value(alloc: Global, word: Word) -> Result<Value, AllocError>
    ensures { IfOk result (λ v. v ≡ field_value_spec (Field.Word word)) }
{
    let bytes = Bytes::of(alloc, word.name().as_bytes())?;
    Ok(Value::sym(Name { bytes }))
}

/// The head of a text: the list of these fields.
///
/// Errors: only want of memory.
pub fn head_value(alloc: Global, fields: &[Field]) -> Result<Value, AllocError>
    ensures { IfOk result (λ v. v ≡ head_value_spec fields.now) }
{
    let mut items = Items::new(alloc);
    for field in fields {
        items.push(field_value(alloc, *field)?)?;
    }
    Ok(Value::list(items))
}
