//! The fields of a head that was read.

ghost use Rattle.std.specs.Prelude.{◌≡◌};
ghost use Rattle.drb_tree.specs.declared.Tree.TheViews.{out-Tree};
ghost use Rattle.drb_value.specs.View.{layer};
ghost use Rattle.rinda_journal.specs.Parsers.{Finds};
ghost use Rattle.rinda_journal.specs.Words.{word_named as word_named_spec};
ghost use Rattle.rinda_journal.specs.Reading.{word_field, field_at as field_at_spec, fields_in as fields_in_spec, fields_at as fields_at_spec};

use crate::ReadTurnError;
use crate::field::Field;
use crate::word::word_named;
use drb_value::{Items, Node, Value};
use std::alloc::Global;

/// The name that a symbol is.
fn word_at(name: &[u8]) -> Result<Field, ReadTurnError>
    ensures { Finds (word_field (word_named_spec name.now)) result }
{
    match word_named(name) {
        Some(word) => Ok(Field::Word(word)),
        None => Err(ReadTurnError::NotATurn),
    }
}

fn field_in(node: &Node) -> Result<Field, ReadTurnError>
    ensures { Finds (field_at_spec (layer node.now)) result }
{
    match node {
        Node::Nil => Ok(Field::Nil),
        Node::Bool(truth) => Ok(Field::Truth(*truth)),
        Node::Int(number) => Ok(Field::Number(*number)),
        Node::Sym(name) => word_at(name.as_slice()),
        _ => Err(ReadTurnError::NotATurn),
    }
}

/// The field that a value is.
#[tactic(auto, using(crate::proofs::Outer::outer))]
fn field_at(value: &Value) -> Result<Field, ReadTurnError>
    ensures { Finds (field_at_spec (out-Tree value.now)) result }
{
    field_in(&value.node)
}

/// The fields that these values are.
fn fields_in(alloc: Global, values: &[Value]) -> Result<Items<Field>, ReadTurnError>
    ensures { Finds (fields_in_spec values.now) result }
{
    let mut fields = Items::new(alloc);
    for value in values {
        let field = field_at(value)?;
        fields.push(field)?;
    }
    Ok(fields)
}

fn list_in(alloc: Global, node: &Node) -> Result<Items<Field>, ReadTurnError>
    ensures { Finds (fields_at_spec (layer node.now)) result }
{
    match node {
        Node::List(items) => fields_in(alloc, items.as_slice()),
        _ => Err(ReadTurnError::NotATurn),
    }
}

/// The fields of a head, which is a list.
#[tactic(auto, using(crate::proofs::Outer::outer))]
pub fn fields_at(alloc: Global, head: &Value) -> Result<Items<Field>, ReadTurnError>
    ensures { Finds (fields_at_spec (out-Tree head.now)) result }
{
    list_in(alloc, &head.node)
}
