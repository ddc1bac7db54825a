//! What is printed of answers.

ghost use Rattle.std.specs.Prelude.{◌≡◌, ◌++◌, ◌∷◌, [], IfOk, OnOk, codes, option_copied};
ghost use Rattle.drb_value.specs.View.{layer};
ghost use Rattle.rinda_proxy.specs.Lines.{line as line_spec, lines as lines_spec, each_line as each_line_spec, bytes_in as bytes_in_spec, message_in as message_in_spec, message_line as message_line_spec, raised_line as raised_line_spec, value_text as value_text_spec, first_text as first_text_spec, pop_text as pop_text_spec};

use crate::asking::Asking;
use drb_back::Back;
use drb_text::show;
use drb_value::{Fields, Name, Node, Value};
use std::alloc::{AllocError, Global};

/// Appends the line of a value. A value that is too long to be shown counts as want of memory.
fn put_line(value: &Value, out: &mut Vec<u8>) -> Result<(), AllocError>
    ensures { OnOk result (out.new.items ≡ out.old.items ++ line_spec value.now) }
{
    if show(value, out).is_err() {
        return Err(AllocError);
    }
    out.push(b'\n')?;
    Ok(())
}

fn line(alloc: Global, value: &Value) -> Result<Vec<u8>, AllocError>
    ensures { IfOk result (λ text. text.items ≡ line_spec value.now) }
{
    let mut text = Vec::new(alloc);
    put_line(value, &mut text)?;
    Ok(text)
}

fn lines(alloc: Global, values: &[Value]) -> Result<Vec<u8>, AllocError>
    ensures { IfOk result (λ text. text.items ≡ lines_spec values.now) }
{
    let mut text = Vec::new(alloc);
    for value in values {
        put_line(value, &mut text)?;
    }
    Ok(text)
}

/// Each item of a list on a line of its own; every other value on one.
#[tactic(auto, using(crate::proofs::Outer::outer))]
fn each_line(alloc: Global, value: &Value) -> Result<Vec<u8>, AllocError>
    ensures { IfOk result (λ text. text.items ≡ each_line_spec value.now) }
{
    match &value.node {
        Node::List(items) => lines(alloc, items.as_slice()),
        _ => line(alloc, value),
    }
}

/// The bytes of a text.
fn bytes_in(node: &Node) -> Option<&[u8]>
    ensures { option_copied result ≡ bytes_in_spec (layer node.now) }
{
    match node {
        Node::Text(text) => Some(text.bytes.as_slice()),
        _ => None,
    }
}

/// The message in an exception's fields.
fn message_in(fields: &[(Name, Value)]) -> Option<&[u8]>
    ensures { option_copied result ≡ message_in_spec fields.now }
{
    for field in fields {
        if field.0.as_slice() == b"mesg".as_slice() {
            return bytes_in(&field.1.node);
        }
    }
    None
}

/// An exception as `CLASS: MESSAGE`, where it has a message; else as a value.
#[tactic(auto, using(crate::proofs::Outer::outer))]
fn raised_line(alloc: Global, exception: &Value) -> Result<Vec<u8>, AllocError>
    ensures { IfOk result (λ text. text.items ≡ raised_line_spec exception.now) }
{
    match &exception.node {
        Node::Object(object) => object_line(alloc, exception, object.get()),
        _ => line(alloc, exception),
    }
}

fn object_line(alloc: Global, exception: &Value, object: &Fields) -> Result<Vec<u8>, AllocError>
    ensures { IfOk result (λ text. text.items ≡ message_line_spec exception.now
        object.now.class (message_in_spec object.now.fields)) }
{
    match message_in(object.fields.as_slice()) {
        Some(message) => joined(alloc, object.class.as_slice(), message),
        None => line(alloc, exception),
    }
}

/// `CLASS: MESSAGE`, and the end of the line.
fn joined(alloc: Global, class: &[u8], message: &[u8]) -> Result<Vec<u8>, AllocError>
    ensures { IfOk result (λ text. text.items
        ≡ class.now ++ (codes ": " ++ (message.now ++ 10 ∷ []))) }
{
    let mut text = Vec::from_slice(alloc, class)?;
    text.extend_from_slice(b": ")?;
    text.extend_from_slice(message)?;
    text.push(b'\n')?;
    Ok(text)
}

/// What is printed of the value that a first request was answered with.
fn value_text(alloc: Global, asking: &Asking, value: &Value) -> Result<Vec<u8>, AllocError>
    ensures { IfOk result (λ text. text.items ≡ value_text_spec asking.now value.now) }
{
    match asking {
        Asking::Write { .. } => line(alloc, value),
        Asking::Read { .. } => line(alloc, value),
        Asking::ReadAll { .. } => each_line(alloc, value),
        Asking::Watch { .. } => Ok(Vec::new(alloc)),
    }
}

/// What is printed of the answer to a first request.
pub(crate) fn first_text(alloc: Global, asking: &Asking, back: &Back) -> Result<Vec<u8>, AllocError>
    ensures { IfOk result (λ text. text.items ≡ first_text_spec asking.now back.now) }
{
    match back {
        Back::Value(value) => value_text(alloc, asking, value),
        Back::Raised(exception) => raised_line(alloc, exception),
        _ => Ok(Vec::new(alloc)),
    }
}

/// What is printed of the answer to a request for an event.
pub(crate) fn pop_text(alloc: Global, back: &Back) -> Result<Vec<u8>, AllocError>
    ensures { IfOk result (λ text. text.items ≡ pop_text_spec back.now) }
{
    match back {
        Back::Value(value) => line(alloc, value),
        Back::Raised(exception) => raised_line(alloc, exception),
        _ => Ok(Vec::new(alloc)),
    }
}
