//! The values that follow the head of a turn's text.

ghost use Rattle.std.specs.Prelude.{◌≡◌, ◌++◌, ◌∷◌, [], IfOk, OnOk};
ghost use Rattle.drb_tree.specs.declared.Tree.TheViews.{out-Tree};
ghost use Rattle.drb_tree.specs.declared.Tree.TheOpen.{Tree-F};
ghost use Rattle.drb_value.specs.View.{layer, view_of};
ghost use Rattle.rinda_tuple.specs.Tuples.{value_of};
ghost use Rattle.drb_tree.specs.Trees.{remote_tree};
ghost use Rattle.rinda_journal.specs.Fields.{head_value as head_value_spec};
ghost use Rattle.rinda_journal.specs.Heads.{head_fields as head_fields_spec, template_value as template_value_spec, renewer_values as renewer_values_spec, event_values as event_values_spec, raised_tuple as raised_tuple_spec, out_values as out_values_spec};
ghost use Rattle.rinda_journal.specs.Texts.{turn_parts as turn_parts_spec};

use crate::field::head_value;
use crate::heads::head_fields;
use drb_tree::Remote;
use drb_value::{Items, Node, Value, copy_items};
use rinda_rules::{Event, Out, Turn};
use rinda_tuple::{Template, Tuple};
use std::alloc::{AllocError, Global};

/// A copy of a template as a value.
///
/// Errors: only want of memory.
#[tactic(auto, unfolding(crate::specs::Heads::template_value))]
fn template_value(alloc: Global, template: &Template) -> Result<Value, AllocError>
    ensures { IfOk result (λ v. v ≡ template_value_spec template.now) }
{
    match template {
        Template::List(items) => Ok(Value::list(copy_items(alloc, items.as_slice())?)),
        Template::Named(pairs) => Ok(Value::hash(pairs.copy(alloc)?.into_pairs())),
    }
}

/// Appends who renews, if somebody is there.
///
/// Errors: only want of memory.
fn put_renewer(
    alloc: Global,
    renewer: &Option<Remote>,
    values: &mut Items<Value>,
) -> Result<(), AllocError>
    ensures { OnOk result (values.new ≡ values.old ++ renewer_values_spec renewer.now) }
{
    match renewer {
        None => Ok(()),
        Some(renewer) => put_remote(alloc, renewer, values),
    }
}

/// Appends a remote object.
///
/// Errors: only want of memory.
fn put_remote(alloc: Global, remote: &Remote, values: &mut Items<Value>) -> Result<(), AllocError>
    ensures { OnOk result (values.new ≡ values.old ++ remote_tree remote.now ∷ []) }
{
    values.push(Value::remote(alloc, remote.copy(alloc)?)?)
}

/// Appends a copy of a value.
///
/// Errors: only want of memory.
fn put_value(alloc: Global, value: &Value, values: &mut Items<Value>) -> Result<(), AllocError>
    ensures { OnOk result (values.new ≡ values.old ++ value.now ∷ []) }
{
    values.push(value.copy(alloc)?)
}

/// Appends a tuple.
///
/// Errors: only want of memory.
fn put_tuple(alloc: Global, tuple: &Tuple, values: &mut Items<Value>) -> Result<(), AllocError>
    ensures { OnOk result (values.new ≡ values.old ++ value_of tuple.now ∷ []) }
{
    values.push(tuple.to_value(alloc)?)
}

/// Appends a template.
///
/// Errors: only want of memory.
fn put_template(
    alloc: Global,
    template: &Template,
    values: &mut Items<Value>,
) -> Result<(), AllocError>
    ensures { OnOk result (values.new ≡ values.old ++ template_value_spec template.now ∷ []) }
{
    values.push(template_value(alloc, template)?)
}

/// Appends a template and who renews.
///
/// Errors: only want of memory.
fn put_asked(
    alloc: Global,
    template: &Template,
    renewer: &Option<Remote>,
    values: &mut Items<Value>,
) -> Result<(), AllocError>
    ensures { OnOk result (values.new ≡
        values.old ++ (template_value_spec template.now ∷ renewer_values_spec renewer.now)) }
{
    put_template(alloc, template, values)?;
    put_renewer(alloc, renewer, values)
}

/// Appends the values of an event.
///
/// Errors: only want of memory.
pub fn put_event_values(
    alloc: Global,
    event: &Event,
    values: &mut Items<Value>,
) -> Result<(), AllocError>
    ensures { OnOk result (values.new ≡ values.old ++ event_values_spec event.now) }
{
    match event {
        Event::Write { value, lease } => {
            put_tuple(alloc, value, values)?;
            put_renewer(alloc, &lease.renewer, values)
        }
        Event::Reserve {
            kind: _,
            pattern,
            lease,
        } => put_asked(alloc, pattern, &lease.renewer, values),
        Event::Renew { id: _, lease } => put_renewer(alloc, &lease.renewer, values),
        Event::ReadAll { pattern } => put_template(alloc, pattern, values),
        Event::Notify {
            event,
            pattern,
            lease,
        } => {
            put_value(alloc, event, values)?;
            put_asked(alloc, pattern, &lease.renewer, values)
        }
        _ => Ok(()),
    }
}

/// The tuple of an event of the rules that has these items, the second; or the event itself.
fn items_tuple<'a>(value: &'a Value, items: &'a [Value]) -> &'a Value
    ensures { result.now ≡ raised_tuple_spec value.entry.now (Tree-F.List items.entry.now) }
{
    match items {
        [_, tuple] => tuple,
        _ => value,
    }
}

/// The tuple of an event of the rules.
#[tactic(auto, using(crate::proofs::Outer::outer))]
fn raised_tuple(value: &Value) -> &Value
    ensures { result.now ≡ raised_tuple_spec value.now (out-Tree value.now) }
{
    match &value.node {
        Node::List(items) => items_tuple(value, items.as_slice()),
        _ => value,
    }
}

/// Appends copies of these values.
///
/// Errors: only want of memory.
fn put_all(alloc: Global, more: &[Value], values: &mut Items<Value>) -> Result<(), AllocError>
    ensures { OnOk result (values.new ≡ values.old ++ more.now) }
{
    values.append(copy_items(alloc, more)?)
}

/// Appends the values of an answer.
///
/// Errors: only want of memory.
fn put_out_values(alloc: Global, out: &Out, values: &mut Items<Value>) -> Result<(), AllocError>
    ensures { OnOk result (values.new ≡ values.old ++ out_values_spec out.now) }
{
    match out {
        Out::Answer(value) => put_value(alloc, value, values),
        Out::Granted(_, value) => put_value(alloc, value, values),
        Out::All(all) => put_all(alloc, all.as_slice(), values),
        Out::Event(value) => put_value(alloc, raised_tuple(value), values),
        Out::Ask(_, renewer) => put_remote(alloc, renewer, values),
        _ => Ok(()),
    }
}

/// The head of a turn's text.
///
/// Errors: only want of memory.
fn head(alloc: Global, turn: &Turn) -> Result<Value, AllocError>
    ensures { IfOk result (λ v. v ≡ head_value_spec (head_fields_spec turn.now)) }
{
    let fields = head_fields(alloc, turn)?;
    head_value(alloc, fields.as_slice())
}

/// What the packets of a turn's text hold: its head, and then its values.
///
/// Errors: only want of memory.
pub fn turn_parts(alloc: Global, turn: &Turn) -> Result<Items<Value>, AllocError>
    ensures { IfOk result (λ parts. parts ≡ turn_parts_spec turn.now) }
{
    let mut parts = Items::new(alloc);
    parts.push(head(alloc, turn)?)?;
    put_event_values(alloc, &turn.event, &mut parts)?;
    put_out_values(alloc, &turn.out, &mut parts)?;
    Ok(parts)
}
