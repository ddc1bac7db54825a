//! Ranges, as docs/SPACE.md, Matching has them.

ghost use Rattle.std.specs.Prelude.{◌≡◌, Some, option_copied};
ghost use Rattle.drb_value.specs.View.{layer};
ghost use Rattle.drb_tree.specs.declared.Tree.TheViews.{out-Tree};
ghost use Rattle.rinda_tuple.specs.Ranges.{field_of as field_of_spec, int_after as int_after_spec, int_before as int_before_spec, text_after as text_after_spec, text_before as text_before_spec, within as within_spec, truth_at, range_with, in_range, range_suits as range_suits_spec};

use drb_tree::Text;
use drb_value::{Name, Node, Value};

/// The first value is a range, and the second lies in it.
pub fn range_suits(e: &Node, x: &Node) -> bool
    ensures { result ≡ range_suits_spec (layer e.now) (layer x.now) }
{
    let Node::Object(object) = e else {
        return false;
    };
    let object = object.get();
    if object.class.as_slice() != b"Range".as_slice() {
        return false;
    }
    let fields = object.fields.as_slice();
    if fields.len() != 3 {
        return false;
    }
    let Some(excl) = field_of(b"excl", fields) else {
        return false;
    };
    let Some(first) = field_of(b"begin", fields) else {
        return false;
    };
    let Some(last) = field_of(b"end", fields) else {
        return false;
    };
    lies_between(excl, first, last, x)
}

/// The value lies between these ends, where `excl` is true or false.
#[tactic(auto, using(crate::proofs::Outer::outer))]
fn lies_between(excl: &Value, first: &Value, last: &Value, x: &Node) -> bool
    ensures { result ≡ in_range (range_with (out-Tree excl.now) first.now last.now) (layer x.now) }
{
    match truth_of(&excl.node) {
        Some(excl) => lies_within(excl, &first.node, &last.node, x),
        None => false,
    }
}

fn truth_of(x: &Node) -> Option<bool>
    ensures { result ≡ truth_at (layer x.now) }
{
    match x {
        Node::Bool(b) => Some(*b),
        _ => None,
    }
}

/// The value of the field of that name.
fn field_of<'a>(name: &[u8], fields: &'a [(Name, Value)]) -> Option<&'a Value>
    ensures { option_copied result ≡ field_of_spec name.now fields.now }
{
    for field in fields {
        if field.0.as_slice() == name {
            return Some(&field.1);
        }
    }
    None
}

/// An integer or a text lies between the ends.
fn lies_within(excl: bool, first: &Node, last: &Node, x: &Node) -> bool
    ensures { result ≡ within_spec excl (layer first.now) (layer last.now) (layer x.now) }
{
    match x {
        Node::Int(x) => int_after(first, *x) && int_before(excl, last, *x),
        Node::Text(x) => text_after(first, x) && text_before(excl, last, x),
        _ => false,
    }
}

fn int_after(first: &Node, x: i128) -> bool
    ensures { result ≡ int_after_spec (layer first.now) x }
{
    match first {
        Node::Nil => true,
        Node::Int(first) => *first <= x,
        _ => false,
    }
}

fn int_before(excl: bool, last: &Node, x: i128) -> bool
    ensures { result ≡ int_before_spec excl (layer last.now) x }
{
    match last {
        Node::Nil => true,
        Node::Int(last) => if excl { x < *last } else { x <= *last },
        _ => false,
    }
}

fn text_after(first: &Node, x: &Text) -> bool
    ensures { result ≡ text_after_spec (layer first.now) x.now.bytes }
{
    match first {
        Node::Nil => true,
        Node::Text(first) => first.bytes.as_slice().cmp(x.bytes.as_slice()).is_le(),
        _ => false,
    }
}

fn text_before(excl: bool, last: &Node, x: &Text) -> bool
    ensures { result ≡ text_before_spec excl (layer last.now) x.now.bytes }
{
    match last {
        Node::Nil => true,
        Node::Text(last) => {
            let order = x.bytes.as_slice().cmp(last.bytes.as_slice());
            if excl { order.is_lt() } else { order.is_le() }
        }
        _ => false,
    }
}
