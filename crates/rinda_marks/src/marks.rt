ghost use Rattle.std.specs.Prelude.{◌≡◌};
ghost use Rattle.drb_value.specs.View.{layer};
ghost use Rattle.rinda_marks.specs.Hashes.{hash_of as hash_of_spec, both as both_spec};
ghost use Rattle.rinda_marks.specs.Marks.{int_bytes, mark_of as mark_of_spec, mark_at, second_mark as second_mark_spec, front_marks as front_marks_spec, marks_of, fixed_by, best as best_spec};

use crate::secret::{Secret, hash_of};
use drb_value::{Node, Value};
use rinda_tuple::{Template, Tuple};

/// The marks of the first value of a tuple, and of its first two together; or those that a template asks for.
///
/// There is no second one without a first. It is also left out where it would be the first one again.
#[derive(Clone, Copy, Debug, PartialEq, Eq)]
pub struct Marks {
    pub first: Option<u64>,
    pub second: Option<u64>,
}

impl Marks {
    /// The mark that says most: that of the first two values, or else that of the first.
    pub fn best(&self) -> Option<u64>
        ensures { result ≡ best_spec self.now }
    {
        match self.second {
            Some(second) => Some(second),
            None => self.first,
        }
    }
}

/// The mark of a value. None exactly where it is no symbol, no text and no integer.
///
/// Texts of the same bytes have the same mark, whatever their encodings.
/// Source: docs/DECISIONS.md, Tables of the space.
#[tactic(auto, using(rinda_tuple::proofs::Outer::outer))]
pub fn mark_of(secret: &Secret, value: &Value) -> Option<u64>
    ensures { result ≡ mark_of_spec secret.now value.now }
{
    mark_in(secret, &value.node)
}

fn mark_in(secret: &Secret, node: &Node) -> Option<u64>
    ensures { result ≡ mark_at secret.now (layer node.now) }
{
    match node {
        Node::Int(i) => Some(hash_of_int(secret, *i)),
        Node::Sym(name) => Some(hash_of(secret, 1, name.as_slice())),
        Node::Text(text) => Some(hash_of(secret, 2, text.bytes.as_slice())),
        _ => None,
    }
}

fn hash_of_int(secret: &Secret, i: i128) -> u64
    ensures { result ≡ hash_of_spec secret.now 0 (int_bytes i) }
{
    hash_of(secret, 0, &i.to_le_bytes())
}

/// The marks of a tuple. One whose values are named has none.
pub fn tuple_marks(secret: &Secret, tuple: &Tuple) -> Marks
    ensures { result ≡ marks_of secret.now tuple.now }
{
    match tuple {
        Tuple::List(items) => front_marks(secret, items.as_slice()),
        Tuple::Named(_) => NO_MARKS,
    }
}

/// The marks that each tuple has that the template matches: those of what it fixes at its front.
///
/// An element fixes its place where it is a symbol, a text or an integer.
pub fn template_marks(secret: &Secret, template: &Template) -> Marks
    ensures { result ≡ fixed_by secret.now template.now }
{
    match template {
        Template::List(elements) => front_marks(secret, elements.as_slice()),
        Template::Named(_) => NO_MARKS,
    }
}

const NO_MARKS: Marks = Marks {
    first: None,
    second: None,
};

/// The marks of the first value and of the first two.
fn front_marks(secret: &Secret, values: &[Value]) -> Marks
    ensures { result ≡ front_marks_spec secret.now values.now }
{
    let Some((value, rest)) = values.split_first() else {
        return NO_MARKS;
    };
    let Some(first) = mark_of(secret, value) else {
        return NO_MARKS;
    };
    let Some((next, _)) = rest.split_first() else {
        return Marks {
            first: Some(first),
            second: None,
        };
    };
    Marks {
        first: Some(first),
        second: second_mark(first, mark_of(secret, next)),
    }
}

/// The mark of two values together, from theirs.
fn second_mark(first: u64, next: Option<u64>) -> Option<u64>
    ensures { result ≡ second_mark_spec first next }
{
    let both = both(first, next?);
    if both == first { None } else { Some(both) }
}

/// One number of two.
#[tactic(auto, unfolding(crate::specs::Hashes::both))]
fn both(first: u64, next: u64) -> u64
    ensures { result ≡ both_spec first next }
{
    first.wrapping_mul(0x9e37_79b9_7f4a_7c15).wrapping_add(next)
}
