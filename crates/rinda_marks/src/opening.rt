ghost use Rattle.std.specs.Prelude.{◌≡◌};
ghost use Rattle.drb_value.specs.View.{layer};
ghost use Rattle.rinda_marks.specs.Opening.{fixes as fixes_spec, fixes_value as fixes_value_spec, lets as lets_spec, lets_next as lets_next_spec, opens_list as opens_list_spec, opens as opens_spec};

use drb_value::{Node, Value, same};
use rinda_tuple::{Template, Tuple};

/// The tuple opens as the template does: as far as the template fixes the first value, or the first two, the tuple's
/// are the same.
///
/// Every tuple that the template matches does so.
/// Source: docs/SPACE.md, Matching.
pub fn opens(template: &Template, tuple: &Tuple) -> bool
    ensures { result ≡ opens_spec template.now tuple.now }
{
    match (template, tuple) {
        (Template::List(es), Tuple::List(xs)) => opens_list(es.as_slice(), xs.as_slice()),
        _ => true,
    }
}

fn opens_list(elements: &[Value], values: &[Value]) -> bool
    ensures { result ≡ opens_list_spec elements.now values.now }
{
    let Some((element, elements)) = elements.split_first() else {
        return true;
    };
    let Some((value, values)) = values.split_first() else {
        return false;
    };
    if fixes_value(element) {
        same(element, value) && lets_next(elements, values)
    } else {
        true
    }
}

/// The second element lets the second value be.
fn lets_next(elements: &[Value], values: &[Value]) -> bool
    ensures { result ≡ lets_next_spec elements.now values.now }
{
    let Some((element, _)) = elements.split_first() else {
        return true;
    };
    let Some((value, _)) = values.split_first() else {
        return false;
    };
    lets(element, value)
}

/// The element fixes nothing, or the value is the same.
fn lets(element: &Value, value: &Value) -> bool
    ensures { result ≡ lets_spec element.now value.now }
{
    !fixes_value(element) || same(element, value)
}

#[tactic(auto, using(rinda_tuple::proofs::Outer::outer))]
fn fixes_value(element: &Value) -> bool
    ensures { result ≡ fixes_value_spec element.now }
{
    fixes(&element.node)
}

/// It is a symbol, a text or an integer, which suits only what is the same.
fn fixes(node: &Node) -> bool
    ensures { result ≡ fixes_spec (layer node.now) }
{
    matches!(node, Node::Int(_) | Node::Sym(_) | Node::Text(_))
}
