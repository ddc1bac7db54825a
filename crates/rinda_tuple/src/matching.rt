ghost use Rattle.std.specs.Prelude.{◌≡◌, ◌+◌, ◌<◌, ◌&&◌, ◌==◌, length};
ghost use Rattle.drb_value.specs.View.{layer};
ghost use Rattle.rinda_tuple.specs.Matching.{name_suits as name_suits_spec, suits as suits_spec, each_suits as each_suits_spec, suits_at as suits_at_spec, each_key_suits as each_key_suits_spec, matches as matches_spec};

use crate::class::{class_suits, is_nil};
use crate::named::NamedPairs;
use crate::range::range_suits;
use crate::steps::Steps;
use crate::tuple::{Template, Tuple};
use drb_value::{Node, Value, same};
use std::marker::Brand;
use std::sync::ledger::{Blank, Ledger};

/// The template matches the tuple. One call is one step of the counter.
///
/// Source: Ruby's rinda.rb, Template#match; docs/SPACE.md, Matching.
pub fn matches<L: Ledger>(t: &Template, u: &Tuple, steps: &mut Steps<L>) -> bool
    ensures answer { result ≡ matches_spec t.now u.now }
    ensures one_step { steps.new ≡ steps.old + 1 }
{
    steps.tick();
    compare(t, u)
}

/// Elements by their places, by their keys, or none at all.
#[tactic(auto, unfolding(crate::specs::Matching::matches))]
fn compare(t: &Template, u: &Tuple) -> bool
    ensures { result ≡ matches_spec t.now u.now }
{
    match (t, u) {
        (Template::List(es), Tuple::List(xs)) => each_suits(es.as_slice(), xs.as_slice()),
        (Template::Named(es), Tuple::Named(xs)) => named_match(es, xs),
        (Template::List(es), Tuple::Named(xs)) => es.len() == 0 && xs.len() == 0,
        (Template::Named(es), Tuple::List(xs)) => es.len() == 0 && xs.len() == 0,
    }
}

/// They are equally many, and each key of the template is there with a value that its element suits.
fn named_match(es: &NamedPairs, xs: &NamedPairs) -> bool
    ensures { result ≡ ((length es.now == length xs.now) && each_key_suits_spec es.now xs.now) }
{
    es.len() == xs.len() && each_key_suits(es.as_slice(), xs.as_slice())
}

fn each_key_suits(es: &[(Value, Value)], pairs: &[(Value, Value)]) -> bool
    ensures { result ≡ each_key_suits_spec es.now pairs.now }
{
    for e in es {
        if !suits_at(&e.0, &e.1, pairs) {
            return false;
        }
    }
    true
}

/// Some pair has the same key, and a value that the element suits.
fn suits_at(key: &Value, e: &Value, pairs: &[(Value, Value)]) -> bool
    ensures { result ≡ suits_at_spec key.now e.now pairs.now }
{
    for pair in pairs {
        if same(key, &pair.0) && suits(e, &pair.1) {
            return true;
        }
    }
    false
}

/// They are equally long, and each element suits the value in its place.
fn each_suits(es: &[Value], xs: &[Value]) -> bool
    ensures { result ≡ each_suits_spec es.now xs.now }
{
    if es.len() != xs.len() {
        return false;
    }
    for (i, e) in es.iter().enumerate() {
        if !suits(e, &xs[i]) {
            return false;
        }
    }
    true
}

/// The element of a template suits the value: it is nil, or the same, or a class or module whose name suits it, or a
/// range that does.
///
/// Source: Ruby's rinda.rb, Template#match; docs/SPACE.md, Matching.
#[tactic(auto, using(crate::proofs::Outer::outer))]
pub fn suits(e: &Value, x: &Value) -> bool
    ensures { result ≡ suits_spec e.now x.now }
{
    is_nil(&e.node) || same(e, x) || name_suits(&e.node, &x.node) || range_suits(&e.node, &x.node)
}

/// A class or module, whose name suits the value.
fn name_suits(e: &Node, x: &Node) -> bool
    ensures { result ≡ name_suits_spec (layer e.now) (layer x.now) }
{
    match e {
        Node::Class(name) => class_suits(name.as_slice(), x),
        Node::Module(name) => class_suits(name.as_slice(), x),
        _ => false,
    }
}

/// The template matches the tuple, for a caller that counts no steps.
///
/// Source: docs/SPACE.md, Matching.
pub fn is_match(t: &Template, u: &Tuple) -> bool
    ensures { result ≡ matches_spec t.now u.now }
{
    matches_once::<Brand>(t, u, Blank::new(1))
}

/// One call of `matches`, on a counter of its own.
fn matches_once<L: Ledger>(t: &Template, u: &Tuple, blank: Blank) -> bool
    requires name { blank.name ≡ L.name }
    requires parts { blank.parts ≡ L.parts }
    requires some { 0 < L.parts }
    ensures { result ≡ matches_spec t.now u.now }
{
    let mut steps = Steps::<L>::new(blank);
    matches(t, u, &mut steps)
}
