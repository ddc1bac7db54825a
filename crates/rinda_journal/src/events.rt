//! Whether an answer Event holds an event of the rules.

ghost use Rattle.std.specs.Prelude.{◌≡◌, ◌↔◌, IsTrue};
ghost use Rattle.drb_tree.specs.declared.Tree.TheViews.{out-Tree};
ghost use Rattle.drb_tree.specs.declared.Tree.TheOpen.{Tree-F};
ghost use Rattle.drb_value.specs.View.{layer};
ghost use Rattle.rinda_tuple.specs.Keys.{is_text_key as is_text_key_spec, all_texts as all_texts_spec};
ghost use Rattle.rinda_tuple.specs.Classes.{is_text as is_text_spec};
ghost use Rattle.rinda_journal.specs.Texts.{HoldsEvent};
ghost use Rattle.rinda_journal.specs.Raised.{is_happening as is_happening_spec, is_utf8 as is_utf8_spec, is_name as is_name_spec, is_tuple as is_tuple_spec, is_event as is_event_spec};

use drb_tree::{Code, Text};
use drb_value::{Node, Pairs, Value};
use rinda_rules::Out;

/// The name is that of something that happens to tuples.
fn is_happening(name: &[u8]) -> bool
    ensures { result ≡ is_happening_spec name.now }
{
    name == b"write".as_slice() || (name == b"take".as_slice() || name == b"delete".as_slice())
}

fn is_utf8(code: Code) -> bool
    ensures { result ≡ is_utf8_spec code }
{
    match code {
        Code::Utf8 => true,
        _ => false,
    }
}

fn is_name_text(text: &Text) -> bool
    ensures { result ≡ is_name_spec (Tree-F.Text text.now) }
{
    is_utf8(text.code) && is_happening(text.bytes.as_slice())
}

fn is_name_in(node: &Node) -> bool
    ensures { result ≡ is_name_spec (layer node.now) }
{
    match node {
        Node::Text(text) => is_name_text(text),
        _ => false,
    }
}

/// The value is the name of something that happens to tuples, as a text.
#[tactic(auto, using(crate::proofs::Outer::outer))]
fn is_name(value: &Value) -> bool
    ensures { result ≡ is_name_spec (out-Tree value.now) }
{
    is_name_in(&value.node)
}

fn is_text_in(node: &Node) -> bool
    ensures { result ≡ is_text_spec (layer node.now) }
{
    match node {
        Node::Text(_) => true,
        _ => false,
    }
}

#[tactic(auto, using(crate::proofs::Outer::outer))]
fn is_text_key(key: &Value) -> bool
    ensures { result ≡ is_text_key_spec key.now }
{
    is_text_in(&key.node)
}

/// Every key is a text.
fn all_texts(pairs: &[(Value, Value)]) -> bool
    ensures { result ≡ all_texts_spec pairs.now }
{
    for pair in pairs {
        if !is_text_key(&pair.0) {
            return false;
        }
    }
    true
}

fn is_named(pairs: &Pairs) -> bool
    ensures { result ≡ is_tuple_spec (Tree-F.Hash pairs.now.0 pairs.now.1) }
{
    match &pairs.default {
        None => all_texts(pairs.as_slice()),
        Some(_) => false,
    }
}

fn is_tuple_in(node: &Node) -> bool
    ensures { result ≡ is_tuple_spec (layer node.now) }
{
    match node {
        Node::List(_) => true,
        Node::Hash(pairs) => is_named(pairs),
        _ => false,
    }
}

/// The value is a tuple as a caller sees it.
#[tactic(auto, using(crate::proofs::Outer::outer))]
fn is_tuple(value: &Value) -> bool
    ensures { result ≡ is_tuple_spec (out-Tree value.now) }
{
    is_tuple_in(&value.node)
}

fn is_event_list(items: &[Value]) -> bool
    ensures { result ≡ is_event_spec (Tree-F.List items.now) }
{
    match items {
        [what, tuple] => is_name(what) && is_tuple(tuple),
        _ => false,
    }
}

fn is_event_in(node: &Node) -> bool
    ensures { result ≡ is_event_spec (layer node.now) }
{
    match node {
        Node::List(items) => is_event_list(items.as_slice()),
        _ => false,
    }
}

/// The value is an event of the rules, by its outermost part.
#[tactic(auto, using(crate::proofs::Outer::outer))]
fn is_event(value: &Value) -> bool
    ensures { result ≡ is_event_spec (out-Tree value.now) }
{
    is_event_in(&value.node)
}

/// What an answer Event gives is an event of the rules.
#[tactic(auto, using(crate::proofs::Raised::event_told))]
pub fn holds_event(out: &Out) -> bool
    ensures { IsTrue result ↔ HoldsEvent out.now }
{
    match out {
        Out::Event(value) => is_event(value),
        _ => true,
    }
}
