//! Whether two answers are equal in every part. Unlike `same`, which is Ruby's equality, this looks at the encoding of a
//! text that is all ASCII, at the default of a hash, and at the order of pairs and of fields.

ghost use Rattle.std.specs.Prelude.{◌≡◌, ◌↔◌, IsTrue};

use drb_tree::{RefId, Remote, Text};
use drb_value::{Boxed, Dumped, FieldList, Fields, Name, Node, Pairs, Value, Wrapped};
use rinda_rules::{Flags, Out};

/// Whether two answers are equal.
pub fn is_same_out(a: &Out, b: &Out) -> bool
    ensures { IsTrue result ↔ (a.now ≡ b.now) }
{
    match a {
        Out::Entry(x) => matches!(b, Out::Entry(y) if x == y),
        Out::Reserved(x) => matches!(b, Out::Reserved(y) if x == y),
        Out::Answer(x) => matches!(b, Out::Answer(y) if is_equal(x, y)),
        Out::Parked(x) => matches!(b, Out::Parked(y) if x == y),
        Out::Granted(x, v) => matches!(b, Out::Granted(y, w) if x == y && is_equal(v, w)),
        Out::All(x) => matches!(b, Out::All(y) if equal_items(x.as_slice(), y.as_slice())),
        Out::Notifier(x) => matches!(b, Out::Notifier(y) if x == y),
        Out::Event(x) => matches!(b, Out::Event(y) if is_equal(x, y)),
        Out::Closed => matches!(b, Out::Closed),
        Out::Expired => matches!(b, Out::Expired),
        Out::Canceled => matches!(b, Out::Canceled),
        Out::WouldWait => matches!(b, Out::WouldWait),
        Out::NotYet => matches!(b, Out::NotYet),
        Out::State(x) => matches!(b, Out::State(y) if equal_flags(*x, *y)),
        Out::Ask(x, r) => matches!(b, Out::Ask(y, s) if x == y && equal_remotes(r, s)),
        Out::Plain => matches!(b, Out::Plain),
        Out::Recycled => matches!(b, Out::Recycled),
        Out::Unknown => matches!(b, Out::Unknown),
        Out::WrongKind => matches!(b, Out::WrongKind),
        Out::Shut => matches!(b, Out::Shut),
    }
}

fn equal_flags(a: Flags, b: Flags) -> bool
    ensures { IsTrue result ↔ (a ≡ b) }
{
    a.alive == b.alive && (a.expired == b.expired && a.canceled == b.canceled)
}

fn equal_bytes(a: &[u8], b: &[u8]) -> bool
    ensures { IsTrue result ↔ (a.now ≡ b.now) }
{
    a == b
}

fn equal_texts(a: &Text, b: &Text) -> bool
    ensures { IsTrue result ↔ (a.now ≡ b.now) }
{
    equal_bytes(a.bytes.as_slice(), b.bytes.as_slice()) && a.code == b.code
}

fn equal_ids(a: &RefId, b: &RefId) -> bool
    ensures { IsTrue result ↔ (a.now ≡ b.now) }
{
    match a {
        RefId::Front => matches!(b, RefId::Front),
        RefId::Number(i) => matches!(b, RefId::Number(j) if i == j),
        RefId::Text(s) => matches!(b, RefId::Text(t) if equal_texts(s, t)),
    }
}

fn equal_remotes(a: &Remote, b: &Remote) -> bool
    ensures { IsTrue result ↔ (a.now ≡ b.now) }
{
    equal_texts(&a.uri, &b.uri) && equal_ids(&a.id, &b.id)
}

fn equal_names(a: &Name, b: &Name) -> bool
    ensures { IsTrue result ↔ (a.now ≡ b.now) }
{
    equal_bytes(a.as_slice(), b.as_slice())
}

/// Whether two values are equal.
#[cycle(equal)]
fn is_equal(a: &Value, b: &Value) -> bool
    ensures { IsTrue result ↔ (a.now ≡ b.now) }
{
    equal_nodes(&a.node, &b.node)
}

#[cycle(equal)]
fn equal_nodes(n: &Node, m: &Node) -> bool
    ensures { IsTrue result ↔ (n.now ≡ m.now) }
{
    match n {
        Node::Nil => matches!(m, Node::Nil),
        Node::Bool(x) => matches!(m, Node::Bool(y) if x == y),
        Node::Int(x) => matches!(m, Node::Int(y) if x == y),
        Node::Sym(x) => matches!(m, Node::Sym(y) if equal_names(x, y)),
        Node::Text(x) => matches!(m, Node::Text(y) if equal_texts(x, y)),
        Node::List(x) => matches!(m, Node::List(y) if equal_items(x.as_slice(), y.as_slice())),
        Node::Hash(x) => matches!(m, Node::Hash(y) if equal_hashes(x, y)),
        Node::Class(x) => matches!(m, Node::Class(y) if equal_names(x, y)),
        Node::Module(x) => matches!(m, Node::Module(y) if equal_names(x, y)),
        Node::Object(x) => matches!(m, Node::Object(y) if equal_objects(x.get(), y.get())),
        Node::Struct(x) => matches!(m, Node::Struct(y) if equal_objects(x.get(), y.get())),
        Node::Dumped(x) => matches!(m, Node::Dumped(y) if equal_dumped(x.get(), y.get())),
        Node::Wrapped(x) => matches!(m, Node::Wrapped(y) if equal_wrapped(x, y)),
        Node::Remote(x) => matches!(m, Node::Remote(y) if equal_remotes(x.get(), y.get())),
    }
}

#[cycle(equal)]
fn equal_items(xs: &[Value], ys: &[Value]) -> bool
    ensures { IsTrue result ↔ (xs.now ≡ ys.now) }
{
    if xs.len() != ys.len() {
        return false;
    }
    for (i, x) in xs.iter().enumerate() {
        if !is_equal(x, &ys[i]) {
            return false;
        }
    }
    true
}

#[cycle(equal)]
fn equal_hashes(a: &Pairs, b: &Pairs) -> bool
    ensures { IsTrue result ↔ (a.now ≡ b.now) }
{
    equal_pairs(a.pairs.as_slice(), b.pairs.as_slice()) && equal_defaults(&a.default, &b.default)
}

#[cycle(equal)]
fn equal_pairs(xs: &[(Value, Value)], ys: &[(Value, Value)]) -> bool
    ensures { IsTrue result ↔ (xs.now ≡ ys.now) }
{
    if xs.len() != ys.len() {
        return false;
    }
    for (i, x) in xs.iter().enumerate() {
        if !equal_pair(x, &ys[i]) {
            return false;
        }
    }
    true
}

#[cycle(equal)]
fn equal_pair(a: &(Value, Value), b: &(Value, Value)) -> bool
    ensures { IsTrue result ↔ (a.now ≡ b.now) }
{
    is_equal(&a.0, &b.0) && is_equal(&a.1, &b.1)
}

#[cycle(equal)]
fn equal_defaults(a: &Option<Boxed<Value>>, b: &Option<Boxed<Value>>) -> bool
    ensures { IsTrue result ↔ (a.now ≡ b.now) }
{
    match a {
        None => matches!(b, None),
        Some(x) => matches!(b, Some(y) if is_equal(x.get(), y.get())),
    }
}

#[cycle(equal)]
fn equal_objects(a: &Fields, b: &Fields) -> bool
    ensures { IsTrue result ↔ (a.now ≡ b.now) }
{
    equal_names(&a.class, &b.class) && equal_field_lists(&a.fields, &b.fields)
}

#[cycle(equal)]
fn equal_field_lists(a: &FieldList, b: &FieldList) -> bool
    ensures { IsTrue result ↔ (a.now ≡ b.now) }
{
    equal_fields(a.list.as_slice(), b.list.as_slice())
}

#[cycle(equal)]
fn equal_fields(xs: &[(Name, Value)], ys: &[(Name, Value)]) -> bool
    ensures { IsTrue result ↔ (xs.now ≡ ys.now) }
{
    if xs.len() != ys.len() {
        return false;
    }
    for (i, x) in xs.iter().enumerate() {
        if !equal_field(x, &ys[i]) {
            return false;
        }
    }
    true
}

#[cycle(equal)]
fn equal_field(a: &(Name, Value), b: &(Name, Value)) -> bool
    ensures { IsTrue result ↔ (a.now ≡ b.now) }
{
    equal_names(&a.0, &b.0) && is_equal(&a.1, &b.1)
}

#[cycle(equal)]
fn equal_dumped(a: &Dumped, b: &Dumped) -> bool
    ensures { IsTrue result ↔ (a.now ≡ b.now) }
{
    equal_names(&a.class, &b.class)
        && (equal_bytes(a.bytes.as_slice(), b.bytes.as_slice())
            && equal_field_lists(&a.vars, &b.vars))
}

#[cycle(equal)]
fn equal_wrapped(a: &Wrapped, b: &Wrapped) -> bool
    ensures { IsTrue result ↔ (a.now ≡ b.now) }
{
    equal_names(&a.class, &b.class) && is_equal(a.inner.get(), b.inner.get())
}
