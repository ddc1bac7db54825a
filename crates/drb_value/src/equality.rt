ghost use Rattle.std.specs.Prelude.{◌≡◌, ◌&&◌, ◌==◌, length, map, bytes_eq};
ghost use Rattle.drb_tree.specs.Same.{same, all_same, each_pair, some_pair, each_field, some_field, same_fields, same_vars};
ghost use Rattle.drb_value.specs.View.{same_nodes};

use crate::{Dumped, FieldList, Fields, Name, Node, Pairs, Value, Wrapped};

/// Whether two values are the same.
///
/// Takes time in proportion to the values, except that the pairs of two hashes, and the fields of two objects, are
/// compared each with each. The default of a hash is not looked at, nor the order of its pairs or of an object's fields.
/// Source: Ruby's `eql?` and `==`; docs/MARSHAL.md, Equality.
#[cycle(same)]
pub fn same(a: &Value, b: &Value) -> bool
    ensures { result ≡ same a.now b.now }
{
    same_nodes(&a.node, &b.node)
}

#[cycle(same)]
fn same_nodes(n: &Node, m: &Node) -> bool
    ensures { result ≡ same_nodes n.now m.now }
{
    match n {
        Node::Nil => matches!(m, Node::Nil),
        Node::Bool(x) => match m {
            Node::Bool(y) => *x == *y,
            _ => false,
        },
        Node::Int(x) => match m {
            Node::Int(y) => *x == *y,
            _ => false,
        },
        Node::Sym(x) => match m {
            Node::Sym(y) => same_names(x, y),
            _ => false,
        },
        Node::Text(x) => match m {
            Node::Text(y) => x.same(y),
            _ => false,
        },
        Node::List(xs) => match m {
            Node::List(ys) => same_items(xs.as_slice(), ys.as_slice()),
            _ => false,
        },
        Node::Hash(xs) => match m {
            Node::Hash(ys) => same_pairs(xs, ys),
            _ => false,
        },
        Node::Class(x) => match m {
            Node::Class(y) => same_names(x, y),
            _ => false,
        },
        Node::Module(x) => match m {
            Node::Module(y) => same_names(x, y),
            _ => false,
        },
        Node::Object(x) => match m {
            Node::Object(y) => same_objects(x.get(), y.get()),
            _ => false,
        },
        Node::Struct(x) => match m {
            Node::Struct(y) => same_objects(x.get(), y.get()),
            _ => false,
        },
        Node::Dumped(x) => match m {
            Node::Dumped(y) => same_dumped(x.get(), y.get()),
            _ => false,
        },
        Node::Wrapped(x) => match m {
            Node::Wrapped(y) => same_wrapped(x, y),
            _ => false,
        },
        Node::Remote(x) => match m {
            Node::Remote(y) => x.get().same(y.get()),
            _ => false,
        },
    }
}

fn same_names(a: &Name, b: &Name) -> bool
    ensures { result ≡ bytes_eq a.now b.now }
{
    a.as_slice() == b.as_slice()
}

#[cycle(same)]
fn same_items(xs: &[Value], ys: &[Value]) -> bool
    ensures { result ≡ all_same (map same xs.now) ys.now }
{
    if xs.len() != ys.len() {
        return false;
    }
    for (i, x) in xs.iter().enumerate() {
        if !same(x, &ys[i]) {
            return false;
        }
    }
    true
}

#[cycle(same)]
fn same_pairs(xs: &Pairs, ys: &Pairs) -> bool
    ensures { result ≡ ((length xs.now.0 == length ys.now.0)
        && each_pair (map (λ p. (same p.0, same p.1)) xs.now.0) ys.now.0) }
{
    xs.pairs.len() == ys.pairs.len() && each_pair(xs.pairs.as_slice(), ys.pairs.as_slice())
}

#[cycle(same)]
fn each_pair(xs: &[(Value, Value)], ys: &[(Value, Value)]) -> bool
    ensures { result ≡ each_pair (map (λ p. (same p.0, same p.1)) xs.now) ys.now }
{
    for x in xs {
        if !some_pair(&x.0, &x.1, ys) {
            return false;
        }
    }
    true
}

#[cycle(same)]
fn some_pair(key: &Value, value: &Value, ys: &[(Value, Value)]) -> bool
    ensures { result ≡ some_pair (same key.now) (same value.now) ys.now }
{
    for y in ys {
        if same(key, &y.0) && same(value, &y.1) {
            return true;
        }
    }
    false
}

#[cycle(same)]
fn same_objects(a: &Fields, b: &Fields) -> bool
    ensures { result ≡ (bytes_eq a.now.class b.now.class
        && same_fields (map (λ f. (f.0, same f.1)) a.now.fields) b.now.fields) }
{
    same_names(&a.class, &b.class) && same_fields(&a.fields, &b.fields)
}

#[cycle(same)]
fn same_fields(xs: &FieldList, ys: &FieldList) -> bool
    ensures { result ≡ same_fields (map (λ f. (f.0, same f.1)) xs.now) ys.now }
{
    xs.list.len() == ys.list.len() && each_field(xs.list.as_slice(), ys.list.as_slice())
}

#[cycle(same)]
fn each_field(xs: &[(Name, Value)], ys: &[(Name, Value)]) -> bool
    ensures { result ≡ each_field (map (λ f. (f.0, same f.1)) xs.now) ys.now }
{
    for x in xs {
        if !some_field(x.0.as_slice(), &x.1, ys) {
            return false;
        }
    }
    true
}

#[cycle(same)]
fn some_field(name: &[u8], value: &Value, ys: &[(Name, Value)]) -> bool
    ensures { result ≡ some_field name.now (same value.now) ys.now }
{
    for y in ys {
        if name == y.0.as_slice() && same(value, &y.1) {
            return true;
        }
    }
    false
}

#[cycle(same)]
fn same_dumped(a: &Dumped, b: &Dumped) -> bool
    ensures { result ≡ ((bytes_eq a.now.0 b.now.0 && bytes_eq a.now.1 b.now.1)
        && same_vars (map (λ f. (f.0, same f.1)) a.now.2) b.now.2) }
{
    same_names(&a.class, &b.class)
        && a.bytes.as_slice() == b.bytes.as_slice()
        && same_vars(&a.vars, &b.vars)
}

#[cycle(same)]
fn same_vars(a: &FieldList, b: &FieldList) -> bool
    ensures { result ≡ same_vars (map (λ f. (f.0, same f.1)) a.now) b.now }
{
    same_var_slices(a.list.as_slice(), b.list.as_slice())
}

#[cycle(same)]
fn same_var_slices(xs: &[(Name, Value)], ys: &[(Name, Value)]) -> bool
    ensures { result ≡ same_vars (map (λ f. (f.0, same f.1)) xs.now) ys.now }
{
    if xs.len() != ys.len() {
        return false;
    }
    for (i, x) in xs.iter().enumerate() {
        let y = &ys[i];
        if !(same_names(&x.0, &y.0) && same(&x.1, &y.1)) {
            return false;
        }
    }
    true
}

#[cycle(same)]
fn same_wrapped(a: &Wrapped, b: &Wrapped) -> bool
    ensures { result ≡ (bytes_eq a.now.class b.now.class && same a.now.inner b.now.inner) }
{
    same_names(&a.class, &b.class) && same(a.inner.get(), b.inner.get())
}
