ghost use Rattle.std.specs.Prelude.{◌≡◌, ℕ, ◌+◌, ◌-◌, ◌^◌, min, max, map, option_map};
ghost use Rattle.drb_tree.specs.Sizes.{depth, depth_step, most, most_fields, pairs_depth, fields_depth, nodes, nodes_step, heavy, total, total_pairs, total_fields, some_or_0};
ghost use Rattle.drb_tree.specs.declared.Tree.{Tree};
ghost use Rattle.drb_tree.specs.declared.Tree.TheFolds.{map-Tree};
ghost use Rattle.drb_value.specs.View.{layer};

use crate::{Dumped, FieldList, Fields, Node, Pairs, Value};

impl Value {
    /// How many nodes the value counts, at most the greatest u64.
    ///
    /// Source: docs/MARSHAL.md, Depth and nodes.
    #[cycle(nodes)]
    pub fn nodes(&self) -> u64
        ensures { result ≡ min (nodes self.now) (2 ^ 64 - 1) }
    {
        nodes_in(&self.node)
    }

    /// How deep the value is: 1 where it has no parts. At most the greatest u64.
    ///
    /// Source: docs/MARSHAL.md, Depth and nodes.
    #[cycle(depth)]
    pub fn depth(&self) -> u64
        ensures { result ≡ min (depth self.now) (2 ^ 64 - 1) }
    {
        depth_in(&self.node)
    }
}

#[cycle(nodes)]
fn nodes_in(node: &Node) -> u64
    ensures { result ≡ min (nodes_step (map-Tree Tree ℕ nodes (layer node.now))) (2 ^ 64 - 1) }
{
    match node {
        Node::Nil => 1,
        Node::Bool(_) => 1,
        Node::Int(_) => 1,
        Node::Sym(name) => heavy(name.as_slice()),
        Node::Text(text) => heavy(text.bytes.as_slice()),
        Node::List(items) => nodes_of_items(items.as_slice()).saturating_add(1),
        Node::Hash(pairs) => nodes_of_pairs(pairs).saturating_add(1),
        Node::Class(name) => heavy(name.as_slice()),
        Node::Module(name) => heavy(name.as_slice()),
        Node::Object(object) => nodes_of_object(object.get()),
        Node::Struct(object) => nodes_of_object(object.get()),
        Node::Dumped(dumped) => nodes_of_dumped(dumped.get()),
        Node::Wrapped(wrapped) => wrapped
            .inner
            .get()
            .nodes()
            .saturating_add(heavy(wrapped.class.as_slice()))
            .saturating_add(1),
        Node::Remote(remote) => remote.get().nodes(),
    }
}

/// 1, and 1 more for every 256 bytes.
fn heavy(bytes: &[u8]) -> u64
    ensures { result ≡ heavy bytes.now }
{
    1 + bytes.len() as u64 / 256
}

#[cycle(nodes)]
fn nodes_of_items(items: &[Value]) -> u64
    ensures { result ≡ min (total (map nodes items.now)) (2 ^ 64 - 1) }
{
    let mut sum = 0u64;
    for item in items {
        sum = sum.saturating_add(item.nodes());
    }
    sum
}

#[cycle(nodes)]
fn nodes_of_pairs(pairs: &Pairs) -> u64
    ensures { result ≡ min
        (total_pairs (map (λ p. (nodes p.0, nodes p.1)) pairs.now.0)
        + some_or_0 (option_map nodes pairs.now.1))
        (2 ^ 64 - 1) }
{
    let mut sum = 0u64;
    for pair in pairs.pairs.as_slice() {
        sum = sum.saturating_add(pair.0.nodes());
        sum = sum.saturating_add(pair.1.nodes());
    }
    match &pairs.default {
        None => sum,
        Some(default) => sum.saturating_add(default.get().nodes()),
    }
}

#[cycle(nodes)]
fn nodes_of_object(object: &Fields) -> u64
    ensures { result ≡ min
        (1 + heavy object.now.class + total_fields (map (λ f. (f.0, nodes f.1)) object.now.fields))
        (2 ^ 64 - 1) }
{
    nodes_of_fields(&object.fields)
        .saturating_add(heavy(object.class.as_slice()))
        .saturating_add(1)
}

#[cycle(nodes)]
fn nodes_of_dumped(dumped: &Dumped) -> u64
    ensures { result ≡ min
        (heavy dumped.now.0 + heavy dumped.now.1
        + total_fields (map (λ f. (f.0, nodes f.1)) dumped.now.2))
        (2 ^ 64 - 1) }
{
    nodes_of_fields(dumped.vars())
        .saturating_add(heavy(dumped.class().as_slice()))
        .saturating_add(heavy(dumped.bytes()))
}

#[cycle(nodes)]
fn nodes_of_fields(fields: &FieldList) -> u64
    ensures { result ≡ min (total_fields (map (λ f. (f.0, nodes f.1)) fields.now)) (2 ^ 64 - 1) }
{
    let mut sum = 0u64;
    for field in fields.list.as_slice() {
        sum = sum.saturating_add(heavy(field.0.as_slice()));
        sum = sum.saturating_add(field.1.nodes());
    }
    sum
}

#[cycle(depth)]
fn depth_in(node: &Node) -> u64
    ensures { result ≡ min (depth_step (map-Tree Tree ℕ depth (layer node.now))) (2 ^ 64 - 1) }
{
    match node {
        Node::List(items) => depth_of_items(items.as_slice()).saturating_add(1),
        Node::Hash(pairs) => depth_of_pairs(pairs).saturating_add(1),
        Node::Object(object) => depth_of_fields(&object.get().fields).saturating_add(1),
        Node::Struct(object) => depth_of_fields(&object.get().fields).saturating_add(1),
        Node::Dumped(dumped) => depth_of_fields(dumped.get().vars()).saturating_add(1),
        Node::Wrapped(wrapped) => wrapped.inner.get().depth().saturating_add(1),
        _ => 1,
    }
}

#[cycle(depth)]
fn depth_of_items(items: &[Value]) -> u64
    ensures { result ≡ min (most (map depth items.now)) (2 ^ 64 - 1) }
{
    let mut top = 0u64;
    for item in items {
        top = top.max(item.depth());
    }
    top
}

#[cycle(depth)]
fn depth_of_pairs(pairs: &Pairs) -> u64
    ensures { result ≡ min (pairs_depth pairs.now) (2 ^ 64 - 1) }
{
    let mut top = 0u64;
    for pair in pairs.pairs.as_slice() {
        top = top.max(pair.0.depth());
        top = top.max(pair.1.depth());
    }
    match &pairs.default {
        None => top,
        Some(default) => top.max(default.get().depth()),
    }
}

#[cycle(depth)]
fn depth_of_fields(fields: &FieldList) -> u64
    ensures { result ≡ min (fields_depth fields.now) (2 ^ 64 - 1) }
{
    let mut top = 0u64;
    for field in fields.list.as_slice() {
        top = top.max(field.1.depth());
    }
    top
}
