//! The table of classes, line by line as docs/SPACE.md, Matching has it.

ghost use Rattle.std.specs.Prelude.{◌≡◌, ◌||◌, bytes_eq, codes};
ghost use Rattle.drb_value.specs.View.{layer};
ghost use Rattle.rinda_tuple.specs.Classes.{is_nil as is_nil_spec, is_true as is_true_spec, is_false as is_false_spec, is_int as is_int_spec, is_sym as is_sym_spec, is_text as is_text_spec, is_list as is_list_spec, is_hash as is_hash_spec, is_class as is_class_spec, is_module as is_module_spec, is_struct as is_struct_spec, is_remote as is_remote_spec, is_object_of as is_object_of_spec, is_struct_of as is_struct_of_spec, is_of as is_of_spec, suits_by, table, class_suits as class_suits_spec};

use drb_value::Node;

/// The name of a class or module suits the value.
pub fn class_suits(name: &[u8], x: &Node) -> bool
    ensures { result ≡ class_suits_spec name.now (layer x.now) }
{
    suits_by_table(name, x) || is_struct_of(name, x)
}

fn suits_by_table(name: &[u8], x: &Node) -> bool
    ensures { result ≡ suits_by table name.now (layer x.now) }
{
    if is("Object", name) {
        return true;
    }
    if is("BasicObject", name) {
        return true;
    }
    if is("Kernel", name) {
        return true;
    }
    if is("NilClass", name) {
        return is_nil(x);
    }
    if is("TrueClass", name) {
        return is_true(x);
    }
    if is("FalseClass", name) {
        return is_false(x);
    }
    if is("Integer", name) {
        return is_int(x);
    }
    if is("Numeric", name) {
        return is_int(x);
    }
    if is("Symbol", name) {
        return is_sym(x);
    }
    if is("String", name) {
        return is_text(x);
    }
    if is("Array", name) {
        return is_list(x);
    }
    if is("Hash", name) {
        return is_hash(x);
    }
    if is("Class", name) {
        return is_class(x);
    }
    if is("Module", name) {
        return is_class(x) || is_module(x);
    }
    if is("Struct", name) {
        return is_struct(x);
    }
    if is("DRb::DRbObject", name) {
        return is_remote(x);
    }
    if is("Comparable", name) {
        return is_comparable(x);
    }
    if is("Enumerable", name) {
        return is_enumerable(x);
    }
    is_of(name, x)
}

/// The name is that word.
fn is(word: &str, name: &[u8]) -> bool
    ensures { result ≡ bytes_eq word.now name.now }
{
    word.as_bytes() == name
}

pub fn is_nil(x: &Node) -> bool
    ensures { result ≡ is_nil_spec (layer x.now) }
{
    matches!(x, Node::Nil)
}

fn is_true(x: &Node) -> bool
    ensures { result ≡ is_true_spec (layer x.now) }
{
    match x {
        Node::Bool(b) => *b,
        _ => false,
    }
}

fn is_false(x: &Node) -> bool
    ensures { result ≡ is_false_spec (layer x.now) }
{
    match x {
        Node::Bool(b) => !*b,
        _ => false,
    }
}

fn is_int(x: &Node) -> bool
    ensures { result ≡ is_int_spec (layer x.now) }
{
    matches!(x, Node::Int(_))
}

fn is_sym(x: &Node) -> bool
    ensures { result ≡ is_sym_spec (layer x.now) }
{
    matches!(x, Node::Sym(_))
}

pub fn is_text(x: &Node) -> bool
    ensures { result ≡ is_text_spec (layer x.now) }
{
    matches!(x, Node::Text(_))
}

fn is_list(x: &Node) -> bool
    ensures { result ≡ is_list_spec (layer x.now) }
{
    matches!(x, Node::List(_))
}

fn is_hash(x: &Node) -> bool
    ensures { result ≡ is_hash_spec (layer x.now) }
{
    matches!(x, Node::Hash(_))
}

fn is_class(x: &Node) -> bool
    ensures { result ≡ is_class_spec (layer x.now) }
{
    matches!(x, Node::Class(_))
}

fn is_module(x: &Node) -> bool
    ensures { result ≡ is_module_spec (layer x.now) }
{
    matches!(x, Node::Module(_))
}

fn is_struct(x: &Node) -> bool
    ensures { result ≡ is_struct_spec (layer x.now) }
{
    matches!(x, Node::Struct(_))
}

fn is_remote(x: &Node) -> bool
    ensures { result ≡ is_remote_spec (layer x.now) }
{
    matches!(x, Node::Remote(_))
}

/// What has an order: Int, Text and Sym.
fn is_comparable(x: &Node) -> bool
    ensures { result ≡ (is_int_spec (layer x.now) || is_text_spec (layer x.now)
        || is_sym_spec (layer x.now)) }
{
    is_int(x) || is_text(x) || is_sym(x)
}

/// What has items: List, Hash, Struct and an Object of class `Range`.
fn is_enumerable(x: &Node) -> bool
    ensures { result ≡ (is_list_spec (layer x.now) || is_hash_spec (layer x.now)
        || is_struct_spec (layer x.now) || is_object_of_spec (codes "Range") (layer x.now)) }
{
    is_list(x) || is_hash(x) || is_struct(x) || is_object_of(b"Range", x)
}

/// An Object of exactly that class.
fn is_object_of(name: &[u8], x: &Node) -> bool
    ensures { result ≡ is_object_of_spec name.now (layer x.now) }
{
    match x {
        Node::Object(object) => object.get().class.as_slice() == name,
        _ => false,
    }
}

/// A Struct of exactly that class.
fn is_struct_of(name: &[u8], x: &Node) -> bool
    ensures { result ≡ is_struct_of_spec name.now (layer x.now) }
{
    match x {
        Node::Struct(object) => object.get().class.as_slice() == name,
        _ => false,
    }
}

/// An Object, Struct, Dumped or Wrapped of exactly that class.
fn is_of(name: &[u8], x: &Node) -> bool
    ensures { result ≡ is_of_spec name.now (layer x.now) }
{
    match x {
        Node::Object(object) => object.get().class.as_slice() == name,
        Node::Struct(object) => object.get().class.as_slice() == name,
        Node::Dumped(dumped) => dumped.get().class().as_slice() == name,
        Node::Wrapped(wrapped) => wrapped.class.as_slice() == name,
        _ => false,
    }
}
