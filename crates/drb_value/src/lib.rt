//! The values that requests carry, the tuples of the space among them, as they stand in memory.
//!
//! A value is a `Value` round a `Node`, one of fourteen forms; contracts see it as the tree of `drb_tree`. The crate
//! stands on that tree and on the lists of `sqlite_items`. It promises that values are made, copied, compared and
//! measured exactly as docs/MARSHAL.md says, and that every value keeps its rules: names are UTF-8, the keys of a hash
//! and the names of fields are distinct, and no dumped value is of class `DRb::DRbObject`.
//!
//! Read this file for the types, then `names.rt`, `hashes.rt` and `lists.rt` for what goes into a value, `makers.rt`
//! for how one is made, `equality.rt`, `sizes.rt`, `fitting.rt` and `copies.rt` for what can be asked of it.
//! `specs/View.antt` says which tree a node is.
#![tactic(auto)]

mod copies;
mod equality;
mod fitting;
mod hashes;
mod lists;
mod makers;
mod names;
mod sizes;

pub use copies::copy_items;
pub use drb_tree::{Bytes, Code, RefId, Remote, Text};
pub use equality::same;
pub use fitting::fits;
pub use hashes::PairError;
pub use names::NameError;
pub use sqlite_items::{Boxed, Items};
use std::marker::Model;

/// A symbol, a class, or the name of a field: bytes that are valid UTF-8.
///
/// Source: docs/MARSHAL.md, Values.
#[derive(Debug, Drop)]
pub struct Name {
    pub bytes: Bytes,
}

impl Model for Name {
    ghost use Rattle.std.specs.Prelude.{ℕ, List, IsUtf8};

    ghost Value = { List ℕ };

    ghost view = { λ a. a.bytes };

    ghost invariant = { λ a. IsUtf8 a.bytes };
}

/// A value of Ruby. Contracts see the tree of its node.
///
/// Source: docs/MARSHAL.md, Values.
#[cycle(value)]
#[derive(Drop)]
pub struct Value {
    pub node: Node,
}

/// The forms of a value, to match on.
///
/// Source: docs/MARSHAL.md, Values.
#[cycle(value)]
#[derive(Drop)]
pub enum Node {
    Nil,
    Bool(bool),
    Int(i128),
    Sym(Name),
    Text(Text),
    List(Items<Value>),
    Hash(Pairs),
    Class(Name),
    Module(Name),
    Object(Boxed<Fields>),
    Struct(Boxed<Fields>),
    Dumped(Boxed<Dumped>),
    Wrapped(Wrapped),
    Remote(Boxed<Remote>),
}

/// The class and the fields of an object, or the class and the members of a struct.
#[cycle(value)]
#[derive(Drop)]
pub struct Fields {
    pub class: Name,
    pub fields: FieldList,
}

/// A value that its class dumped by itself, as bytes, and that stays as it came. The class is never `DRb::DRbObject`.
///
/// Source: Ruby's `_dump`; docs/MARSHAL.md, Values.
#[cycle(value)]
#[derive(Drop)]
pub struct Dumped {
    pub class: Name,
    pub bytes: Items<u8>,
    pub vars: FieldList,
}

/// A value that its class dumped as another value.
///
/// Source: Ruby's `marshal_dump`; docs/MARSHAL.md, Values.
#[cycle(value)]
#[derive(Drop)]
pub struct Wrapped {
    pub class: Name,
    pub inner: Boxed<Value>,
}

/// The pairs of a hash in their order, and its default. No two keys are the same.
#[cycle(value)]
#[derive(Drop)]
pub struct Pairs {
    pub pairs: Items<(Value, Value)>,
    pub default: Option<Boxed<Value>>,
}

/// Names and values in their order. No name stands twice.
#[cycle(value)]
#[derive(Drop)]
pub struct FieldList {
    pub list: Items<(Name, Value)>,
}

impl Model for Pairs {
    ghost use Rattle.std.specs.Prelude.{List, Option, IsTrue, ◌+◌, ◌*◌};
    ghost use Rattle.drb_tree.specs.declared.Tree.{Tree};
    ghost use Rattle.drb_tree.specs.contracts.Tree as e;
    ghost use Rattle.std.specs.Coded.{codes};

    ghost Value = { List (Tree × Tree) × Option Tree };

    ghost coded = { Prim.hlevel (codes, e.the_row.coded) };

    ghost use Rattle.drb_tree.specs.Sizes.{pairs_depth};
    ghost use Rattle.drb_tree.specs.Kept.{keys_distinct};

    ghost view = { λ a. (a.pairs, a.default) };

    ghost invariant = { λ a. IsTrue (keys_distinct a.pairs) };

    ghost size = { λ p. 3 * pairs_depth p + 1 };

    ghost use Rattle.drb_value.specs.Falls.{pairs_fall};

    ghost size_decreases = { λ a h. pairs_fall a };
}

impl Model for FieldList {
    ghost use Rattle.std.specs.Prelude.{ℕ, List, IsTrue, ◌+◌, ◌*◌};
    ghost use Rattle.drb_tree.specs.declared.Tree.{Tree};
    ghost use Rattle.drb_tree.specs.contracts.Tree as e;
    ghost use Rattle.std.specs.Coded.{codes};

    ghost Value = { List (List ℕ × Tree) };

    ghost coded = { Prim.hlevel (codes, e.the_row.coded) };

    ghost use Rattle.drb_tree.specs.Sizes.{fields_depth};
    ghost use Rattle.drb_tree.specs.Kept.{names_distinct};

    ghost view = { λ a. a.list };

    ghost invariant = { λ a. IsTrue (names_distinct a.list) };

    ghost size = { λ fs. 3 * fields_depth fs + 1 };

    ghost use Rattle.drb_value.specs.Falls.{fields_fall};

    ghost size_decreases = { λ a h. fields_fall a };
}

impl Model for Dumped {
    ghost use Rattle.std.specs.Prelude.{◌≡◌, ℕ, List, ◌+◌, ◌*◌};
    ghost use Rattle.drb_tree.specs.declared.Tree.{Tree};
    ghost use Rattle.drb_tree.specs.contracts.Tree as e;
    ghost use Rattle.std.specs.Coded.{codes};

    ghost Value = { List ℕ × List ℕ × List (List ℕ × Tree) };

    ghost coded = { Prim.hlevel (codes, e.the_row.coded) };

    ghost use Rattle.drb_tree.specs.Sizes.{fields_depth};
    ghost use Rattle.drb_tree.specs.Kept.{remote_class};

    ghost view = { λ a. (a.class, a.bytes, a.vars) };

    ghost invariant = { λ a. a.class ≡ remote_class → ⊥ };

    ghost size = { λ d. 3 * fields_depth d.2 + 2 };

    ghost use Rattle.drb_value.specs.Falls.{dumped_falls};

    ghost size_decreases = { λ a h. dumped_falls a };
}

impl Model for Value {
    ghost use Rattle.std.specs.Prelude.{◌*◌};
    ghost use Rattle.drb_tree.specs.declared.Tree.{Tree};
    ghost use Rattle.drb_tree.specs.contracts.Tree as e;
    ghost use Rattle.std.specs.Coded.{codes};

    ghost Value = { Tree };

    ghost coded = { Prim.hlevel (codes, e.the_row.coded) };

    ghost use Rattle.drb_value.specs.View.{view_of};

    ghost view = { λ a. view_of a.node };

    ghost use Rattle.drb_tree.specs.Sizes.{depth};

    ghost size = { λ t. 3 * depth t };

    ghost use Rattle.drb_value.specs.Falls.{falls};

    ghost size_decreases = { λ a h. falls a.node };
}
