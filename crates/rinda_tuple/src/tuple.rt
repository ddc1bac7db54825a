ghost use Rattle.std.specs.Prelude.{◌≡◌, IfOk, IfErr};
ghost use Rattle.drb_value.specs.View.{layer, view_of};
ghost use Rattle.rinda_tuple.specs.Tuples.{parts_at, parts_of, tuple_parts, template_parts, refused_parts, value_of};

use crate::named::NamedPairs;
use drb_value::{Node, Value, copy_items};
use sqlite_items::Items;
use std::alloc::{AllocError, Global};
use thiserror::Error;

/// A tuple that is written to a space.
///
/// Source: Ruby's rinda.rb, Tuple; docs/SPACE.md, Tuples.
#[derive(Drop)]
pub enum Tuple {
    /// Its values in order.
    List(Items<Value>),
    /// Its values by their keys.
    Named(NamedPairs),
}

/// A template that tuples are matched with.
///
/// Source: Ruby's rinda.rb, Template; docs/SPACE.md, Tuples.
#[derive(Drop)]
pub enum Template {
    /// Its elements in order.
    List(Items<Value>),
    /// Its elements by their keys.
    Named(NamedPairs),
}

impl Tuple {
    /// An equal tuple.
    ///
    /// Errors: only want of memory.
    pub fn copy(&self, alloc: Global) -> Result<Tuple, AllocError>
        ensures { IfOk result (λ tuple. tuple ≡ self.now) }
    {
        match self {
            Tuple::List(items) => Ok(Tuple::List(copy_items(alloc, items.as_slice())?)),
            Tuple::Named(pairs) => Ok(Tuple::Named(pairs.copy(alloc)?)),
        }
    }

    /// The tuple as a value: a list, or a hash without default.
    #[tactic(auto, unfolding(crate::specs::Tuples::value_of))]
    pub fn into_value(self) -> Value
        ensures { result ≡ value_of self }
    {
        match self {
            Tuple::List(items) => Value::list(items),
            Tuple::Named(pairs) => Value::hash(pairs.into_pairs()),
        }
    }

    /// A copy of the tuple as a value.
    ///
    /// Errors: only want of memory.
    pub fn to_value(&self, alloc: Global) -> Result<Value, AllocError>
        ensures { IfOk result (λ value. value ≡ value_of self.now) }
    {
        Ok(self.copy(alloc)?.into_value())
    }
}

impl Template {
    /// An equal template.
    ///
    /// Errors: only want of memory.
    pub fn copy(&self, alloc: Global) -> Result<Template, AllocError>
        ensures { IfOk result (λ template. template ≡ self.now) }
    {
        match self {
            Template::List(items) => Ok(Template::List(copy_items(alloc, items.as_slice())?)),
            Template::Named(pairs) => Ok(Template::Named(pairs.copy(alloc)?)),
        }
    }
}

/// Why a value is no tuple and no template.
///
/// Source: Ruby's rinda.rb, InvalidHashTupleKey; docs/SPACE.md, Tuples.
#[derive(Clone, Copy, Debug, PartialEq, Eq, Error)]
pub enum WhyNotTuple {
    /// It is neither a list nor a hash.
    #[error("tuple must be an array or a hash")]
    NotAList,
    /// It is a hash, and one of its keys is no text.
    #[error("hash tuple keys must be texts")]
    BadKey,
}

/// A value that is no tuple and no template, handed back as it was.
#[derive(Drop)]
pub struct NotTuple {
    pub why: WhyNotTuple,
    pub value: Value,
}

/// The tuple that a value spells: the items of a list, or the pairs of a hash.
///
/// Errors: `NotAList` exactly where the value is neither a list nor a hash, `BadKey` exactly where it is a hash with a
/// key that is no text; the value is handed back. The default of a hash that is a tuple is dropped.
/// Source: Ruby's rinda.rb, Tuple#initialize; docs/SPACE.md, Tuples.
#[tactic(auto, using(crate::proofs::Outer::outer))]
pub fn tuple_of(v: Value) -> Result<Tuple, NotTuple>
    ensures tuple { IfOk result (λ t. parts_of v ≡ tuple_parts t) }
    ensures refused { IfErr result (λ e. parts_of v ≡ refused_parts e.why) }
    ensures handed_back { IfErr result (λ e. e.value ≡ v) }
{
    let Value { node } = v;
    match tuple_in(node) {
        Ok(tuple) => Ok(tuple),
        Err(refused) => Err(refused),
    }
}

/// The template that a value spells, as `tuple_of` has it.
///
/// Errors: those of `tuple_of`.
/// Source: Ruby's rinda.rb, Template; docs/SPACE.md, Tuples.
pub fn template_of(v: Value) -> Result<Template, NotTuple>
    ensures template { IfOk result (λ t. parts_of v ≡ template_parts t) }
    ensures refused { IfErr result (λ e. parts_of v ≡ refused_parts e.why) }
    ensures handed_back { IfErr result (λ e. e.value ≡ v) }
{
    match tuple_of(v) {
        Ok(Tuple::List(items)) => Ok(Template::List(items)),
        Ok(Tuple::Named(pairs)) => Ok(Template::Named(pairs)),
        Err(refused) => Err(refused),
    }
}

/// The tuple that a node spells, or the value again.
fn tuple_in(node: Node) -> Result<Tuple, NotTuple>
    ensures tuple { IfOk result (λ t. parts_at (layer node) ≡ tuple_parts t) }
    ensures refused { IfErr result (λ e. parts_at (layer node) ≡ refused_parts e.why) }
    ensures handed_back { IfErr result (λ e. e.value ≡ view_of node) }
{
    match node {
        Node::List(items) => Ok(Tuple::List(items)),
        Node::Hash(pairs) => match NamedPairs::of(pairs) {
            Ok(pairs) => Ok(Tuple::Named(pairs)),
            Err(pairs) => Err(not_tuple(WhyNotTuple::BadKey, Node::Hash(pairs))),
        },
        node => Err(not_tuple(WhyNotTuple::NotAList, node)),
    }
}

/// The value of that node, refused.
fn not_tuple(why: WhyNotTuple, node: Node) -> NotTuple
    ensures { result ≡ record { why = why; value = view_of node } }
{
    NotTuple {
        why,
        value: Value { node },
    }
}
