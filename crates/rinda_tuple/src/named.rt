//! The elements of a tuple or a template that names them.

ghost use Rattle.std.specs.Prelude.{◌≡◌, false, IfOk, IfErr, IsTrue, length};
ghost use Rattle.drb_tree.specs.Kept.{keys_distinct};
ghost use Rattle.rinda_tuple.specs.Keys.{all_texts as all_texts_spec, is_text_key as is_text_key_spec};

use crate::class::is_text;
use drb_value::{Pairs, Value};
use std::alloc::{AllocError, Global};
use std::marker::Model;

/// Values by their keys. The keys are texts, no two of them the same, and there is no default.
///
/// Contracts see the list of pairs, in the order in which they were put.
/// Source: Ruby's rinda.rb, Tuple#initialize with a hash; docs/SPACE.md, Tuples.
#[derive(Drop)]
pub struct NamedPairs {
    pairs: Pairs,
}

impl Model for NamedPairs {
    ghost use Rattle.std.specs.Prelude.{◌≡◌, List, None, IsTrue};
    ghost use Rattle.drb_tree.specs.declared.Tree.{Tree};
    ghost use Rattle.drb_tree.specs.contracts.Tree as e;
    ghost use Rattle.std.specs.Coded.{codes};
    ghost use Rattle.rinda_tuple.specs.Keys.{all_texts};

    ghost Value = { List (Tree × Tree) };

    ghost coded = { Prim.hlevel (codes, e.the_row.coded) };

    ghost view = { λ a. a.pairs.0 };

    ghost invariant = { λ a. IsTrue (all_texts a.pairs.0) × (a.pairs.1 ≡ None) };
}

impl NamedPairs {
    /// These pairs, without their default.
    ///
    /// Errors: the pairs as they were, exactly where a key is no text.
    pub fn of(pairs: Pairs) -> Result<NamedPairs, Pairs>
        ensures named { IfOk result (λ named. named ≡ pairs.0) }
        ensures texts { IfOk result (λ _. IsTrue (all_texts_spec pairs.0)) }
        ensures refused { IfErr result (λ same. (same ≡ pairs) × (all_texts_spec pairs.0 ≡ false)) }
    {
        if !all_texts(pairs.as_slice()) {
            return Err(pairs);
        }
        Ok(NamedPairs {
            pairs: Pairs {
                pairs: pairs.pairs,
                default: None,
            },
        })
    }

    /// The pairs in their order.
    pub fn as_slice(&self) -> &[(Value, Value)]
        ensures pairs { result.now ≡ self.now }
        ensures distinct { IsTrue (keys_distinct self.now) }
        ensures texts { IsTrue (all_texts_spec self.now) }
    {
        self.pairs.as_slice()
    }

    /// How many pairs there are.
    pub fn len(&self) -> usize
        ensures { result ≡ length self.now }
    {
        self.pairs.len()
    }

    /// Equal pairs.
    ///
    /// Errors: only want of memory.
    pub fn copy(&self, alloc: Global) -> Result<NamedPairs, AllocError>
        ensures { IfOk result (λ named. named ≡ self.now) }
    {
        let pairs = self.pairs.copy(alloc)?;
        Ok(NamedPairs { pairs })
    }

    /// The pairs as those of a hash without default.
    pub fn into_pairs(self) -> Pairs
        ensures { result ≡ (self, None) }
    {
        self.pairs
    }
}

/// Every key is a text.
fn all_texts(pairs: &[(Value, Value)]) -> bool
    ensures { result ≡ all_texts_spec pairs.now }
{
    for pair in pairs {
        if !is_text_key(&pair.0) {
            return false;
        }
    }
    true
}

#[tactic(auto, using(crate::proofs::Outer::outer))]
fn is_text_key(key: &Value) -> bool
    ensures { result ≡ is_text_key_spec key.now }
{
    is_text(&key.node)
}
