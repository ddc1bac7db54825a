ghost use Rattle.std.specs.Prelude.{◌≡◌, ◌↔◌, [], ◌∷◌, ◌++◌, false, length, IfOk, OnOk, OnErr, IsTrue, Err, Some, None};
ghost use Rattle.std.specs.Option.{option_copied};
ghost use Rattle.drb_tree.specs.Kept.{has_key, keys_distinct};

use crate::{Boxed, Items, Pairs, Value, same};
use std::alloc::{AllocError, Global};
use thiserror::Error;

/// Why a pair or a field was not added.
#[derive(Clone, Copy, Debug, PartialEq, Eq, Error)]
pub enum PairError {
    /// The key, or the name, is there already.
    #[error("the key is there already")]
    Duplicate,
    /// There was no memory.
    #[error("out of memory")]
    Memory,
}

impl From<AllocError> for PairError {
    ghost use Rattle.std.specs.Prelude.{◌≡◌};
    ghost use Rattle.drb_value.specs.declared.hashes.PairError.TheVariants.{Memory};

    ghost from_gives = { λ _ e. e ≡ Memory };

    fn from(_: AllocError) -> PairError {
        PairError::Memory
    }
}

impl Pairs {
    /// No pairs, and no default. Takes no memory.
    pub fn new(alloc: Global) -> Pairs
        ensures { result ≡ ([], None) }
    {
        Pairs {
            pairs: Items::new(alloc),
            default: None,
        }
    }

    /// The same pairs with this default in place of what it was.
    ///
    /// Errors: only want of memory.
    pub fn with_default(self, alloc: Global, default: Value) -> Result<Pairs, AllocError>
        ensures { IfOk result (λ pairs. pairs ≡ (self.0, Some default)) }
    {
        let default = Some(Boxed::new(alloc, default)?);
        Ok(Pairs {
            pairs: self.pairs,
            default,
        })
    }

    /// The pairs in their order. No two keys are the same.
    pub fn as_slice(&self) -> &[(Value, Value)]
        ensures pairs { result.now ≡ self.now.0 }
        ensures distinct { IsTrue (keys_distinct self.now.0) }
    {
        self.pairs.as_slice()
    }

    /// How many pairs there are.
    pub fn len(&self) -> usize
        ensures { result ≡ length self.now.0 }
    {
        self.pairs.len()
    }

    /// Whether there are no pairs.
    pub fn is_empty(&self) -> bool
        ensures { IsTrue result ↔ (self.now.0 ≡ []) }
    {
        self.pairs.is_empty()
    }

    /// The hash's default, where it has one.
    pub fn default(&self) -> Option<&Value>
        ensures { option_copied result ≡ self.now.1 }
    {
        match &self.default {
            None => None,
            Some(default) => Some(default.get()),
        }
    }

    /// Whether some key is the same as this one.
    ///
    /// Source: docs/MARSHAL.md, Equality.
    pub fn has_key(&self, key: &Value) -> bool
        ensures { result ≡ has_key key.now self.now.0 }
    {
        has_key(key, self.pairs.as_slice())
    }

    /// Adds a pair at the end.
    ///
    /// Errors: `Duplicate` exactly where some key is the same; `Memory`. After either the pairs are as before, and the
    /// pair that was given is dropped.
    /// Source: docs/MARSHAL.md, Values.
    pub fn push(&mut self, key: Value, value: Value) -> Result<(), PairError>
        ensures ok { OnOk result (self.new ≡ (self.old.0 ++ (key, value) ∷ [], self.old.1)) }
        ensures err { OnErr result (self.new ≡ self.old) }
        ensures duplicate { (result ≡ Err PairError.Duplicate) ↔ IsTrue (has_key key self.old.0) }
    {
        if has_key(&key, self.pairs.as_slice()) {
            return Err(PairError::Duplicate);
        }
        self.pairs.push((key, value))?;
        Ok(())
    }

    /// Adds at the end a pair whose key is known to be new, as `has_key` tells.
    ///
    /// Errors: only want of memory; the pairs are then as before.
    pub fn push_new(&mut self, key: Value, value: Value) -> Result<(), AllocError>
        requires { has_key key self.old.0 ≡ false }
        ensures ok { OnOk result (self.new ≡ (self.old.0 ++ (key, value) ∷ [], self.old.1)) }
        ensures err { OnErr result (self.new ≡ self.old) }
    {
        self.pairs.push((key, value))?;
        Ok(())
    }
}

fn has_key(key: &Value, pairs: &[(Value, Value)]) -> bool
    ensures { result ≡ has_key key.now pairs.now }
{
    for pair in pairs {
        if same(&pair.0, key) {
            return true;
        }
    }
    false
}
