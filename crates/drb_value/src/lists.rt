ghost use Rattle.std.specs.Prelude.{◌≡◌, ◌↔◌, ℕ, List, [], ◌∷◌, ◌++◌, All, false, length, OnOk, OnErr, IsTrue, IsUtf8, Err};
ghost use Rattle.drb_tree.specs.Kept.{has_name, names_distinct};

use crate::{FieldList, Items, Name, PairError, Value};
use std::alloc::{AllocError, Global};

impl FieldList {
    /// No fields. Takes no memory.
    pub fn new(alloc: Global) -> FieldList
        ensures { result ≡ [] }
    {
        FieldList {
            list: Items::new(alloc),
        }
    }

    /// The fields in their order. No name stands twice.
    pub fn as_slice(&self) -> &[(Name, Value)]
        ensures fields { result.now ≡ self.now }
        ensures distinct { IsTrue (names_distinct self.now) }
    {
        self.list.as_slice()
    }

    /// How many fields there are.
    pub fn len(&self) -> usize
        ensures { result ≡ length self.now }
    {
        self.list.len()
    }

    /// Whether there are no fields.
    pub fn is_empty(&self) -> bool
        ensures { IsTrue result ↔ (self.now ≡ []) }
    {
        self.list.is_empty()
    }

    /// Whether some field has this name.
    pub fn has_name(&self, name: &[u8]) -> bool
        ensures { result ≡ has_name name.now self.now }
    {
        has_name(name, self.list.as_slice())
    }

    /// Adds a field at the end.
    ///
    /// Errors: `Duplicate` exactly where the name is there; `Memory`. After either the list is as before, and the field
    /// that was given is dropped.
    /// Source: docs/MARSHAL.md, Values.
    pub fn push(&mut self, name: Name, value: Value) -> Result<(), PairError>
        ensures ok { OnOk result (self.new ≡ self.old ++ (name, value) ∷ []) }
        ensures err { OnErr result (self.new ≡ self.old) }
        ensures duplicate { (result ≡ Err PairError.Duplicate) ↔ IsTrue (has_name name self.old) }
    {
        if has_name(name.as_slice(), self.list.as_slice()) {
            return Err(PairError::Duplicate);
        }
        self.list.push((name, value))?;
        Ok(())
    }

    /// Adds at the end a field whose name is known to be new, as `has_name` tells.
    ///
    /// Errors: only want of memory; the list is then as before.
    pub fn push_new(&mut self, name: Name, value: Value) -> Result<(), AllocError>
        requires { has_name name self.old ≡ false }
        ensures ok { OnOk result (self.new ≡ self.old ++ (name, value) ∷ []) }
        ensures err { OnErr result (self.new ≡ self.old) }
    {
        self.list.push((name, value))?;
        Ok(())
    }
}

fn has_name(name: &[u8], fields: &[(Name, Value)]) -> bool
    ensures { result ≡ has_name name.now fields.now }
{
    for field in fields {
        if field.0.as_slice() == name {
            return true;
        }
    }
    false
}
