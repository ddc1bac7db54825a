//! The parts of a value, one after the other.

ghost use Rattle.std.specs.Prelude.{◌≡◌, ℕ, ◌+◌, ◌≤◌, ◌<◌, [], ◌∷◌, ◌++◌};
ghost use Rattle.marshal_grammar.specs.Values.{values, pairs, fields};
ghost use Rattle.marshal_read.specs.Gives.{AddsAs};
ghost use Rattle.marshal_read.specs.State.{Named};
ghost use Rattle.marshal_read.specs.Making.{values_in, pairs_in, fields_in, AddsValues, AddsPairs, AddsFields, key_in, name_in};
ghost use Rattle.marshal_read.specs.Scopes.{part_in};

use crate::error::Stop;
use crate::reader::Reader;
use crate::span::Span;
use crate::steps::Step;
use drb_value::{Value, same};
use marshal_grammar::refusal::Why;
use sqlite_items::Items;
use std::alloc::Global;

impl<'a> Reader<'a> {
    /// `n` values.
    #[cycle(read)]
    pub fn values(&mut self, alloc: Global, nested: bool, room: usize, n: u64) -> Result<(), Stop>
        requires room { room ≤ 128 }
        requires named { Named self.old }
        ensures { AddsAs
            (values (part_in nested room) n)
            (values_in self.old.steps self.new.steps)
            (AddsValues self.old.steps self.new.steps n)
            self.old self.new result }
    {
        for _ in 0..n {
            self.value(alloc, nested, room)?;
        }
        Ok(())
    }

    /// `n` pairs. No key is the same as an earlier one.
    #[cycle(read)]
    pub fn pairs(&mut self, alloc: Global, nested: bool, room: usize, n: u64) -> Result<(), Stop>
        requires room { room ≤ 128 }
        requires named { Named self.old }
        ensures { AddsAs
            (pairs (part_in nested room) [] n)
            (pairs_in self.old.steps self.new.steps)
            (AddsPairs self.old.steps self.new.steps n)
            self.old self.new result }
    {
        let mut keys = Items::new(alloc);
        for _ in 0..n {
            let at = self.at();
            let start = self.count_steps();
            self.value(alloc, nested, room)?;
            let key = self.built_since(alloc, start)?;
            if has_key(&key, keys.as_slice()) {
                return Err(self.refuse(Why::DuplicateKey, at));
            }
            keys.push(key)?;
            self.value(alloc, nested, room)?; // what the key has
            self.push(Step::Pair)?;
        }
        Ok(())
    }

    /// `n` fields or variables, each a name and a value. No name stands twice.
    #[cycle(read)]
    pub fn fields(&mut self, alloc: Global, nested: bool, room: usize, n: u64) -> Result<(), Stop>
        requires room { room ≤ 128 }
        requires named { Named self.old }
        ensures { AddsAs
            (fields (part_in nested room) [] n)
            (fields_in self.old.steps self.new.steps)
            (AddsFields self.old.steps self.new.steps n)
            self.old self.new result }
    {
        let mut names = Items::new(alloc);
        for _ in 0..n {
            let at = self.at();
            let name = self.name(alloc)?;
            if has_name(name, names.as_slice()) {
                return Err(self.refuse(Why::DuplicateKey, at));
            }
            names.push(Span::of(name))?;
            self.value(alloc, nested, room)?;
            self.push(Step::Field(Span::of(name)))?;
        }
        Ok(())
    }
}

/// Whether some key is the same as this one.
fn has_key(key: &Value, keys: &[Value]) -> bool
    ensures { result ≡ key_in key.now keys.now }
{
    for other in keys {
        if same(other, key) {
            return true;
        }
    }
    false
}

/// Whether some name is this one.
fn has_name(name: &[u8], names: &[Span]) -> bool
    ensures { result ≡ name_in name.now names.now }
{
    for other in names {
        if other.as_slice() == name {
            return true;
        }
    }
    false
}
