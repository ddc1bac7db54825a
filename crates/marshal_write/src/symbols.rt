//! The symbols that a dump has written so far.

ghost use Rattle.std.specs.Prelude.{◌≡◌, [], ◌∷◌, ◌++◌, position, bytes_eq, OnOk, OnErr, None};

use indexmap::IndexSet;
use std::alloc::{AllocError, Global};
use std::marker::Model;

/// The symbols that a dump has written so far, the first written first. Contracts see the list of their bytes.
///
/// A symbol's number is found by its hash.
#[derive(Drop)]
pub struct Symbols {
    names: IndexSet<Vec<u8>>,
}

impl Model for Symbols {
    ghost use Rattle.std.specs.Prelude.{ℕ, List, map};

    ghost Value = { List (List ℕ) };

    ghost view = { λ a. map (λ v. v.items) a.names.keys };
}

impl Symbols {
    /// No symbol. Takes no memory.
    pub fn new(alloc: Global) -> Symbols
        ensures { result ≡ [] }
    {
        Symbols {
            names: IndexSet::new(alloc),
        }
    }

    /// The number of the symbol with these bytes, from 0; `None` where it has not been written.
    pub fn number_of(&self, name: &[u8]) -> Option<usize>
        ensures { result ≡ position (λ t. bytes_eq t name.now) self.now }
    {
        self.names.get_index_of(name)
    }

    /// Adds a symbol that has not been written, which gets the next number.
    ///
    /// Errors: only want of memory; the symbols then stay.
    pub fn add(&mut self, alloc: Global, name: &[u8]) -> Result<(), AllocError>
        requires { position (λ t. bytes_eq t name.now) self.old ≡ None }
        ensures ok { OnOk result (self.new ≡ self.old ++ name.now ∷ []) }
        ensures err { OnErr result (self.new ≡ self.old) }
    {
        self.names.insert(Vec::from_slice(alloc, name)?)?;
        Ok(())
    }
}
