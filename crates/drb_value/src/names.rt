ghost use Rattle.std.specs.Prelude.{◌≡◌, ◌↔◌, IfOk, IsTrue, IsUtf8, Err};
ghost use Rattle.drb_tree.specs.Kept.{remote_class};

use crate::{Bytes, Name};
use std::alloc::{AllocError, Global};
use thiserror::Error;

/// Why no name was made.
#[derive(Clone, Copy, Debug, PartialEq, Eq, Error)]
pub enum NameError {
    /// The bytes are not valid UTF-8.
    #[error("the name is not UTF-8")]
    NotUtf8,
    /// There was no memory.
    #[error("out of memory")]
    Memory,
}

impl From<AllocError> for NameError {
    ghost use Rattle.std.specs.Prelude.{◌≡◌};
    ghost use Rattle.drb_value.specs.declared.names.NameError.TheVariants.{Memory};

    ghost from_gives = { λ _ e. e ≡ Memory };

    fn from(_: AllocError) -> NameError {
        NameError::Memory
    }
}

impl Name {
    /// A name of a copy of these bytes.
    ///
    /// Errors: `NotUtf8` exactly where the bytes are not UTF-8; `Memory`.
    /// Source: docs/MARSHAL.md, Values.
    pub fn of(alloc: Global, bytes: &[u8]) -> Result<Name, NameError>
        ensures value { IfOk result (λ name. name ≡ bytes.now) }
        ensures not_utf8 { (result ≡ Err NameError.NotUtf8) ↔ (IsUtf8 bytes.now → ⊥) }
    {
        if std::str::from_utf8(bytes).is_err() {
            return Err(NameError::NotUtf8);
        }
        let bytes = Bytes::of(alloc, bytes)?;
        Ok(Name { bytes })
    }

    /// The bytes, which are UTF-8.
    pub fn as_slice(&self) -> &[u8]
        ensures bytes { result.now ≡ self.now }
        ensures utf8 { IsUtf8 self.now }
    {
        self.bytes.as_slice()
    }

    /// An equal name.
    ///
    /// Errors: only want of memory.
    pub fn copy(&self, alloc: Global) -> Result<Name, AllocError>
        ensures { IfOk result (λ name. name ≡ self.now) }
    {
        let bytes = Bytes::of(alloc, self.bytes.as_slice())?;
        Ok(Name { bytes })
    }

    /// Whether this is `DRb::DRbObject`, the class whose dumps are `Remote` values.
    ///
    /// Source: Ruby's drb.rb, DRbObject._load; docs/MARSHAL.md, Values.
    pub fn is_remote_class(&self) -> bool
        ensures { IsTrue result ↔ (self.now ≡ remote_class) }
    {
        self.bytes.as_slice() == b"DRb::DRbObject".as_slice()
    }
}
