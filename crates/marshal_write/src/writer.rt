//! What is there of a dump, and the step that all others are made of.

ghost use Rattle.std.specs.Prelude.{◌≡◌, [], ◌∷◌, ◌++◌};
ghost use Rattle.marshal_grammar.specs.Spelled.{these, new_symbol};
ghost use Rattle.marshal_write.specs.Written.{Writes};

use crate::WriteError;
use crate::symbols::Symbols;
use std::alloc::Global;

/// The most bytes of a dump.
pub const MAX_DUMP: usize = 1073741823;

/// What is there of a dump: its bytes, behind what was there before; its symbols; and the most bytes that may be there.
#[derive(Drop)]
pub struct Writer {
    pub bytes: Vec<u8>,
    pub symbols: Symbols,
    pub limit: usize,
    pub alloc: Global,
}

impl Writer {
    /// A writer behind these bytes that has written no symbol. At most `limit` bytes may be there.
    pub fn over(alloc: Global, bytes: Vec<u8>, limit: usize) -> Writer
        ensures { (result.bytes ≡ bytes) × (result.symbols ≡ []) × (result.limit ≡ limit) }
    {
        Writer {
            bytes,
            symbols: Symbols::new(alloc),
            limit,
            alloc,
        }
    }

    /// What is there.
    pub fn into_bytes(self) -> Vec<u8>
        ensures { result ≡ self.bytes }
    {
        let Writer {
            bytes,
            symbols,
            limit: _,
            alloc: _,
        } = self;
        drop(symbols);
        bytes
    }

    /// Writes these bytes.
    ///
    /// Errors: `TooLong` where more than `limit` would be there; `Memory`. No byte is written then.
    pub fn put(&mut self, bytes: &[u8]) -> Result<(), WriteError>
        ensures { Writes (these bytes.now) self.old self.new result }
    {
        if self.limit.saturating_sub(self.bytes.len()) < bytes.len() {
            return Err(WriteError::TooLong);
        }
        self.bytes.extend_from_slice(bytes)?;
        Ok(())
    }
}
