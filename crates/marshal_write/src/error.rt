//! Why a dump is not written.

use std::alloc::{AllocError, AllocFailed};
use thiserror::Error;

/// Why a dump was not written.
#[derive(Clone, Copy, Debug, PartialEq, Eq, Error)]
pub enum WriteError {
    /// The spelling has more than 2^30 - 1 bytes.
    #[error("dump too long")]
    TooLong,
    /// There was no memory.
    #[error("out of memory")]
    Memory,
}

impl From<AllocError> for WriteError {
    ghost use Rattle.std.specs.Prelude.{◌≡◌};
    ghost use Rattle.marshal_write.specs.declared.error.WriteError.TheVariants.{Memory};

    ghost from_gives = { λ _ e. e ≡ Memory };

    fn from(_: AllocError) -> WriteError {
        WriteError::Memory
    }
}
