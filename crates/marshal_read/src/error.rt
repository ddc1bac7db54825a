//! Why no value is read.

use marshal_grammar::refusal::Refusal;
use std::alloc::AllocError;
use thiserror::Error;

/// Why no value is read.
#[derive(Clone, Copy, Debug, PartialEq, Eq, Error)]
pub enum ReadError {
    /// The bytes are refused.
    #[error(transparent)]
    Refused(Refusal),
    /// There was no memory.
    #[error("out of memory")]
    Memory,
}

impl From<AllocError> for ReadError {
    ghost use Rattle.std.specs.Prelude.{◌≡◌};
    ghost use Rattle.marshal_read.specs.declared.error.ReadError.TheVariants.{Memory};

    ghost from_gives = { λ _ e. e ≡ Memory };

    fn from(_: AllocError) -> ReadError {
        ReadError::Memory
    }
}

/// Why reading stops. The reader keeps the refusal, so that an answer is small.
#[derive(Clone, Copy)]
pub enum Stop {
    Memory,
    Refused,
}

impl From<AllocError> for Stop {
    ghost use Rattle.std.specs.Prelude.{◌≡◌};
    ghost use Rattle.marshal_read.specs.declared.error.Stop.TheVariants.{Memory};

    ghost from_gives = { λ _ e. e ≡ Memory };

    fn from(_: AllocError) -> Stop {
        Stop::Memory
    }
}
