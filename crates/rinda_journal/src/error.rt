//! Why a turn has no text, and why bytes are no turn.

use std::alloc::AllocError;
use thiserror::Error;

/// Why the text of a turn was not written.
#[derive(Clone, Copy, Debug, PartialEq, Eq, Error)]
pub enum TurnTextError {
    /// The turn has no text: its head or one of its values does not fit into a dump, or its answer is no event.
    #[error("the turn does not fit into the text of a history")]
    DoesNotFit,
    /// There was no memory.
    #[error("out of memory")]
    Memory,
}

impl From<AllocError> for TurnTextError {
    ghost use Rattle.std.specs.Prelude.{◌≡◌};
    ghost use Rattle.rinda_journal.specs.declared.error.TurnTextError.TheVariants.{Memory};

    ghost from_gives = { λ _ e. e ≡ Memory };

    fn from(_: AllocError) -> TurnTextError {
        TurnTextError::Memory
    }
}

/// Why no turn was read.
#[derive(Clone, Copy, Debug, PartialEq, Eq, Error)]
pub enum ReadTurnError {
    /// The text of no turn begins there.
    #[error("not a turn")]
    NotATurn,
    /// There was no memory.
    #[error("out of memory")]
    Memory,
}

impl From<AllocError> for ReadTurnError {
    ghost use Rattle.std.specs.Prelude.{◌≡◌};
    ghost use Rattle.rinda_journal.specs.declared.error.ReadTurnError.TheVariants.{Memory};

    ghost from_gives = { λ _ e. e ≡ Memory };

    fn from(_: AllocError) -> ReadTurnError {
        ReadTurnError::Memory
    }
}

/// Why a history was not written whole.
#[derive(Clone, Copy, Debug, PartialEq, Eq, Error)]
pub enum HistoryError {
    /// The turn of that number, from 1, has no text.
    #[error("turn {turn} does not fit into the text of a history")]
    DoesNotFit { turn: u64 },
    /// The sink failed, and counted it.
    #[error("the history could not be written")]
    WriteFault,
    /// There was no memory.
    #[error("out of memory")]
    Memory,
}
