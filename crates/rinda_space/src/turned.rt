//! What a turn of a space comes to.

use rinda_rules::Out;
use thiserror::Error;

/// What an event came to.
#[derive(Drop)]
pub enum Turned {
    /// The turn was made, and this is its answer.
    Done(Out),
    /// The event is nothing after so many turns, and no turn was made.
    Nothing { turns: u64 },
}

/// Why no turn was made, though the event isn't nothing.
#[derive(Clone, Copy, Debug, PartialEq, Eq, Error)]
pub enum TurnError {
    /// The history has as many turns as it may have, which is so many.
    #[error("the history is full: it has {turns} turns")]
    Full { turns: u64 },
    /// There was no memory.
    #[error("out of memory")]
    Memory,
}
