//! Why a word is not read.

use thiserror::Error;

/// Why a word was not read as a value.
///
/// Source: docs/TEXT.md, Refusals.
#[derive(Clone, Copy, Debug, PartialEq, Eq, Error)]
pub enum TextError {
    /// The word is the text of no value. `at` counts the bytes before the place.
    #[error("no text of a value can go on at byte {at}")]
    Syntax { at: usize },
    /// There was no memory.
    #[error("out of memory")]
    Memory,
}
