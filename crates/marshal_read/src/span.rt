//! Bytes of the input.

ghost use Rattle.std.specs.Prelude.{◌≡◌};

use std::marker::Model;

/// Bytes of the input, which stay where they are. Contracts see the bytes.
#[derive(Drop)]
pub struct Span<'a> {
    bytes: &'a [u8],
}

impl<'a> Model for Span<'a> {
    ghost use Rattle.std.specs.Prelude.{ℕ, List};

    ghost Value = { List ℕ };

    ghost view = { λ a. a.bytes.now };
}

impl<'a> Span<'a> {
    /// These bytes.
    pub fn of(bytes: &'a [u8]) -> Span<'a>
        ensures { result ≡ bytes.now }
    {
        Span { bytes }
    }

    /// The bytes.
    pub fn as_slice(&self) -> &'a [u8]
        ensures { result.now ≡ self.now }
    {
        self.bytes
    }

    /// The same bytes.
    pub fn copy(&self) -> Span<'a>
        ensures { result ≡ self.now }
    {
        Span { bytes: self.bytes }
    }
}
