//! Why a dump is refused, and where.

ghost use Rattle.std.specs.Prelude.{◌≡◌};
ghost use Rattle.marshal_grammar.specs.Refusals.{number_of};

use thiserror::Error;

/// Why bytes are not read.
///
/// Where each stands, and which of two comes first: docs/MARSHAL.md, Refusals.
#[derive(Clone, Copy, Debug, PartialEq, Eq)]
pub enum Why {
    /// A byte is missing.
    Short,
    /// The bytes do not begin with `04` and a byte `00` to `08`.
    Version,
    /// This byte cannot stand where a type byte, a mark or a sign must.
    BadType(u8),
    /// The encoding variables of a text or symbol are not one `E` of `T` or `F`.
    Encoding,
    /// The number has more than 128 bits.
    BigInteger,
    /// A count or a length is negative.
    Length,
    /// No symbol has that number.
    SymbolLink,
    /// No object has that number.
    ObjectLink,
    /// The object of that number is not finished.
    Cyclic,
    /// A key is the same as an earlier one, or a name stands twice.
    DuplicateKey,
    /// More than 4,096 pairs, fields or variables.
    TooManyPairs,
    /// Deeper than 128.
    TooDeep,
    /// More than 262,144 nodes.
    TooManyNodes,
    /// The bytes of a `DRb::DRbObject` are no dump of a uri and an id.
    BadReference,
    /// A symbol or the name of a class or module has bytes that it must not have.
    Name,
}

impl Why {
    /// The number of the reason, from 1: its row in the table of docs/MARSHAL.md, Refusals, where SymbolLink and
    /// ObjectLink are two.
    pub fn number(&self) -> u8
        ensures { result ≡ number_of self.now }
    {
        match self {
            Why::Short => 1,
            Why::Version => 2,
            Why::BadType(_) => 3,
            Why::Encoding => 4,
            Why::BigInteger => 5,
            Why::Length => 6,
            Why::SymbolLink => 7,
            Why::ObjectLink => 8,
            Why::Cyclic => 9,
            Why::DuplicateKey => 10,
            Why::TooManyPairs => 11,
            Why::TooDeep => 12,
            Why::TooManyNodes => 13,
            Why::BadReference => 14,
            Why::Name => 15,
        }
    }
}

/// A refusal: its reason, and its place, the number of bytes before it. It prints as its number and its place.
#[derive(Clone, Copy, Debug, PartialEq, Eq, Error)]
#[error("marshal refusal {number} at {at}", number = .why.number())]
pub struct Refusal {
    pub why: Why,
    pub at: usize,
}
