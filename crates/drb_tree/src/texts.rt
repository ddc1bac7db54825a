ghost use Rattle.std.specs.Prelude.{◌≡◌, IfOk};
ghost use Rattle.drb_tree.specs.Same.{all_ascii, same_code, same_text};

use crate::{Bytes, Code, Text};
use std::alloc::{AllocError, Global};

impl Text {
    /// A text of a copy of these bytes. Any bytes may have any encoding, as in Ruby.
    ///
    /// Errors: only want of memory.
    /// Source: docs/MARSHAL.md, Values.
    pub fn of(alloc: Global, bytes: &[u8], code: Code) -> Result<Text, AllocError>
        ensures { IfOk result (λ text. text ≡ record { bytes = bytes.now; code = code }) }
    {
        let bytes = Bytes::of(alloc, bytes)?;
        Ok(Text { bytes, code })
    }

    /// An equal text.
    ///
    /// Errors: only want of memory.
    pub fn copy(&self, alloc: Global) -> Result<Text, AllocError>
        ensures { IfOk result (λ text. text ≡ self.now) }
    {
        Text::of(alloc, self.bytes.as_slice(), self.code)
    }

    /// Whether the two texts are the same: equal bytes, in equal encodings or all of them ASCII.
    ///
    /// Source: Ruby's String#eql?; docs/MARSHAL.md, Equality.
    pub fn same(&self, other: &Text) -> bool
        ensures { result ≡ same_text self.now other.now }
    {
        let bytes = self.bytes.as_slice();
        bytes == other.bytes.as_slice() && (same_code(self.code, other.code) || all_ascii(bytes))
    }
}

fn same_code(a: Code, b: Code) -> bool
    ensures { result ≡ same_code a b }
{
    match (a, b) {
        (Code::Binary, Code::Binary) => true,
        (Code::Ascii, Code::Ascii) => true,
        (Code::Utf8, Code::Utf8) => true,
        _ => false,
    }
}

/// Whether every byte is below 128: the test for what a caller must know to be ASCII, as an exception's class or the name
/// of a method.
///
/// Source: docs/MARSHAL.md, Symbols.
pub fn all_ascii(bytes: &[u8]) -> bool
    ensures { result ≡ all_ascii bytes.now }
{
    for byte in bytes {
        if *byte >= 128 {
            return false;
        }
    }
    true
}
