ghost use Rattle.std.specs.Prelude.{◌≡◌, ◌≤◌, IfOk, IsOk, length};

use smallvec::SmallVec;
use std::alloc::{AllocError, Global};
use std::marker::Model;

/// Bytes that are not changed once they are made. Up to 16 of them lie in the value itself and take no other memory.
///
/// Contracts see the list of the bytes.
#[derive(Debug, Drop)]
pub struct Bytes {
    bytes: SmallVec<u8, 16>,
}

impl Model for Bytes {
    ghost use Rattle.std.specs.Prelude.{ℕ, List};

    ghost Value = { List ℕ };

    ghost view = { λ b. b.bytes.items };
}

impl Bytes {
    /// A copy of these bytes.
    ///
    /// Errors: only want of memory, and never where there are at most 16 bytes.
    pub fn of(alloc: Global, bytes: &[u8]) -> Result<Bytes, AllocError>
        ensures bytes { IfOk result (λ b. b ≡ bytes.now) }
        ensures short { length bytes.now ≤ 16 → IsOk result }
    {
        let bytes = SmallVec::from_slice(alloc, bytes)?;
        Ok(Bytes { bytes })
    }

    /// The bytes, in their order.
    pub fn as_slice(&self) -> &[u8]
        ensures { result.now ≡ self.now }
    {
        self.bytes.as_slice()
    }

    /// How many bytes there are.
    pub fn len(&self) -> usize
        ensures { result ≡ length self.now }
    {
        self.bytes.len()
    }
}
