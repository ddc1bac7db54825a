//! One answer, whatever pieces the bytes come in.

ghost use Rattle.std.specs.Prelude.{◌≡◌, ◌≢◌, IfOk, Err};
ghost use Rattle.packet_show.specs.Shown.{shown};

use crate::seen::{Kind, Seen, same, see_first};
use drb_outside::MemSource;
use drb_packet::PacketError;
use std::alloc::{AllocError, Global};
use thiserror::Error;

/// How many bytes a read gives at most.
const PIECES: [usize; 4] = [1, 2, 3, 4096];

/// Why nothing is shown.
#[derive(Clone, Copy, Debug, Error)]
pub enum ShowError {
    /// What was read in some pieces is not what was read in others.
    #[error("the pieces differ")]
    Differ,
    /// The source failed.
    #[error("read failed")]
    ReadFault,
    /// There was no memory.
    #[error("out of memory")]
    Memory,
}

impl From<AllocError> for ShowError {
    ghost use Rattle.std.specs.Prelude.{◌≡◌};
    ghost use Rattle.packet_show.specs.declared.pieces.ShowError.TheVariants.{Memory};

    ghost from_gives = { λ _ e. e ≡ Memory };

    fn from(_: AllocError) -> ShowError {
        ShowError::Memory
    }
}

/// A source of the bytes in pieces of that size.
pub fn source_of(alloc: Global, bytes: &[u8], piece: usize) -> Result<MemSource, AllocError>
    ensures { IfOk result (λ source. source.bytes ≡ bytes.now) }
{
    let mut pieces = Vec::new(alloc);
    for _ in bytes {
        pieces.push(piece)?;
    }
    Ok(MemSource::new(bytes.to_vec(alloc)?, pieces, Vec::new(alloc)))
}

/// What stands first in the bytes, where they come in pieces of that size.
fn see_in(alloc: Global, kind: Kind, bytes: &[u8], piece: usize) -> Result<Seen, ShowError>
    ensures first { IfOk result (λ seen. seen ≡ shown kind bytes.now) }
    ensures agree { result ≢ Err ShowError.Differ }
{
    let mut source = source_of(alloc, bytes, piece)?;
    match see_first(alloc, kind, &mut source) {
        Ok(seen) => Ok(seen),
        Err(PacketError::ReadFault) => Err(ShowError::ReadFault),
        Err(PacketError::Memory) => Err(ShowError::Memory),
    }
}

/// What stands first in the bytes, read in pieces of each size in turn.
///
/// Errors: `Differ` never; `ReadFault` only where a source failed; `Memory` at any time.
/// Source: docs/WIRE.md, What stands first.
pub fn see(alloc: Global, kind: Kind, bytes: &[u8]) -> Result<Seen, ShowError>
    ensures first { IfOk result (λ seen. seen ≡ shown kind bytes.now) }
    ensures agree { result ≢ Err ShowError.Differ }
{
    let seen = see_in(alloc, kind, bytes, 1)?;
    for piece in PIECES {
        let other = see_in(alloc, kind, bytes, piece)?;
        if !same(&seen, &other) {
            return Err(ShowError::Differ);
        }
    }
    Ok(seen)
}
