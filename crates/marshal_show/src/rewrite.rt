//! A dump read and written again.

ghost use Rattle.std.specs.Prelude.{◌≡◌, ◌≢◌, ℕ, ◌<◌, ◌⊎◌, length, IfOk, Err};
ghost use Rattle.drb_tree.specs.declared.Tree.{Tree};
ghost use Rattle.marshal_grammar.specs.declared.refusal.Refusal.{Refusal};
ghost use Rattle.marshal_grammar.specs.declared.refusal.Why.{Why};
ghost use Rattle.marshal_grammar.specs.Dumps.{Refuses};
ghost use Rattle.marshal_grammar.specs.Spelled.{spelled};
ghost use Rattle.marshal_read.specs.Dumps.{DumpOf};
ghost use Rattle.marshal_write.specs.Limits.{max_dump};
ghost use Rattle.marshal_show.specs.Rewrites.{Rewrites};

use drb_value::Value;
use marshal_grammar::refusal::Refusal;
use marshal_read::{ReadError, read_dump};
use marshal_write::{WriteError, write_dump};
use std::alloc::Global;
use thiserror::Error;

/// Why a dump was not written again.
#[derive(Clone, Copy, Debug, Error)]
pub enum RewriteError {
    /// The bytes begin with no dump.
    #[error("refused {number} at {at}", number = .0.why.number(), at = .0.at)]
    Refused(Refusal),
    /// The written spelling has more than 2^30 - 1 bytes.
    #[error("too long")]
    TooLong,
    /// There was no memory.
    #[error("out of memory")]
    Memory,
}

/// The written spelling of the value that the bytes begin with a dump of.
///
/// Errors: `Refused` exactly where the grammar refuses the bytes, for that reason at that place; `TooLong` where the
/// written spelling has more than 2^30 - 1 bytes; `Memory` at any time.
/// Source: docs/MARSHAL.md, Dumps and The written spelling.
pub fn rewrite(alloc: Global, bytes: &[u8]) -> Result<Vec<u8>, RewriteError>
    ensures written { IfOk result (λ out. Rewrites bytes.now out.items) }
    ensures too_long { result ≡ Err RewriteError.TooLong
        → (v : Tree) × (n : ℕ) × DumpOf bytes.now v n × (max_dump < length (spelled v)) }
    ensures refusal { (f : Refusal)
        → result ≡ Err (RewriteError.Refused f) → Refuses bytes.now f.why f.at }
    ensures every_refusal { (why : Why) (at : ℕ)
        → Refuses bytes.now why at
        → (result ≡ Err (RewriteError.Refused (record { why = why; at = at })))
        ⊎ (result ≡ Err RewriteError.Memory) }
{
    match read_dump(alloc, bytes) {
        Ok((value, _)) => written(alloc, &value),
        Err(ReadError::Refused(refusal)) => Err(RewriteError::Refused(refusal)),
        Err(ReadError::Memory) => Err(RewriteError::Memory),
    }
}

/// The written spelling of a value.
///
/// Errors: `TooLong` only where it has more than 2^30 - 1 bytes; `Memory`.
fn written(alloc: Global, value: &Value) -> Result<Vec<u8>, RewriteError>
    ensures written { IfOk result (λ out. out.items ≡ spelled value.now) }
    ensures too_long { result ≡ Err RewriteError.TooLong → max_dump < length (spelled value.now) }
    ensures never_refused { (f : Refusal) → result ≢ Err (RewriteError.Refused f) }
{
    let mut out = Vec::new(alloc);
    match write_dump(value, &mut out) {
        Ok(()) => Ok(out),
        Err(WriteError::TooLong) => Err(RewriteError::TooLong),
        Err(WriteError::Memory) => Err(RewriteError::Memory),
    }
}
