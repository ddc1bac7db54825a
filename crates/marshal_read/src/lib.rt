//! The reader of dumps: bytes in, a value or the one refusal that holds of them out.
//!
//! It stands on `marshal_grammar`, which says what a dump is, and on `drb_value`. It promises that `read_dump` answers a
//! value exactly where the bytes begin with a dump of it, and a refusal exactly where the grammar refuses them; only
//! want of memory is free. It returns on all bytes. A count in the bytes takes no memory in advance.
//!
//! What has been read lies flat, as the steps that make it, in the order in which its parts ended; an object is the range
//! of its steps, and a link to it takes them once more. A text or a name stays in the bytes of the input. The value is
//! built once, at the end. Read `span.rt`, `steps.rt` and `reader.rt` for what a reader holds, `tables.rt` for how that
//! changes, then `counts.rt`, `symbols.rt`, `values.rt`, `numbers.rt` and `links.rt` for what has no parts, `parts.rt`,
//! `references.rt` and `containers.rt` for what has, and `build.rt` for the end.
#![tactic(auto)]

mod build;
mod containers;
mod counts;
mod error;
mod links;
mod numbers;
mod parts;
mod reader;
mod references;
mod span;
mod steps;
mod symbols;
mod tables;
mod values;

ghost use Rattle.std.specs.Prelude.{◌≡◌, ℕ, ◌+◌, ◌-◌, ◌<◌, ◌^◌, ◌⊎◌, IfOk, Ok, Err};
ghost use Rattle.drb_tree.specs.declared.Tree.{Tree};
ghost use Rattle.marshal_grammar.specs.declared.refusal.Why.{Why};
ghost use Rattle.marshal_grammar.specs.declared.refusal.Refusal.{Refusal};
ghost use Rattle.marshal_grammar.specs.Dumps.{Refuses};
ghost use Rattle.marshal_read.specs.Dumps.{DumpOf};

use drb_value::Value;
pub use error::ReadError;
use reader::Reader;
use std::alloc::Global;

/// The value that the bytes begin with a dump of, and the length of that dump.
///
/// What follows the dump is ignored.
/// Errors: `Refused` exactly where the grammar refuses the bytes, for that reason at that place; `Memory` at any time.
/// Source: Ruby's marshal.c, rb_marshal_load_with_proc; docs/MARSHAL.md, Dumps.
pub fn read_dump(alloc: Global, bytes: &[u8]) -> Result<(Value, usize), ReadError>
    ensures dump { IfOk result (λ r. DumpOf bytes.now r.0 r.1) }
    ensures refusal { (f : Refusal) → result ≡ Err (ReadError.Refused f) →
        Refuses bytes.now f.why f.at }
    ensures every_dump { (n : ℕ) (v : Tree) → DumpOf bytes.now v n →
        (result ≡ Ok (v, n)) ⊎ (result ≡ Err ReadError.Memory) }
    ensures every_refusal { (why : Why) (at : ℕ) → Refuses bytes.now why at →
        (result ≡ Err (ReadError.Refused (record { why = why; at = at })))
        ⊎ (result ≡ Err ReadError.Memory) }
{
    let mut reader = Reader::new(alloc, bytes)?;
    reader.dump(alloc)?;
    let value = reader.built_since(alloc, 0)?;
    Ok((value, bytes.len() - reader.left()))
}
