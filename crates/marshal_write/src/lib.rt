//! The one written spelling of values: what a program sends.
//!
//! A dump is written in one pass over a value, onto the end of a list of bytes. The crate stands on the values of
//! `drb_value` and on the definition of the written spelling, `Spelled` of `marshal_grammar`. It promises that what is
//! appended is exactly that spelling, that it is refused exactly where it is longer than a dump may be, and that then
//! nothing is appended. What was appended of a value that fits is read again as that value: `laws.rt`.
//!
//! Read this file for the call, then `writer.rt` for what a writer holds, `values.rt` for the walk over a value,
//! `words.rt` for symbols, texts and remote objects, `numbers.rt` for numbers and lengths, and `symbols.rt` for the
//! table of symbols. `specs/Written.antt` says what each step of a writer leaves.
#![tactic(auto)]

mod error;
mod laws;
mod numbers;
mod symbols;
mod values;
mod words;
mod writer;

ghost use Rattle.std.specs.Prelude.{◌≡◌, ◌++◌, ◌<◌, ◌≤◌, length, OnOk, OnErr, Err};
ghost use Rattle.marshal_grammar.specs.Spelled.{spelled};
ghost use Rattle.marshal_write.specs.Limits.{max_dump};

use drb_value::Value;
pub use error::WriteError;
pub use laws::written_is_read_again;
use std::mem;
use writer::{MAX_DUMP, Writer};

/// Appends the written spelling of the value to `out`.
///
/// Errors: `TooLong` exactly where the spelling has more than 2^30 - 1 bytes; `Memory` at any time. At an error `out` has
/// the bytes that it had; only its capacity may have grown.
/// Source: Ruby's marshal.c, rb_marshal_dump_limited; docs/MARSHAL.md, The written spelling.
pub fn write_dump(v: &Value, out: &mut Vec<u8>) -> Result<(), WriteError>
    ensures written { OnOk result (out.new.items ≡ out.old.items ++ spelled v.now) }
    ensures within { OnOk result (length (spelled v.now) ≤ max_dump) }
    ensures too_long { result ≡ Err WriteError.TooLong → max_dump < length (spelled v.now) }
    ensures unchanged { OnErr result (out.new.items ≡ out.old.items) }
{
    let alloc = *out.allocator();
    let start = out.len();
    let bytes = mem::replace(out, Vec::new(alloc));
    let mut writer = Writer::over(alloc, bytes, start + MAX_DUMP);
    let outcome = writer.put_dump(v);
    *out = writer.into_bytes();
    if outcome.is_err() {
        out.truncate(start);
    }
    outcome
}
