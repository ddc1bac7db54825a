//! Values as text: what a client's commands read from their words, and what they print.
//!
//! The crate stands on the values of `drb_value`, and on `marshal_read` and `marshal_write` for values that have no
//! text but their dump. It promises that `read_text` answers a value exactly where the word is a text of it, and
//! otherwise the first place at which nothing can go on; that `show` appends exactly the text of a value; and that
//! what is shown of a value that fits is read as that value again. docs/TEXT.md has the forms, with an example of
//! each.
//!
//! Read this file for the two calls. Reading: `texts.rt`, and for what a text is made of `numbers.rt`, `names.rt`,
//! `strings.rt`, `references.rt`, `dumps.rt` and `pieces.rt`. Showing: `showing.rt` and `forms.rt`.
//! `specs/Texts.antt` says what a text is read as, `specs/Shown.antt` what is shown, and `laws.rt` what follows.
#![tactic(auto)]

mod dumps;
mod error;
mod fault;
mod forms;
mod laws;
mod names;
mod numbers;
mod pieces;
mod references;
mod showing;
mod strings;
mod texts;

ghost use Rattle.std.specs.Prelude.{◌≡◌, ◌++◌, ◌<◌, ◌≤◌, OnOk, OnErr, IfOk, IfErr, Ok, Err};
ghost use Rattle.marshal_write.specs.Limits.{max_dump};
ghost use Rattle.drb_text.specs.Shown.{shown, longest};
ghost use Rattle.drb_text.specs.Texts.{reading};
ghost use Rattle.drb_text.specs.Told.{IsToldOf};

use drb_value::Value;
pub use error::TextError;
use fault::Fault;
pub use laws::reads_shown;
pub use marshal_write::WriteError;
use showing::put_value;
use std::alloc::Global;
use texts::read_whole;

/// The value whose text the word is.
///
/// Errors: `Syntax` exactly where the word is the text of no value; `at` is the place of the first byte with which no
/// text can go on, or the word's length where it ends too early. For hexadecimal digits that are not one dump, and
/// for a list deeper than 128, it is the place of the `#` or the `[`. `Memory` at any time.
/// Source: docs/TEXT.md, Forms.
pub fn read_text(alloc: Global, word: &[u8]) -> Result<Value, TextError>
    ensures value { IfOk result (λ v. reading word.now ≡ Ok v) }
    ensures syntax { IfErr result (λ e. IsToldOf (reading word.now) e) }
{
    match read_whole(alloc, word) {
        Ok(value) => Ok(value),
        Err(Fault::Stuck { left }) => Err(TextError::Syntax {
            at: word.len() - left,
        }),
        Err(Fault::Memory) => Err(TextError::Memory),
    }
}

/// Appends the text of the value to `out`.
///
/// `read_text` reads it as that value again, where the value fits (`drb_value::fits`).
/// Errors: `TooLong` exactly where a part that has no text but its dump has one of more than 2^30 - 1 bytes; `Memory`
/// at any time. At an error `out` has the bytes that it had; only its capacity may have grown.
/// Source: docs/TEXT.md, Showing.
pub fn show(v: &Value, out: &mut Vec<u8>) -> Result<(), WriteError>
    ensures shown { OnOk result (out.new.items ≡ out.old.items ++ shown v.now) }
    ensures within { OnOk result (longest v.now ≤ max_dump) }
    ensures too_long { result ≡ Err WriteError.TooLong → max_dump < longest v.now }
    ensures unchanged { OnErr result (out.new.items ≡ out.old.items) }
{
    let start = out.len();
    let outcome = put_value(v, out);
    if outcome.is_err() {
        out.truncate(start);
    }
    outcome
}
