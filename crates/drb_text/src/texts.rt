//! Texts of every form.

ghost use Rattle.std.specs.Prelude.{◌≡◌, ◌≤◌, ◌<◌, ◌+◌, ◌++◌, ◌∷◌, ℕ, ℤ, List, [], length, codes, true, false, Ok, Err, MatchResult, IfOk, OnOk};
ghost use Rattle.drb_tree.specs.Kept.{max_depth, has_name};
ghost use Rattle.drb_tree.specs.Trees.{nil_tree, bool_tree, sym_tree, class_tree, list_tree, remote_tree};
ghost use Rattle.drb_text.specs.declared.strings.Escape.TheVariants as escape;
ghost use Rattle.drb_text.specs.Names.{symbol_name, class_name};
ghost use Rattle.drb_text.specs.Reading.{read_as};
ghost use Rattle.drb_text.specs.References.{reference};
ghost use Rattle.drb_text.specs.Strings.{quoted};
ghost use Rattle.drb_text.specs.Texts.{word, range_tree, range_end, number, string_tree, plain, item_list, list_with, text, whole};
ghost use Rattle.drb_text.specs.Told.{ReadsAs, Faults, WholeFault};

use crate::dumps::read_hex;
use crate::fault::Fault;
use crate::names::{ascii_name, read_class, read_symbol};
use crate::numbers::read_int;
use crate::pieces::{begins, behind_spaces, expect};
use crate::references::read_reference;
use crate::strings::read_string;
use drb_value::{FieldList, Items, Value};
use std::alloc::{AllocError, Global};

/// The deepest that lists may be.
const MAX_DEPTH: usize = 128;

/// The value whose text the word is.
pub(crate) fn read_whole(alloc: Global, word: &[u8]) -> Result<Value, Fault>
    ensures { MatchResult result
        (λ v. whole (text max_depth word.now) ≡ Ok v)
        (λ f. WholeFault (whole (text max_depth word.now)) word.now f) }
{
    let (value, rest) = read_at(alloc, MAX_DEPTH, word)?;
    if rest.is_empty() {
        return Ok(value);
    }
    Err(Fault::Stuck { left: rest.len() })
}

/// A value with lists down to that depth, and what stands behind it.
#[cycle(texts)]
#[tactic(auto, using(crate::proofs::Lists::text_plain, crate::proofs::Lists::text_deep))]
fn read_at(alloc: Global, room: usize, bytes: &[u8]) -> Result<(Value, &[u8]), Fault>
    ensures { MatchResult result
        (λ r. ReadsAs (text room bytes.now) bytes.now r.0 r.1.now)
        (λ f. Faults (text room bytes.now) bytes.now f) }
{
    if !begins(b'[', bytes) {
        return read_plain(alloc, bytes);
    }
    if room == 0 {
        return Err(Fault::Stuck { left: bytes.len() });
    }
    read_list(alloc, room - 1, &bytes[1..])
}

/// A list behind its `[`, with lists in it down to that depth, and what stands behind it.
#[cycle(texts)]
fn read_list(alloc: Global, room: usize, bytes: &[u8]) -> Result<(Value, &[u8]), Fault>
    ensures { MatchResult result
        (λ r. ReadsAs (read_as list_tree (list_with (text room) bytes.now)) bytes.now r.0 r.1.now)
        (λ f. Faults (read_as list_tree (list_with (text room) bytes.now)) bytes.now f) }
{
    let mut items = Items::new(alloc);
    if begins(b']', bytes) {
        return Ok((Value::list(items), &bytes[1..]));
    }
    let rest = read_items(alloc, room, bytes, &mut items)?;
    Ok((Value::list(items), rest))
}

/// Takes up items until the `]`; answers what stands behind that.
#[cycle(texts)]
#[tactic(auto, using(crate::proofs::Items::so_far_none, crate::proofs::Items::so_far_more, crate::proofs::Items::so_far_done, crate::proofs::Items::so_far_stuck, crate::proofs::Items::so_far_no_item))]
fn read_items<'a>(
    alloc: Global,
    room: usize,
    bytes: &'a [u8],
    items: &mut Items<Value>,
) -> Result<&'a [u8], Fault>
    requires { items.old ≡ [] }
    ensures { MatchResult result
        (λ rest. ReadsAs (item_list (text room) (length bytes.now + 1) bytes.now) bytes.now
        items.new rest.now)
        (λ f. Faults (item_list (text room) (length bytes.now + 1) bytes.now) bytes.now f) }
{
    let mut rest = bytes;
    loop {
        let (value, behind) = read_at(alloc, room, behind_spaces(rest))?;
        items.push(value)?;
        let behind = behind_spaces(behind);
        match behind.split_first() {
            Some((b',', more)) => rest = more,
            Some((b']', more)) => return Ok(more),
            _ => return Err(Fault::Stuck { left: behind.len() }),
        }
    }
}

/// A value of every form but a list, and what stands behind it.
#[tactic(auto, unfolding(crate::specs::Texts::plain))]
fn read_plain(alloc: Global, bytes: &[u8]) -> Result<(Value, &[u8]), Fault>
    ensures { MatchResult result
        (λ r. ReadsAs (plain bytes.now) bytes.now r.0 r.1.now)
        (λ f. Faults (plain bytes.now) bytes.now f) }
{
    let Some((first, rest)) = bytes.split_first() else {
        return Err(Fault::Stuck { left: 0 });
    };
    match *first {
        b'n' => read_nil(bytes),
        b't' => read_boolean(b"true", true, bytes),
        b'f' => read_boolean(b"false", false, bytes),
        b'-' | b'0'..=b'9' => read_number(alloc, bytes),
        b':' => read_sym(alloc, rest),
        b'"' => read_quoted(alloc, rest),
        b'A'..=b'Z' => read_class_value(alloc, bytes),
        b'<' => read_remote(alloc, rest),
        b'#' => read_hex(alloc, bytes),
        _ => Err(Fault::Stuck { left: bytes.len() }),
    }
}

fn read_nil(bytes: &[u8]) -> Result<(Value, &[u8]), Fault>
    ensures { MatchResult result
        (λ r. ReadsAs (word (codes "nil") nil_tree bytes.now) bytes.now r.0 r.1.now)
        (λ f. Faults (word (codes "nil") nil_tree bytes.now) bytes.now f) }
{
    let rest = expect(b"nil", bytes)?;
    Ok((Value::nil(), rest))
}

fn read_boolean<'a>(name: &[u8], truth: bool, bytes: &'a [u8]) -> Result<(Value, &'a [u8]), Fault>
    ensures { MatchResult result
        (λ r. ReadsAs (word name.now (bool_tree truth) bytes.now) bytes.now r.0 r.1.now)
        (λ f. Faults (word name.now (bool_tree truth) bytes.now) bytes.now f) }
{
    let rest = expect(name, bytes)?;
    Ok((Value::boolean(truth), rest))
}

/// An integer or a range.
fn read_number(alloc: Global, bytes: &[u8]) -> Result<(Value, &[u8]), Fault>
    ensures { MatchResult result
        (λ r. ReadsAs (number bytes.now) bytes.now r.0 r.1.now)
        (λ f. Faults (number bytes.now) bytes.now f) }
{
    let (low, rest) = read_int(bytes)?;
    if !begins(b'.', rest) {
        return Ok((Value::int(low), rest));
    }
    let rest = expect(b"..", rest)?;
    read_range_end(alloc, low, rest)
}

/// A range from `low` on, behind its two points.
fn read_range_end(alloc: Global, low: i128, bytes: &[u8]) -> Result<(Value, &[u8]), Fault>
    ensures { MatchResult result
        (λ r. ReadsAs (range_end low bytes.now) bytes.now r.0 r.1.now)
        (λ f. Faults (range_end low bytes.now) bytes.now f) }
{
    let excl = begins(b'.', bytes);
    let (high, rest) = read_int(if excl { &bytes[1..] } else { bytes })?;
    let range = range(alloc, excl, low, high)?;
    Ok((range, rest))
}

/// The range from `low` to `high`, without its end where `excl` says so.
fn range(alloc: Global, excl: bool, low: i128, high: i128) -> Result<Value, AllocError>
    ensures { IfOk result (λ v. v ≡ range_tree excl low high) }
{
    let class = ascii_name(alloc, b"Range")?;
    let mut fields = FieldList::new(alloc);
    add(alloc, &mut fields, b"excl", Value::boolean(excl))?;
    add(alloc, &mut fields, b"begin", Value::int(low))?;
    add(alloc, &mut fields, b"end", Value::int(high))?;
    Value::object(alloc, class, fields)
}

/// Adds a field of that name, which is new.
fn add(alloc: Global, fields: &mut FieldList, name: &[u8], value: Value) -> Result<(), AllocError>
    requires { has_name name.now fields.old ≡ false }
    ensures { OnOk result (fields.new ≡ fields.old ++ (name.now, value) ∷ []) }
{
    let name = ascii_name(alloc, name)?;
    fields.push_new(name, value)
}

/// A symbol behind its `:`.
fn read_sym(alloc: Global, bytes: &[u8]) -> Result<(Value, &[u8]), Fault>
    ensures { MatchResult result
        (λ r. ReadsAs (read_as sym_tree (symbol_name bytes.now)) bytes.now r.0 r.1.now)
        (λ f. Faults (read_as sym_tree (symbol_name bytes.now)) bytes.now f) }
{
    let (name, rest) = read_symbol(bytes)?;
    let name = ascii_name(alloc, name)?;
    Ok((Value::sym(name), rest))
}

/// A text behind its first quote.
fn read_quoted(alloc: Global, bytes: &[u8]) -> Result<(Value, &[u8]), Fault>
    ensures { MatchResult result
        (λ r. ReadsAs (read_as string_tree (quoted escape.Outside bytes.now)) bytes.now
        r.0 r.1.now)
        (λ f. Faults (read_as string_tree (quoted escape.Outside bytes.now)) bytes.now f) }
{
    let (text, rest) = read_string(alloc, bytes)?;
    Ok((Value::text(text), rest))
}

fn read_class_value(alloc: Global, bytes: &[u8]) -> Result<(Value, &[u8]), Fault>
    ensures { MatchResult result
        (λ r. ReadsAs (read_as class_tree (class_name bytes.now)) bytes.now r.0 r.1.now)
        (λ f. Faults (read_as class_tree (class_name bytes.now)) bytes.now f) }
{
    let (name, rest) = read_class(bytes)?;
    let name = ascii_name(alloc, name)?;
    Ok((Value::class(name), rest))
}

/// A reference behind its `<`.
fn read_remote(alloc: Global, bytes: &[u8]) -> Result<(Value, &[u8]), Fault>
    ensures { MatchResult result
        (λ r. ReadsAs (read_as remote_tree (reference bytes.now)) bytes.now r.0 r.1.now)
        (λ f. Faults (read_as remote_tree (reference bytes.now)) bytes.now f) }
{
    let (remote, rest) = read_reference(alloc, bytes)?;
    let value = Value::remote(alloc, remote)?;
    Ok((value, rest))
}
