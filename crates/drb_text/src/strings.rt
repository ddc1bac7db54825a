//! Texts in quotes.

ghost use Rattle.std.specs.Prelude.{◌≡◌, ◌≤◌, length, Ok, Err, MatchResult, IfOk};
ghost use Rattle.drb_text.specs.Strings.{outside, behind_backslash, step_at, quoted};
ghost use Rattle.drb_text.specs.declared.strings.Escape.TheVariants as escape;
ghost use Rattle.drb_text.specs.Told.{ReadsAs, Faults};

use crate::fault::Fault;
use crate::pieces::{hex_value, is_hex, is_plain};
use drb_value::{Code, Text};
use std::alloc::Global;

/// Where in an escape bytes stand: outside of one, behind its `\`, behind its `\x`, or behind `\x` and a digit of
/// that worth.
#[derive(Clone, Copy)]
pub(crate) enum Escape {
    Outside,
    Backslash,
    Hex,
    Half(u8),
}

/// What a byte is there: a byte of the text, or the last of an escape that stands for one; one that leads further
/// into an escape; the closing quote; or nothing that can go on.
#[derive(Clone, Copy)]
pub(crate) enum Step {
    Gives(u8),
    Leads(Escape),
    Closes,
    Stuck,
}

/// The text up to its closing quote, and what stands behind it.
pub(crate) fn read_string(alloc: Global, bytes: &[u8]) -> Result<(Text, &[u8]), Fault>
    ensures exact { MatchResult result
        (λ r. ReadsAs (quoted escape.Outside bytes.now) bytes.now r.0.bytes r.1.now)
        (λ f. Faults (quoted escape.Outside bytes.now) bytes.now f) }
    ensures code { IfOk result (λ r. r.0.code ≡ Code.Utf8) }
{
    let (string, rest) = unescaped(alloc, bytes)?;
    let text = Text::of(alloc, string.as_slice(), Code::Utf8)?;
    Ok((text, rest))
}

/// The bytes up to the closing quote, without escapes, and what stands behind it.
fn unescaped(alloc: Global, bytes: &[u8]) -> Result<(Vec<u8>, &[u8]), Fault>
    ensures { MatchResult result
        (λ r. ReadsAs (quoted escape.Outside bytes.now) bytes.now r.0.items r.1.now)
        (λ f. Faults (quoted escape.Outside bytes.now) bytes.now f) }
{
    let mut string = Vec::new(alloc);
    let mut escape = Escape::Outside;
    let mut rest = bytes;
    while let Some((first, more)) = rest.split_first() {
        match step_at(escape, *first) {
            Step::Gives(byte) => {
                if string.push(byte).is_err() {
                    return Err(Fault::Memory);
                }
                escape = Escape::Outside;
            }
            Step::Leads(further) => escape = further,
            Step::Closes => return Ok((string, more)),
            Step::Stuck => return Err(Fault::Stuck { left: rest.len() }),
        }
        rest = more;
    }
    Err(Fault::Stuck { left: 0 })
}

/// What the byte is at that place; a worth above 15 leads nowhere.
fn step_at(escape: Escape, byte: u8) -> Step
    ensures { result ≡ step_at escape byte }
{
    match escape {
        Escape::Outside => outside(byte),
        Escape::Backslash => behind_backslash(byte),
        Escape::Hex => {
            if is_hex(byte) {
                Step::Leads(Escape::Half(hex_value(byte)))
            } else {
                Step::Stuck
            }
        }
        Escape::Half(high) => {
            if is_hex(byte) && high < 16 {
                Step::Gives(high * 16 + hex_value(byte))
            } else {
                Step::Stuck
            }
        }
    }
}

fn outside(byte: u8) -> Step
    ensures { result ≡ outside byte }
{
    if byte == b'"' {
        Step::Closes
    } else if byte == b'\\' {
        Step::Leads(Escape::Backslash)
    } else if is_plain(byte) {
        Step::Gives(byte)
    } else {
        Step::Stuck
    }
}

fn behind_backslash(byte: u8) -> Step
    ensures { result ≡ behind_backslash byte }
{
    if byte == b'"' || byte == b'\\' {
        Step::Gives(byte)
    } else if byte == b'x' {
        Step::Leads(Escape::Hex)
    } else {
        Step::Stuck
    }
}
