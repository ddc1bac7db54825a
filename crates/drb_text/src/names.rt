//! The names of symbols and classes.

ghost use Rattle.std.specs.Prelude.{◌≡◌, ◌≤◌, ◌+◌, length, drop, Ok, Err, IfOk, MatchResult};
ghost use Rattle.std.specs.List.{prefix_len};
ghost use Rattle.drb_text.specs.Bytes.{is_word};
ghost use Rattle.drb_text.specs.Names.{mark_len, symbol_name, on_if, behind_letter, going_at, class_len, class_name};
ghost use Rattle.drb_text.specs.declared.names.Place.TheVariants as place;
ghost use Rattle.drb_text.specs.Told.{ReadsAs, StuckAt};

use crate::fault::Stuck;
use crate::pieces::{is_mark, is_word};
use drb_value::Name;
use std::alloc::{AllocError, Global};

/// Where in the name of a class bytes stand: at the first byte of a word, which is a capital; behind it in the word;
/// or behind a first `:`.
#[derive(Clone, Copy)]
pub(crate) enum Place {
    Head,
    Word,
    Colon,
}

/// What a byte is there: one of the name, which leads to that place; one that is not of the name, which ends before
/// it; or one with which nothing can go on.
#[derive(Clone, Copy)]
pub(crate) enum Going {
    On(Place),
    Ended,
    Stuck,
}

/// A symbol's name, and what stands behind it.
pub(crate) fn read_symbol(bytes: &[u8]) -> Result<(&[u8], &[u8]), Stuck>
    ensures { MatchResult result
        (λ r. ReadsAs (symbol_name bytes.now) bytes.now r.0.now r.1.now)
        (λ e. StuckAt (symbol_name bytes.now) bytes.now e.left) }
{
    let n = word_len(bytes);
    if n == 0 {
        return Err(Stuck { left: bytes.len() });
    }
    Ok(bytes.split_at(n + mark_len(&bytes[n..])))
}

/// How many letters, digits and `_` there are.
fn word_len(bytes: &[u8]) -> usize
    ensures exact { result ≡ prefix_len is_word bytes.now }
    ensures within { result ≤ length bytes.now }
{
    match bytes.iter().position(|b| !is_word(*b)) {
        Some(end) => end,
        None => bytes.len(),
    }
}

/// 1 where `?` or `!` comes first.
fn mark_len(bytes: &[u8]) -> usize
    ensures exact { result ≡ mark_len bytes.now }
    ensures within { result ≤ length bytes.now }
{
    match bytes.first() {
        Some(first) if is_mark(*first) => 1,
        _ => 0,
    }
}

/// A class's name, and what stands behind it.
#[tactic(auto, using(crate::proofs::Symbols::class_none))]
pub(crate) fn read_class(bytes: &[u8]) -> Result<(&[u8], &[u8]), Stuck>
    ensures { MatchResult result
        (λ r. ReadsAs (class_name bytes.now) bytes.now r.0.now r.1.now)
        (λ e. StuckAt (class_name bytes.now) bytes.now e.left) }
{
    let n = class_len(bytes)?;
    Ok(bytes.split_at(n))
}

/// How many of the bytes belong to a class's name.
fn class_len(bytes: &[u8]) -> Result<usize, Stuck>
    ensures { MatchResult result
        (λ n. (class_len place.Head bytes.now ≡ Ok n) × (n ≤ length bytes.now))
        (λ e. (class_len place.Head bytes.now ≡ Err e.left) × (e.left ≤ length bytes.now)) }
{
    let mut place = Place::Head;
    let mut len = 0;
    for byte in bytes {
        match going_at(place, *byte) {
            Going::On(further) => place = further,
            Going::Ended => return Ok(len),
            Going::Stuck => {
                return Err(Stuck {
                    left: bytes.len() - len,
                });
            }
        }
        len += 1;
    }
    match place {
        Place::Word => Ok(len),
        _ => Err(Stuck { left: 0 }),
    }
}

/// What the byte is at that place in a class's name.
fn going_at(place: Place, byte: u8) -> Going
    ensures { result ≡ going_at place byte }
{
    match place {
        Place::Head => on_if(byte.is_ascii_uppercase(), Place::Word),
        Place::Word => behind_letter(byte),
        Place::Colon => on_if(byte == b':', Place::Head),
    }
}

fn on_if(fits: bool, place: Place) -> Going
    ensures { result ≡ on_if fits place }
{
    if fits { Going::On(place) } else { Going::Stuck }
}

fn behind_letter(byte: u8) -> Going
    ensures { result ≡ behind_letter byte }
{
    if is_word(byte) {
        Going::On(Place::Word)
    } else if byte == b':' {
        Going::On(Place::Colon)
    } else {
        Going::Ended
    }
}

/// The name of these bytes, which are ASCII.
pub(crate) fn ascii_name(alloc: Global, bytes: &[u8]) -> Result<Name, AllocError>
    ensures { IfOk result (λ name. name ≡ bytes.now) }
{
    // ASCII is UTF-8, so that only memory can be wanting.
    match Name::of(alloc, bytes) {
        Ok(name) => Ok(name),
        Err(_) => Err(AllocError),
    }
}
