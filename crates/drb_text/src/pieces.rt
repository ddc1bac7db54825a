//! The pieces that texts are made of: words, spaces, and runs of bytes.

ghost use Rattle.std.specs.Prelude.{◌≡◌, ◌≤◌, true, length, Ok, Err, MatchResult, IfOk};
ghost use Rattle.std.specs.List.{prefix_len};
ghost use Rattle.std.specs.Char.{is_ascii_uppercase};
ghost use Rattle.drb_text.specs.Bytes.{is_word, is_mark, is_plain, is_uri, is_hex, hex_value, is_space};
ghost use Rattle.drb_text.specs.Reading.{expect, begins, behind_spaces};
ghost use Rattle.drb_text.specs.Told.{ReadsAs, StuckAt};

use crate::fault::Stuck;

/// What stands behind these bytes.
#[tactic(auto, using(crate::proofs::Words::expect_stuck, crate::proofs::Words::expect_on))]
pub(crate) fn expect<'a>(word: &[u8], bytes: &'a [u8]) -> Result<&'a [u8], Stuck>
    ensures { MatchResult result
        (λ rest. ReadsAs (expect word.now bytes.now) bytes.now tt rest.now)
        (λ e. StuckAt (expect word.now bytes.now) bytes.now e.left) }
{
    let mut rest = bytes;
    for byte in word {
        if !begins(*byte, rest) {
            return Err(Stuck { left: rest.len() });
        }
        rest = &rest[1..];
    }
    Ok(rest)
}

/// Whether that byte comes first.
pub(crate) fn begins(byte: u8, bytes: &[u8]) -> bool
    ensures { result ≡ begins byte bytes.now }
{
    match bytes.first() {
        Some(first) => *first == byte,
        None => false,
    }
}

/// What stands behind the spaces.
pub(crate) fn behind_spaces(bytes: &[u8]) -> &[u8]
    ensures behind { result.now ≡ behind_spaces bytes.now }
    ensures within { length result.now ≤ length bytes.now }
{
    &bytes[space_len(bytes)..]
}

/// How many spaces there are.
fn space_len(bytes: &[u8]) -> usize
    ensures exact { result ≡ prefix_len is_space bytes.now }
    ensures within { result ≤ length bytes.now }
{
    match bytes.iter().position(|b| !is_space(*b)) {
        Some(end) => end,
        None => bytes.len(),
    }
}

fn is_space(byte: u8) -> bool
    ensures { result ≡ is_space byte }
{
    byte == b' '
}

pub(crate) fn is_word(byte: u8) -> bool
    ensures { result ≡ is_word byte }
{
    byte.is_ascii_alphanumeric() || byte == b'_'
}

pub(crate) fn is_mark(byte: u8) -> bool
    ensures { result ≡ is_mark byte }
{
    byte == b'?' || byte == b'!'
}

pub(crate) fn is_plain(byte: u8) -> bool
    ensures { result ≡ is_plain byte }
{
    (32..=126).contains(&byte) && !(byte == b'"' || byte == b'\\')
}

pub(crate) fn is_uri(byte: u8) -> bool
    ensures { result ≡ is_uri byte }
{
    (33..=126).contains(&byte) && !(byte == b'>')
}

pub(crate) fn is_hex(byte: u8) -> bool
    ensures { result ≡ is_hex byte }
{
    byte.is_ascii_digit() || (97..=102).contains(&byte)
}

pub(crate) fn hex_value(byte: u8) -> u8
    requires { is_hex byte ≡ true }
    ensures value { result ≡ hex_value byte }
    ensures small { result ≤ 15 }
{
    if byte.is_ascii_digit() {
        byte - b'0'
    } else {
        byte - 87
    }
}
