//! For whom a rule is.

ghost use Rattle.std.specs.Prelude.{◌≡◌, ◌+◌, ◌*◌, ◌≤◌, true, length, option_copied, Some};
ghost use Rattle.std.specs.List.{list_all};
ghost use Rattle.drb_acl.specs.Patterns.{address_of, is_digit, is_number, net_of, number_of, parts, pattern_of, value_after, within};

use crate::cut::cut;

/// Everybody, or those whose address has the first bits of that one.
#[derive(Clone, Copy, Debug, PartialEq, Eq)]
pub(crate) struct Pattern {
    pub(crate) all: bool,
    pub(crate) net: u32,
    pub(crate) bits: u8,
}

/// The pattern that the text writes.
pub(crate) fn pattern_of(text: &[u8]) -> Option<Pattern>
    ensures { result ≡ pattern_of text.now }
{
    if text == b"all".as_slice() || text == b"*".as_slice() {
        return Some(Pattern {
            all: true,
            net: 0,
            bits: 0,
        });
    }
    net_of(text)
}

/// An address, perhaps with a number of bits behind it.
fn net_of(text: &[u8]) -> Option<Pattern>
    ensures { result ≡ net_of (parts 47 text.now) }
{
    let (address, rest) = cut(text, b'/');
    let Some(bits) = rest else {
        return within(address_of(address), Some(32));
    };
    let (bits, rest) = cut(bits, b'/');
    match rest {
        Some(_) => None,
        None => within(address_of(address), bits_of(bits)),
    }
}

fn within(net: Option<u32>, bits: Option<u8>) -> Option<Pattern>
    ensures { result ≡ within net bits }
{
    Some(Pattern {
        all: false,
        net: net?,
        bits: bits?,
    })
}

/// A number of bits, at most 32.
fn bits_of(text: &[u8]) -> Option<u8>
    ensures { result ≡ number_of 32 text.now }
{
    number_of(text, 32)
}

/// Four numbers with dots between them, as one.
fn address_of(text: &[u8]) -> Option<u32>
    ensures { result ≡ address_of text.now }
{
    let (a, rest) = cut(text, b'.');
    let (b, rest) = cut(rest?, b'.');
    let (c, rest) = cut(rest?, b'.');
    let (d, rest) = cut(rest?, b'.');
    if rest.is_some() {
        return None;
    }
    Some(joined(octet(a)?, octet(b)?, octet(c)?, octet(d)?))
}

fn octet(text: &[u8]) -> Option<u8>
    ensures { result ≡ number_of 255 text.now }
{
    number_of(text, 255)
}

fn joined(a: u8, b: u8, c: u8, d: u8) -> u32
    ensures { result ≡ ((a * 256 + b) * 256 + c) * 256 + d }
{
    ((a as u32 * 256 + b as u32) * 256 + c as u32) * 256 + d as u32
}

/// The number that the text writes, where it is at most that.
fn number_of(text: &[u8], most: u8) -> Option<u8>
    ensures { result ≡ number_of most text.now }
{
    if !is_number(text) {
        return None;
    }
    let value = value_of(text);
    if value <= most as u32 {
        Some(value as u8)
    } else {
        None
    }
}

fn is_number(text: &[u8]) -> bool
    ensures { result ≡ is_number text.now }
{
    if text.is_empty() || text.len() > 3 {
        return false;
    }
    if !text.iter().all(|b| is_digit(*b)) {
        return false;
    }
    text.len() == 1 || text[0] != b'0'
}

fn is_digit(byte: u8) -> bool
    ensures { result ≡ is_digit byte }
{
    byte.is_ascii_digit()
}

/// The number that these digits write, three at most.
fn value_of(digits: &[u8]) -> u32
    requires digits { list_all is_digit digits.now ≡ true }
    requires few { length digits.now ≤ 3 }
    ensures { result ≡ value_after 0 digits.now }
{
    let mut value: u32 = 0;
    for digit in digits {
        value = value * 10 + (*digit - b'0') as u32;
    }
    value
}
