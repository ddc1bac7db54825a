//! Uris, of which a call takes its address.

ghost use Rattle.std.specs.Prelude.{◌≡◌, ◌==◌, ◌+◌, ◌^◌, ◌<◌, ℕ, List, ◌↔◌, min, length, slice_index, IsTrue, IfOk, IfSome, MatchResult, Some, Err};
ghost use Rattle.std.specs.Char.{is_ascii_digit};
ghost use Rattle.std.specs.List.{AllPass, position_or_len, before_first};
ghost use Rattle.std.specs.Str.Parse.{AllDigits, digits_value};
ghost use Rattle.drb_ref.specs.Uris.{IsUri, LacksScheme, LacksHost, LacksPort, IsHost, IsName, IsNumber, IsBracketed, IsPort, NamesPort, host_len, host_of, tail_of, ends_name, is_name_byte, is_number_byte};

use drb_outside::Address;
use std::str;
use thiserror::Error;

/// The first fault of a text that is no uri.
#[derive(Clone, Copy, Debug, PartialEq, Eq, Error)]
pub enum UriError {
    /// It does not begin with `druby://`.
    #[error("the uri does not begin with druby://")]
    Scheme,
    /// What stands for the host is no name and no number in brackets.
    #[error("the uri has no host")]
    Host,
    /// What follows the host is not `:` and a port, with nothing or a `?` behind it.
    #[error("the uri has no port")]
    Port,
}

/// The host and the port of `druby://host:port`. A `?` behind them and what follows it are ignored.
///
/// The host is a part of `text`; no memory is taken.
/// Errors: exactly the first that holds of `Scheme`, `Host` and `Port`.
/// Source: Ruby's drb.rb, DRbTCPSocket.parse_uri; docs/WIRE.md, References and uris.
pub fn parse_uri(text: &[u8]) -> Result<Address<'_>, UriError>
    ensures address { IfOk result (λ a. IsUri text.now a.host.now a.port) }
    ensures every_uri { (host : List ℕ) (port : ℕ) → IsUri text.now host port
        → MatchResult result (λ a. (a.host.now ≡ host) × (a.port ≡ port)) (λ _. ⊥) }
    ensures scheme { (result ≡ Err UriError.Scheme) ↔ LacksScheme text.now }
    ensures host { (result ≡ Err UriError.Host) ↔ LacksHost text.now }
    ensures port { (result ≡ Err UriError.Port) ↔ LacksPort text.now }
{
    let Some(after) = text.strip_prefix(b"druby://") else {
        return Err(UriError::Scheme);
    };
    let (host, tail) = cut(after);
    if !is_host(host) {
        return Err(UriError::Host);
    }
    match port_of(tail) {
        Some(port) => Ok(Address { host, port }),
        None => Err(UriError::Port),
    }
}

/// What stands for the host, and what follows it.
fn cut(after: &[u8]) -> (&[u8], &[u8])
    ensures host { result.0.now ≡ host_of after.now }
    ensures tail { result.1.now ≡ tail_of after.now }
{
    after.split_at(host_len(after))
}

fn host_len(after: &[u8]) -> usize
    ensures { result ≡ min (host_len after.now) (length after.now) }
{
    if opens_bracket(after) {
        bracketed_len(after)
    } else {
        named_len(after)
    }
}

fn opens_bracket(after: &[u8]) -> bool
    ensures { result ≡ (slice_index after.now 0 == 91) }
{
    match after.first() {
        Some(byte) => *byte == b'[',
        None => false,
    }
}

fn bracketed_len(after: &[u8]) -> usize
    ensures { result ≡ min (position_or_len (λ b. b == 93) after.now + 1) (length after.now) }
{
    match after.iter().position(|b| *b == b']') {
        Some(last) => last + 1,
        None => after.len(),
    }
}

fn named_len(after: &[u8]) -> usize
    ensures { result ≡ position_or_len ends_name after.now }
{
    match after.iter().position(|b| ends_name(*b)) {
        Some(end) => end,
        None => after.len(),
    }
}

fn ends_name(byte: u8) -> bool
    ensures { result ≡ ends_name byte }
{
    byte == b':' || byte == b'?'
}

fn is_host(host: &[u8]) -> bool
    ensures { IsTrue result ↔ IsHost host.now }
{
    is_name(host) || is_bracketed(host)
}

fn is_name(host: &[u8]) -> bool
    ensures { IsTrue result ↔ IsName host.now }
{
    !host.is_empty() && host.iter().all(|b| is_name_byte(*b))
}

fn is_name_byte(byte: u8) -> bool
    ensures { result ≡ is_name_byte byte }
{
    byte.is_ascii_alphanumeric() || byte == b'.' || byte == b'-' || byte == b'_'
}

fn is_bracketed(host: &[u8]) -> bool
    ensures { IsTrue result ↔ IsBracketed host.now }
{
    let Some(after) = host.strip_prefix(b"[") else {
        return false;
    };
    match after.strip_suffix(b"]") {
        Some(number) => is_number(number),
        None => false,
    }
}

fn is_number(number: &[u8]) -> bool
    ensures { IsTrue result ↔ IsNumber number.now }
{
    !number.is_empty() && number.iter().all(|b| is_number_byte(*b))
}

fn is_number_byte(byte: u8) -> bool
    ensures { result ≡ is_number_byte byte }
{
    byte.is_ascii_hexdigit() || byte == b':' || byte == b'.'
}

/// The port that stands behind a host.
fn port_of(tail: &[u8]) -> Option<u16>
    ensures named { IfSome result (λ port. NamesPort tail.now port) }
    ensures every { (port : ℕ) → NamesPort tail.now port → result ≡ Some port }
{
    match tail.strip_prefix(b":") {
        Some(rest) => number_of(before_query(rest)),
        None => None,
    }
}

/// What stands before the first `?`.
fn before_query(rest: &[u8]) -> &[u8]
    ensures { result.now ≡ before_first (λ b. b == 63) rest.now }
{
    match rest.iter().position(|b| *b == b'?') {
        Some(end) => &rest[..end],
        None => rest,
    }
}

/// The number of a port, in 1 to 5 digits.
fn number_of(digits: &[u8]) -> Option<u16>
    ensures number { IfSome result (λ port. IsPort digits.now port) }
    ensures every { (port : ℕ) → IsPort digits.now port → result ≡ Some port }
{
    if digits.len() > 5 {
        return None;
    }
    if !are_digits(digits) {
        return None;
    }
    above_zero(value_of(digits))
}

fn are_digits(digits: &[u8]) -> bool
    ensures { IsTrue result ↔ AllPass is_ascii_digit digits.now }
{
    digits.iter().all(|b| b.is_ascii_digit())
}

/// The number that these digits write, where there are some and it has 16 bits.
fn value_of(digits: &[u8]) -> Option<u16>
    requires { AllDigits 10 digits.now }
    ensures value { IfSome result (λ number. (0 < length digits.now)
        × (number ≡ digits_value 10 digits.now) × (number < 2 ^ 16)) }
    ensures every { 0 < length digits.now → digits_value 10 digits.now < 2 ^ 16
        → result ≡ Some (digits_value 10 digits.now) }
{
    let Ok(text) = str::from_utf8(digits) else {
        return None;
    };
    match text.parse::<u16>() {
        Ok(number) => Some(number),
        Err(_) => None,
    }
}

fn above_zero(number: Option<u16>) -> Option<u16>
    ensures above { IfSome result (λ n. (number ≡ Some n) × (0 < n)) }
    ensures every { (n : ℕ) → number ≡ Some n → 0 < n → result ≡ Some n }
{
    match number {
        Some(0) => None,
        other => other,
    }
}
