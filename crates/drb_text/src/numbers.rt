//! Integers.

ghost use Rattle.std.specs.Prelude.{◌≡◌, ◌≤◌, ◌<◌, ◌+◌, ◌-◌, ◌*◌, ◌^◌, ℕ, length, Ok, Err, MatchResult, pos, negsuc};
ghost use Rattle.drb_text.specs.Numbers.{goes_on, digits_from, is_first, greatest, least_below, unsigned, below_zero, int};
ghost use Rattle.drb_text.specs.Told.{ReadsAs, StuckAt};

use crate::fault::Stuck;

/// The greatest integer.
const GREATEST: u128 = 170141183460469231731687303715884105727;

/// How far below zero the least integer is.
const LEAST_BELOW: u128 = 170141183460469231731687303715884105728;

/// An integer, and what stands behind it.
#[tactic(auto, unfolding(crate::specs::Numbers::int))]
pub(crate) fn read_int(bytes: &[u8]) -> Result<(i128, &[u8]), Stuck>
    ensures { MatchResult result
        (λ r. ReadsAs (int bytes.now) bytes.now r.0 r.1.now)
        (λ e. StuckAt (int bytes.now) bytes.now e.left) }
{
    match bytes.split_first() {
        Some((b'-', rest)) => read_below_zero(rest),
        Some(_) => read_unsigned(bytes),
        None => Err(Stuck { left: 0 }),
    }
}

fn read_unsigned(bytes: &[u8]) -> Result<(i128, &[u8]), Stuck>
    ensures { MatchResult result
        (λ r. ReadsAs (unsigned bytes.now) bytes.now r.0 r.1.now)
        (λ e. StuckAt (unsigned bytes.now) bytes.now e.left) }
{
    let Some((first, rest)) = bytes.split_first() else {
        return Err(Stuck { left: 0 });
    };
    if *first == b'0' {
        return Ok((0, rest));
    }
    if !is_first(*first) {
        return Err(Stuck { left: bytes.len() });
    }
    let (number, rest) = digits_from(GREATEST, (*first - b'0') as u128, rest);
    Ok((number as i128, rest))
}

fn read_below_zero(bytes: &[u8]) -> Result<(i128, &[u8]), Stuck>
    ensures { MatchResult result
        (λ r. ReadsAs (below_zero bytes.now) bytes.now r.0 r.1.now)
        (λ e. StuckAt (below_zero bytes.now) bytes.now e.left) }
{
    let Some((first, rest)) = bytes.split_first() else {
        return Err(Stuck { left: 0 });
    };
    if !is_first(*first) {
        return Err(Stuck { left: bytes.len() });
    }
    let (number, rest) = digits_from(LEAST_BELOW, (*first - b'0') as u128, rest);
    Ok((below(number), rest))
}

/// That far below zero.
fn below(number: u128) -> i128
    requires { (0 < number) × (number ≤ 2 ^ 127) }
    ensures { result ≡ negsuc (number - 1) }
{
    -1 - (number - 1) as i128
}

fn is_first(byte: u8) -> bool
    ensures { result ≡ is_first byte }
{
    (b'1'..=b'9').contains(&byte)
}

/// The number whose first digits are those of `number`, as long as it is at most `most`, and what stands behind it.
fn digits_from(most: u128, number: u128, bytes: &[u8]) -> (u128, &[u8])
    requires { (9 ≤ most) × (most ≤ 2 ^ 127) × (number ≤ most) }
    ensures exact { digits_from most number bytes.now ≡ (result.0, result.1.now) }
    ensures least { number ≤ result.0 }
    ensures most { result.0 ≤ most }
    ensures within { length result.1.now ≤ length bytes.now }
{
    let mut number = number;
    let mut rest = bytes;
    while let Some((first, more)) = rest.split_first() {
        if !goes_on(most, number, *first) {
            return (number, rest);
        }
        number = number * 10 + (*first - b'0') as u128;
        rest = more;
    }
    (number, rest)
}

/// Whether the byte is a further digit of a number, which stays at most that.
fn goes_on(most: u128, number: u128, byte: u8) -> bool
    requires { 9 ≤ most }
    ensures { result ≡ goes_on most number byte }
{
    byte.is_ascii_digit() && number <= (most - (byte - b'0') as u128) / 10
}
