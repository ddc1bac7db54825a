//! Longs, the numbers that a dump counts with.

ghost use Rattle.std.specs.Prelude.{◌≡◌, ◌+◌, ◌<◌, ◌≤◌, ◌^◌, length, drop, pos, ◌≤ℤ◌, MatchResult, IfOk, Some, None};
ghost use Rattle.marshal_grammar.specs.Longs.{LongAt, NoLong, long_of, more_after, long_value, little};

use crate::refusal::Why;

/// The long at `at`, and the place after it.
///
/// `at` counts bytes from the front. Spellings longer than needed are read.
/// Errors: `Short` exactly where bytes of the long are missing.
/// Source: Ruby's marshal.c, r_long; docs/MARSHAL.md, Longs.
#[inline(always)]
pub fn long_at(bytes: &[u8], at: usize) -> Result<(i64, usize), Why>
    requires { at ≤ length bytes.now }
    ensures exact { MatchResult result
        (λ r. LongAt bytes.now at r.0 r.1)
        (λ why. (why ≡ Why.Short) × NoLong (drop at bytes.now)) }
    ensures reads { MatchResult result
        (λ r. long_of (drop at bytes.now) ≡ Some (r.0, drop r.1 bytes.now))
        (λ why. (why ≡ Why.Short) × (long_of (drop at bytes.now) ≡ None)) }
    ensures within { IfOk result (λ r. (at < r.1) × (r.1 ≤ length bytes.now)) }
{
    let rest = &bytes[at..];
    let Some((first, more)) = rest.split_first() else {
        return Err(Why::Short);
    };
    let c = *first;
    let n = more_after(c);
    if more.len() < n {
        return Err(Why::Short);
    }
    Ok((value_of(c, &more[..n]), at + 1 + n))
}

/// How many bytes follow the byte `c` of a long.
#[inline(always)]
fn more_after(c: u8) -> usize
    ensures { result ≡ more_after c }
{
    if c < 5 {
        c as usize
    } else if c < 252 {
        0
    } else {
        256 - c as usize
    }
}

/// What the byte `c` and the bytes after it stand for.
#[inline(always)]
fn value_of(c: u8, bytes: &[u8]) -> i64
    requires { length bytes.now ≡ more_after c }
    ensures { result ≡ long_value c bytes.now }
{
    let low = little(bytes) as i64;
    match c {
        0..=4 => low,
        5..=127 => c as i64 - 5,
        128..=251 => c as i64 - 251,
        _ => low - power(bytes.len()),
    }
}

/// 256 to the power `n`.
#[inline(always)]
fn power(n: usize) -> i64
    requires { n ≤ 4 }
    ensures value { result ≡ pos (256 ^ n) }
    ensures low { pos 0 ≤ℤ result }
    ensures high { result ≤ℤ pos (2 ^ 32) }
{
    match n {
        0 => 1,
        1 => 256,
        2 => 65536,
        3 => 16777216,
        _ => 4294967296,
    }
}

/// The number of up to four bytes, the first the least.
#[inline(always)]
fn little(bytes: &[u8]) -> u64
    requires { length bytes.now ≤ 4 }
    ensures value { result ≡ little bytes.now }
    ensures high { result ≤ 2 ^ 32 }
{
    match bytes {
        [] => 0,
        [a] => *a as u64,
        [a, b] => *a as u64 + 256 * *b as u64,
        [a, b, c] => *a as u64 + 256 * (*b as u64 + 256 * *c as u64),
        [a, b, c, d] => *a as u64 + 256 * (*b as u64 + 256 * (*c as u64 + 256 * *d as u64)),
        _ => unreachable!(),
    }
}
