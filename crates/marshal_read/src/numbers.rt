//! Big integers.

ghost use Rattle.std.specs.Prelude.{◌≡◌, ℕ, ◌+◌, ◌*◌, ◌<◌, ◌≤◌, ◌^◌, ◌==◌, [], ◌∷◌, length, MatchOption, true, false};
ghost use Rattle.marshal_grammar.specs.Longs.{little};
ghost use Rattle.marshal_grammar.specs.Values.{big_int, is_i128, signed};
ghost use Rattle.marshal_read.specs.Gives.{Adds};

use crate::error::Stop;
use crate::reader::Reader;
use crate::steps::Step;
use marshal_grammar::refusal::Why;

impl<'a> Reader<'a> {
    /// After `l`: a sign, a long n and 2n bytes.
    pub fn big_int(&mut self, at: usize) -> Result<(), Stop>
        ensures { Adds (big_int at) self.old self.new result }
    {
        let place = self.at();
        let sign = self.byte()?;
        if sign != b'+' && sign != b'-' {
            return Err(self.refuse(Why::BadType(sign), place));
        }
        let n = self.count()?;
        let bytes = self.bytes(2 * n)?;
        let Some(number) = signed(sign, bytes) else {
            return Err(self.refuse(Why::BigInteger, at));
        };
        self.count_nodes(at, 1)?;
        Ok(self.whole(Step::Int(number))?)
    }
}

/// The number of a sign and bytes, the first the least; `None` where it has more than 128 bits.
fn signed(sign: u8, bytes: &[u8]) -> Option<i128>
    ensures { MatchOption result
        (is_i128 (signed sign bytes.now) ≡ false)
        (λ i. (is_i128 (signed sign bytes.now) ≡ true) × (i ≡ signed sign bytes.now)) }
{
    let Some(magnitude) = little(bytes) else {
        return None;
    };
    if magnitude < 170141183460469231731687303715884105728 {
        let number = magnitude as i128;
        return Some(if sign == b'+' { number } else { -number });
    }
    if magnitude == 170141183460469231731687303715884105728 && sign != b'+' {
        return Some(i128::MIN);
    }
    None
}

/// The number of these bytes, the first the least; `None` where it is 2^128 or more.
fn little(bytes: &[u8]) -> Option<u128>
    ensures { MatchOption result (2 ^ 128 ≤ little bytes.now) (λ n. n ≡ little bytes.now) }
{
    if bytes.len() <= 16 {
        return Some(little_of(bytes));
    }
    let (low, high) = bytes.split_at(16);
    if !is_zero(high) {
        return None;
    }
    Some(little_of(low))
}

/// Whether the number of these bytes is 0.
#[tactic(auto, using(crate::proofs::Magnitudes::zero_first, crate::proofs::Magnitudes::nonzero_first))]
fn is_zero(bytes: &[u8]) -> bool
    ensures { result ≡ (little bytes.now == 0) }
{
    for b in bytes {
        if *b != 0 {
            return false;
        }
    }
    true
}

/// The number of at most 16 bytes.
fn little_of(bytes: &[u8]) -> u128
    requires { length bytes.now ≤ 16 }
    ensures value { result ≡ little bytes.now }
    ensures high { result < 256 ^ length bytes.now }
{
    match bytes {
        [] => 0,
        [first, rest @ ..] => *first as u128 + 256 * little_of(rest),
    }
}
