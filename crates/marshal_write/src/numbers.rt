//! Numbers, lengths and integers.

ghost use Rattle.std.specs.Prelude.{◌≡◌, ℕ, ◌+◌, ◌*◌, ◌<◌, ◌≤◌, ◌^◌, ◌∷◌, ◌++◌, pos, negsuc, take};
ghost use Rattle.marshal_grammar.specs.Spelled.{these, bytes_of, fewest, long_from, long_below, string_bytes_of, units, big_bytes, int_bytes};
ghost use Rattle.marshal_write.specs.Written.{Writes};

use crate::WriteError;
use crate::writer::Writer;

impl Writer {
    /// Writes a length and so many bytes.
    pub fn put_string(&mut self, bytes: &[u8]) -> Result<(), WriteError>
        ensures { Writes (these (string_bytes_of bytes.now)) self.old self.new result }
    {
        self.put_count(bytes.len())?;
        self.put(bytes)
    }

    /// Writes a count or a length, as the shortest long.
    pub fn put_count(&mut self, n: usize) -> Result<(), WriteError>
        ensures { Writes (these (long_from n)) self.old self.new result }
    {
        if n == 0 {
            return self.put(&[0]);
        }
        if n < 123 {
            return self.put(&[n as u8 + 5]);
        }
        let k = fewest(n as u128);
        self.put(&[k as u8])?;
        self.put_bytes_of(k, n as u128)
    }

    /// Writes the shortest long of -(`m` + 1).
    fn put_below(&mut self, m: u64) -> Result<(), WriteError>
        requires { m < 2 ^ 30 }
        ensures { Writes (these (long_below m)) self.old self.new result }
    {
        if m < 123 {
            return self.put(&[250 - m as u8]);
        }
        let k = fewest(m as u128);
        self.put(&[(256 - k) as u8])?;
        self.put_bytes_of(k, (1u128 << (8 * k)) - 1 - m as u128)
    }

    /// Writes `k` bytes of a number, the least first.
    fn put_bytes_of(&mut self, k: usize, n: u128) -> Result<(), WriteError>
        requires { k ≤ 16 }
        ensures { Writes (these (bytes_of k n)) self.old self.new result }
    {
        let bytes = n.to_le_bytes();
        self.put(&bytes[..k])
    }

    /// Writes an integer: as `i` where it lies from -2^30 to 2^30 - 1, as `l` otherwise.
    pub fn put_int(&mut self, n: i128) -> Result<(), WriteError>
        ensures { Writes (these (int_bytes n)) self.old self.new result }
    {
        if n < 0 {
            self.put_negative(n.unsigned_abs() - 1)
        } else {
            self.put_positive(n.unsigned_abs())
        }
    }

    /// Writes the integer `n`.
    fn put_positive(&mut self, n: u128) -> Result<(), WriteError>
        ensures { Writes (these (int_bytes (pos n))) self.old self.new result }
    {
        if n < 1 << 30 {
            self.put(b"i")?;
            self.put_count(n as usize)
        } else {
            self.put_big(b'+', n)
        }
    }

    /// Writes the integer -(`m` + 1).
    fn put_negative(&mut self, m: u128) -> Result<(), WriteError>
        requires { m < 2 ^ 127 }
        ensures { Writes (these (int_bytes (negsuc m))) self.old self.new result }
    {
        if m < 1 << 30 {
            self.put(b"i")?;
            self.put_below(m as u64)
        } else {
            self.put_big(b'-', m + 1)
        }
    }

    /// Writes `l`, the sign, and a magnitude in the fewest 16-bit units.
    fn put_big(&mut self, sign: u8, m: u128) -> Result<(), WriteError>
        ensures { Writes (these (big_bytes sign m)) self.old self.new result }
    {
        let n = units(m);
        self.put(&[b'l', sign])?;
        self.put_count(n)?;
        self.put_bytes_of(2 * n, m)
    }
}

/// The fewest bytes, 1 to 4, that hold a number below 2^32.
fn fewest(n: u128) -> usize
    ensures value { result ≡ fewest n }
    ensures small { result ≤ 4 }
{
    if n < 1 << 8 {
        1
    } else if n < 1 << 16 {
        2
    } else if n < 1 << 24 {
        3
    } else {
        4
    }
}

/// The fewest 16-bit units that hold a number.
fn units(m: u128) -> usize
    ensures value { result ≡ units 8 m }
    ensures few { result ≤ 8 }
{
    if m < 1 {
        0
    } else if m < 1 << 16 {
        1
    } else if m < 1 << 32 {
        2
    } else if m < 1 << 48 {
        3
    } else if m < 1 << 64 {
        4
    } else if m < 1 << 80 {
        5
    } else if m < 1 << 96 {
        6
    } else if m < 1 << 112 {
        7
    } else {
        8
    }
}
