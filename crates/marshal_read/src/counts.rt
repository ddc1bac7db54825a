//! Counts and lengths.

ghost use Rattle.std.specs.Prelude.{◌≡◌, ◌+◌, ◌/◌, ◌<◌, ◌≤◌, ◌^◌, IfOk};
ghost use Rattle.drb_tree.specs.Sizes.{heavy};
ghost use Rattle.marshal_grammar.specs.Counts.{count, string, pair_count};
ghost use Rattle.marshal_read.specs.Gives.{Gives, GivesBytes};

use crate::error::Stop;
use crate::reader::Reader;
use marshal_grammar::refusal::Why;

impl<'a> Reader<'a> {
    /// A count or length.
    #[inline(always)]
    pub fn count(&mut self) -> Result<u64, Stop>
        ensures gives { Gives count self.old self.new result }
        ensures small { IfOk result (λ n. n < 2 ^ 63) }
    {
        let at = self.at();
        let n = self.long()?;
        if n < 0 {
            return Err(self.refuse(Why::Length, at));
        }
        Ok(n as u64)
    }

    /// A length and so many bytes.
    #[inline(always)]
    pub fn string(&mut self) -> Result<&'a [u8], Stop>
        ensures { GivesBytes string self.old self.new result }
    {
        let n = self.count()?;
        self.bytes(n)
    }

    /// A count of pairs, fields or variables.
    #[inline(always)]
    pub fn pair_count(&mut self) -> Result<u64, Stop>
        ensures { Gives pair_count self.old self.new result }
    {
        let at = self.at();
        let n = self.count()?;
        if n > 4096 {
            return Err(self.refuse(Why::TooManyPairs, at));
        }
        Ok(n)
    }
}

/// What something with these bytes counts.
#[inline(always)]
pub fn heavy(bytes: &[u8]) -> u64
    ensures { result ≡ heavy bytes.now }
{
    1 + bytes.len() as u64 / 256
}
