//! Symbols, names and encoding variables.

ghost use Rattle.std.specs.Prelude.{◌≡◌, ℕ, ◌+◌, ◌<◌, [], ◌∷◌, ◌++◌, reverse};
ghost use Rattle.std.specs.Option.{option_copied};
ghost use Rattle.std.proofs.Common.{inr};
ghost use Rattle.drb_tree.specs.Same.{all_ascii};
ghost use Rattle.marshal_grammar.specs.Symbols.{plain_symbol, linked_symbol, is_name, encoding_count, encoding_value, ended, marked_round, symbol_by, symbol, name, encoding, marked_symbol};
ghost use Rattle.marshal_grammar.specs.Kinds.{kind_of};
ghost use Rattle.marshal_read.specs.Gives.{Gives, GivesBytes, GivesAs};
ghost use Rattle.marshal_read.specs.Rounds.{outcome, one_round};

use crate::counts::heavy;
use crate::error::Stop;
use crate::reader::Reader;
use crate::span::Span;
use drb_tree::Code;
use marshal_grammar::kind::{Kind, kind_of};
use marshal_grammar::refusal::Why;
use sqlite_items::Items;
use std::alloc::Global;

/// Whether every byte is below 128.
pub fn all_ascii(bytes: &[u8]) -> bool
    ensures { result ≡ all_ascii bytes.now }
{
    for b in bytes {
        if *b >= 128 {
            return false;
        }
    }
    true
}

/// Whether these bytes may be a symbol under `I` of this encoding.
fn is_name(bytes: &[u8], code: Code) -> bool
    ensures { result ≡ is_name bytes.now code }
{
    if all_ascii(bytes) {
        return true;
    }
    match code {
        Code::Utf8 => std::str::from_utf8(bytes).is_ok(),
        _ => false,
    }
}

impl<'a> Reader<'a> {
    /// After `:`: a length and bytes, which are ASCII.
    pub fn plain_symbol(&mut self, at: usize) -> Result<&'a [u8], Stop>
        ensures { GivesBytes (plain_symbol at) self.old self.new result }
    {
        let s = self.string()?;
        self.add_symbol(s)?;
        if !all_ascii(s) {
            return Err(self.refuse(Why::Name, at));
        }
        Ok(s)
    }

    /// After `;`: the number of a symbol.
    #[inline(always)]
    pub fn linked_symbol(&mut self, at: usize) -> Result<&'a [u8], Stop>
        ensures { GivesBytes (linked_symbol at) self.old self.new result }
    {
        let n = self.long()?;
        match self.symbol_at(n) {
            None => Err(self.refuse(Why::SymbolLink, at)),
            Some(s) => Ok(s),
        }
    }

    /// How many encoding variables follow: none or one.
    #[inline(always)]
    fn encoding_count(&mut self, at: usize) -> Result<u64, Stop>
        ensures { Gives (encoding_count at) self.old self.new result }
    {
        let n = self.count()?;
        if n > 1 {
            return Err(self.refuse(Why::Encoding, at));
        }
        Ok(n)
    }

    /// After the name of an encoding variable, which is `E`: its value.
    #[inline(always)]
    fn encoding_value(&mut self, at: usize, name: &[u8]) -> Result<Code, Stop>
        ensures { Gives (encoding_value at name.now) self.old self.new result }
    {
        if name != b"E".as_slice() {
            return Err(self.refuse(Why::Encoding, at));
        }
        match self.byte()? {
            b'T' => Ok(Code::Utf8),
            b'F' => Ok(Code::Ascii),
            _ => Err(self.refuse(Why::Encoding, at)),
        }
    }

    /// A symbol is read: it is the `E` of the last that waits, which then is read too.
    #[inline(always)]
    fn ended(
        &mut self,
        waiting: &mut Items<(usize, Span<'a>)>,
        symbol: &'a [u8],
    ) -> Result<&'a [u8], Stop>
        ensures { GivesAs
            (ended (reverse waiting.old) symbol.now) (λ s. inr s.now)
            self.old self.new result }
    {
        let mut symbol = symbol;
        while let Some((at, waited)) = waiting.pop() {
            let code = self.encoding_value(at, symbol)?;
            symbol = waited.as_slice();
            if !is_name(symbol, code) {
                return Err(self.refuse(Why::Name, at));
            }
        }
        Ok(symbol)
    }

    /// After `I`, where a symbol must stand. `None`: it waits for its encoding.
    fn marked_round(
        &mut self,
        at: usize,
        waiting: &mut Items<(usize, Span<'a>)>,
    ) -> Result<Option<&'a [u8]>, Stop>
        ensures { GivesAs
            (marked_round at (reverse waiting.old))
            (λ s. outcome (option_copied s) (reverse waiting.new))
            self.old self.new result }
    {
        let place = self.at();
        let mark = self.byte()?;
        if mark != b':' {
            return Err(self.refuse(Why::BadType(mark), place));
        }
        let s = self.string()?;
        self.add_symbol(s)?;
        let n = self.encoding_count(at)?;
        if n == 0 {
            if !is_name(s, Code::Binary) {
                return Err(self.refuse(Why::Name, at));
            }
            return Ok(Some(self.ended(waiting, s)?));
        }
        waiting.push((at, Span::of(s)))?;
        Ok(None)
    }

    /// What the first byte of a symbol says.
    #[inline(always)]
    fn symbol_by(
        &mut self,
        at: usize,
        first: u8,
        waiting: &mut Items<(usize, Span<'a>)>,
    ) -> Result<Option<&'a [u8]>, Stop>
        ensures { GivesAs
            (symbol_by at (reverse waiting.old) first (kind_of first))
            (λ s. outcome (option_copied s) (reverse waiting.new))
            self.old self.new result }
    {
        match kind_of(first) {
            Some(Kind::Symbol) => {
                let s = self.plain_symbol(at)?;
                Ok(Some(self.ended(waiting, s)?))
            }
            Some(Kind::SymbolLink) => {
                let s = self.linked_symbol(at)?;
                Ok(Some(self.ended(waiting, s)?))
            }
            Some(Kind::Marked) => self.marked_round(at, waiting),
            _ => Err(self.refuse(Why::BadType(first), at)),
        }
    }

    /// One round of a symbol: its first byte and what that says.
    #[inline(always)]
    fn symbol_round(
        &mut self,
        waiting: &mut Items<(usize, Span<'a>)>,
    ) -> Result<Option<&'a [u8]>, Stop>
        ensures { GivesAs
            (one_round (reverse waiting.old))
            (λ s. outcome (option_copied s) (reverse waiting.new))
            self.old self.new result }
    {
        let at = self.at();
        let first = self.byte()?;
        self.symbol_by(at, first, waiting)
    }

    /// A symbol: `:`, `;` or `I:`.
    pub fn symbol(&mut self, alloc: Global) -> Result<&'a [u8], Stop>
        ensures { GivesBytes symbol self.old self.new result }
    {
        let mut waiting = Items::new(alloc);
        for _ in 0..self.left() + 1 {
            if let Some(s) = self.symbol_round(&mut waiting)? {
                return Ok(s);
            }
        }
        Err(self.short())
    }

    /// A class symbol, or the name of a field or variable: it counts by its bytes at its place.
    pub fn name(&mut self, alloc: Global) -> Result<&'a [u8], Stop>
        ensures { GivesBytes name self.old self.new result }
    {
        let at = self.at();
        let s = self.symbol(alloc)?;
        self.count_nodes(at, heavy(s))?;
        Ok(s)
    }

    /// Encoding variables: none, binary; one, the symbol `E` and `T` or `F`.
    #[inline(always)]
    pub fn encoding(&mut self, alloc: Global, at: usize) -> Result<Code, Stop>
        ensures { Gives (encoding at) self.old self.new result }
    {
        if self.encoding_count(at)? == 0 {
            return Ok(Code::Binary);
        }
        let name = self.symbol(alloc)?;
        self.encoding_value(at, name)
    }

    /// After `I:` of a value: a length and bytes, and encoding variables.
    pub fn marked_symbol(&mut self, alloc: Global, at: usize) -> Result<&'a [u8], Stop>
        ensures { GivesBytes (marked_symbol at) self.old self.new result }
    {
        let s = self.string()?;
        self.add_symbol(s)?;
        let code = self.encoding(alloc, at)?;
        if !is_name(s, code) {
            return Err(self.refuse(Why::Name, at));
        }
        Ok(s)
    }
}
