//! The reader: the bytes that are left, and what was seen.

ghost use Rattle.std.specs.Prelude.{◌≡◌, ℕ, ◌+◌, ◌<◌, ◌^◌, [], ◌∷◌, ◌++◌, length, IfOk};
ghost use Rattle.marshal_grammar.specs.Grammar.{byte, bytes, long};
ghost use Rattle.marshal_grammar.specs.Contexts.{opening};
ghost use Rattle.marshal_grammar.specs.declared.refusal.Why.TheVariants as why;
ghost use Rattle.marshal_read.specs.Gives.{Gives, GivesBytes};
ghost use Rattle.marshal_read.specs.Fails.{error_of};

use crate::error::{ReadError, Stop};
use crate::span::Span;
use crate::steps::Step;
use marshal_grammar::long::long_at;
use marshal_grammar::refusal::{Refusal, Why};
use sqlite_items::Items;
use std::alloc::{AllocError, Global};
use std::marker::Model;

/// Bytes that are being read, and what those before left.
#[derive(Drop)]
pub struct Reader<'a> {
    pub(crate) rest: &'a [u8],
    pub(crate) at: usize,
    pub(crate) symbols: Items<Span<'a>>,
    pub(crate) objects: Items<Option<(usize, usize)>>,
    pub(crate) nodes: u64,
    pub(crate) steps: Items<Step<'a>>,
    /// The last refusal.
    pub(crate) refused: Refusal,
}

impl<'a> Model for Reader<'a> {
    ghost use Rattle.marshal_read.specs.State.{State};
    ghost use Rattle.drb_tree.specs.contracts.Tree as e;
    ghost use Rattle.std.specs.Coded.{codes};

    ghost Value = { State };

    ghost coded = { Prim.hlevel (codes, e.the_row.coded) };

    ghost use Rattle.marshal_read.specs.View.{state_of, Sound};

    ghost view = { state_of };

    ghost invariant = { Sound };
}

impl<'a> Reader<'a> {
    /// A reader at the front of the bytes. It has room for a step for each eight bytes, and for 65,536 at most.
    pub fn new(alloc: Global, bytes: &'a [u8]) -> Result<Reader<'a>, AllocError>
        requires { length bytes.now < 2 ^ 63 }
        ensures { IfOk result (λ r. r ≡ record {
          rest = bytes.entry.now;
          seen = opening;
          steps = [];
          refused = record { why = why.Short; at = 0 };
        }) }
    {
        let steps = Items::from_vec(Vec::with_capacity(alloc, (bytes.len() / 8).min(65536))?);
        Ok(Reader {
            rest: bytes,
            at: 0,
            symbols: Items::new(alloc),
            objects: Items::new(alloc),
            nodes: 0,
            steps,
            refused: Refusal {
                why: Why::Short,
                at: 0,
            },
        })
    }

    /// The place reached.
    #[inline(always)]
    pub fn at(&self) -> usize
        ensures { result ≡ self.now.seen.at }
    {
        self.at
    }

    /// How many bytes are left.
    #[inline(always)]
    pub fn left(&self) -> usize
        ensures left { result ≡ length self.now.rest }
        ensures small { result < 2 ^ 63 }
    {
        self.rest.len()
    }

    /// Reading stops: the bytes are refused for this reason at this place.
    #[inline(always)]
    pub fn refuse(&mut self, why: Why, at: usize) -> Stop
        ensures stop { result ≡ Stop.Refused }
        ensures refused { self.new ≡ record self.old { refused = record { why = why; at = at } } }
    {
        self.refused = Refusal { why, at };
        Stop::Refused
    }

    /// What a stop says to the caller.
    pub fn error(&self, stop: Stop) -> ReadError
        ensures { result ≡ error_of stop self.now.refused }
    {
        match stop {
            Stop::Memory => ReadError::Memory,
            Stop::Refused => ReadError::Refused(self.refused),
        }
    }

    /// Reading stops: a byte is missing.
    pub fn short(&mut self) -> Stop
        ensures stop { result ≡ Stop.Refused }
        ensures refused { self.new ≡ record self.old {
          refused = record { why = why.Short; at = self.old.seen.at + length self.old.rest };
        } }
    {
        let at = self.at + self.rest.len();
        self.refuse(Why::Short, at)
    }

    /// The next byte.
    #[inline(always)]
    pub fn byte(&mut self) -> Result<u8, Stop>
        ensures { Gives byte self.old self.new result }
    {
        let Some((first, more)) = self.rest.split_first() else {
            return Err(self.refuse(Why::Short, self.at));
        };
        self.rest = more;
        self.at += 1;
        Ok(*first)
    }

    /// The next `n` bytes.
    #[inline(always)]
    pub fn bytes(&mut self, n: u64) -> Result<&'a [u8], Stop>
        ensures { GivesBytes (bytes n) self.old self.new result }
    {
        if (self.rest.len() as u64) < n {
            return Err(self.refuse(Why::Short, self.at + self.rest.len()));
        }
        let (these, more) = self.rest.split_at(n as usize);
        self.rest = more;
        self.at += n as usize;
        Ok(these)
    }

    /// The next long.
    #[inline(always)]
    pub fn long(&mut self) -> Result<i64, Stop>
        ensures { Gives long self.old self.new result }
    {
        match long_at(self.rest, 0) {
            Ok((n, size)) => {
                self.rest = &self.rest[size..];
                self.at += size;
                Ok(n)
            }
            Err(why) => Err(self.refuse(why, self.at + self.rest.len())),
        }
    }
}
