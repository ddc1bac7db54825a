//! Values that end as their bytes do: they have no parts.

ghost use Rattle.std.specs.Prelude.{◌≡◌, ℕ, ◌+◌, ◌≤◌, ◌<◌, [], ◌∷◌, ◌++◌, length, OnOk, IsUtf8};
ghost use Rattle.marshal_grammar.specs.Trees as tree;
ghost use Rattle.marshal_grammar.specs.Values.{simple, whole, ends, small_int, symbol_value, plain_text, marked_text, named_value};
ghost use Rattle.marshal_grammar.specs.Grammar.{gives};
ghost use Rattle.marshal_grammar.specs.Symbols.{plain_symbol, linked_symbol, marked_symbol};
ghost use Rattle.marshal_read.specs.Gives.{Adds, Reached, ReachedBy};
ghost use Rattle.marshal_read.specs.State.{Named};
ghost use Rattle.marshal_read.specs.Making.{Leaf, value_of, MakesOne, added, AddsOne, ended_by};

use crate::counts::heavy;
use crate::error::Stop;
use crate::reader::Reader;
use crate::span::Span;
use crate::steps::Step;
use crate::symbols::all_ascii;
use crate::tables::Begun;
use drb_tree::Code;
use marshal_grammar::refusal::Why;
use std::alloc::{AllocError, Global};

impl<'a> Reader<'a> {
    /// A value that counts one node.
    #[inline(always)]
    pub fn simple(&mut self, at: usize, step: Step<'a>) -> Result<(), Stop>
        requires { Leaf step }
        ensures { Adds (simple at (value_of (step.entry ∷ []))) self.old self.new result }
    {
        self.count_nodes(at, 1)?;
        Ok(self.push(step)?)
    }

    /// An object without parts.
    #[inline(always)]
    pub fn whole(&mut self, step: Step<'a>) -> Result<(), AllocError>
        requires { Leaf step }
        ensures ok { OnOk result (Reached
            (whole (value_of (step.entry ∷ []))) (added self.old.steps self.new.steps)
            self.old self.new) }
        ensures steps { OnOk result (self.new.steps ≡ self.old.steps ++ (step.entry ∷ [])) }
        ensures adds { OnOk result (AddsOne self.old.steps self.new.steps) }
    {
        let start = self.count_steps();
        self.push(step)?;
        self.add_object(start)
    }

    /// An object gets its number at its end, with this step. Its parts are what the steps from `start` on make.
    pub fn whole_from(&mut self, start: usize, step: Step<'a>) -> Result<(), AllocError>
        requires start { start ≤ length self.old.steps }
        requires makes { MakesOne (ended_by start step self.old.steps) }
        ensures ok { OnOk result (ReachedBy
            whole (ended_by start step.entry self.old.steps)
            self.old self.new) }
        ensures steps { OnOk result (self.new.steps ≡ self.old.steps ++ (step.entry ∷ [])) }
    {
        self.push(step)?;
        self.add_object(start)
    }

    /// The object ends, with this step.
    #[inline(always)]
    pub fn end(&mut self, begun: Begun, step: Step<'a>) -> Result<(), AllocError>
        requires start { begun.start ≤ length self.old.steps }
        requires makes { MakesOne (ended_by begun.start step self.old.steps) }
        ensures ok { OnOk result (ReachedBy
            (ends begun.number) (ended_by begun.start step.entry self.old.steps)
            self.old self.new) }
        ensures steps { OnOk result (self.new.steps ≡ self.old.steps ++ (step.entry ∷ [])) }
    {
        self.push(step)?;
        self.finish_object(begun);
        Ok(())
    }

    /// After `i`: a long.
    #[inline(always)]
    pub fn small_int(&mut self, at: usize) -> Result<(), Stop>
        ensures { Adds (small_int at) self.old self.new result }
    {
        let n = self.long()?;
        self.simple(at, Step::Int(n as i128))
    }

    /// A symbol as a value: it counts by its bytes.
    #[inline(always)]
    fn symbol_entry(&mut self, at: usize, symbol: &'a [u8]) -> Result<(), Stop>
        requires { IsUtf8 symbol.now }
        ensures { Adds (symbol_value at (gives symbol.now)) self.old self.new result }
    {
        self.count_nodes(at, heavy(symbol))?;
        Ok(self.push(Step::Sym(Span::of(symbol)))?)
    }

    /// After `:` of a value.
    pub fn plain_symbol_value(&mut self, at: usize) -> Result<(), Stop>
        requires { Named self.old }
        ensures { Adds (symbol_value at (plain_symbol at)) self.old self.new result }
    {
        let s = self.plain_symbol(at)?;
        self.symbol_entry(at, s)
    }

    /// After `;` of a value.
    #[inline(always)]
    pub fn linked_symbol_value(&mut self, at: usize) -> Result<(), Stop>
        requires { Named self.old }
        ensures { Adds (symbol_value at (linked_symbol at)) self.old self.new result }
    {
        let s = self.linked_symbol(at)?;
        self.symbol_entry(at, s)
    }

    /// After `I:` of a value.
    pub fn marked_symbol_value(&mut self, alloc: Global, at: usize) -> Result<(), Stop>
        requires { Named self.old }
        ensures { Adds (symbol_value at (marked_symbol at)) self.old self.new result }
    {
        let s = self.marked_symbol(alloc, at)?;
        self.symbol_entry(at, s)
    }

    /// After `"`: a length and bytes.
    #[inline(always)]
    pub fn plain_text(&mut self, at: usize) -> Result<(), Stop>
        ensures { Adds (plain_text at) self.old self.new result }
    {
        let s = self.string()?;
        self.count_nodes(at, heavy(s))?;
        Ok(self.whole(Step::Text(Span::of(s), Code::Binary))?)
    }

    /// After `I"`: a length and bytes, and encoding variables.
    #[inline(always)]
    pub fn marked_text(&mut self, alloc: Global, at: usize) -> Result<(), Stop>
        ensures { Adds (marked_text at) self.old self.new result }
    {
        let s = self.string()?;
        let code = self.encoding(alloc, at)?;
        self.count_nodes(at, heavy(s))?;
        Ok(self.whole(Step::Text(Span::of(s), code))?)
    }

    /// After `c`: a length and bytes, which are ASCII.
    pub fn class(&mut self, at: usize) -> Result<(), Stop>
        ensures { Adds (named_value tree.class at) self.old self.new result }
    {
        let s = self.string()?;
        if !all_ascii(s) {
            return Err(self.refuse(Why::Name, at));
        }
        self.count_nodes(at, heavy(s))?;
        Ok(self.whole(Step::Class(Span::of(s)))?)
    }

    /// After `m`: the same.
    pub fn module(&mut self, at: usize) -> Result<(), Stop>
        ensures { Adds (named_value tree.module_named at) self.old self.new result }
    {
        let s = self.string()?;
        if !all_ascii(s) {
            return Err(self.refuse(Why::Name, at));
        }
        self.count_nodes(at, heavy(s))?;
        Ok(self.whole(Step::Module(Span::of(s)))?)
    }
}
