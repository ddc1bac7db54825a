//! What the bytes so far leave: symbols, objects, nodes, and the steps that make what was read.

ghost use Rattle.std.specs.Prelude.{◌≡◌, ℕ, ◌+◌, ◌≤◌, ◌<◌, ◌^◌, [], ◌∷◌, ◌++◌, length, drop, IfOk, OnOk, OnErr, Some, option_map};
ghost use Rattle.std.specs.Option.{option_copied};
ghost use Rattle.marshal_grammar.specs.Contexts.{add_symbol, begin_object, add_object, finish_object};
ghost use Rattle.marshal_grammar.specs.Values.{object_at};
ghost use Rattle.marshal_grammar.specs.Symbols.{symbol_at};
ghost use Rattle.marshal_grammar.specs.Counts.{count_nodes};
ghost use Rattle.marshal_read.specs.Gives.{Gives};
ghost use Rattle.marshal_read.specs.Making.{value_of, MakesOne, cut, Stands, range_of};

use crate::build::built;
use crate::error::Stop;
use crate::reader::Reader;
use crate::span::Span;
use crate::steps::{Step, add};
use drb_value::Value;
use marshal_grammar::refusal::Why;
use sqlite_items::Items;
use std::alloc::{AllocError, Global};

/// An object that has begun: its number, and how many steps were before it.
#[derive(Clone, Copy)]
pub struct Begun {
    pub number: usize,
    pub start: usize,
}

/// Adds an object at the end: the range of its steps, where it is finished.
fn add_range(
    objects: &mut Items<Option<(usize, usize)>>,
    start: usize,
    end: usize,
    is_finished: bool,
) -> Result<(), AllocError>
    ensures ok { OnOk result (objects.new ≡ objects.old ++ range_of is_finished start end ∷ []) }
    ensures err { OnErr result (objects.new ≡ objects.old) }
{
    objects.push(if is_finished {
        Some((start, end))
    } else {
        None
    })
}

impl<'a> Reader<'a> {
    /// Gives a symbol the next number.
    #[inline(always)]
    pub fn add_symbol(&mut self, symbol: &'a [u8]) -> Result<(), AllocError>
        ensures { OnOk result (self.new ≡ record self.old {
          seen = add_symbol symbol.now self.old.seen;
        }) }
    {
        self.symbols.push(Span::of(symbol))?;
        Ok(())
    }

    /// How many steps there are.
    #[inline(always)]
    pub fn count_steps(&self) -> usize
        ensures { result ≡ length self.now.steps }
    {
        self.steps.len()
    }

    /// An object begins: it gets the next number.
    #[inline(always)]
    pub fn begin_object(&mut self) -> Result<Begun, AllocError>
        ensures state { OnOk result (self.new ≡ record self.old {
          seen = begin_object self.old.seen;
        }) }
        ensures number { IfOk result (λ k. k.number ≡ length self.old.seen.objects) }
        ensures start { IfOk result (λ k. k.start ≡ length self.old.steps) }
    {
        let number = self.objects.len();
        let start = self.steps.len();
        add_range(&mut self.objects, 0, 0, false)?;
        Ok(Begun { number, start })
    }

    /// The object is what the steps since its beginning make.
    #[inline(always)]
    pub fn finish_object(&mut self, begun: Begun)
        requires start { begun.start ≤ length self.old.steps }
        requires makes { MakesOne (drop begun.start self.old.steps) }
        ensures { self.new ≡ record self.old {
          seen = finish_object begun.number
              (value_of (drop begun.start self.old.steps)) self.old.seen;
        } }
    {
        if begun.number < self.objects.len() {
            let end = self.steps.len();
            self.objects.set(begun.number, Some((begun.start, end)));
        }
    }

    /// An object that is finished at once gets the next number. It is what the steps from `start` on make.
    #[inline(always)]
    pub fn add_object(&mut self, start: usize) -> Result<(), AllocError>
        requires start { start ≤ length self.old.steps }
        requires makes { MakesOne (drop start self.old.steps) }
        ensures { OnOk result (self.new ≡ record self.old {
          seen = add_object (value_of (drop start self.old.steps)) self.old.seen;
        }) }
    {
        let end = self.steps.len();
        add_range(&mut self.objects, start, end, true)?;
        Ok(())
    }

    /// Adds a step at the end.
    #[inline(always)]
    pub fn push(&mut self, step: Step<'a>) -> Result<(), AllocError>
        ensures { OnOk result (self.new ≡ record self.old {
          steps = self.old.steps ++ (step.entry ∷ []);
        }) }
    {
        add(&mut self.steps, step)?;
        Ok(())
    }

    /// The value that the steps of this range make.
    pub fn built(&self, alloc: Global, range: (usize, usize)) -> Result<Value, AllocError>
        requires { Stands self.now.steps range }
        ensures { IfOk result (λ v. v ≡ value_of (cut range self.now.steps)) }
    {
        let (start, end) = range;
        built(alloc, &self.steps.as_slice()[..end][start..])
    }

    /// The value that the steps from `start` on make.
    pub fn built_since(&self, alloc: Global, start: usize) -> Result<Value, AllocError>
        requires start { start ≤ length self.now.steps }
        requires makes { MakesOne (drop start self.now.steps) }
        ensures { IfOk result (λ v. v ≡ value_of (drop start self.now.steps)) }
    {
        built(alloc, &self.steps.as_slice()[start..])
    }

    /// Takes the steps of this range once more.
    pub fn repeat(&mut self, alloc: Global, range: (usize, usize)) -> Result<(), AllocError>
        requires { Stands self.old.steps range }
        ensures { OnOk result (self.new ≡ record self.old {
          steps = self.old.steps ++ cut range self.old.steps;
        }) }
    {
        for i in range.0..range.1 {
            let step = self.steps.as_slice()[i].copy(alloc)?;
            self.push(step)?;
        }
        Ok(())
    }

    /// Counts `k` nodes more at this place.
    #[inline(always)]
    pub fn count_nodes(&mut self, at: usize, k: u64) -> Result<(), Stop>
        ensures { Gives (count_nodes at k) self.old self.new result }
    {
        let nodes = self.nodes.saturating_add(k);
        if nodes > 262144 {
            return Err(self.refuse(Why::TooManyNodes, at));
        }
        self.nodes = nodes;
        Ok(())
    }

    /// The range of steps of a finished object; `Some(None)` where it is not finished.
    pub fn object(&self, number: i64) -> Option<Option<(usize, usize)>>
        ensures object { option_map (option_map (λ r. value_of (cut r self.now.steps))) result
            ≡ object_at self.now.seen number }
        ensures stands { (r : ℕ × ℕ) → result ≡ Some (Some r) → Stands self.now.steps r }
    {
        if number < 0 {
            return None;
        }
        match self.objects.get(number as usize) {
            None => None,
            Some(o) => Some(*o),
        }
    }

    /// The symbol of that number.
    #[inline(always)]
    pub fn symbol_at(&self, number: i64) -> Option<&'a [u8]>
        ensures { option_copied result ≡ symbol_at self.now.seen number }
    {
        if number < 0 {
            return None;
        }
        match self.symbols.get(number as usize) {
            None => None,
            Some(s) => Some(s.as_slice()),
        }
    }
}
