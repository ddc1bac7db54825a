//! Values, by the byte that they begin with.

ghost use Rattle.std.specs.Prelude.{◌≡◌, ℕ, ◌+◌, ◌≤◌, ◌<◌, suc, IfOk, IfErr, OnOk, false, if◌then◌else◌};
ghost use Rattle.marshal_grammar.specs.Contexts.{opening};
ghost use Rattle.marshal_grammar.specs.Reading.{read};
ghost use Rattle.marshal_grammar.specs.Dumps.{dump_with};
ghost use Rattle.marshal_grammar.specs.Values.{body, list_value, hash_value, default_hash_value, fields_value, wrapped_value, marked_value, marked_dumped, dumped_value, held};
ghost use Rattle.marshal_read.specs.Gives.{GivesAs, Adds, Reached};
ghost use Rattle.marshal_read.specs.Fails.{Fails, read_at};
ghost use Rattle.marshal_read.specs.State.{Named};
ghost use Rattle.marshal_read.specs.Making.{added, AddsOne};
ghost use Rattle.marshal_read.specs.Scopes.{reference_in, part_in, given, held_is, Foreign, fields_form};

use crate::error::{ReadError, Stop};
use crate::reader::Reader;
use crate::references::{Held, held_nodes};
use crate::span::Span;
use crate::steps::Step;
use drb_tree::Remote;
use marshal_grammar::kind::{Kind, kind_of};
use marshal_grammar::refusal::Why;
use sqlite_items::Items;
use std::alloc::{AllocError, Global};

impl<'a> Reader<'a> {
    /// A value, where so many levels are left, itself among them.
    #[cycle(read)]
    pub fn value(&mut self, alloc: Global, nested: bool, room: usize) -> Result<(), Stop>
        requires room { room ≤ 128 }
        requires named { Named self.old }
        ensures { Adds (part_in nested room) self.old self.new result }
    {
        let at = self.at();
        let first = self.byte()?;
        let Some(kind) = kind_of(first) else {
            return Err(self.refuse(Why::BadType(first), at));
        };
        if room == 0 {
            return self.too_deep(alloc, kind, at);
        }
        self.body(alloc, nested, room - 1, at, kind)
    }

    /// What stands after the type byte at this place; `room` levels are left below it.
    #[cycle(read)]
    #[tactic(auto, unfolding(marshal_grammar::specs::Values::body))]
    fn body(
        &mut self,
        alloc: Global,
        nested: bool,
        room: usize,
        at: usize,
        kind: Kind,
    ) -> Result<(), Stop>
        requires room { room < 128 }
        requires named { Named self.old }
        ensures { Adds
            (body (reference_in nested) (part_in nested room) (suc room) kind at)
            self.old self.new result }
    {
        match kind {
            Kind::Nil => self.simple(at, Step::Nil),
            Kind::True => self.simple(at, Step::Bool(true)),
            Kind::False => self.simple(at, Step::Bool(false)),
            Kind::Int => self.small_int(at),
            Kind::Big => self.big_int(at),
            Kind::Symbol => self.plain_symbol_value(at),
            Kind::SymbolLink => self.linked_symbol_value(at),
            Kind::Marked => self.marked_value(alloc, nested, room, at),
            Kind::Text => self.plain_text(at),
            Kind::List => self.list_value(alloc, nested, room, at),
            Kind::Hash => self.hash_value(alloc, nested, room, at),
            Kind::HashWithDefault => self.default_hash_value(alloc, nested, room, at),
            Kind::Class => self.class(at),
            Kind::Module => self.module(at),
            Kind::Object => self.fields_value(alloc, nested, room, at, false),
            Kind::Struct => self.fields_value(alloc, nested, room, at, true),
            Kind::Dumped => self.dumped_value(alloc, nested, at),
            Kind::Wrapped => self.wrapped_value(alloc, nested, room, at),
            Kind::Link => self.link(alloc, room + 1, at),
        }
    }

    /// After `[`: a long, and so many values.
    #[cycle(read)]
    #[inline(always)]
    fn list_value(
        &mut self,
        alloc: Global,
        nested: bool,
        room: usize,
        at: usize,
    ) -> Result<(), Stop>
        requires room { room < 128 }
        requires named { Named self.old }
        ensures { Adds (list_value (part_in nested room) at) self.old self.new result }
    {
        let n = self.count()?;
        self.count_nodes(at, 1)?;
        let begun = self.begin_object()?;
        self.values(alloc, nested, room, n)?;
        Ok(self.end(begun, Step::List(n as usize))?)
    }

    /// After `{`: a long, and so many pairs.
    #[cycle(read)]
    fn hash_value(
        &mut self,
        alloc: Global,
        nested: bool,
        room: usize,
        at: usize,
    ) -> Result<(), Stop>
        requires room { room < 128 }
        requires named { Named self.old }
        ensures { Adds (hash_value (part_in nested room) at) self.old self.new result }
    {
        let n = self.pair_count()?;
        self.count_nodes(at, 1)?;
        let begun = self.begin_object()?;
        self.pairs(alloc, nested, room, n)?;
        Ok(self.end(begun, Step::Hash(n as usize))?)
    }

    /// After `}`: a long, so many pairs, and the default.
    #[cycle(read)]
    fn default_hash_value(
        &mut self,
        alloc: Global,
        nested: bool,
        room: usize,
        at: usize,
    ) -> Result<(), Stop>
        requires room { room < 128 }
        requires named { Named self.old }
        ensures { Adds (default_hash_value (part_in nested room) at) self.old self.new result }
    {
        let n = self.pair_count()?;
        self.count_nodes(at, 1)?;
        let begun = self.begin_object()?;
        self.pairs(alloc, nested, room, n)?;
        self.value(alloc, nested, room)?;
        Ok(self.end(begun, Step::HashWithDefault(n as usize))?)
    }

    /// After `o` or `S`: a class symbol, a long, and so many fields.
    #[cycle(read)]
    fn fields_value(
        &mut self,
        alloc: Global,
        nested: bool,
        room: usize,
        at: usize,
        is_struct: bool,
    ) -> Result<(), Stop>
        requires room { room < 128 }
        requires named { Named self.old }
        ensures { Adds
            (fields_value (fields_form is_struct) (part_in nested room) at)
            self.old self.new result }
    {
        let class = Span::of(self.name(alloc)?);
        let n = self.pair_count()?;
        self.count_nodes(at, 1)?;
        let begun = self.begin_object()?;
        self.fields(alloc, nested, room, n)?;
        if is_struct {
            return Ok(self.end(begun, Step::Struct(class, n as usize))?);
        }
        Ok(self.end(begun, Step::Object(class, n as usize))?)
    }

    /// After `U`: a class symbol and a value.
    #[cycle(read)]
    fn wrapped_value(
        &mut self,
        alloc: Global,
        nested: bool,
        room: usize,
        at: usize,
    ) -> Result<(), Stop>
        requires room { room < 128 }
        requires named { Named self.old }
        ensures { Adds (wrapped_value (part_in nested room) at) self.old self.new result }
    {
        let class = Span::of(self.name(alloc)?);
        self.count_nodes(at, 1)?;
        let begun = self.begin_object()?;
        self.value(alloc, nested, room)?;
        Ok(self.end(begun, Step::Wrapped(class))?)
    }

    /// After `I`: a text, a symbol or a `u`.
    #[cycle(read)]
    #[inline(always)]
    fn marked_value(
        &mut self,
        alloc: Global,
        nested: bool,
        room: usize,
        at: usize,
    ) -> Result<(), Stop>
        requires room { room < 128 }
        requires named { Named self.old }
        ensures { Adds
            (marked_value (reference_in nested) (part_in nested room) at)
            self.old self.new result }
    {
        let place = self.at();
        let mark = self.byte()?;
        match kind_of(mark) {
            Some(Kind::Text) => self.marked_text(alloc, at),
            Some(Kind::Symbol) => self.marked_symbol_value(alloc, at),
            Some(Kind::Dumped) => self.marked_dumped(alloc, nested, room, at),
            _ => Err(self.refuse(Why::BadType(mark), place)),
        }
    }

    /// After `Iu`: a class symbol, a length and bytes, a long and so many variables.
    #[cycle(read)]
    fn marked_dumped(
        &mut self,
        alloc: Global,
        nested: bool,
        room: usize,
        at: usize,
    ) -> Result<(), Stop>
        requires room { room < 128 }
        requires named { Named self.old }
        ensures { Adds
            (marked_dumped (reference_in nested) (part_in nested room) at)
            self.old self.new result }
    {
        let start = self.count_steps();
        let held = self.held(alloc, nested, at)?;
        let variables = self.pair_count()?;
        self.count_nodes(at, held_nodes(&held))?;
        self.fields(alloc, nested, room, variables)?;
        Ok(self.held_value(alloc, held, start, variables as usize)?)
    }

    /// After `u`: a class symbol, a length and bytes.
    #[cycle(read)]
    fn dumped_value(&mut self, alloc: Global, nested: bool, at: usize) -> Result<(), Stop>
        requires { Named self.old }
        ensures { Adds (dumped_value (reference_in nested) at) self.old self.new result }
    {
        let start = self.count_steps();
        let held = self.held(alloc, nested, at)?;
        self.count_nodes(at, held_nodes(&held))?;
        Ok(self.held_value(alloc, held, start, 0)?)
    }

    /// A class symbol, a length and bytes.
    #[cycle(read)]
    fn held(&mut self, alloc: Global, nested: bool, at: usize) -> Result<Held<'a>, Stop>
        requires { Named self.old }
        ensures foreign { IfOk result (λ h. Foreign h) }
        ensures gives { GivesAs
            (held (reference_in nested) at) (λ h. held_is h)
            self.old self.new result }
    {
        let class = self.name(alloc)?;
        let bytes = self.string()?;
        if class != b"DRb::DRbObject".as_slice() {
            return Ok(Held::Other(Span::of(class), Span::of(bytes)));
        }
        match Reader::remote_in(alloc, nested, bytes)? {
            None => Err(self.refuse(Why::BadReference, at)),
            Some(remote) => Ok(Held::Remote(remote)),
        }
    }

    /// The version bytes and one value.
    #[cycle(read)]
    #[tactic(auto, unfolding(marshal_grammar::specs::Dumps::dump_with))]
    pub fn dump_with(&mut self, alloc: Global, nested: bool) -> Result<(), Stop>
        requires { Named self.old }
        ensures { Adds (dump_with (reference_in nested)) self.old self.new result }
    {
        self.version()?;
        self.value(alloc, nested, 128)
    }

    /// A dump, with the error that a caller sees.
    pub fn dump(&mut self, alloc: Global) -> Result<(), ReadError>
        requires { Named self.old }
        ensures ok { OnOk result (Reached
            (dump_with (reference_in false)) (added self.old.steps self.new.steps)
            self.old self.new) }
        ensures adds { OnOk result (AddsOne self.old.steps self.new.steps) }
        ensures err { IfErr result (λ e. Fails e
            (read_at (dump_with (reference_in false)) self.old)) }
    {
        match self.dump_with(alloc, false) {
            Ok(()) => Ok(()),
            Err(stop) => Err(self.error(stop)),
        }
    }

    /// The remote object whose inner dump these bytes begin with; `None` where they do not.
    #[cycle(read)]
    fn remote_in(alloc: Global, nested: bool, bytes: &[u8]) -> Result<Option<Remote>, AllocError>
        ensures { IfOk result (λ r. r ≡ given (read (reference_in nested) opening bytes.now)) }
    {
        if nested {
            return Ok(None);
        }
        let mut inner = Reader::new(alloc, bytes)?;
        match inner.dump_with(alloc, true) {
            Ok(()) => inner.remote(alloc),
            Err(Stop::Memory) => Err(AllocError),
            Err(Stop::Refused) => Ok(None),
        }
    }
}
