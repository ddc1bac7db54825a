//! The steps that make a value.

ghost use Rattle.std.specs.Prelude.{◌≡◌, [], ◌∷◌, ◌++◌, IfOk, OnOk, OnErr};
ghost use Rattle.marshal_read.specs.Forms.{step_of};

use crate::span::Span;
use drb_tree::{Code, Remote};
use sqlite_items::{Boxed, Items};
use std::alloc::{AllocError, Global};

/// What a class dumped of its object as bytes.
#[derive(Drop)]
pub struct Raw<'a> {
    pub class: Span<'a>,
    pub bytes: Span<'a>,
}

impl<'a> Raw<'a> {
    /// The same.
    pub fn copy(&self) -> Raw<'a>
        ensures { result ≡ self.now }
    {
        Raw {
            class: self.class.copy(),
            bytes: self.bytes.copy(),
        }
    }
}

/// A step in the making of values. It puts one thing behind those that were made before it: a value, or a pair or field
/// that a value to come is made of. What that takes is at their end.
#[derive(Drop)]
pub enum Step<'a> {
    Nil,
    Bool(bool),
    Int(i128),
    Sym(Span<'a>),
    Text(Span<'a>, Code),
    Class(Span<'a>),
    Module(Span<'a>),
    Remote(Boxed<Remote>),
    /// Takes so many fields, and makes nothing of them.
    Forget(usize),
    /// Takes so many values.
    List(usize),
    /// Makes a pair. Takes two values, a key and what it has.
    Pair,
    /// Makes a field of this name. Takes a value.
    Field(Span<'a>),
    /// Takes so many pairs.
    Hash(usize),
    /// Takes so many pairs, and a value as the default.
    HashWithDefault(usize),
    /// Takes so many fields; has this class.
    Object(Span<'a>, usize),
    Struct(Span<'a>, usize),
    /// Takes so many fields, the variables.
    Dumped(Boxed<Raw<'a>>, usize),
    /// Takes a value; has this class.
    Wrapped(Span<'a>),
}

impl<'a> Step<'a> {
    /// The same step.
    pub fn copy(&self, alloc: Global) -> Result<Step<'a>, AllocError>
        ensures { IfOk result (λ step. step ≡ self.now) }
    {
        Ok(match self {
            Step::Nil => Step::Nil,
            Step::Bool(truth) => Step::Bool(*truth),
            Step::Int(number) => Step::Int(*number),
            Step::Sym(name) => Step::Sym(name.copy()),
            Step::Text(bytes, code) => Step::Text(bytes.copy(), *code),
            Step::Class(name) => Step::Class(name.copy()),
            Step::Module(name) => Step::Module(name.copy()),
            Step::List(n) => Step::List(*n),
            Step::Pair => Step::Pair,
            Step::Field(name) => Step::Field(name.copy()),
            Step::Hash(n) => Step::Hash(*n),
            Step::HashWithDefault(n) => Step::HashWithDefault(*n),
            Step::Object(class, n) => Step::Object(class.copy(), *n),
            Step::Struct(class, n) => Step::Struct(class.copy(), *n),
            Step::Dumped(raw, n) => Step::Dumped(Boxed::new(alloc, raw.get().copy())?, *n),
            Step::Remote(remote) => Step::Remote(Boxed::new(alloc, remote.get().copy(alloc)?)?),
            Step::Forget(n) => Step::Forget(*n),
            Step::Wrapped(class) => Step::Wrapped(class.copy()),
        })
    }
}

/// The forms of the steps that are kept most often. What such a step is of stands beside its form.
#[derive(Clone, Copy)]
enum Form {
    Nil,
    True,
    False,
    Int,
    Sym,
    Binary,
    Ascii,
    Utf8,
    List,
}

/// Adds a step at the end.
#[inline(always)]
pub fn add<'a>(steps: &mut Items<Step<'a>>, step: Step<'a>) -> Result<(), AllocError>
    ensures ok { OnOk result (steps.new ≡ steps.old ++ step.entry ∷ []) }
    ensures err { OnErr result (steps.new ≡ steps.old) }
{
    match step {
        Step::Nil => keep(steps, Form::Nil, 0, 0, &[]),
        Step::Bool(true) => keep(steps, Form::True, 0, 0, &[]),
        Step::Bool(false) => keep(steps, Form::False, 0, 0, &[]),
        Step::Int(number) => keep(steps, Form::Int, number, 0, &[]),
        Step::Sym(bytes) => keep(steps, Form::Sym, 0, 0, bytes.as_slice()),
        Step::Text(bytes, Code::Binary) => keep(steps, Form::Binary, 0, 0, bytes.as_slice()),
        Step::Text(bytes, Code::Ascii) => keep(steps, Form::Ascii, 0, 0, bytes.as_slice()),
        Step::Text(bytes, Code::Utf8) => keep(steps, Form::Utf8, 0, 0, bytes.as_slice()),
        Step::List(n) => keep(steps, Form::List, 0, n, &[]),
        other => keep_other(steps, other),
    }
}

/// Adds the step of this form. It is handed over as words that fit the processor's registers: a step that is stored in
/// parts and loaded as a whole makes the processor wait.
#[inline(never)]
fn keep<'a>(
    steps: &mut Items<Step<'a>>,
    form: Form,
    number: i128,
    count: usize,
    bytes: &'a [u8],
) -> Result<(), AllocError>
    ensures ok { OnOk result (steps.new ≡ steps.old ++ step_of form number count bytes.now ∷ []) }
    ensures err { OnErr result (steps.new ≡ steps.old) }
{
    let step = match form {
        Form::Nil => Step::Nil,
        Form::True => Step::Bool(true),
        Form::False => Step::Bool(false),
        Form::Int => Step::Int(number),
        Form::Sym => Step::Sym(Span::of(bytes)),
        Form::Binary => Step::Text(Span::of(bytes), Code::Binary),
        Form::Ascii => Step::Text(Span::of(bytes), Code::Ascii),
        Form::Utf8 => Step::Text(Span::of(bytes), Code::Utf8),
        Form::List => Step::List(count),
    };
    steps.push(step)
}

/// Adds any step at the end, in the place of one that `keep` adds.
fn keep_other<'a>(steps: &mut Items<Step<'a>>, step: Step<'a>) -> Result<(), AllocError>
    ensures ok { OnOk result (steps.new ≡ steps.old ++ step.entry ∷ []) }
    ensures err { OnErr result (steps.new ≡ steps.old) }
{
    let at = steps.len();
    keep(steps, Form::Nil, 0, 0, &[])?;
    steps.set(at, step);
    Ok(())
}
