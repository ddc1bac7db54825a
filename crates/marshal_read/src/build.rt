//! The value that steps make.

ghost use Rattle.std.specs.Prelude.{◌≡◌, ℕ, ◌≤◌, [], ◌∷◌, ◌++◌, length, None, IfOk, OnOk, IsTrue, IsUtf8};
ghost use Rattle.drb_tree.specs.Kept.{names_distinct};
ghost use Rattle.marshal_read.specs.Making.{Made, nothing, without_last, the_last, last, put, after, Applies, AllApply, value_of};

use crate::span::Span;
use crate::steps::{Raw, Step};
use drb_value::{Bytes, Code, Dumped, FieldList, Items, Name, Pairs, Remote, Text, Value};
use std::alloc::{AllocError, Global};
use std::marker::Model;

/// What was made, and waits for what it is a part of.
#[derive(Drop)]
struct Parts {
    values: Vec<Value>,
    pairs: Vec<(Value, Value)>,
    fields: Vec<(Name, Value)>,
}

impl Model for Parts {
    ghost use Rattle.marshal_read.specs.Making.{Made};
    ghost use Rattle.drb_tree.specs.contracts.Tree as e;
    ghost use Rattle.std.specs.Coded.{codes};

    ghost Value = { Made };

    ghost coded = { Prim.hlevel (codes, e.the_row.coded) };

    ghost view = { λ a. record {
      values = a.values.items;
      pairs = a.pairs.items;
      fields = a.fields.items;
    } };
}

/// The value that these steps make.
pub fn built(alloc: Global, steps: &[Step]) -> Result<Value, AllocError>
    requires { AllApply nothing steps.now }
    ensures { IfOk result (λ v. v ≡ value_of steps.now) }
{
    let mut parts = Parts::new(alloc);
    for step in steps {
        parts.take(alloc, step)?;
    }
    Ok(parts.value())
}

/// The last `n` of these, which leave them.
fn split<T>(items: &mut Vec<T>, n: usize) -> Result<Items<T>, AllocError>
    requires { n ≤ length items.old.items }
    ensures rest { OnOk result (items.new.items ≡ without_last n items.old.items) }
    ensures these { IfOk result (λ them. them ≡ the_last n items.old.items) }
{
    let at = items.len() - n;
    Ok(Items::from_vec(items.split_off(at)?))
}

/// A name of these bytes.
fn name_of(alloc: Global, bytes: &Span) -> Result<Name, AllocError>
    requires { IsUtf8 bytes.now }
    ensures { IfOk result (λ n. n ≡ bytes.now) }
{
    let bytes = Bytes::of(alloc, bytes.as_slice())?;
    Ok(Name { bytes })
}

impl Parts {
    fn new(alloc: Global) -> Parts
        ensures { result ≡ nothing }
    {
        Parts {
            values: Vec::new(alloc),
            pairs: Vec::new(alloc),
            fields: Vec::new(alloc),
        }
    }

    /// The last value.
    fn value(self) -> Value
        ensures { result ≡ last self.values }
    {
        let Parts {
            mut values,
            pairs,
            fields,
        } = self;
        drop(pairs);
        drop(fields);
        let found = values.pop();
        drop(values);
        match found {
            Some(value) => value,
            None => Value::nil(),
        }
    }

    /// Takes a step. What makes a part is out of line, so that the loop over the steps has few words of its own to clear.
    fn take(&mut self, alloc: Global, step: &Step) -> Result<(), AllocError>
        requires { Applies self.old step.now }
        ensures { OnOk result (self.new ≡ after self.old step.now) }
    {
        match step {
            Step::Nil => self.put(Value::nil()),
            Step::Bool(truth) => self.put(Value::boolean(*truth)),
            Step::Int(number) => self.put(Value::int(*number)),
            Step::Sym(name) => self.sym(alloc, name),
            Step::Text(bytes, code) => self.text(alloc, bytes, *code),
            Step::Class(name) => self.class(alloc, name),
            Step::Module(name) => self.module(alloc, name),
            Step::List(n) => self.list(*n),
            Step::Pair => self.pair(),
            Step::Field(name) => self.field(alloc, name),
            Step::Hash(n) => self.hash(*n),
            Step::HashWithDefault(n) => self.hash_with_default(alloc, *n),
            Step::Object(class, n) => self.object(alloc, class, *n),
            Step::Struct(class, n) => self.structure(alloc, class, *n),
            Step::Dumped(raw, n) => self.dumped(alloc, raw.get(), *n),
            Step::Remote(remote) => self.remote(alloc, remote.get()),
            Step::Forget(n) => self.forget(*n),
            Step::Wrapped(class) => self.wrapped(alloc, class),
        }
    }

    fn put(&mut self, value: Value) -> Result<(), AllocError>
        ensures { OnOk result (self.new ≡ put value self.old) }
    {
        self.values.push(value)?;
        Ok(())
    }

    /// The last value, which leaves the others.
    fn last(&mut self) -> Value
        requires { 1 ≤ length self.old.values }
        ensures value { result ≡ last self.old.values }
        ensures rest { self.new ≡ record self.old { values = without_last 1 self.old.values } }
    {
        match self.values.pop() {
            Some(value) => value,
            None => Value::nil(),
        }
    }

    #[inline(never)]
    fn sym(&mut self, alloc: Global, name: &Span) -> Result<(), AllocError>
        requires { IsUtf8 name.now }
        ensures { OnOk result (self.new ≡ after self.old (Step.Sym name.now)) }
    {
        let name = name_of(alloc, name)?;
        self.put(Value::sym(name))
    }

    #[inline(never)]
    fn text(&mut self, alloc: Global, bytes: &Span, code: Code) -> Result<(), AllocError>
        ensures { OnOk result (self.new ≡ after self.old (Step.Text bytes.now code)) }
    {
        let text = Text::of(alloc, bytes.as_slice(), code)?;
        self.put(Value::text(text))
    }

    #[inline(never)]
    fn class(&mut self, alloc: Global, name: &Span) -> Result<(), AllocError>
        requires { IsUtf8 name.now }
        ensures { OnOk result (self.new ≡ after self.old (Step.Class name.now)) }
    {
        let name = name_of(alloc, name)?;
        self.put(Value::class(name))
    }

    #[inline(never)]
    fn module(&mut self, alloc: Global, name: &Span) -> Result<(), AllocError>
        requires { IsUtf8 name.now }
        ensures { OnOk result (self.new ≡ after self.old (Step.Module name.now)) }
    {
        let name = name_of(alloc, name)?;
        self.put(Value::module(name))
    }

    #[inline(never)]
    fn remote(&mut self, alloc: Global, remote: &Remote) -> Result<(), AllocError>
        ensures { OnOk result (self.new ≡ after self.old (Step.Remote remote.now)) }
    {
        let remote = remote.copy(alloc)?;
        self.put(Value::remote(alloc, remote)?)
    }

    #[inline(never)]
    fn list(&mut self, n: usize) -> Result<(), AllocError>
        requires { n ≤ length self.old.values }
        ensures { OnOk result (self.new ≡ after self.old (Step.List n)) }
    {
        let items = split(&mut self.values, n)?;
        self.put(Value::list(items))
    }

    #[inline(never)]
    fn pair(&mut self) -> Result<(), AllocError>
        requires { 2 ≤ length self.old.values }
        ensures { OnOk result (self.new ≡ after self.old Step.Pair) }
    {
        let value = self.last();
        let key = self.last();
        self.pairs.push((key, value))?;
        Ok(())
    }

    #[inline(never)]
    fn field(&mut self, alloc: Global, name: &Span) -> Result<(), AllocError>
        requires { Applies self.old (Step.Field name.now) }
        ensures { OnOk result (self.new ≡ after self.old (Step.Field name.now)) }
    {
        let name = name_of(alloc, name)?;
        let value = self.last();
        self.fields.push((name, value))?;
        Ok(())
    }

    /// The last `n` pairs, which leave the others, and this default.
    fn pairs(&mut self, n: usize) -> Result<Pairs, AllocError>
        requires { Applies self.old (Step.Hash n) }
        ensures pairs { IfOk result (λ ps. ps ≡ (the_last n self.old.pairs, None)) }
        ensures rest { OnOk result (self.new ≡ record self.old {
          pairs = without_last n self.old.pairs;
        }) }
    {
        let pairs = split(&mut self.pairs, n)?;
        Ok(Pairs {
            pairs,
            default: None,
        })
    }

    #[inline(never)]
    fn hash(&mut self, n: usize) -> Result<(), AllocError>
        requires { Applies self.old (Step.Hash n) }
        ensures { OnOk result (self.new ≡ after self.old (Step.Hash n)) }
    {
        let pairs = self.pairs(n)?;
        self.put(Value::hash(pairs))
    }

    #[inline(never)]
    fn hash_with_default(&mut self, alloc: Global, n: usize) -> Result<(), AllocError>
        requires { Applies self.old (Step.HashWithDefault n) }
        ensures { OnOk result (self.new ≡ after self.old (Step.HashWithDefault n)) }
    {
        let pairs = self.pairs(n)?;
        let default = self.last();
        self.put(Value::hash(pairs.with_default(alloc, default)?))
    }

    /// The last `n` fields, which leave the others.
    fn fields(&mut self, n: usize) -> Result<FieldList, AllocError>
        requires { (n ≤ length self.old.fields)
            × IsTrue (names_distinct (the_last n self.old.fields)) }
        ensures fields { IfOk result (λ fs. fs ≡ the_last n self.old.fields) }
        ensures rest { OnOk result (self.new ≡ record self.old {
          fields = without_last n self.old.fields;
        }) }
    {
        let list = split(&mut self.fields, n)?;
        Ok(FieldList { list })
    }

    #[inline(never)]
    fn object(&mut self, alloc: Global, class: &Span, n: usize) -> Result<(), AllocError>
        requires { Applies self.old (Step.Object class.now n) }
        ensures { OnOk result (self.new ≡ after self.old (Step.Object class.now n)) }
    {
        let class = name_of(alloc, class)?;
        let fields = self.fields(n)?;
        self.put(Value::object(alloc, class, fields)?)
    }

    #[inline(never)]
    fn structure(&mut self, alloc: Global, class: &Span, n: usize) -> Result<(), AllocError>
        requires { Applies self.old (Step.Struct class.now n) }
        ensures { OnOk result (self.new ≡ after self.old (Step.Struct class.now n)) }
    {
        let class = name_of(alloc, class)?;
        let fields = self.fields(n)?;
        self.put(Value::structure(alloc, class, fields)?)
    }

    #[inline(never)]
    fn dumped(&mut self, alloc: Global, raw: &Raw, n: usize) -> Result<(), AllocError>
        requires { Applies self.old (Step.Dumped raw.now n) }
        ensures { OnOk result (self.new ≡ after self.old (Step.Dumped raw.now n)) }
    {
        let class = name_of(alloc, &raw.class)?;
        let fields = self.fields(n)?;
        let bytes = Items::from_slice(alloc, raw.bytes.as_slice())?;
        self.put(Value::dumped(alloc, Dumped::of(class, bytes, fields))?)
    }

    #[inline(never)]
    fn forget(&mut self, n: usize) -> Result<(), AllocError>
        requires { n ≤ length self.old.fields }
        ensures { OnOk result (self.new ≡ after self.old (Step.Forget n)) }
    {
        drop(split(&mut self.fields, n)?);
        Ok(())
    }

    #[inline(never)]
    fn wrapped(&mut self, alloc: Global, class: &Span) -> Result<(), AllocError>
        requires { Applies self.old (Step.Wrapped class.now) }
        ensures { OnOk result (self.new ≡ after self.old (Step.Wrapped class.now)) }
    {
        let class = name_of(alloc, class)?;
        let inner = self.last();
        self.put(Value::wrapped(alloc, class, inner)?)
    }
}
