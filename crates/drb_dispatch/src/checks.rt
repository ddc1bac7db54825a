//! The checks that come before the arguments are looked at, in their order.

ghost use Rattle.std.specs.Prelude.{◌≡◌, length};
ghost use Rattle.drb_value.specs.View.{layer};
ghost use Rattle.drb_dispatch.specs.Checks.{secure as secure_spec, object_at, object_of as object_spec, number_at, method_of as method_spec, counted as counted_spec, method_called};

use crate::fault::Fault;
use crate::method::{Counts, Method, front_method, is, object_method};
use drb_value::{Node, Value};

/// Whom a request calls.
#[derive(Clone, Copy, Debug, PartialEq, Eq)]
pub enum Object {
    /// The front object, which is the space.
    Front,
    /// The object of this id.
    Number(u64),
}

/// The name may be called.
#[tactic(auto, unfolding(crate::specs::Checks::secure))]
fn secure(name: &[u8]) -> Result<(), Fault>
    ensures { result ≡ secure_spec name.now }
{
    if is("__send__", name) {
        return Err(Fault::Insecure);
    }
    Ok(())
}

/// Whom a reference means.
#[tactic(auto, using(crate::proofs::Outer::outer), unfolding(crate::specs::Checks::object_of))]
fn object_of(reference: &Value) -> Result<Object, Fault>
    ensures { result ≡ object_spec reference.now }
{
    object_in(&reference.node)
}

fn object_in(node: &Node) -> Result<Object, Fault>
    ensures { result ≡ object_at (layer node.now) }
{
    match *node {
        Node::Nil => Ok(Object::Front),
        Node::Int(number) => number_of(number),
        _ => Err(Fault::NotAnId),
    }
}

/// The object of that number.
fn number_of(number: i128) -> Result<Object, Fault>
    ensures { result ≡ number_at number }
{
    if number < 0 || number > i128::from(u64::MAX) {
        return Err(Fault::NotAnId);
    }
    Ok(Object::Number(number as u64))
}

/// The object's method of this name, and how many arguments it takes.
#[tactic(auto, unfolding(crate::specs::Checks::method_of))]
fn method_of(object: Object, name: &[u8]) -> Result<(Method, Counts), Fault>
    ensures { result ≡ method_spec object name.now }
{
    match object {
        Object::Front => match front_method(name) {
            Some((method, counts)) => Ok((Method::Front(method), counts)),
            None => Err(Fault::NoMethod),
        },
        Object::Number(id) => match object_method(name) {
            Some((method, counts)) => Ok((Method::Object(id, method), counts)),
            None => Err(Fault::NoMethod),
        },
    }
}

/// The number of arguments is one that the method takes.
#[tactic(auto, unfolding(crate::specs::Checks::counted))]
fn counted(counts: Counts, given: usize) -> Result<(), Fault>
    ensures { result ≡ counted_spec counts given }
{
    let Counts { least, most } = counts;
    if given < least || given > most {
        return Err(Fault::WrongCount { given, least, most });
    }
    Ok(())
}

/// The method that is called, with so many arguments.
#[tactic(auto, unfolding(crate::specs::Checks::method_called))]
pub fn called(reference: &Value, name: &[u8], given: usize) -> Result<Method, Fault>
    ensures { result ≡ method_called reference.now name.now given }
{
    secure(name)?;
    let object = object_of(reference)?;
    let (method, counts) = method_of(object, name)?;
    counted(counts, given)?;
    Ok(method)
}
