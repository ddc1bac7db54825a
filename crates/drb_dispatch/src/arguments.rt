//! The arguments of a request, one after the other, and what each is taken for.

ghost use Rattle.std.specs.Prelude.{◌≡◌, drop};
ghost use Rattle.drb_value.specs.View.{layer};
ghost use Rattle.drb_dispatch.specs.Checks.{tuple_of as tuple_spec, template_of as template_spec, port_at, port_of as port_spec, not_a_tuple as fault_spec};
ghost use Rattle.drb_dispatch.specs.Calls.{argument, lasting_at, lasting_of as lasting_spec};

use crate::call::Lasting;
use crate::fault::Fault;
use drb_value::{Items, Node, Remote, Value};
use rinda_tuple::{Life, NotTuple, Template, Tuple, WhyNotTuple};

/// Takes the first argument off, or nil where none is left.
#[tactic(auto, unfolding(crate::specs::Calls::argument))]
pub fn next(args: &mut Items<Value>) -> Value
    ensures first { result ≡ argument 0 args.old }
    ensures behind { args.new ≡ drop 1 args.old }
{
    if args.is_empty() {
        return Value::nil();
    }
    args.remove(0)
}

/// The tuple that an argument is.
pub fn tuple_of(value: Value) -> Result<Tuple, Fault>
    ensures { result ≡ tuple_spec value }
{
    match rinda_tuple::tuple_of(value) {
        Ok(tuple) => Ok(tuple),
        Err(refused) => Err(fault_of(refused)),
    }
}

/// The template that an argument is.
pub fn template_of(value: Value) -> Result<Template, Fault>
    ensures { result ≡ template_spec value }
{
    match rinda_tuple::template_of(value) {
        Ok(template) => Ok(template),
        Err(refused) => Err(fault_of(refused)),
    }
}

/// Why a value is no tuple.
fn fault_of(refused: NotTuple) -> Fault
    ensures { result ≡ fault_spec refused.why }
{
    match refused.why {
        WhyNotTuple::NotAList => Fault::NotATuple,
        WhyNotTuple::BadKey => Fault::BadKey,
    }
}

/// The port that an argument is, or none.
#[tactic(auto, using(crate::proofs::Outer::outer), unfolding(crate::specs::Checks::port_of))]
pub fn port_of(value: Value) -> Result<Option<Remote>, Fault>
    ensures { result ≡ port_spec value }
{
    let Value { node } = value;
    port_in(node)
}

fn port_in(node: Node) -> Result<Option<Remote>, Fault>
    ensures { result ≡ port_at (layer node) }
{
    match node {
        Node::Nil => Ok(None),
        Node::Remote(port) => Ok(Some(port.into_inner())),
        _ => Err(Fault::BadPort),
    }
}

/// How long an argument says.
#[tactic(auto, using(crate::proofs::Outer::outer), unfolding(crate::specs::Calls::lasting_of))]
pub fn lasting_of(value: Value) -> Lasting
    ensures { result ≡ lasting_spec value }
{
    let Value { node } = value;
    lasting_in(node)
}

fn lasting_in(node: Node) -> Lasting
    ensures { result ≡ lasting_at (layer node) }
{
    match node {
        Node::Nil => Lasting::Known(Life::Never),
        Node::Int(seconds) => Lasting::Known(Life::Seconds(seconds)),
        Node::Remote(renewer) => Lasting::Renewer(renewer.into_inner()),
        _ => Lasting::Known(Life::Gone),
    }
}
