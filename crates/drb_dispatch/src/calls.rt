//! What each method is a call of, argument by argument.

ghost use Rattle.std.specs.Prelude.{◌≡◌};
ghost use Rattle.drb_dispatch.specs.Calls.{call_of as call_spec, front_call, object_call, asked, write_call, read_all_call, notify_call, move_call, kind_to as kind_spec};

use crate::arguments::{lasting_of, next, port_of, template_of, tuple_of};
use crate::call::{Call, Flag};
use crate::fault::Fault;
use crate::method::{FrontMethod, Method, ObjectMethod};
use drb_value::{Items, Remote, Value};
use rinda_rules::Kind;

/// The call of a method with these arguments and this block.
pub fn call_of(method: Method, args: Items<Value>, block: Option<Remote>) -> Result<Call, Fault>
    ensures { result ≡ call_spec method args block }
{
    match method {
        Method::Front(method) => front(method, args, block),
        Method::Object(id, method) => Ok(object(id, method, args, block)),
    }
}

/// The call of a method of the space.
fn front(method: FrontMethod, args: Items<Value>, block: Option<Remote>) -> Result<Call, Fault>
    ensures { result ≡ front_call method args block }
{
    match method {
        FrontMethod::Write => write(args),
        FrontMethod::Take => ask(Kind::Take, args, block),
        FrontMethod::Read => ask(Kind::Read, args, block),
        FrontMethod::ReadAll => read_all(args),
        FrontMethod::Notify => notify(args),
        FrontMethod::Move => ask_to(args, block),
    }
}

/// `write(tuple, life)`.
#[tactic(auto, using(crate::proofs::Behind::second), unfolding(crate::specs::Calls::write_call))]
fn write(mut args: Items<Value>) -> Result<Call, Fault>
    ensures { result ≡ write_call args }
{
    let value = tuple_of(next(&mut args))?;
    let life = lasting_of(next(&mut args));
    Ok(Call::Write { value, life })
}

/// `take(template, life)` and `read(template, life)`.
#[tactic(auto, using(crate::proofs::Behind::second), unfolding(crate::specs::Calls::asked))]
fn ask(kind: Kind, mut args: Items<Value>, block: Option<Remote>) -> Result<Call, Fault>
    ensures { result ≡ asked kind args block }
{
    let pattern = template_of(next(&mut args))?;
    let life = lasting_of(next(&mut args));
    Ok(Call::Ask {
        kind,
        pattern,
        port: None,
        life,
        block,
    })
}

/// `read_all(template)`.
#[tactic(auto, unfolding(crate::specs::Calls::read_all_call))]
fn read_all(mut args: Items<Value>) -> Result<Call, Fault>
    ensures { result ≡ read_all_call args }
{
    let pattern = template_of(next(&mut args))?;
    Ok(Call::ReadAll { pattern })
}

/// `notify(event, template, life)`.
#[tactic(auto, using(crate::proofs::Behind::second, crate::proofs::Behind::third), unfolding(crate::specs::Calls::notify_call))]
fn notify(mut args: Items<Value>) -> Result<Call, Fault>
    ensures { result ≡ notify_call args }
{
    let event = next(&mut args);
    let pattern = template_of(next(&mut args))?;
    let life = lasting_of(next(&mut args));
    Ok(Call::Notify {
        event,
        pattern,
        life,
    })
}

/// `move(port, template, life)`.
#[tactic(auto, using(crate::proofs::Behind::second, crate::proofs::Behind::third), unfolding(crate::specs::Calls::move_call))]
fn ask_to(mut args: Items<Value>, block: Option<Remote>) -> Result<Call, Fault>
    ensures { result ≡ move_call args block }
{
    let port = next(&mut args);
    let pattern = template_of(next(&mut args))?;
    let port = port_of(port)?;
    let life = lasting_of(next(&mut args));
    Ok(Call::Ask {
        kind: kind_to(&port),
        pattern,
        port,
        life,
        block,
    })
}

/// Where there is a port, the tuple is moved there; else it is taken.
fn kind_to(port: &Option<Remote>) -> Kind
    ensures { result ≡ kind_spec port.now }
{
    match port {
        None => Kind::Take,
        Some(_) => Kind::Move,
    }
}

/// The call of a method of the object of that id.
fn object(id: u64, method: ObjectMethod, mut args: Items<Value>, block: Option<Remote>) -> Call
    ensures { result ≡ object_call id method args block }
{
    match method {
        ObjectMethod::Cancel => Call::Cancel { id },
        ObjectMethod::Renew => Call::Renew {
            id,
            life: lasting_of(next(&mut args)),
        },
        ObjectMethod::IsAlive => look(id, Flag::Alive),
        ObjectMethod::IsExpired => look(id, Flag::Expired),
        ObjectMethod::IsCanceled => look(id, Flag::Canceled),
        ObjectMethod::Value => Call::Value { id },
        ObjectMethod::Pop => Call::Pop { id },
        ObjectMethod::Each => Call::Each { id, block },
    }
}

fn look(id: u64, flag: Flag) -> Call
    ensures { result ≡ Call.Look id flag }
{
    Call::Look { id, flag }
}
