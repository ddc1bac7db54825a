//! The answer to a lookup that waits in the space.

ghost use Rattle.std.specs.Prelude.{◌≡◌, ◌≤◌, true, IfOk};
ghost use Rattle.drb_outside.specs.Told.{Told};
ghost use Rattle.drb_script.specs.declared.patience.Patience.TheVariants.{Wait};
ghost use Rattle.drb_session.specs.Passes.{Lawful};
ghost use Rattle.drb_session.specs.Peers.{Says, Caused};
ghost use Rattle.drb_session.specs.Runs.{side};
ghost use Rattle.rinda_ring.specs.Blocks.{front, block_of};
ghost use Rattle.rinda_ring.specs.Tasks.{take_lookup, pattern, telling};
ghost use Rattle.rinda_ring.specs.Rings.{Answers, Ends, end_halted, end_told};

use crate::blocks::{block_of, front};
use crate::end::RingEnd;
use crate::lookup::lookup_name;
use crate::writing::end_halted;
use drb_back::{Back, call_back};
use drb_dispatch::{Call, Lasting, Place};
use drb_outside::{Clock, Dialer};
use drb_reply::{arguments_of, method_of};
use drb_script::{Failure, Patience, Reply, Saying};
use drb_session::{Turns, run};
use drb_tree::Remote;
use drb_value::Value;
use marshal_write::WriteError;
use rinda_rules::Kind;
use rinda_tuple::{Life, Template};
use sqlite_items::Items;
use std::alloc::{AllocError, Global};

/// Takes a lookup out of the space, and calls its block with the front of this server.
///
/// It does the script of `take([:lookup_ring, nil])`, without a block or a port and for ever; then the second item of the
/// tuple is called, by `call` with the reference of the front. An item that is no reference is called as one of an empty
/// uri. Under `Patience::Never` it waits for no lookup; under `Patience::Wait` the type of `turns` has to be one that can
/// wait. The clock is read before each try of a turn, in milliseconds.
/// Ends: `Served` exactly where the block answered a value; `Failed(back)` exactly where its call came to that, and it is
/// neither a value nor want of memory; `Shut` exactly where the take failed since the space is shut, and `NoTuple` exactly
/// where it was otherwise answered than with a tuple; `Full { turns }` exactly where an event was tried that finds
/// something to do and the history has as many turns as it may have, which is so many; `Memory` at any time. `Ignored` is
/// never given.
/// Source: Ruby's ring.rb, RingServer#do_reply; docs/RING.md, Answers.
pub fn ring_answer<T: Turns, C: Clock, D: Dialer>(
    alloc: Global,
    turns: &mut T,
    place: &Place,
    clock: &mut C,
    dialer: &mut D,
    patience: Patience,
) -> RingEnd
    requires waits { patience ≡ Wait → T.can_wait ≡ true }
    ensures answers { Answers place.now patience
        (side (T.pass turns.old) (C.readings clock.old) (D.calls dialer.old) (D.faults dialer.old))
        (side (T.pass turns.new) (C.readings clock.new) (D.calls dialer.new) (D.faults dialer.new))
        result }
    ensures lawful { Lawful (T.pass turns.old) → Lawful (T.pass turns.new) }
    ensures held { T.held turns.new ≡ T.held turns.old }
{
    let Ok(call) = take_lookup(alloc) else {
        return RingEnd::Memory;
    };
    match run(alloc, turns, clock, dialer, place, patience, call) {
        Ok(reply) => end_taken(alloc, place, dialer, reply),
        Err(halt) => end_halted(halt),
    }
}

/// The call by which a lookup is taken.
fn take_lookup(alloc: Global) -> Result<Call, AllocError>
    ensures { IfOk result (λ call. call ≡ take_lookup) }
{
    Ok(Call::Ask {
        kind: Kind::Take,
        pattern: pattern(alloc)?,
        port: None,
        life: Lasting::Known(Life::Never),
        block: None,
    })
}

/// The template of lookups.
fn pattern(alloc: Global) -> Result<Template, AllocError>
    ensures { IfOk result (λ template. template ≡ pattern) }
{
    let mut items = Items::new(alloc);
    items.push(Value::sym(lookup_name(alloc)?))?;
    items.push(Value::nil())?;
    Ok(Template::List(items))
}

/// What the take's reply comes to: the call of the tuple's block, where there is a tuple.
fn end_taken<D: Dialer>(alloc: Global, place: &Place, dialer: &mut D, reply: Reply) -> RingEnd
    ensures ends { Ends place.now reply (D.calls dialer.old) (D.calls dialer.new)
        (D.faults dialer.old) (D.faults dialer.new) result }
{
    match reply {
        Reply::Value(tuple) => {
            let block = block_of(alloc, tuple);
            end_told(tell(alloc, place, dialer, &block))
        }
        Reply::Failure(Failure::Shut) => RingEnd::Shut,
        other => {
            drop(other);
            RingEnd::NoTuple
        }
    }
}

/// The end by what the call of a block came to.
fn end_told(back: Back) -> RingEnd
    ensures { result ≡ end_told back }
{
    match back {
        Back::Value(value) => {
            drop(value);
            RingEnd::Served
        }
        Back::Memory => RingEnd::Memory,
        other => RingEnd::Failed(other),
    }
}

/// Calls the block with the front of this server.
fn tell<D: Dialer>(alloc: Global, place: &Place, dialer: &mut D, block: &Remote) -> Back
    ensures calls { Told (D.calls dialer.old) (D.calls dialer.new) (D.faults dialer.new)
        (Says place.now block.now (telling place.now.uri) result) }
    ensures later { D.faults dialer.old ≤ D.faults dialer.new }
    ensures caused { Caused place.now (D.faults dialer.old) (D.faults dialer.new)
        block.now (telling place.now.uri) result }
{
    let Ok(front) = front(alloc, &place.uri) else {
        return Back::Memory;
    };
    let saying = Saying::Event(front);
    let name = method_of(&saying);
    match arguments_of(alloc, &place.uri, saying) {
        Ok(args) => call_back(alloc, dialer, block, name, args.as_slice(), &place.limits),
        Err(WriteError::TooLong) => Back::TooLong,
        Err(WriteError::Memory) => Back::Memory,
    }
}
