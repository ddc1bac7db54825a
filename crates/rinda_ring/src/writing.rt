//! What is done of a datagram.

ghost use Rattle.std.specs.Prelude.{◌≡◌, ◌⊎◌, Err};
ghost use Rattle.drb_value.specs.View.{layer};
ghost use Rattle.drb_dispatch.specs.Calls.{lasting_at, lasting_of};
ghost use Rattle.drb_session.specs.Passes.{Lawful};
ghost use Rattle.drb_session.specs.Runs.{side};
ghost use Rattle.rinda_ring.specs.Lookups.{Finds};
ghost use Rattle.rinda_ring.specs.Tasks.{write_of};
ghost use Rattle.rinda_ring.specs.Rings.{Writes, WritesLookup, end_unread, end_written, end_halted};

use crate::end::RingEnd;
use crate::lookup::{Lookup, RingError, RingRefusal, read_lookup};
use drb_dispatch::{Call, Lasting, Place};
use drb_outside::{Clock, Dialer};
use drb_script::{Failure, Patience, Reply};
use drb_session::{Halt, Turns, run};
use drb_value::{Node, Value};
use rinda_tuple::Life;
use std::alloc::Global;

/// Writes the tuple of a datagram, with the life that it says.
///
/// It does the script of a write: where the life is a reference, that renewer is asked first, by one call of `renew`; then
/// one turn writes the tuple. The clock is read before each try of the turn, in milliseconds. It waits for nobody's turn.
/// Ends: `Ignored(why)` exactly where the datagram is no lookup, as `read_lookup` says, and then nothing was done;
/// `Served` exactly where the tuple was written; `Shut` exactly where the write was answered so; `Full { turns }` exactly
/// where the write finds the history with as many turns as it may have, which is so many; `Memory` at any time. A space
/// that keeps to the rules never gives `NoTuple`; `Failed` is never given.
/// Source: Ruby's ring.rb, RingServer#do_write; docs/RING.md, Writes.
pub fn ring_write<T: Turns, C: Clock, D: Dialer>(
    alloc: Global,
    turns: &mut T,
    place: &Place,
    clock: &mut C,
    dialer: &mut D,
    datagram: &[u8],
) -> RingEnd
    ensures writes { Writes place.now datagram.now
        (side (T.pass turns.old) (C.readings clock.old) (D.calls dialer.old) (D.faults dialer.old))
        (side (T.pass turns.new) (C.readings clock.new) (D.calls dialer.new) (D.faults dialer.new))
        result }
    ensures ignored { (why : RingRefusal) → Finds datagram.now (Err why) →
        (result ≡ RingEnd.Ignored why) ⊎ (result ≡ RingEnd.Memory) }
    ensures never { Lawful (T.pass turns.old) → result ≡ RingEnd.NoTuple → ⊥ }
    ensures lawful { Lawful (T.pass turns.old) → Lawful (T.pass turns.new) }
    ensures held { T.held turns.new ≡ T.held turns.old }
{
    match read_lookup(alloc, datagram) {
        Ok(lookup) => write_lookup_of(alloc, turns, place, clock, dialer, lookup),
        Err(error) => end_unread(error),
    }
}

/// The end where no lookup was read.
fn end_unread(error: RingError) -> RingEnd
    ensures { result ≡ end_unread error }
{
    match error {
        RingError::Refused(why) => RingEnd::Ignored(why),
        RingError::Memory => RingEnd::Memory,
    }
}

/// The script of a lookup's write.
fn write_lookup_of<T: Turns, C: Clock, D: Dialer>(
    alloc: Global,
    turns: &mut T,
    place: &Place,
    clock: &mut C,
    dialer: &mut D,
    lookup: Lookup,
) -> RingEnd
    ensures writes { WritesLookup place.now lookup
        (side (T.pass turns.old) (C.readings clock.old) (D.calls dialer.old) (D.faults dialer.old))
        (side (T.pass turns.new) (C.readings clock.new) (D.calls dialer.new) (D.faults dialer.new))
        result }
    ensures never { Lawful (T.pass turns.old) → result ≡ RingEnd.NoTuple → ⊥ }
    ensures lawful { Lawful (T.pass turns.old) → Lawful (T.pass turns.new) }
    ensures held { T.held turns.new ≡ T.held turns.old }
{
    let call = write_of(lookup);
    match run(alloc, turns, clock, dialer, place, Patience::Never, call) {
        Ok(reply) => end_written(reply),
        Err(halt) => end_halted(halt),
    }
}

/// The call that a lookup makes.
fn write_of(lookup: Lookup) -> Call
    ensures { result ≡ write_of lookup }
{
    let Lookup { tuple, life } = lookup;
    Call::Write {
        value: tuple,
        life: lasting_of(life),
    }
}

/// How long a life says, as a request's life argument does.
#[tactic(auto, using(crate::proofs::Outer::outer), unfolding(drb_dispatch::specs::Calls::lasting_of))]
fn lasting_of(life: Value) -> Lasting
    ensures { result ≡ lasting_of life }
{
    let Value { node } = life;
    lasting_in(node)
}

fn lasting_in(node: Node) -> Lasting
    ensures { result ≡ lasting_at (layer node) }
{
    match node {
        Node::Nil => Lasting::Known(Life::Never),
        Node::Int(seconds) => Lasting::Known(Life::Seconds(seconds)),
        Node::Remote(renewer) => Lasting::Renewer(renewer.into_inner()),
        _ => Lasting::Known(Life::Gone),
    }
}

/// The end by the reply of a write.
fn end_written(reply: Reply) -> RingEnd
    ensures { result ≡ end_written reply }
{
    match reply {
        Reply::Object(_) => RingEnd::Served,
        Reply::Failure(Failure::Shut) => RingEnd::Shut,
        other => {
            drop(other);
            RingEnd::NoTuple
        }
    }
}

/// The end where a script went no further.
pub fn end_halted(halt: Halt) -> RingEnd
    ensures { result ≡ end_halted halt }
{
    match halt {
        Halt::Full { turns } => RingEnd::Full { turns },
        Halt::Memory => RingEnd::Memory,
    }
}
