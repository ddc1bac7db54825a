//! Notifiers: their events one after the other.

ghost use Rattle.std.specs.Prelude.{false, ◌<◌, ◌≡◌};
ghost use Rattle.drb_script.specs.declared.patience.Patience.{Patience};
ghost use Rattle.drb_script.specs.declared.patience.Patience.TheVariants.{Never};
ghost use Rattle.drb_script.specs.Scripts.{pop as pop_spec, is_value as is_value_spec, unheard as unheard_spec, failing_pop, popped as popped_spec};
ghost use Rattle.drb_script.specs.Rest.{Leaves, may_wait, pop_event, from_round, weight, ending as ending_spec, hearing};

use crate::next::{AfterCall, AfterTurn, Next, Saying};
use crate::patience::Patience;
use crate::reply::{Failure, Reply};
use crate::turned::{fail, failing};
use drb_back::Back;
use drb_tree::Remote;
use rinda_rules::{Event, Out};

fn event_of(patience: Patience, id: u64) -> Event
    ensures { result ≡ pop_event patience id }
{
    match patience {
        Patience::Never => Event::Withdraw { id },
        Patience::Wait => Event::Pop { id },
    }
}

pub fn pop(patience: Patience, id: u64) -> Next
    ensures leaves { Leaves patience result (pop_spec patience id) }
    ensures patient { patience ≡ Never → may_wait result ≡ false }
    ensures no_reply { weight result < 2 }
{
    Next::Turn(event_of(patience, id), AfterTurn::Popped { id })
}

/// The next round.
pub fn round(patience: Patience, id: u64, block: Remote, first: bool) -> Next
    ensures leaves { Leaves patience result (from_round patience first id block) }
    ensures patient { patience ≡ Never → may_wait result ≡ false }
    ensures turn_next { weight result ≡ 0 }
{
    Next::Turn(
        event_of(patience, id),
        AfterTurn::Heard { id, block, first },
    )
}

/// A further round, or the end.
pub fn ending(patience: Patience, id: u64, block: Remote, more: bool) -> Next
    ensures leaves { Leaves patience result (ending_spec patience id block more) }
    ensures patient { patience ≡ Never → may_wait result ≡ false }
    ensures turn_next { weight result ≡ 0 }
{
    if more {
        round(patience, id, block, false)
    } else {
        drop(block);
        Next::Turn(Event::Cancel { id }, AfterTurn::Ended)
    }
}

/// Whether a block was answered by a value.
pub fn is_value(back: &Back) -> bool
    ensures { result ≡ is_value_spec back.now }
{
    matches!(back, Back::Value(_))
}

/// Why the pop of an event fails.
pub fn failing_of(id: u64, out: &Out) -> Failure
    ensures { result ≡ failing_pop id out.now }
{
    match out {
        Out::Canceled => Failure::WrongKind,
        _ => failing(id, out),
    }
}

/// The failure of a pop.
fn fail_pop(id: u64, out: Out) -> Next
    ensures { result ≡ Next.Reply (Reply.Failure (failing_pop id out)) }
{
    let why = failing_of(id, &out);
    drop(out);
    fail(why)
}

/// Popped for itself: the event is the reply.
pub fn popped(id: u64, out: Out) -> Next
    ensures leaves { (p : Patience) → Leaves p result (popped_spec id out) }
    ensures patient { may_wait result ≡ false }
{
    match out {
        Out::Event(value) => Next::Reply(Reply::Value(value)),
        Out::Closed => Next::Reply(Reply::Close),
        other => fail_pop(id, other),
    }
}

/// Popped for a block: the event goes to it.
pub fn heard(patience: Patience, first: bool, id: u64, block: Remote, out: Out) -> Next
    ensures leaves { Leaves patience result (hearing patience first id block out) }
    ensures patient { patience ≡ Never → may_wait result ≡ false }
{
    match out {
        Out::Event(value) => Next::Call(block, Saying::Event(value), AfterCall::Given { id }),
        Out::Closed => Next::Call(block, Saying::Close, AfterCall::Closed { id }),
        Out::Expired => ending(patience, id, block, false),
        Out::WouldWait => ending(patience, id, block, false),
        Out::Recycled => recycled(patience, first, id, block),
        other => {
            drop(block);
            fail_pop(id, other)
        }
    }
}

/// The notifier has ended too long ago.
fn recycled(patience: Patience, first: bool, id: u64, block: Remote) -> Next
    ensures leaves { Leaves patience result (hearing patience first id block Out.Recycled) }
    ensures patient { patience ≡ Never → may_wait result ≡ false }
{
    if first {
        drop(block);
        fail(Failure::Recycled(id))
    } else {
        ending(patience, id, block, false)
    }
}

/// A notifier without a block was withdrawn.
pub fn unheard(id: u64, out: Out) -> Next
    ensures leaves { (p : Patience) → Leaves p result (unheard_spec id out) }
    ensures patient { may_wait result ≡ false }
{
    match out {
        Out::Unknown => fail(Failure::Unknown(id)),
        Out::Recycled => fail(Failure::Recycled(id)),
        Out::WrongKind => fail(Failure::WrongKind),
        other => {
            drop(other);
            Next::Turn(Event::Cancel { id }, AfterTurn::Ended)
        }
    }
}
