//! What a script wants done after a turn.

ghost use Rattle.std.specs.Prelude.{false, ◌≡◌};
ghost use Rattle.drb_script.specs.declared.patience.Patience.{Patience};
ghost use Rattle.drb_script.specs.declared.patience.Patience.TheVariants.{Never};
ghost use Rattle.drb_script.specs.Scripts.{failing as failing_spec, failing_new as failing_new_spec, made as made_spec, listed as listed_spec, changed as changed_spec, looked as looked_spec, valued as valued_spec, port_part, flag_of as flag_spec};
ghost use Rattle.drb_script.specs.Rest.{Leaves, may_wait, after_turn, after_reserved, submitted as submitted_spec, submit as submit_spec, tell as tell_spec, collected as collected_spec, pop_again, hear_again, looks_again, waits, weight};
ghost use Rattle.drb_script.specs.Stands.{TurnedTo};

use crate::each::{heard, pop, popped, round, unheard};
use crate::next::{AfterCall, AfterTurn, Next, Saying};
use crate::patience::Patience;
use crate::reply::{Failure, Reply};
use drb_back::Back;
use drb_dispatch::Flag;
use drb_tree::Remote;
use rinda_rules::{Event, Flags, Out};

/// The failure that an answer of the space says.
pub fn failing(id: u64, out: &Out) -> Failure
    ensures { result ≡ failing_spec id out.now }
{
    match out {
        Out::Expired => Failure::Expired,
        Out::Canceled => Failure::Canceled,
        Out::WouldWait => Failure::WouldWait,
        Out::Shut => Failure::Shut,
        Out::Recycled => Failure::Recycled(id),
        Out::Unknown => Failure::Unknown(id),
        _ => Failure::WrongKind,
    }
}

/// The failure that an answer says where the event named no object.
fn failing_new(out: &Out) -> Failure
    ensures { result ≡ failing_new_spec out.now }
{
    match out {
        Out::Expired => Failure::Expired,
        Out::Canceled => Failure::Canceled,
        Out::WouldWait => Failure::WouldWait,
        Out::Shut => Failure::Shut,
        _ => Failure::WrongKind,
    }
}

/// It fails so.
pub fn fail(why: Failure) -> Next
    ensures { result ≡ Next.Reply (Reply.Failure why) }
{
    Next::Reply(Reply::Failure(why))
}

/// It fails with what the answer says.
fn fail_with(id: u64, out: Out) -> Next
    ensures { result ≡ Next.Reply (Reply.Failure (failing_spec id out)) }
{
    let why = failing(id, &out);
    drop(out);
    fail(why)
}

/// It fails with what the answer to an event that named no object says.
fn fail_new(out: Out) -> Next
    ensures { result ≡ Next.Reply (Reply.Failure (failing_new_spec out)) }
{
    let why = failing_new(&out);
    drop(out);
    fail(why)
}

fn made(out: Out) -> Next
    ensures leaves { (p : Patience) → Leaves p result (made_spec out) }
    ensures patient { may_wait result ≡ false }
{
    match out {
        Out::Entry(id) => Next::Reply(Reply::Object(id)),
        Out::Notifier(id) => Next::Reply(Reply::Object(id)),
        other => fail_new(other),
    }
}

fn listed(out: Out) -> Next
    ensures leaves { (p : Patience) → Leaves p result (listed_spec out) }
    ensures patient { may_wait result ≡ false }
{
    match out {
        Out::All(values) => Next::Reply(Reply::List(values)),
        other => fail_new(other),
    }
}

/// The request is there: its block is told, or it is submitted.
fn reserved(port: Option<Remote>, block: Option<Remote>, out: Out) -> Next
    ensures leaves { (p : Patience) → Leaves p result (after_reserved p port block out) }
    ensures patient { may_wait result ≡ false }
{
    match out {
        Out::Reserved(id) => tell(id, port, block),
        other => {
            drop(port);
            drop(block);
            fail_new(other)
        }
    }
}

fn tell(id: u64, port: Option<Remote>, block: Option<Remote>) -> Next
    ensures leaves { (p : Patience) → Leaves p result (tell_spec p id port block) }
    ensures patient { may_wait result ≡ false }
{
    match block {
        None => submit(id, port),
        Some(block) => Next::Call(block, Saying::Object(id), AfterCall::Told { id, port }),
    }
}

pub fn submit(id: u64, port: Option<Remote>) -> Next
    ensures leaves { (p : Patience) → Leaves p result (submit_spec p id port) }
    ensures patient { may_wait result ≡ false }
    ensures turn_next { weight result ≡ 0 }
{
    Next::Turn(Event::Submit { id }, AfterTurn::Submitted { id, port })
}

/// The request is submitted: it waits, or has its answer.
fn submitted(patience: Patience, id: u64, port: Option<Remote>, out: Out) -> Next
    ensures leaves { Leaves patience result (submitted_spec patience id port out) }
    ensures patient { patience ≡ Never → may_wait result ≡ false }
{
    match out {
        Out::Parked(_) => wait(patience, id, port),
        other => answered(id, port, other),
    }
}

fn wait(patience: Patience, id: u64, port: Option<Remote>) -> Next
    ensures leaves { Leaves patience result (waits patience id port) }
    ensures patient { patience ≡ Never → may_wait result ≡ false }
{
    match patience {
        Patience::Never => Next::Turn(Event::Withdraw { id }, AfterTurn::Withdrawn { id, port }),
        Patience::Wait => Next::Turn(Event::Collect { id }, AfterTurn::Collected { id, port }),
    }
}

/// The request's answer was asked for: it is asked for again, or it is there.
fn collected(patience: Patience, id: u64, port: Option<Remote>, out: Out) -> Next
    ensures leaves { Leaves patience result (collected_spec patience id port out) }
    ensures patient { patience ≡ Never → may_wait result ≡ false }
{
    if waits_on(patience, &out) {
        drop(out);
        Next::Turn(Event::Collect { id }, AfterTurn::Collected { id, port })
    } else {
        answered(id, port, out)
    }
}

/// The request has its answer: a held tuple is pushed, and all else is the reply.
fn answered(id: u64, port: Option<Remote>, out: Out) -> Next
    ensures leaves { (p : Patience) → Leaves p result (port_part port id out) }
    ensures patient { may_wait result ≡ false }
{
    match out {
        Out::Answer(value) => {
            drop(port);
            Next::Reply(Reply::Value(value))
        }
        Out::Granted(held, value) => {
            match port {
                Some(port) => Next::Call(port, Saying::Push(value), AfterCall::Pushed { id: held }),
                None => {
                    drop(value);
                    fail(Failure::WrongKind)
                }
            }
        }
        other => {
            drop(port);
            fail_with(id, other)
        }
    }
}

fn changed(id: u64, out: Out) -> Next
    ensures leaves { (p : Patience) → Leaves p result (changed_spec id out) }
    ensures patient { may_wait result ≡ false }
{
    match out {
        Out::Plain => Next::Reply(Reply::Nil),
        other => fail_with(id, other),
    }
}

fn flag_of(flag: Flag, flags: Flags) -> bool
    ensures { result ≡ flag_spec flag flags }
{
    match flag {
        Flag::Alive => flags.alive,
        Flag::Expired => flags.expired,
        Flag::Canceled => flags.canceled,
    }
}

fn looked(id: u64, flag: Flag, out: Out) -> Next
    ensures leaves { (p : Patience) → Leaves p result (looked_spec id flag out) }
    ensures patient { may_wait result ≡ false }
{
    match out {
        Out::State(flags) => Next::Reply(Reply::Flag(flag_of(flag, flags))),
        other => fail_with(id, other),
    }
}

fn valued(id: u64, out: Out) -> Next
    ensures leaves { (p : Patience) → Leaves p result (valued_spec id out) }
    ensures patient { may_wait result ≡ false }
{
    match out {
        Out::Answer(value) => Next::Reply(Reply::Value(value)),
        other => fail_with(id, other),
    }
}

/// A notifier's event was asked for: it is asked for again, or it is there.
fn pop_or_again(patience: Patience, id: u64, out: Out) -> Next
    ensures leaves { Leaves patience result (pop_again patience id out) }
    ensures patient { patience ≡ Never → may_wait result ≡ false }
{
    if waits_on(patience, &out) {
        drop(out);
        pop(patience, id)
    } else {
        popped(id, out)
    }
}

fn hear_or_again(patience: Patience, id: u64, block: Remote, first: bool, out: Out) -> Next
    ensures leaves { Leaves patience result (hear_again patience id block first out) }
    ensures patient { patience ≡ Never → may_wait result ≡ false }
{
    if waits_on(patience, &out) {
        drop(out);
        round(patience, id, block, first)
    } else {
        heard(patience, first, id, block, out)
    }
}

/// Whether one who waits has to look again.
fn waits_on(patience: Patience, out: &Out) -> bool
    ensures { result ≡ looks_again patience out.now }
{
    match patience {
        Patience::Never => false,
        Patience::Wait => matches!(out, Out::NotYet),
    }
}

/// It has done a turn for a failing call, and fails.
fn fail_by(to: Remote, back: Back, out: Out) -> Next
    ensures { result ≡ Next.Reply (Reply.Failure (Failure.Call to back)) }
{
    drop(out);
    fail(Failure::Call { to, back })
}

/// It has done its last turn.
fn done(out: Out) -> Next
    ensures { result ≡ Next.Reply Reply.Nil }
{
    drop(out);
    Next::Reply(Reply::Nil)
}

impl AfterTurn {
    /// What a script wants done after its turn was answered so.
    ///
    /// Where the machine stood where the script does, it does so again. Under `Patience::Never` no turn that it wants
    /// finds nothing to do. Takes no memory.
    /// Source: docs/SESSIONS.md, Scripts.
    pub fn turned(self, patience: Patience, out: Out) -> Next
        ensures stands { TurnedTo patience self out result }
        ensures patient { patience ≡ Never → may_wait result ≡ false }
    {
        self.turned_to(patience, out)
    }

    fn turned_to(self, patience: Patience, out: Out) -> Next
        ensures leaves { Leaves patience result (after_turn patience self out) }
        ensures patient { patience ≡ Never → may_wait result ≡ false }
    {
        match self {
            AfterTurn::Made => made(out),
            AfterTurn::Listed => listed(out),
            AfterTurn::Reserved { port, block } => reserved(port, block, out),
            AfterTurn::Untold { id: _, block, back } => fail_by(block, back, out),
            AfterTurn::Submitted { id, port } => submitted(patience, id, port, out),
            AfterTurn::Withdrawn { id, port } => answered(id, port, out),
            AfterTurn::Collected { id, port } => collected(patience, id, port, out),
            AfterTurn::Settled => done(out),
            AfterTurn::Unsettled { id: _, port, back } => fail_by(port, back, out),
            AfterTurn::Changed { id } => changed(id, out),
            AfterTurn::Looked { id, flag } => looked(id, flag, out),
            AfterTurn::Valued { id } => valued(id, out),
            AfterTurn::Popped { id } => pop_or_again(patience, id, out),
            AfterTurn::Unheard { id } => unheard(id, out),
            AfterTurn::Heard { id, block, first } => {
                hear_or_again(patience, id, block, first, out)
            }
            AfterTurn::Ended => done(out),
        }
    }
}
