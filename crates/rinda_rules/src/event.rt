ghost use Rattle.std.specs.Prelude.{◌≡◌, IfOk};

use drb_value::Value;
use rinda_tuple::{Lease, Life, Template, Tuple};
use std::alloc::{AllocError, Global};

/// What a request does with a tuple that it finds.
#[derive(Clone, Copy, Debug, PartialEq, Eq)]
pub enum Kind {
    /// It is answered with the tuple, which stays.
    Read,
    /// It is answered with the tuple, which leaves.
    Take,
    /// It holds the tuple until its caller settles.
    Move,
}

/// What a caller asks of the space.
///
/// Source: Ruby's tuplespace.rb, TupleSpace and TupleEntry; docs/SPACE.md, Cases.
#[derive(Drop)]
pub enum Event {
    /// Writes a tuple.
    Write {
        value: Tuple,
        lease: Lease,
    },
    /// Makes a request, which is not submitted yet.
    Reserve {
        kind: Kind,
        pattern: Template,
        lease: Lease,
    },
    /// Submits the caller's own request: it is served at once, or waits.
    Submit {
        id: u64,
    },
    /// Asks for the answer of the caller's own request.
    Collect {
        id: u64,
    },
    /// Says whether the tuple that the caller's own request holds has arrived.
    Settle {
        id: u64,
        ok: bool,
    },
    /// Gives up waiting, for a tuple or for a notifier's next event.
    Withdraw {
        id: u64,
    },
    /// Cancels a tuple, a request or a notifier.
    Cancel {
        id: u64,
    },
    /// Gives an object a new lease.
    Renew {
        id: u64,
        lease: Lease,
    },
    /// Asks whether an object is alive, expired or canceled.
    Look {
        id: u64,
    },
    /// Asks for the tuple of an entry.
    Value {
        id: u64,
    },
    /// Asks for all tuples that match.
    ReadAll {
        pattern: Template,
    },
    /// Makes a notifier of events that the value `event` suits.
    Notify {
        event: Value,
        pattern: Template,
        lease: Lease,
    },
    /// Asks for a notifier's next event.
    Pop {
        id: u64,
    },
    /// Asks which renewer is to be asked next.
    NextAsk,
    /// Tells the life that a renewer answered.
    Asked {
        id: u64,
        life: Life,
    },
    /// Lets the space age.
    Tick,
    /// Takes in nothing new from now on, and ends all waiting.
    Shut,
}

impl Event {
    /// An equal event.
    ///
    /// Errors: only want of memory.
    pub fn copy(&self, alloc: Global) -> Result<Event, AllocError>
        ensures { IfOk result (λ event. event ≡ self.now) }
    {
        match self {
            Event::Write { value, lease } => copy_write(alloc, value, lease),
            Event::Reserve {
                kind,
                pattern,
                lease,
            } => copy_reserve(alloc, *kind, pattern, lease),
            Event::Submit { id } => Ok(Event::Submit { id: *id }),
            Event::Collect { id } => Ok(Event::Collect { id: *id }),
            Event::Settle { id, ok } => Ok(Event::Settle { id: *id, ok: *ok }),
            Event::Withdraw { id } => Ok(Event::Withdraw { id: *id }),
            Event::Cancel { id } => Ok(Event::Cancel { id: *id }),
            Event::Renew { id, lease } => copy_renew(alloc, *id, lease),
            Event::Look { id } => Ok(Event::Look { id: *id }),
            Event::Value { id } => Ok(Event::Value { id: *id }),
            Event::ReadAll { pattern } => copy_read_all(alloc, pattern),
            Event::Notify {
                event,
                pattern,
                lease,
            } => copy_notify(alloc, event, pattern, lease),
            Event::Pop { id } => Ok(Event::Pop { id: *id }),
            Event::NextAsk => Ok(Event::NextAsk),
            Event::Asked { id, life } => Ok(Event::Asked {
                id: *id,
                life: *life,
            }),
            Event::Tick => Ok(Event::Tick),
            Event::Shut => Ok(Event::Shut),
        }
    }
}

fn copy_write(alloc: Global, value: &Tuple, lease: &Lease) -> Result<Event, AllocError>
    ensures { IfOk result (λ event. event ≡ Event.Write value.now lease.now) }
{
    let value = value.copy(alloc)?;
    let lease = lease.copy(alloc)?;
    Ok(Event::Write { value, lease })
}

fn copy_reserve(
    alloc: Global,
    kind: Kind,
    pattern: &Template,
    lease: &Lease,
) -> Result<Event, AllocError>
    ensures { IfOk result (λ event. event ≡ Event.Reserve kind pattern.now lease.now) }
{
    let pattern = pattern.copy(alloc)?;
    let lease = lease.copy(alloc)?;
    Ok(Event::Reserve {
        kind,
        pattern,
        lease,
    })
}

fn copy_renew(alloc: Global, id: u64, lease: &Lease) -> Result<Event, AllocError>
    ensures { IfOk result (λ event. event ≡ Event.Renew id lease.now) }
{
    let lease = lease.copy(alloc)?;
    Ok(Event::Renew { id, lease })
}

fn copy_read_all(alloc: Global, pattern: &Template) -> Result<Event, AllocError>
    ensures { IfOk result (λ event. event ≡ Event.ReadAll pattern.now) }
{
    let pattern = pattern.copy(alloc)?;
    Ok(Event::ReadAll { pattern })
}

fn copy_notify(
    alloc: Global,
    event: &Value,
    pattern: &Template,
    lease: &Lease,
) -> Result<Event, AllocError>
    ensures { IfOk result (λ copied. copied ≡ Event.Notify event.now pattern.now lease.now) }
{
    let event = event.copy(alloc)?;
    let pattern = pattern.copy(alloc)?;
    let lease = lease.copy(alloc)?;
    Ok(Event::Notify {
        event,
        pattern,
        lease,
    })
}
