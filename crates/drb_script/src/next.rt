use crate::reply::Reply;
use drb_back::Back;
use drb_dispatch::Flag;
use drb_tree::Remote;
use drb_value::Value;
use rinda_rules::{Event, Kind};
use rinda_tuple::{Template, Tuple};

/// What a peer is called with.
#[derive(Drop)]
pub enum Saying {
    /// `renew`, without an argument.
    Renew,
    /// `call`, with the reference of the object with that id.
    Object(u64),
    /// `call`, with a notifier's event.
    Event(Value),
    /// `call`, with `["close"]`.
    Close,
    /// `push`, with that value.
    Push(Value),
}

/// What a script would leave behind if it went no further.
#[derive(Clone, Copy, Debug, PartialEq, Eq)]
pub enum Loose {
    Nothing,
    /// The request with that id, which may be withdrawn.
    Reserved(u64),
    /// The tuple that the request with that id holds, which may be given back.
    Granted(u64),
}

/// What a life is asked for.
#[derive(Drop)]
pub enum Leasing {
    Write {
        value: Tuple,
    },
    Ask {
        kind: Kind,
        pattern: Template,
        port: Option<Remote>,
        block: Option<Remote>,
    },
    Notify {
        event: Value,
        pattern: Template,
    },
    Renew {
        id: u64,
    },
}

/// Where a script stands while a turn is made.
#[derive(Drop)]
pub enum AfterTurn {
    /// A tuple is written, or a notifier made.
    Made,
    /// All tuples are read.
    Listed,
    /// A request is reserved.
    Reserved {
        port: Option<Remote>,
        block: Option<Remote>,
    },
    /// The request is withdrawn, since its block came to this.
    Untold {
        id: u64,
        block: Remote,
        back: Back,
    },
    /// The request is submitted.
    Submitted {
        id: u64,
        port: Option<Remote>,
    },
    /// The request is withdrawn, since nobody waits.
    Withdrawn {
        id: u64,
        port: Option<Remote>,
    },
    /// The request's answer is asked for.
    Collected {
        id: u64,
        port: Option<Remote>,
    },
    /// The tuple has arrived.
    Settled,
    /// The tuple is given back, since the port came to this.
    Unsettled {
        id: u64,
        port: Remote,
        back: Back,
    },
    /// An object is canceled, or renewed.
    Changed {
        id: u64,
    },
    /// A flag is asked for.
    Looked {
        id: u64,
        flag: Flag,
    },
    /// A tuple is asked for.
    Valued {
        id: u64,
    },
    /// A notifier's next event is asked for.
    Popped {
        id: u64,
    },
    /// A notifier is withdrawn, since its events go to no block.
    Unheard {
        id: u64,
    },
    /// A notifier's next event for that block is asked for, the first one or a later one.
    Heard {
        id: u64,
        block: Remote,
        first: bool,
    },
    /// A notifier whose events went to a block is canceled.
    Ended,
}

/// Where a script stands while a peer is called.
#[derive(Drop)]
pub enum AfterCall {
    /// A renewer is asked.
    Leased(Leasing),
    /// A block is told of a request.
    Told { id: u64, port: Option<Remote> },
    /// The tuple that a request holds is pushed.
    Pushed { id: u64 },
    /// A block is given a notifier's event.
    Given { id: u64 },
    /// A block is told that a notifier has ended.
    Closed { id: u64 },
}

/// What a script wants done next.
#[derive(Drop)]
pub enum Next {
    /// This turn. Its answer goes to `turned`.
    Turn(Event, AfterTurn),
    /// This outgoing call. What it comes to goes to `called`.
    Call(Remote, Saying, AfterCall),
    /// This reply. The script has ended.
    Reply(Reply),
    /// Nothing more, for want of memory.
    Lost(Loose),
}
