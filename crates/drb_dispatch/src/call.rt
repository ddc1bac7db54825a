//! What a request asks of the space.

use drb_value::{Remote, Value};
use rinda_rules::Kind;
use rinda_tuple::{Life, Template, Tuple};

/// How long something is to last.
#[derive(Drop)]
pub enum Lasting {
    /// So long.
    Known(Life),
    /// As long as this remote object answers.
    Renewer(Remote),
}

/// What is asked about an object.
#[derive(Clone, Copy, Debug, Drop, PartialEq, Eq)]
pub enum Flag {
    Alive,
    Expired,
    Canceled,
}

/// What a request asks of the space, or of the object of that id.
///
/// Source: Ruby's tuplespace.rb, TupleSpace, TupleEntry and NotifyTemplateEntry; docs/SESSIONS.md, Dispatch.
#[derive(Drop)]
pub enum Call {
    /// To write a tuple.
    Write {
        value: Tuple,
        life: Lasting,
    },
    /// To find a tuple that matches, to push it to the port where the kind is a move, and to call the block first.
    Ask {
        kind: Kind,
        pattern: Template,
        port: Option<Remote>,
        life: Lasting,
        block: Option<Remote>,
    },
    /// To have all tuples that match.
    ReadAll {
        pattern: Template,
    },
    /// To have a notifier of events that the value `event` suits.
    Notify {
        event: Value,
        pattern: Template,
        life: Lasting,
    },
    /// To cancel the object.
    Cancel {
        id: u64,
    },
    /// To let the object last so long.
    Renew {
        id: u64,
        life: Lasting,
    },
    /// To know whether this holds of the object.
    Look {
        id: u64,
        flag: Flag,
    },
    /// To have the tuple of the entry.
    Value {
        id: u64,
    },
    /// To have the notifier's next event.
    Pop {
        id: u64,
    },
    /// To call the block with each event of the notifier.
    Each {
        id: u64,
        block: Option<Remote>,
    },
}
