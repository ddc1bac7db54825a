use crate::{Kind, Last, Out};
use drb_value::Value;
use rinda_tuple::{Template, Tuple};

/// A tuple as the space keeps it. Its renewer stands with the leases.
///
/// `deadline` is in milliseconds; None is no deadline. `holder` is the request that holds it.
#[derive(Drop)]
pub struct TupleRow {
    pub id: u64,
    pub value: Tuple,
    pub deadline: Option<u64>,
    pub holder: Option<u64>,
    pub marked: bool,
    pub doubted: bool,
}

/// How far a request has come.
#[derive(Drop)]
pub enum RequestState {
    /// It is not submitted yet.
    Reserved,
    /// It waits for a match.
    Parked,
    /// It holds the tuple with that id.
    Granted(u64),
    /// It has this answer, which was not collected yet.
    Answered(Out),
}

/// A request as the space keeps it. Its renewer stands with the leases.
///
/// `deadline` is in milliseconds; None is no deadline.
#[derive(Drop)]
pub struct RequestRow {
    pub id: u64,
    pub caller: u64,
    pub kind: Kind,
    pub pattern: Template,
    pub deadline: Option<u64>,
    pub marked: bool,
    pub doubted: bool,
    pub state: RequestState,
}

/// Whether a notifier still hears events.
#[derive(Clone, Copy, Debug, PartialEq, Eq)]
pub enum NoteState {
    Running,
    /// It ended so, and its queue may still be popped.
    Closed(Last),
}

/// A notifier as the space keeps it, without its queue.
///
/// `event` suits the names of the events that it hears.
#[derive(Drop)]
pub struct NoteRow {
    pub id: u64,
    pub event: Value,
    pub pattern: Template,
    pub state: NoteState,
}
