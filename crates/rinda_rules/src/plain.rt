//! The rows of the plain space, of which `specs/` speaks: each has all that the rules say of its object.

use crate::{Doubt, Kind, Last, ObjectKind, RequestState};
use drb_tree::Remote;
use drb_value::Value;
use rinda_tuple::{Template, Tuple};

/// A tuple that is in the space.
///
/// `deadline` is in milliseconds. `holder` is the request that holds it; without one the tuple is free. `marked` says
/// that it was canceled while it was held.
#[derive(Drop)]
pub struct Entry {
    pub id: u64,
    pub value: Tuple,
    pub deadline: Option<u64>,
    pub renewer: Option<Remote>,
    pub holder: Option<u64>,
    pub marked: bool,
    pub doubt: Doubt,
}

/// A request that was made and has not ended.
///
/// `marked` says that it was canceled before it was submitted.
#[derive(Drop)]
pub struct Request {
    pub id: u64,
    pub caller: u64,
    pub kind: Kind,
    pub pattern: Template,
    pub deadline: Option<u64>,
    pub renewer: Option<Remote>,
    pub marked: bool,
    pub doubt: Doubt,
    pub state: RequestState,
}

/// Whether a notifier still hears events.
#[derive(Clone, Copy, Debug, PartialEq, Eq)]
pub enum Hearing {
    Running,
    /// It ended so, after that many events of the space.
    Closed { last: Last, until: u64 },
}

/// A notifier that was made and has not ended.
///
/// It hears the space's events from `since` on, and that many of those that it hears were popped.
#[derive(Drop)]
pub struct Notifier {
    pub id: u64,
    pub event: Value,
    pub pattern: Template,
    pub deadline: Option<u64>,
    pub renewer: Option<Remote>,
    pub doubt: Doubt,
    pub state: Hearing,
    pub since: u64,
    pub popped: u64,
}

/// What can happen to a tuple.
#[derive(Clone, Copy, Debug, PartialEq, Eq)]
pub enum Happening {
    Write,
    Take,
    Delete,
}

/// An event of the space: what happened to which tuple.
#[derive(Drop)]
pub struct Raised {
    pub what: Happening,
    pub id: u64,
    pub tuple: Tuple,
}

/// An object that has ended.
#[derive(Clone, Copy, Debug, PartialEq, Eq)]
pub struct Ended {
    pub id: u64,
    pub kind: ObjectKind,
    pub last: Last,
}
