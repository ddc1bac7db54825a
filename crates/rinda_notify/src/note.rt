//! A notifier as a table has it.

ghost use Rattle.std.specs.Prelude.{◌≡◌};
ghost use Rattle.rinda_notify.specs.Notes.{is_open as is_open_spec};

use crate::queue::Queue;
use drb_tree::Remote;
use drb_value::Value;
use rinda_rules::{Doubt, NoteState};
use rinda_tuple::Template;

/// A notifier with what is left of its queue.
///
/// `event` suits the names of the events that it hears, and `pattern` matches their tuples. `deadline` is in
/// milliseconds; None is no deadline.
#[derive(Drop)]
pub struct Note {
    pub id: u64,
    pub event: Value,
    pub pattern: Template,
    pub deadline: Option<u64>,
    pub renewer: Option<Remote>,
    pub doubt: Doubt,
    pub state: NoteState,
    pub queue: Queue,
}

/// What a notifier gives to whoever asks for its next event.
#[derive(Drop)]
pub enum Popped {
    /// The first event of its queue, which has left the queue.
    Event(Value),
    /// It has ended and gave all its events before. Its row is gone.
    Closed,
    /// It runs, and has no event to give.
    Empty,
}

/// It still hears events.
pub(crate) fn is_open(state: NoteState) -> bool
    ensures { result ≡ is_open_spec state }
{
    match state {
        NoteState::Running => true,
        NoteState::Closed(_) => false,
    }
}
