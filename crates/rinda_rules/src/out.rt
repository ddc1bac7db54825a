ghost use Rattle.std.specs.Prelude.{◌≡◌, IfOk};

use drb_tree::Remote;
use drb_value::{Value, copy_items};
use sqlite_items::Items;
use std::alloc::{AllocError, Global};

/// The three flags of an object.
///
/// Source: Ruby's tuplespace.rb, TupleEntry#alive?, #expired? and #canceled?; docs/SPACE.md, Cases, Look.
#[derive(Clone, Copy, Debug, PartialEq, Eq)]
pub struct Flags {
    pub alive: bool,
    pub expired: bool,
    pub canceled: bool,
}

/// What the space answers to an event.
///
/// Source: docs/SPACE.md, Cases.
#[derive(Drop)]
pub enum Out {
    /// The id of the tuple that was written.
    Entry(u64),
    /// The id of the request that was made.
    Reserved(u64),
    /// A tuple, or nil.
    Answer(Value),
    /// The request with that id waits.
    Parked(u64),
    /// The request with that id holds that tuple.
    Granted(u64, Value),
    /// All tuples that match, in rising id.
    All(Items<Value>),
    /// The id of the notifier that was made.
    Notifier(u64),
    /// A notifier's next event: a list of its name and the tuple.
    Event(Value),
    /// A notifier that has ended, and has no events left.
    Closed,
    /// The request's time is over, or the notifier has ended before.
    Expired,
    /// The request was canceled.
    Canceled,
    /// There was nothing to wait for, and the caller does not wait.
    WouldWait,
    /// There is nothing yet.
    NotYet,
    /// The flags of an object.
    State(Flags),
    /// The object with that id needs its renewer asked.
    Ask(u64, Remote),
    /// It was done.
    Plain,
    /// The object with that id has ended too long ago.
    Recycled,
    /// No object has had that id.
    Unknown,
    /// The object is of another kind or state, or another caller's.
    WrongKind,
    /// The space is shut, and takes in nothing new.
    Shut,
}

impl Out {
    /// An equal answer.
    ///
    /// Errors: only want of memory.
    pub fn copy(&self, alloc: Global) -> Result<Out, AllocError>
        ensures { IfOk result (λ out. out ≡ self.now) }
    {
        Ok(match self {
            Out::Entry(id) => Out::Entry(*id),
            Out::Reserved(id) => Out::Reserved(*id),
            Out::Answer(value) => Out::Answer(value.copy(alloc)?),
            Out::Parked(id) => Out::Parked(*id),
            Out::Granted(id, value) => Out::Granted(*id, value.copy(alloc)?),
            Out::All(values) => Out::All(copy_items(alloc, values.as_slice())?),
            Out::Notifier(id) => Out::Notifier(*id),
            Out::Event(value) => Out::Event(value.copy(alloc)?),
            Out::Closed => Out::Closed,
            Out::Expired => Out::Expired,
            Out::Canceled => Out::Canceled,
            Out::WouldWait => Out::WouldWait,
            Out::NotYet => Out::NotYet,
            Out::State(flags) => Out::State(*flags),
            Out::Ask(id, renewer) => Out::Ask(*id, renewer.copy(alloc)?),
            Out::Plain => Out::Plain,
            Out::Recycled => Out::Recycled,
            Out::Unknown => Out::Unknown,
            Out::WrongKind => Out::WrongKind,
            Out::Shut => Out::Shut,
        })
    }
}
