use rinda_rules::plain::{Entry, Notifier, Request};
use rinda_rules::{Last, ObjectKind};

/// What an id names: an object of the space, one that ended, one that ended too long ago, or none.
#[derive(Drop)]
pub enum Found {
    TheTuple(Entry),
    TheRequest(Request),
    TheNotifier(Notifier),
    HasEnded(ObjectKind, Last),
    IsRecycled,
    IsUnknown,
}
