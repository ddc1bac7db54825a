use drb_back::Back;
use drb_tree::Remote;
use drb_value::Value;
use sqlite_items::Items;

/// Why a call fails.
///
/// Source: docs/SESSIONS.md, Replies.
#[derive(Drop)]
pub enum Failure {
    /// The request's time was over, or the notifier had ended before.
    Expired,
    /// The request was canceled.
    Canceled,
    /// There was nothing, and the caller does not wait.
    WouldWait,
    /// The space is shut.
    Shut,
    /// The object with that id has ended too long ago.
    Recycled(u64),
    /// No object has had that id.
    Unknown(u64),
    /// The object isn't of the method's kind.
    WrongKind,
    /// The call of that peer came to something else than a value.
    Call { to: Remote, back: Back },
}

/// What a call is replied with.
///
/// Source: docs/SESSIONS.md, Replies.
#[derive(Drop)]
pub enum Reply {
    Nil,
    Flag(bool),
    /// The reference of the object with that id.
    Object(u64),
    Value(Value),
    List(Items<Value>),
    /// A notifier has ended, and has no events left: `["close"]`.
    Close,
    Failure(Failure),
}
