//! How a client's command ends.

ghost use Rattle.std.specs.Prelude.{◌≡◌};
ghost use Rattle.rinda_proxy.specs.Statuses.{number_of, status_of as status_of_spec};

use drb_back::Back;

/// How a client's command ended.
///
/// Source: docs/CLIENT.md, Statuses.
#[derive(Clone, Copy, Debug, PartialEq, Eq)]
pub enum Status {
    /// All was asked and printed.
    Done,
    /// A request was not made: the uri names no address, or a dump of the request is too long.
    NotAsked,
    /// The server raised an exception.
    Raised,
    /// What the server sent is no reply, or its bytes ended before one.
    NoReply,
    /// The dialer failed at a receive.
    ReadFault,
    /// The dialer failed at a send, or the output failed.
    WriteFault,
    /// There was no memory.
    Memory,
    /// The dialer failed at a dial.
    DialFault,
}

impl Status {
    /// The number that the process ends with: 0 to 5, 7 or 8.
    pub fn number(self) -> u8
        ensures { result ≡ number_of self }
    {
        match self {
            Status::Done => 0,
            Status::NotAsked => 1,
            Status::Raised => 2,
            Status::NoReply => 3,
            Status::ReadFault => 4,
            Status::WriteFault => 5,
            Status::Memory => 7,
            Status::DialFault => 8,
        }
    }
}

/// The status that an answer decides; None of a value.
pub(crate) fn status_of(back: &Back) -> Option<Status>
    ensures { result ≡ status_of_spec back.now }
{
    match back {
        Back::Value(_) => None,
        Back::Raised(_) => Some(Status::Raised),
        Back::BadUri | Back::TooLong => Some(Status::NotAsked),
        Back::DialFault => Some(Status::DialFault),
        Back::ReadFault => Some(Status::ReadFault),
        Back::WriteFault => Some(Status::WriteFault),
        Back::Cut | Back::Refused(_) => Some(Status::NoReply),
        Back::Memory => Some(Status::Memory),
    }
}
