//! Whose a request is.

ghost use Rattle.rinda_laws.specs.Owns.{RequestStays, StateStays, OwnIsAnswered, NeitherIsNothing};

/// A request begins reserved, as that of the caller that made it. From then on, until its own caller's turn that ends it,
/// it is there and is that caller's.
pub fn request_stays()
    ensures { RequestStays }
{}

/// No turn but its own caller's takes a request out of the states reserved and granted.
pub fn state_stays()
    ensures { StateStays }
{}

/// A Submit by its caller while it is reserved is answered with a tuple, Parked, Expired or Canceled, and a Settle by its
/// caller while it is granted a tuple Plain: neither is ever WrongKind, Unknown or Recycled.
pub fn own_is_answered()
    ensures { OwnIsAnswered }
{}

/// A Submit and a Settle are never nothing.
pub fn neither_is_nothing()
    ensures { NeitherIsNothing }
{}
