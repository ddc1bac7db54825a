//! What the definitions keep: each function is a theorem, which its contract states.

ghost use Rattle.drb_packet.specs.Laws.{RequestsAnyMore, RepliesAnyMore, RequestsUndecided, RepliesUndecided};
ghost use Rattle.drb_packet.specs.Laws.{RequestsBehind, RepliesBehind, RequestsEnd, RepliesEnd, RequestsCut};

/// What the first bytes decide, they decide whatever follows them.
///
/// Source: docs/WIRE.md, What stands first.
pub fn any_more()
    ensures requests { RequestsAnyMore }
    ensures replies { RepliesAnyMore }
{}

/// Where bytes don't decide what stands first, something else stands first with some further bytes behind them.
///
/// Source: docs/WIRE.md, What stands first.
pub fn undecided()
    ensures requests { RequestsUndecided }
    ensures replies { RepliesUndecided }
{}

/// The bytes behind a request, a reply or a refusal are the end of all the bytes.
///
/// Source: docs/WIRE.md, What stands first.
pub fn behind()
    ensures requests { RequestsBehind }
    ensures replies { RepliesBehind }
{}

/// Nothing stands first exactly where there are no bytes.
///
/// Source: docs/WIRE.md, What stands first.
pub fn ends_at_end()
    ensures requests { RequestsEnd }
    ensures replies { RepliesEnd }
{}

/// The requests of bytes are the one that stands first and then those of the bytes behind it.
///
/// Source: docs/WIRE.md, What stands first.
pub fn cuts()
    ensures { RequestsCut }
{}
