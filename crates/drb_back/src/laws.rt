//! What the definitions keep: each function is a theorem, which its contract states.

ghost use Rattle.drb_back.specs.Laws.{NoneUp, Appends, InOrder};

/// After a call that added a record no call is up, and after every one where none was up before.
///
/// Source: docs/WIRE.md, Outgoing calls.
pub fn none_up()
    ensures { NoneUp }
{}

/// Where no call was up, the records that were there stand in front as they were, and at most one stands behind them.
/// So the record of a call never changes by a later one.
///
/// Source: docs/WIRE.md, Outgoing calls.
pub fn appends()
    ensures { Appends }
{}

/// Two calls in a row add to one list, each at most one record, that of the first call before that of the second.
///
/// Source: docs/WIRE.md, Outgoing calls.
pub fn in_order()
    ensures { InOrder }
{}
