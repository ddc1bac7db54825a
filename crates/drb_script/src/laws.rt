//! What follows from where the machine stands. Each function does nothing, and its contract is the law.

ghost use Rattle.drb_script.specs.Laws.{RepliesAsScript, TurnsAsScript, CallsAsScript, LosesAsScript, MayStop, MayClear, OneReply};

/// Where the machine has a reply, the actions so far are the call's script, and that is its reply.
///
/// Source: docs/SESSIONS.md, Scripts.
pub fn replies_as_script()
    ensures { RepliesAsScript }
{}

/// Where the machine wants a turn or a call, the actions so far are the first ones of the call's script, and that is the
/// next one. So a script may be cut off there.
///
/// Source: docs/SESSIONS.md, Scripts.
pub fn wants_as_script()
    ensures turns { TurnsAsScript }
    ensures calls { CallsAsScript }
{}

/// Where the machine has stopped for want of memory, the script has: its last action is a call that found none.
///
/// Source: docs/SESSIONS.md, Scripts.
pub fn loses_as_script()
    ensures { LosesAsScript }
{}

/// Wherever the machine stands, want of memory may end the script, with or without the one turn for what is left behind.
///
/// Source: docs/SESSIONS.md, Scripts.
pub fn may_stop()
    ensures stop { MayStop }
    ensures clear { MayClear }
{}

/// By the same actions a call has one reply.
///
/// Source: docs/SESSIONS.md, Scripts.
pub fn one_reply()
    ensures { OneReply }
{}
