//! What a script would leave behind if it went no further, and the one turn that may still be made for it.

ghost use Rattle.std.specs.Prelude.{◌≡◌};
ghost use Rattle.drb_script.specs.Rest.{loose_call, loose_turn, loose_next};
ghost use Rattle.drb_script.specs.Stands.{clearing as clearing_spec};

use crate::next::{AfterCall, AfterTurn, Loose, Next};
use rinda_rules::Event;

impl AfterCall {
    /// What would be left behind where this answer doesn't come.
    ///
    /// Source: docs/SESSIONS.md, Scripts.
    pub fn loose(&self) -> Loose
        ensures { result ≡ loose_call self.now }
    {
        match self {
            AfterCall::Told { id, .. } => Loose::Reserved(*id),
            AfterCall::Pushed { id } => Loose::Granted(*id),
            _ => Loose::Nothing,
        }
    }
}

impl AfterTurn {
    /// What would be left behind where this answer doesn't come.
    ///
    /// Source: docs/SESSIONS.md, Scripts.
    pub fn loose(&self) -> Loose
        ensures { result ≡ loose_turn self.now }
    {
        match self {
            AfterTurn::Untold { id, .. } => Loose::Reserved(*id),
            AfterTurn::Submitted { id, .. } => Loose::Reserved(*id),
            AfterTurn::Unsettled { id, .. } => Loose::Granted(*id),
            _ => Loose::Nothing,
        }
    }
}

impl Next {
    /// What would be left behind if the script went no further.
    ///
    /// Source: docs/SESSIONS.md, Scripts.
    pub fn loose(&self) -> Loose
        ensures { result ≡ loose_next self.now }
    {
        match self {
            Next::Turn(_, then) => then.loose(),
            Next::Call(_, _, then) => then.loose(),
            Next::Reply(_) => Loose::Nothing,
            Next::Lost(loose) => *loose,
        }
    }
}

/// The one turn that may still be made for what would be left behind.
///
/// Source: docs/SESSIONS.md, Scripts.
pub fn clearing(loose: Loose) -> Option<Event>
    ensures { result ≡ clearing_spec loose }
{
    match loose {
        Loose::Nothing => None,
        Loose::Reserved(id) => Some(Event::Withdraw { id }),
        Loose::Granted(id) => Some(Event::Settle { id, ok: false }),
    }
}
