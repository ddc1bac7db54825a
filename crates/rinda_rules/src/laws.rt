//! What is proved of the rules themselves. Each function does nothing, and its contract is the law.

ghost use Rattle.rinda_rules.specs.Laws.{StepIsFixed, AgingAtOnce, SettledIsKept, LegalIsSettled, OpeningIsSettled, ReopenedIsSettled};

/// A turn's picks fix its answer and what it leaves: the rules as a relation and as a function say the same.
pub fn step_is_fixed()
    ensures { StepIsFixed }
{}

/// In a sound space, aging row by row in rising id leaves the same as aging each list at once.
pub fn aging_at_once()
    ensures { AgingAtOnce }
{}

/// A turn leads from a sound and settled space to a sound and settled one: nobody waits beside a match, nothing is due,
/// what is held is granted to its holder, and ids name one object each.
pub fn settled_is_kept()
    ensures { SettledIsKept }
{}

/// Every history that is legal from a sound and settled space leads to a sound and settled one.
pub fn legal_is_settled()
    ensures { LegalIsSettled }
{}

/// The space before the first turn is sound and settled.
pub fn opening_is_settled()
    ensures { OpeningIsSettled }
{}

/// A space that is opened again is sound and settled, and has no requests.
pub fn reopened_is_settled()
    ensures { ReopenedIsSettled }
{}
