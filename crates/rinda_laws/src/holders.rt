//! Who holds a tuple, and what lets it go.

ghost use Rattle.rinda_laws.specs.Holds.{HeldIsGranted, HeldStays, HeldIsTakenBySettle};

/// A tuple that is held is granted to its holder, and a request that is granted a tuple holds it.
pub fn held_is_granted()
    ensures { HeldIsGranted }
{}

/// A tuple that a Move holds stays so until the Move's own caller settles.
pub fn held_stays()
    ensures { HeldStays }
{}

/// A tuple that a Move holds ends as taken only where the Move's own caller settles with yes, or with no and a pick of
/// the same turn names it.
pub fn held_is_taken_by_settle()
    ensures { HeldIsTakenBySettle }
{}
