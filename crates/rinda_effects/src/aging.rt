//! Which rows aging changes. Each function does nothing, and its contract is the law.

ghost use Rattle.rinda_effects.specs.Ages.{NothingAges, QuietIsFound, LaterIsNotDue, DueRowsAge};
ghost use Rattle.rinda_effects.specs.Dues.{CaseLeavesOneDue, OneAges, QuietIsUnserved};

/// Where nothing is due, aging changes nothing.
pub fn nothing_ages()
    ensures { NothingAges }
{}

/// Where nothing is due, the event finds the space as it was, but for the clock.
pub fn quiet_is_found()
    ensures { QuietIsFound }
{}

/// Where each deadline without a doubt is later, nothing is due.
pub fn later_is_not_due()
    ensures { LaterIsNotDue }
{}

/// Aging changes the rows that are due alone, by their ids, one after another.
pub fn due_rows_age()
    ensures { DueRowsAge }
{}

/// After an event's own case at most one row is due: the one that the event names, lets go or makes.
pub fn case_leaves_one_due()
    ensures { CaseLeavesOneDue }
{}

/// Where at most one row is due, aging changes it alone.
pub fn one_ages()
    ensures { OneAges }
{}

/// Where nothing is due, before and after the event's own case, the turn doesn't age.
pub fn quiet_is_unserved()
    ensures { QuietIsUnserved }
{}
