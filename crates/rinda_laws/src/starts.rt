//! Where a history may start.

ghost use Rattle.rinda_laws.specs.Starting.{OpeningIsStart, ReopenedIsStart};

/// A history may start from the space before the first turn.
pub fn opening_is_start()
    ensures { OpeningIsStart }
{}

/// A history may start from a space that is opened again.
pub fn reopened_is_start()
    ensures { ReopenedIsStart }
{}
