//! How tuples come and leave.

ghost use Rattle.rinda_laws.specs.Balance.{LeavesOnce, GoneStays, NobodyWaits};

/// Each tuple is written once, and leaves at most once, with one take or delete.
pub fn leaves_once()
    ensures { LeavesOnce }
{}

/// A tuple that left never comes back.
pub fn gone_stays()
    ensures { GoneStays }
{}

/// After each turn nobody waits beside a match, and nothing is due.
pub fn nobody_waits()
    ensures { NobodyWaits }
{}
