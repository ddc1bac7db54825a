//! Turns where nothing is due, with answer, picks and space written out. Each function does nothing, and its contract
//! is the law.

ghost use Rattle.rinda_effects.specs.Quiet.{WriteIsRead, WriteIsTaken, SubmitIsTaken};

/// A Write that nobody waits to take: all that wait to read the tuple do so.
pub fn write_is_read()
    ensures { WriteIsRead }
{}

/// A Write that a request waits to take or to hold: all that wait to read it do so, and the request gets it.
pub fn write_is_taken()
    ensures { WriteIsTaken }
{}

/// A Submit of a Take that has a match: it is answered at once, and both rows are gone.
pub fn submit_is_taken()
    ensures { SubmitIsTaken }
{}
