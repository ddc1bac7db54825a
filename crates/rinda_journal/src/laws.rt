//! The laws of the texts of turns: each function is a theorem, which its contract states.

ghost use Rattle.rinda_journal.specs.Laws.{OneTurn, OnePlace, SomeBytes, ShortEnough};

/// No text is a front of another turn's text, and the text of one turn at most begins at a place.
///
/// Source: docs/JOURNAL.md, Reading.
pub fn one_turn()
    ensures fronts { OneTurn }
    ensures places { OnePlace }
{}

/// A text has some bytes.
///
/// Source: docs/JOURNAL.md, Packets.
pub fn some_bytes()
    ensures { SomeBytes }
{}

/// The spelling of a value that fits is no longer than a dump may be, so that `write_dump` never finds it too long.
///
/// Source: docs/JOURNAL.md, Which turns have a text.
pub fn fits_is_short()
    ensures { ShortEnough }
{}
