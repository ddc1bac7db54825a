//! The laws of dumps: each function is a theorem, which its contract states.

ghost use Rattle.marshal_grammar.specs.Laws.{SomeAnswer, NeverBoth, OneDump, OneRefusal, AnyRest, ReadsDumps, ReadsRefusals, ReadsSpelled, DumpsFit, ShortestLongs};

/// Of each list of bytes either exactly one front is a dump, of exactly one value, or exactly one refusal holds.
///
/// Source: docs/MARSHAL.md, Refusals.
pub fn one_answer()
    ensures some { SomeAnswer }
    ensures exclusive { NeverBoth }
    ensures dump { OneDump }
    ensures refusal { OneRefusal }
{}

/// A dump says nothing of what follows it.
///
/// Source: docs/MARSHAL.md, Dumps.
pub fn any_rest()
    ensures { AnyRest }
{}

/// Reading from left to right gives exactly the dumps and the refusals of the grammar.
///
/// Source: docs/MARSHAL.md, Reading.
pub fn reading_agrees()
    ensures dumps { ReadsDumps }
    ensures refusals { ReadsRefusals }
{}

/// What is written of a value is read as that value again, whatever follows.
///
/// Source: docs/MARSHAL.md, The written spelling.
pub fn reads_spelled()
    ensures { ReadsSpelled }
{}

/// The value of a dump fits into a dump and keeps what values keep, so that what is written of it is read again.
///
/// Source: docs/MARSHAL.md, The written spelling.
pub fn dumps_fit()
    ensures { DumpsFit }
{}

/// The written spelling of a long is the shortest that it has.
///
/// Source: docs/MARSHAL.md, Longs.
pub fn shortest_longs()
    ensures { ShortestLongs }
{}
