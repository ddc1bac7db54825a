//! What is proved of marks. Each function does nothing, and its contract is the law.

ghost use Rattle.rinda_marks.specs.Laws.{SameMarks, MatchedHas, MatchedHasBest, MatchedOpens};

/// Values that are the same have the same mark, or none.
pub fn same_marks()
    ensures { SameMarks }
{}

/// A tuple has the marks that a template asks for that matches it.
pub fn matched_has()
    ensures { MatchedHas }
{}

/// A template that matches a tuple stands under one of the tuple's marks, or asks for none.
pub fn matched_has_best()
    ensures { MatchedHasBest }
{}

/// A tuple opens as each template does that matches it.
pub fn matched_opens()
    ensures { MatchedOpens }
{}
