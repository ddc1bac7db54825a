//! Which answers each event may have, and when it is nothing. Each function does nothing, and its contract is the law.

ghost use Rattle.rinda_effects.specs.Answers.{CaseAnswers, NothingIsNotYet};

/// Each event's own case gives one of the answers that its kind may have.
pub fn case_answers()
    ensures { CaseAnswers }
{}

/// An event is nothing exactly where no row is due, and it is a Tick or its own case answers NotYet.
pub fn nothing_is_not_yet()
    ensures { NothingIsNotYet }
{}
