//! Whole turns, from any sound and settled start. Each function does nothing, and its contract is the law.
//!
//! A space over tables is proved with these: it shows that its tables equal the lists of a space that a law names.

ghost use Rattle.rinda_effects.specs.Answers.{StepAnswers};
ghost use Rattle.rinda_effects.specs.Turns.{OpeningIsReached, ReachedIsSettled, FoundIsSound, CaseIsSound, MatchIsSound, EventTouchesOne, MatchTouchesNone, SubmitChooses, SubmitChoosesNone, StepMakesTurn, EventMakesTurn, ReadMakesTurn, TakeMakesTurn, DeadMakesTurn, LoneMakesTurn, ServeMakesTurn, MatchMakesTurn, StepExists};

/// Every legal history is reached from the opening.
pub fn opening_is_reached()
    ensures { OpeningIsReached }
{}

/// What is reached from a sound and settled start is sound and settled.
pub fn reached_is_settled()
    ensures { ReachedIsSettled }
{}

/// A sound space that is advanced and aged is sound, and nothing is due.
pub fn found_is_sound()
    ensures { FoundIsSound }
{}

/// An event's own case that picks nothing keeps a space sound.
pub fn case_is_sound()
    ensures { CaseIsSound }
{}

/// A Submit that is served at once keeps a space sound.
pub fn match_is_sound()
    ensures { MatchIsSound }
{}

/// After an event only what it touched may be served.
pub fn event_touches_one()
    ensures { EventTouchesOne }
{}

/// After a Submit that is served at once nothing may be.
pub fn match_touches_none()
    ensures { MatchTouchesNone }
{}

/// A Submit of the caller's own reserved request that has a match picks one.
pub fn submit_chooses()
    ensures { SubmitChooses }
{}

/// Every other Submit picks nothing in its own case.
pub fn submit_chooses_none()
    ensures { SubmitChoosesNone }
{}

/// A step that isn't nothing makes a turn of the history.
pub fn step_makes_turn()
    ensures { StepMakesTurn }
{}

/// An event that touches no row makes a turn without picks.
pub fn event_makes_turn()
    ensures { EventMakesTurn }
{}

/// An event that touches a tuple makes a turn in which all that wait to read it do so.
pub fn read_makes_turn()
    ensures { ReadMakesTurn }
{}

/// The same, where one that waits to take it or to hold it then gets it.
pub fn take_makes_turn()
    ensures { TakeMakesTurn }
{}

/// An event that touches a tuple, which isn't live after all, makes a turn without picks.
pub fn dead_makes_turn()
    ensures { DeadMakesTurn }
{}

/// An event that touches a request, which has no match, makes a turn without picks.
pub fn lone_makes_turn()
    ensures { LoneMakesTurn }
{}

/// An event that touches a request, which has a match, makes a turn with one pick.
pub fn serve_makes_turn()
    ensures { ServeMakesTurn }
{}

/// A Submit that is served at once makes a turn with its own pick alone.
pub fn match_makes_turn()
    ensures { MatchMakesTurn }
{}

/// From a sound and settled space every event has a step, so that the rules are never empty.
pub fn step_exists()
    ensures { StepExists }
{}

/// A step gives one of the answers that its event may have.
pub fn step_answers()
    ensures { StepAnswers }
{}
