//! What each happening in a plain space does to its notifiers, as a table has them. Each function does nothing, and its
//! contract is the law.

ghost use Rattle.rinda_notify.specs.Laws.{NoteIsFound, RaisedIsTold, CloseIsClosed, ShutIsClosed, PopGivesOne, PopIsEmpty, PopIsClosed, RenewIsRenewed, AnswerIsAnswered, DoubtIsDoubted, AskIsAsked, NewIsStarted, StartIsLoaded};

/// A table of a space's notifiers finds what the space finds.
pub fn note_is_found()
    ensures { NoteIsFound }
{}

/// What is raised comes to the queue of each notifier that runs and hears it.
pub fn raised_is_told()
    ensures { RaisedIsTold }
{}

/// A running notifier that is closed after all that was raised so far has ended, and keeps its queue.
pub fn close_is_closed()
    ensures { CloseIsClosed }
{}

/// All running notifiers are closed where the space is shut.
pub fn shut_is_closed()
    ensures { ShutIsClosed }
{}

/// A notifier that has events to give gives the first one, and keeps the rest.
pub fn pop_gives_one()
    ensures { PopGivesOne }
{}

/// One that runs and has nothing to give is empty.
pub fn pop_is_empty()
    ensures { PopIsEmpty }
{}

/// One that was closed and has nothing to give leaves.
pub fn pop_is_closed()
    ensures { PopIsClosed }
{}

/// Another lease changes no queue.
pub fn renew_is_renewed()
    ensures { RenewIsRenewed }
{}

/// What a renewer answers changes no queue.
pub fn answer_is_answered()
    ensures { AnswerIsAnswered }
{}

/// A doubt changes no queue.
pub fn doubt_is_doubted()
    ensures { DoubtIsDoubted }
{}

/// That a renewer is asked changes no queue.
pub fn ask_is_asked()
    ensures { AskIsAsked }
{}

/// A new notifier comes behind all others, with an empty queue.
pub fn new_is_started()
    ensures { NewIsStarted }
{}

/// A start has the notifiers of each space for which it stands.
pub fn start_is_loaded()
    ensures { StartIsLoaded }
{}
