//! What a notifier hears.

ghost use Rattle.rinda_laws.specs.Hears.{QueueIsExact, OldQueueIsExact, CloseIsLast};

/// The queue of a notifier is exactly the events since its registration, up to its close, that it hears, without as many
/// of the first ones as turns popped.
pub fn queue_is_exact()
    ensures { QueueIsExact }
{}

/// The queue of a notifier that was there at the start is what it had there, and then the same.
pub fn old_queue_is_exact()
    ensures { OldQueueIsExact }
{}

/// Who asks a closed notifier for its next event once its queue is empty is answered Closed.
pub fn close_is_last()
    ensures { CloseIsLast }
{}
