//! What raising, popping and closing do to the queues of notifiers. Each function does nothing, and its contract is
//! the law.

ghost use Rattle.rinda_effects.specs.Queues.{RaisedIsQueued, PopDropsOne, CloseKeepsQueue, CloseKeepsEarlier, LeaseKeepsQueue, NewQueueIsEmpty};

/// What is raised joins the queues of exactly those notifiers that run and hear it.
pub fn raised_is_queued()
    ensures { RaisedIsQueued }
{}

/// A pop takes the first one, and leaves the rest.
pub fn pop_drops_one()
    ensures { PopDropsOne }
{}

/// A notifier that is closed keeps its queue, whatever is raised later.
pub fn close_keeps_queue()
    ensures { CloseKeepsQueue }
{}

/// A notifier that is closed amid what is raised keeps what was raised before, as far as it hears it.
pub fn close_keeps_earlier()
    ensures { CloseKeepsEarlier }
{}

/// A lease or a doubt changes no queue.
pub fn lease_keeps_queue()
    ensures { LeaseKeepsQueue }
{}

/// The queue of a new notifier is empty.
pub fn new_queue_is_empty()
    ensures { NewQueueIsEmpty }
{}
