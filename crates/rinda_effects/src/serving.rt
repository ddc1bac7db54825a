//! What serves that which an event touched. Each function does nothing, and its contract is the law.
//!
//! In a settled space nobody waits beside a match. So after an event only that may be served which the event touched:
//! no row, one tuple or one request.

ghost use Rattle.rinda_effects.specs.Served.{AgingTouchesNone, NothingIsServed, DeadTupleIsNotServed, TupleIsRead, TupleIsTaken, LoneRequestIsNotServed, RequestIsServed, ReadersInOrder, AnswersAreRead, PickServesOne, PicksNameTouched, RequestIsServedOnce, TupleIsServedSo};

/// Aging touches no row.
pub fn aging_touches_none()
    ensures { AgingTouchesNone }
{}

/// No row was touched, so nobody is served.
pub fn nothing_is_served()
    ensures { NothingIsServed }
{}

/// The tuple that was touched isn't live, so nobody is served.
pub fn dead_tuple_is_not_served()
    ensures { DeadTupleIsNotServed }
{}

/// The tuple that was touched is read by all that wait to read it, in any order.
pub fn tuple_is_read()
    ensures { TupleIsRead }
{}

/// The tuple that was touched is read by all that wait to read it, and then taken or held by any one that waits to.
pub fn tuple_is_taken()
    ensures { TupleIsTaken }
{}

/// The request that was touched has no match, so nobody is served.
pub fn lone_request_is_not_served()
    ensures { LoneRequestIsNotServed }
{}

/// The request that was touched gets any one match.
pub fn request_is_served()
    ensures { RequestIsServed }
{}

/// The requests that wait to read a tuple, in rising id, are its readers.
pub fn readers_in_order()
    ensures { ReadersInOrder }
{}

/// Readers that are answered one after another are answered as all at once.
pub fn answers_are_read()
    ensures { AnswersAreRead }
{}

/// After a pick one request less waits.
pub fn pick_serves_one()
    ensures { PickServesOne }
{}

/// However a space is served, each pick is of what was touched.
pub fn picks_name_touched()
    ensures { PicksNameTouched }
{}

/// A request that was touched gets one pick or none.
pub fn request_is_served_once()
    ensures { RequestIsServedOnce }
{}

/// However a tuple that was touched is served, all that wait to read it do so, and then at most one gets it.
pub fn tuple_is_served_so()
    ensures { TupleIsServedSo }
{}
