//! When a request is answered Expired or Canceled.

ghost use Rattle.rinda_laws.specs.Decides.{ExpiredIsDecided, CanceledIsNamed};

/// Expired is answered only to a Submit of a request whose deadline is at most now, without a renewer and without a
/// match; of a request that a turn before, or the same one, found waiting so; and of a notifier that has ended.
pub fn expired_is_decided()
    ensures { ExpiredIsDecided }
{}

/// Canceled is answered only of an id that a Cancel, or a Shut, named before or in that turn.
pub fn canceled_is_named()
    ensures { CanceledIsNamed }
{}
