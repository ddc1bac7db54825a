//! The requests of a client, each one outgoing call.

ghost use Rattle.std.specs.Prelude.{◌≡◌, ◌≤◌};
ghost use Rattle.drb_outside.specs.Told.{Told};
ghost use Rattle.rinda_proxy.specs.Requests.{asked_as, first_ask, pop_at};
ghost use Rattle.rinda_proxy.specs.Commands.{Does, Caused};

use crate::asking::{Asking, arguments_of, front_at, method_of};
use drb_back::{Back, call_back};
use drb_outside::Dialer;
use drb_packet::Limits;
use drb_value::{Remote, Text};
use std::alloc::Global;

/// Asks what is asked first.
pub(crate) fn ask_first<D: Dialer>(
    alloc: Global,
    dialer: &mut D,
    uri: &Text,
    asking: &Asking,
    limits: &Limits,
) -> Back
    ensures calls { Told (D.calls dialer.old) (D.calls dialer.new) (D.faults dialer.new)
        (Does limits.now (asked_as (first_ask uri.now asking.now) result)) }
    ensures caused { Caused (D.faults dialer.old) (D.faults dialer.new)
        (asked_as (first_ask uri.now asking.now) result) }
    ensures later { D.faults dialer.old ≤ D.faults dialer.new }
{
    let Ok(to) = front_at(alloc, uri) else {
        return Back::Memory;
    };
    match arguments_of(alloc, asking) {
        Ok(args) => call_back(
            alloc,
            dialer,
            &to,
            method_of(asking),
            args.as_slice(),
            limits,
        ),
        Err(_) => Back::Memory,
    }
}

/// Asks a notifier for its next event.
pub(crate) fn ask_event<D: Dialer>(
    alloc: Global,
    dialer: &mut D,
    of: &Remote,
    limits: &Limits,
) -> Back
    ensures calls { Told (D.calls dialer.old) (D.calls dialer.new) (D.faults dialer.new)
        (Does limits.now (asked_as (pop_at of.now) result)) }
    ensures caused { Caused (D.faults dialer.old) (D.faults dialer.new)
        (asked_as (pop_at of.now) result) }
    ensures later { D.faults dialer.old ≤ D.faults dialer.new }
{
    call_back(alloc, dialer, of, b"pop", &[], limits)
}
