//! The events of a notifier, one after the other.

ghost use Rattle.std.specs.Prelude.{◌≡◌};
ghost use Rattle.rinda_proxy.specs.Requests.{pop_at};
ghost use Rattle.rinda_proxy.specs.Commands.{side, Takes, popping};
ghost use Rattle.rinda_proxy.specs.Parts.{Step};

use crate::asking::{is_last, named_by};
use crate::calling::ask_event;
use crate::lines::pop_text;
use crate::printing::tell;
use crate::status::{Status, status_of};
use drb_outside::{Dialer, Sink};
use drb_packet::Limits;
use drb_value::{Remote, Value};
use std::alloc::Global;

/// Asks for one event and prints what came. None where others may follow.
fn pop_once<D: Dialer, K: Sink>(
    alloc: Global,
    of: &Remote,
    dialer: &mut D,
    output: &mut K,
    limits: &Limits,
) -> Option<Status>
    ensures { Step limits.now (pop_at of.now) result
        (side (D.calls dialer.old) (D.faults dialer.old) (K.given output.old) (K.faults output.old))
        (side (D.calls dialer.new) (D.faults dialer.new) (K.given output.new) (K.faults output.new)) }
{
    let back = ask_event(alloc, dialer, of, limits);
    let text = pop_text(alloc, &back);
    let decided = status_of(&back);
    let over = is_last(&back);
    drop(back);
    match text {
        Ok(text) => tell(output, text.as_slice(), decided, over),
        Err(_) => Some(Status::Memory),
    }
}

/// Asks the notifier that the value names for its events, at most so many, and prints each as it comes.
pub(crate) fn pop_all<D: Dialer, K: Sink>(
    alloc: Global,
    notifier: Value,
    count: u64,
    dialer: &mut D,
    output: &mut K,
    limits: &Limits,
) -> Status
    ensures { Takes (popping notifier count) limits.now result
        (side (D.calls dialer.old) (D.faults dialer.old) (K.given output.old) (K.faults output.old))
        (side (D.calls dialer.new) (D.faults dialer.new) (K.given output.new) (K.faults output.new)) }
{
    let Ok(of) = named_by(alloc, notifier) else {
        return Status::Memory;
    };
    for i in 0..count {
        if let Some(status) = pop_once(alloc, &of, dialer, output, limits) {
            return status;
        }
    }
    Status::Done
}
