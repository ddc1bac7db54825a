//! A command from its first request to its status.

ghost use Rattle.std.specs.Prelude.{◌≡◌, true, Some};
ghost use Rattle.rinda_proxy.specs.Commands.{side, Asks, FaultsAs};
ghost use Rattle.rinda_proxy.specs.Lines.{first_text};
ghost use Rattle.rinda_proxy.specs.Statuses.{status_of as status_of_spec};
ghost use Rattle.rinda_proxy.specs.Parts.{Tells, Follows};

use crate::asking::{Asking, pops_of};
use crate::calling::ask_first;
use crate::lines::first_text;
use crate::printing::tell_last;
use crate::status::{Status, status_of};
use crate::watching::pop_all;
use drb_back::Back;
use drb_outside::{Dialer, Sink};
use drb_packet::Limits;
use drb_value::{Text, Value};
use std::alloc::Global;

/// Asks the space of the server at that uri, prints what it answers, and says how it ended.
///
/// Each request is one outgoing call, so one record more in the dialer's list. `Write` and `Read` print the value that
/// they are answered with, as its text and the end of the line; `ReadAll` prints each item of a list on a line of its
/// own; `Watch` prints each event as it comes, and stops after `["close"]` or when so many came. An exception is
/// printed as `CLASS: MESSAGE`, or as a value where it has no message. `limits.load` is in bytes, for each packet.
/// Ends: the first answer that isn't a value decides, and then nothing more is asked. `NotAsked` exactly where the
/// uri names no address or a dump of a request is too long; `Raised` exactly where the server raised; `NoReply` exactly
/// where its bytes are no reply. `ReadFault`, `DialFault` and `WriteFault` only where the dialer's count of faults rose,
/// the last also where that of the output did, which is asked nothing more then. Else `Done`. `Memory` at any time, and
/// where the text of a value is too long.
/// Source: Ruby's tuplespace.rb, TupleSpace; docs/CLIENT.md, Commands.
pub fn client_ask<D: Dialer, K: Sink>(
    alloc: Global,
    uri: &Text,
    asking: &Asking,
    dialer: &mut D,
    output: &mut K,
    limits: &Limits,
) -> Status
    ensures asks { Asks limits.now uri.now asking.now result
        (side (D.calls dialer.old) (D.faults dialer.old) (K.given output.old) (K.faults output.old))
        (side (D.calls dialer.new) (D.faults dialer.new) (K.given output.new) (K.faults output.new)) }
    ensures faults { FaultsAs result (D.faults dialer.old) (D.faults dialer.new)
        (K.faults output.old) (K.faults output.new) }
{
    let back = ask_first(alloc, dialer, uri, asking, limits);
    match pops_of(asking) {
        Some(count) => follow(alloc, asking, back, count, dialer, output, limits),
        None => answer(alloc, asking, back, output),
    }
}

/// Prints the answer to the only request of a command.
fn answer<K: Sink>(alloc: Global, asking: &Asking, back: Back, output: &mut K) -> Status
    ensures { Tells true (status_of_spec back) (first_text asking.now back) (Some result)
        (K.given output.old) (K.given output.new) (K.faults output.old) (K.faults output.new) }
{
    let text = first_text(alloc, asking, &back);
    let decided = status_of(&back);
    drop(back);
    match text {
        Ok(text) => tell_last(output, text.as_slice(), decided),
        Err(_) => Status::Memory,
    }
}

/// The events, where the first answer names a notifier; else that answer.
fn follow<D: Dialer, K: Sink>(
    alloc: Global,
    asking: &Asking,
    back: Back,
    count: u64,
    dialer: &mut D,
    output: &mut K,
    limits: &Limits,
) -> Status
    ensures { Follows limits.now asking.now count back result
        (side (D.calls dialer.old) (D.faults dialer.old) (K.given output.old) (K.faults output.old))
        (side (D.calls dialer.new) (D.faults dialer.new) (K.given output.new) (K.faults output.new)) }
{
    match back {
        Back::Value(notifier) => pop_all(alloc, notifier, count, dialer, output, limits),
        back => answer(alloc, asking, back, output),
    }
}
