//! A notifier's next event: Pop, and Withdraw, which doesn't wait.

ghost use Rattle.std.specs.Prelude.{◌≡◌, IfOk};
ghost use Rattle.rinda_rules.specs.Space.{found};
ghost use Rattle.rinda_rules.specs.Cases.{pop as pop_spec, pop_notifier, pop_ended as pop_ended_spec, withdraw as withdraw_spec};
ghost use Rattle.rinda_tables.specs.Tabled.{Stays};
ghost use Rattle.rinda_cases.specs.Makes.{Makes, MakesOf, nothing_for as nothing_for_spec};

use crate::requests::withdraw_request;
use drb_ids::Looked;
use rinda_notify::Popped;
use rinda_rules::{ObjectKind, Out};
use rinda_tables::Tables;
use std::alloc::{AllocError, Global};

/// Takes the next event off a notifier's queue.
///
/// Errors: only want of memory; what is ahead may then be changed in part, and what stands is as it was.
/// Source: docs/SPACE.md, Cases, Pop.
pub fn pop(tables: &mut Tables, alloc: Global, id: u64) -> Result<Out, AllocError>
    ensures made { IfOk result (λ out.
        Makes (λ s. pop_spec s (found s id)) tables.old tables.new out) }
    ensures stays { Stays tables.old tables.new }
{
    match tables.ids.look(id) {
        Looked::Live(ObjectKind::Notifier) => pop_note(tables, alloc, id, true),
        Looked::Live(ObjectKind::Request) => Ok(Out::WrongKind),
        Looked::Live(ObjectKind::Entry) => Ok(Out::WrongKind),
        Looked::Ended(kind, _) => Ok(pop_ended(kind)),
        Looked::Recycled => Ok(Out::Recycled),
        Looked::Never => Ok(Out::Unknown),
    }
}

/// Gives up waiting: for the caller's own request, or for a notifier's next event.
///
/// Errors: only want of memory; what is ahead may then be changed in part, and what stands is as it was.
/// Source: docs/SPACE.md, Cases, Withdraw.
pub fn withdraw(tables: &mut Tables, alloc: Global, caller: u64, id: u64) -> Result<Out, AllocError>
    ensures made { IfOk result (λ out.
        Makes (λ s. withdraw_spec s caller (found s id)) tables.old tables.new out) }
    ensures stays { Stays tables.old tables.new }
{
    match tables.ids.look(id) {
        Looked::Live(ObjectKind::Request) => withdraw_request(tables, alloc, caller, id),
        Looked::Live(ObjectKind::Notifier) => pop_note(tables, alloc, id, false),
        Looked::Live(ObjectKind::Entry) => Ok(Out::WrongKind),
        Looked::Ended(kind, _) => Ok(pop_ended(kind)),
        Looked::Recycled => Ok(Out::Recycled),
        Looked::Never => Ok(Out::Unknown),
    }
}

/// The next event of the notifier; where there is none yet, the answer of one who waits, or who doesn't.
fn pop_note(tables: &mut Tables, alloc: Global, id: u64, waits: bool) -> Result<Out, AllocError>
    ensures made { IfOk result (λ out.
        MakesOf id (λ n s. pop_notifier s (nothing_for_spec waits) n) tables.old tables.new out) }
    ensures stays { Stays tables.old tables.new }
{
    match tables.pop(alloc, id)? {
        Popped::Event(event) => Ok(Out::Event(event)),
        Popped::Closed => Ok(Out::Closed),
        Popped::Empty => Ok(nothing_for(waits)),
    }
}

fn nothing_for(waits: bool) -> Out
    ensures { result ≡ nothing_for_spec waits }
{
    if waits { Out::NotYet } else { Out::WouldWait }
}

/// What is answered for a notifier that has ended, and for an object of another kind.
fn pop_ended(kind: ObjectKind) -> Out
    ensures { result ≡ pop_ended_spec kind }
{
    match kind {
        ObjectKind::Entry => Out::WrongKind,
        ObjectKind::Request => Out::WrongKind,
        ObjectKind::Notifier => Out::Expired,
    }
}
