//! Each event's own case.

ghost use Rattle.std.specs.Prelude.{◌≡◌, ◌<◌, ◌^◌, None, IfOk};
ghost use Rattle.rinda_rules.specs.Cases.{outcome, shut as shut_spec};
ghost use Rattle.rinda_tables.specs.Tabled.{Stays, Fresh};
ghost use Rattle.rinda_cases.specs.Makes.{Makes, Answers, submitted as submitted_spec};

use crate::entering::{notify, reserve, write};
use crate::hearing::{pop, withdraw};
use crate::objects::{asked, cancel, look, next_ask, renew, value};
use crate::reading::read_all;
use crate::requests::{collect, settle, submit};
use rinda_rules::{Event, Out, Pick};
use rinda_tables::Tables;
use std::alloc::{AllocError, Global};

/// Makes the event's own case in the tables, ahead of what stands. The result is its answer, and the match that it picks,
/// if it picks one: the least that the request may have.
///
/// A turn makes one object at most, and fewer than 2^64 - 1 ids may have been given out.
/// Errors: only want of memory; what is ahead may then be changed in part, and what stands is as it was.
/// Source: docs/SPACE.md, Cases.
pub fn case(
    tables: &mut Tables,
    alloc: Global,
    caller: u64,
    event: &Event,
) -> Result<(Out, Option<Pick>), AllocError>
    requires room { tables.old.ids.ahead.next < 2 ^ 64 }
    requires fresh { Fresh tables.old }
    ensures answers { IfOk result (λ both.
        Answers caller event.now tables.old tables.new both.0 both.1) }
    ensures stays { Stays tables.old tables.new }
{
    match submitted(event) {
        Some(id) => submit(tables, alloc, caller, id),
        None => {
            let out = unpicked(tables, alloc, caller, event)?;
            Ok((out, None))
        }
    }
}

/// The request that the event submits.
fn submitted(event: &Event) -> Option<u64>
    ensures { result ≡ submitted_spec event.now }
{
    match event {
        Event::Submit { id } => Some(*id),
        _ => None,
    }
}

/// The case of an event that picks nothing in it.
fn unpicked(
    tables: &mut Tables,
    alloc: Global,
    caller: u64,
    event: &Event,
) -> Result<Out, AllocError>
    requires room { tables.old.ids.ahead.next < 2 ^ 64 }
    requires fresh { Fresh tables.old }
    ensures made { IfOk result (λ o. submitted_spec event.now ≡ None →
        Makes (λ s. outcome s caller event.now None) tables.old tables.new o) }
    ensures stays { Stays tables.old tables.new }
{
    match event {
        Event::Write { value, lease } => write(tables, alloc, value, lease),
        Event::Reserve {
            kind,
            pattern,
            lease,
        } => reserve(tables, alloc, caller, *kind, pattern, lease),
        Event::Submit { id: _ } => Ok(Out::Plain),
        Event::Collect { id } => collect(tables, alloc, caller, *id),
        Event::Settle { id, ok } => settle(tables, alloc, caller, *id, *ok),
        Event::Withdraw { id } => withdraw(tables, alloc, caller, *id),
        Event::Cancel { id } => cancel(tables, alloc, *id),
        Event::Renew { id, lease } => renew(tables, alloc, *id, lease),
        Event::Look { id } => Ok(look(tables, *id)),
        Event::Value { id } => value(tables, alloc, *id),
        Event::ReadAll { pattern } => read_all(tables, alloc, pattern),
        Event::Notify {
            event,
            pattern,
            lease,
        } => notify(tables, alloc, event, pattern, lease),
        Event::Pop { id } => pop(tables, alloc, *id),
        Event::NextAsk => next_ask(tables, alloc),
        Event::Asked { id, life } => asked(tables, alloc, *id, life),
        Event::Tick => Ok(Out::Plain),
        Event::Shut => shut(tables, alloc),
    }
}

/// Shuts the space.
///
/// Errors: only want of memory.
/// Source: docs/SPACE.md, Cases, Shut.
fn shut(tables: &mut Tables, alloc: Global) -> Result<Out, AllocError>
    ensures made { IfOk result (λ o. Makes shut_spec tables.old tables.new o) }
    ensures stays { Stays tables.old tables.new }
{
    if tables.shut {
        return Ok(Out::NotYet);
    }
    tables.shut_down(alloc)?;
    Ok(Out::Plain)
}
