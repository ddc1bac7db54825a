//! A notifier's queue, as a part of the space's events.

ghost use Rattle.std.specs.Prelude.{◌≡◌, ◌-◌, ◌&&◌, ◌==◌, false, if◌then◌else◌, take, drop, map, filter, option_map, IfOk};
ghost use Rattle.rinda_rules.specs.Space.{hears as hears_spec, event_value as event_value_spec};
ghost use Rattle.rinda_rules.specs.Queue.{queue, queue_values, until_end as until_end_spec};
ghost use Rattle.rinda_rules.specs.Nothing.{is_empty as is_empty_spec};
ghost use Rattle.rinda_audit.specs.Replays.{first};

use crate::row::{hears, text_of};
use drb_value::Value;
use rinda_rules::plain::{Hearing, Notifier, Raised};
use sqlite_items::Items;
use std::alloc::{AllocError, Global};

/// The first event in the notifier's queue, as a caller sees it.
pub fn first_of(alloc: Global, n: &Notifier, events: &[Raised]) -> Result<Option<Value>, AllocError>
    ensures { IfOk result (λ v. v ≡ option_map event_value_spec (first (queue n.now events.now))) }
{
    first_heard(alloc, n, since(until_end(n.state, events), n.since))
}

/// The events in the notifier's queue, as a caller sees them.
pub fn queue_of(alloc: Global, n: &Notifier, events: &[Raised]) -> Result<Items<Value>, AllocError>
    ensures { IfOk result (λ all. all ≡ queue_values n.now events.now) }
{
    all_heard(alloc, n, since(until_end(n.state, events), n.since))
}

/// The notifier's queue is empty.
pub fn is_empty(alloc: Global, n: &Notifier, events: &[Raised]) -> Result<bool, AllocError>
    ensures { IfOk result (λ b. b ≡ is_empty_spec (queue n.now events.now)) }
{
    let first = first_of(alloc, n, events)?;
    Ok(first.is_none())
}

fn until_end(state: Hearing, events: &[Raised]) -> &[Raised]
    ensures { result.now ≡ until_end_spec state events.now }
{
    match state {
        Hearing::Running => events,
        Hearing::Closed { last: _, until } => before(events, until),
    }
}

fn before(events: &[Raised], until: u64) -> &[Raised]
    ensures { result.now ≡ take until events.now }
{
    let end = until.min(events.len() as u64) as usize;
    &events[..end]
}

fn since(events: &[Raised], since: u64) -> &[Raised]
    ensures { result.now ≡ drop since events.now }
{
    let start = since.min(events.len() as u64) as usize;
    &events[start..]
}

/// The first of the events that the notifier hears, after those that were popped.
fn first_heard(alloc: Global, n: &Notifier, events: &[Raised]) -> Result<Option<Value>, AllocError>
    ensures { IfOk result
        (λ v. v ≡ option_map event_value_spec
        (first (drop n.now.popped (filter (hears_spec n.now) events.now)))) }
{
    let mut left = n.popped;
    for e in events {
        let heard = hears(alloc, n, e)?;
        if heard && left == 0 {
            return Ok(Some(event_value(alloc, e)?));
        }
        left = left_after(heard, left);
    }
    Ok(None)
}

/// Those of the events that the notifier hears, after those that were popped.
fn all_heard(alloc: Global, n: &Notifier, events: &[Raised]) -> Result<Items<Value>, AllocError>
    ensures { IfOk result
        (λ all. all ≡ map event_value_spec
        (drop n.now.popped (filter (hears_spec n.now) events.now))) }
{
    let mut all = Items::new(alloc);
    let mut left = n.popped;
    for e in events {
        let heard = hears(alloc, n, e)?;
        if heard && left == 0 {
            all.push(event_value(alloc, e)?)?;
        } else {
            left = left_after(heard, left);
        }
    }
    Ok(all)
}

/// One fewer where this one was heard.
fn left_after(heard: bool, left: u64) -> u64
    requires { (heard && left == 0) ≡ false }
    ensures { result ≡ (if heard then left - 1 else left) }
{
    if heard { left - 1 } else { left }
}

fn event_value(alloc: Global, e: &Raised) -> Result<Value, AllocError>
    ensures { IfOk result (λ v. v ≡ event_value_spec e.now) }
{
    let mut parts = Items::new(alloc);
    parts.push(text_of(alloc, e.what)?)?;
    parts.push(e.tuple.to_value(alloc)?)?;
    Ok(Value::list(parts))
}
