//! What makes an object: Write, Reserve and Notify.

ghost use Rattle.std.specs.Prelude.{◌≡◌, ◌<◌, ◌^◌, false, OnOk, IfOk};
ghost use Rattle.rinda_rules.specs.Space.{is_over as is_over_spec};
ghost use Rattle.rinda_rules.specs.Cases.{minted, written, write as write_spec, reserve as reserve_spec, notify as notify_spec};
ghost use Rattle.rinda_tables.specs.Tabled.{Stays, Fresh, Mints, new_entry, with_new_notifier};
ghost use Rattle.rinda_cases.specs.Makes.{Makes, written_past};

use crate::flags::is_over;
use crate::objects::renewer_for;
use drb_tree::Remote;
use drb_value::Value;
use rinda_rules::plain::Happening;
use rinda_rules::{Kind, Out};
use rinda_serve::tell;
use rinda_tables::Tables;
use rinda_tuple::{Lease, Template, Tuple, copy_renewer, deadline};
use std::alloc::{AllocError, Global};

/// Writes a copy of the tuple.
///
/// A turn makes one object at most, and fewer than 2^64 - 1 ids may have been given out.
/// Errors: only want of memory; what is ahead may then be changed in part, and what stands is as it was.
/// Source: docs/SPACE.md, Cases, Write.
pub fn write(
    tables: &mut Tables,
    alloc: Global,
    value: &Tuple,
    lease: &Lease,
) -> Result<Out, AllocError>
    requires room { tables.old.ids.ahead.next < 2 ^ 64 }
    requires fresh { Fresh tables.old }
    ensures made { IfOk result (λ out.
        Makes (λ s. write_spec s value.now lease.now) tables.old tables.new out) }
    ensures stays { Stays tables.old tables.new }
{
    if tables.shut {
        return Ok(Out::Shut);
    }
    let deadline = deadline(&lease.life, tables.clock);
    let id = if is_over(tables.clock, deadline) {
        write_over(tables, alloc, value)?
    } else {
        write_in(tables, alloc, value, lease, deadline)?
    };
    Ok(Out::Entry(id))
}

/// The tuple comes into the space, with a copy of the lease's renewer.
fn write_in(
    tables: &mut Tables,
    alloc: Global,
    value: &Tuple,
    lease: &Lease,
    deadline: Option<u64>,
) -> Result<u64, AllocError>
    requires room { tables.old.ids.ahead.next < 2 ^ 64 }
    requires fresh { Fresh tables.old }
    ensures written { IfOk result (λ id. Mints (λ s.
        written (new_entry s.next value.now deadline lease.now.renewer) (minted s))
        id tables.old tables.new) }
    ensures stays { Stays tables.old tables.new }
{
    let renewer = copy_renewer(alloc, &lease.renewer)?;
    let copy = match value.copy(alloc) {
        Ok(copy) => copy,
        Err(refused) => {
            drop(renewer);
            return Err(refused);
        }
    };
    let id = tables.add_tuple(copy, deadline, renewer)?;
    tables.raise(alloc, Happening::Write, value)?;
    Ok(id)
}

/// The tuple has expired as it is written: it is read, and raised as written and as deleted.
fn write_over(tables: &mut Tables, alloc: Global, value: &Tuple) -> Result<u64, AllocError>
    requires room { tables.old.ids.ahead.next < 2 ^ 64 }
    requires fresh { Fresh tables.old }
    ensures written { IfOk result (λ id.
        Mints (written_past value.now) id tables.old tables.new) }
    ensures stays { Stays tables.old tables.new }
{
    let id = tables.pass_tuple()?;
    drop(tell(tables, alloc, value)?);
    tables.raise(alloc, Happening::Write, value)?;
    tables.raise(alloc, Happening::Delete, value)?;
    Ok(id)
}

/// Makes a request with a copy of the template, which is not submitted yet.
///
/// A turn makes one object at most, and fewer than 2^64 - 1 ids may have been given out.
/// Errors: only want of memory; what is ahead may then be changed in part, and what stands is as it was.
/// Source: docs/SPACE.md, Cases, Reserve.
pub fn reserve(
    tables: &mut Tables,
    alloc: Global,
    caller: u64,
    kind: Kind,
    pattern: &Template,
    lease: &Lease,
) -> Result<Out, AllocError>
    requires room { tables.old.ids.ahead.next < 2 ^ 64 }
    requires fresh { Fresh tables.old }
    ensures made { IfOk result (λ out.
        Makes (λ s. reserve_spec s caller kind pattern.now lease.now) tables.old tables.new out) }
    ensures stays { Stays tables.old tables.new }
{
    if tables.shut {
        return Ok(Out::Shut);
    }
    let deadline = deadline(&lease.life, tables.clock);
    let renewer = renewer_for(alloc, deadline, &lease.renewer, tables.clock)?;
    let pattern = match pattern.copy(alloc) {
        Ok(pattern) => pattern,
        Err(refused) => {
            drop(renewer);
            return Err(refused);
        }
    };
    let id = tables.add_request(caller, kind, pattern, deadline, renewer)?;
    Ok(Out::Reserved(id))
}

/// Makes a notifier with copies of both patterns.
///
/// A turn makes one object at most, and fewer than 2^64 - 1 ids may have been given out.
/// Errors: only want of memory; what is ahead may then be changed in part, and what stands is as it was.
/// Source: docs/SPACE.md, Cases, Notify.
pub fn notify(
    tables: &mut Tables,
    alloc: Global,
    event: &Value,
    pattern: &Template,
    lease: &Lease,
) -> Result<Out, AllocError>
    requires room { tables.old.ids.ahead.next < 2 ^ 64 }
    requires fresh { Fresh tables.old }
    ensures made { IfOk result (λ out.
        Makes (λ s. notify_spec s event.now pattern.now lease.now) tables.old tables.new out) }
    ensures stays { Stays tables.old tables.new }
{
    if tables.shut {
        return Ok(Out::Shut);
    }
    let deadline = deadline(&lease.life, tables.clock);
    let renewer = renewer_for(alloc, deadline, &lease.renewer, tables.clock)?;
    let id = add_note(tables, alloc, event, pattern, deadline, renewer)?;
    Ok(Out::Notifier(id))
}

fn add_note(
    tables: &mut Tables,
    alloc: Global,
    event: &Value,
    pattern: &Template,
    deadline: Option<u64>,
    renewer: Option<Remote>,
) -> Result<u64, AllocError>
    requires room { tables.old.ids.ahead.next < 2 ^ 64 }
    requires fresh { Fresh tables.old }
    ensures added { IfOk result (λ id.
        Mints (with_new_notifier event.now pattern.now deadline renewer)
        id tables.old tables.new) }
    ensures stays { Stays tables.old tables.new }
{
    let pattern = match pattern.copy(alloc) {
        Ok(pattern) => pattern,
        Err(refused) => {
            drop(renewer);
            return Err(refused);
        }
    };
    let event = match event.copy(alloc) {
        Ok(event) => event,
        Err(refused) => {
            drop(pattern);
            drop(renewer);
            return Err(refused);
        }
    };
    tables.add_note(alloc, event, pattern, deadline, renewer)
}
