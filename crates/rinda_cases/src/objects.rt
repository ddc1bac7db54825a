//! What can be made of any object by its id: Cancel, Renew, Look, Value and Asked; and which renewer is asked next.

ghost use Rattle.std.specs.Prelude.{◌≡◌, Some, OnOk, IfOk};
ghost use Rattle.rinda_rules.specs.declared.plain.Entry.{Entry};
ghost use Rattle.rinda_rules.specs.declared.plain.Request.{Request};
ghost use Rattle.rinda_rules.specs.declared.plain.Notifier.{Notifier};
ghost use Rattle.rinda_tuple.specs.Lives.{deadline as deadline_spec};
ghost use Rattle.rinda_rules.specs.Space.{Plain, found, tuple_at, request_at, notifier_at, renewer_of as renewer_of_spec};
ghost use Rattle.rinda_rules.specs.Cases.{cancel as cancel_spec, cancel_tuple as cancel_tuple_spec, cancel_request as cancel_request_spec, cancel_notifier, renew as renew_spec, renew_with as renew_with_spec, renew_request as renew_request_spec, renew_notifier, look as look_spec, tuple_flags as tuple_flags_spec, request_flags as request_flags_spec, notifier_flags, value as value_spec, value_ended as value_ended_spec, is_asked as is_asked_spec, told as told_spec, told_tuple as told_tuple_spec, told_request as told_request_spec, told_notifier, asking_of, askings, ask, least};
ghost use Rattle.rinda_tuple.specs.Tuples.{value_of};
ghost use Rattle.rinda_tables.specs.Holds.{Holds};
ghost use Rattle.rinda_tables.specs.Tabled.{ahead_of, Stays, BecomesBy, BecomesFor, BecomesOf};
ghost use Rattle.rinda_cases.specs.Makes.{Makes, MakesBy, MakesFor, MakesOf};

use crate::flags::{ended_flags, is_over, note_flags, request_flags, tuple_flags};
use drb_ids::Looked;
use drb_tree::Remote;
use drb_value::Value;
use rinda_rules::{Doubt, Last, ObjectKind, Out, RequestState};
use rinda_tables::Tables;
use rinda_tuple::{Lease, Life, copy_renewer, deadline};
use std::alloc::{AllocError, Global};

/// Cancels the object with that id: a tuple that nobody holds ends, and one that is held will; a reserved request will be
/// canceled once it is submitted, and a parked one is; a running notifier is closed.
///
/// Errors: only want of memory; what stands is as it was.
/// Source: docs/SPACE.md, Cases, Cancel.
pub fn cancel(tables: &mut Tables, alloc: Global, id: u64) -> Result<Out, AllocError>
    ensures made { IfOk result (λ out.
        Makes (λ s. cancel_spec s (found s id)) tables.old tables.new out) }
    ensures stays { Stays tables.old tables.new }
{
    match tables.ids.look(id) {
        Looked::Live(ObjectKind::Entry) => {
            cancel_tuple(tables, alloc, id)?;
            Ok(Out::Plain)
        }
        Looked::Live(ObjectKind::Request) => {
            cancel_request(tables, id)?;
            Ok(Out::Plain)
        }
        Looked::Live(ObjectKind::Notifier) => {
            cancel_note(tables, alloc, id)?;
            Ok(Out::Plain)
        }
        Looked::Ended(_, _) => Ok(Out::Plain),
        Looked::Recycled => Ok(Out::Recycled),
        Looked::Never => Ok(Out::Unknown),
    }
}

fn cancel_tuple(tables: &mut Tables, alloc: Global, id: u64) -> Result<(), AllocError>
    ensures becomes { OnOk result
        (BecomesBy id (λ e s. cancel_tuple_spec s e e.holder) tables.old tables.new) }
    ensures stays { Stays tables.old tables.new }
{
    let Some(row) = tables.tuples.row(id) else {
        return Ok(());
    };
    match row.holder {
        Some(_) => tables.mark_tuple(alloc, id),
        None => tables.end_tuple(alloc, Last::Canceled, id),
    }
}

fn cancel_request(tables: &mut Tables, id: u64) -> Result<(), AllocError>
    ensures becomes { OnOk result
        (BecomesFor id (λ r s. cancel_request_spec s r r.state) tables.old tables.new) }
    ensures stays { Stays tables.old tables.new }
{
    let Some(row) = tables.requests.row(id) else {
        return Ok(());
    };
    match &row.state {
        RequestState::Reserved => tables.mark_request(id),
        RequestState::Parked => tables.set_request(id, RequestState::Answered(Out::Canceled)),
        RequestState::Granted(_) => Ok(()),
        RequestState::Answered(_) => Ok(()),
    }
}

fn cancel_note(tables: &mut Tables, alloc: Global, id: u64) -> Result<(), AllocError>
    ensures becomes { OnOk result
        (BecomesOf id (λ n s. cancel_notifier s n n.state) tables.old tables.new) }
    ensures stays { Stays tables.old tables.new }
{
    if tables.notes.is_running(id) {
        tables.close(alloc, id, Last::Canceled)
    } else {
        Ok(())
    }
}

/// The object with that id has the lease from now on, and no doubt, where that can matter to it: a tuple, a request that
/// is reserved or parked, or a notifier that runs.
///
/// Errors: only want of memory; what stands is as it was.
/// Source: docs/SPACE.md, Cases, Renew.
pub fn renew(tables: &mut Tables, alloc: Global, id: u64, lease: &Lease) -> Result<Out, AllocError>
    ensures made { IfOk result (λ out.
        Makes (λ s. renew_spec s lease.now (found s id)) tables.old tables.new out) }
    ensures stays { Stays tables.old tables.new }
{
    let deadline = deadline(&lease.life, tables.clock);
    let renewer = renewer_for(alloc, deadline, &lease.renewer, tables.clock)?;
    renew_with(tables, alloc, id, deadline, renewer)
}

fn renew_with(
    tables: &mut Tables,
    alloc: Global,
    id: u64,
    deadline: Option<u64>,
    renewer: Option<Remote>,
) -> Result<Out, AllocError>
    ensures made { IfOk result (λ out.
        Makes (λ s. renew_with_spec s deadline renewer (found s id)) tables.old tables.new out) }
    ensures stays { Stays tables.old tables.new }
{
    match tables.ids.look(id) {
        Looked::Live(ObjectKind::Entry) => {
            tables.renew_tuple(alloc, id, deadline, renewer)?;
            Ok(Out::Plain)
        }
        Looked::Live(ObjectKind::Request) => {
            renew_request(tables, id, deadline, renewer)?;
            Ok(Out::Plain)
        }
        Looked::Live(ObjectKind::Notifier) => {
            renew_note(tables, alloc, id, deadline, renewer)?;
            Ok(Out::Plain)
        }
        Looked::Ended(_, _) => Ok(Out::Plain),
        Looked::Recycled => Ok(Out::Recycled),
        Looked::Never => Ok(Out::Unknown),
    }
}

fn renew_request(
    tables: &mut Tables,
    id: u64,
    deadline: Option<u64>,
    renewer: Option<Remote>,
) -> Result<(), AllocError>
    ensures becomes { OnOk result
        (BecomesFor id (λ r s. renew_request_spec s deadline renewer r r.state)
        tables.old tables.new) }
    ensures stays { Stays tables.old tables.new }
{
    let Some(row) = tables.requests.row(id) else {
        drop(renewer);
        return Ok(());
    };
    match &row.state {
        RequestState::Reserved => tables.renew_request(id, deadline, renewer),
        RequestState::Parked => tables.renew_request(id, deadline, renewer),
        RequestState::Granted(_) => Ok(()),
        RequestState::Answered(_) => Ok(()),
    }
}

fn renew_note(
    tables: &mut Tables,
    alloc: Global,
    id: u64,
    deadline: Option<u64>,
    renewer: Option<Remote>,
) -> Result<(), AllocError>
    ensures becomes { OnOk result
        (BecomesOf id (λ n s. renew_notifier s deadline renewer n n.state)
        tables.old tables.new) }
    ensures stays { Stays tables.old tables.new }
{
    if tables.notes.is_running(id) {
        tables.renew_note(alloc, id, deadline, renewer)
    } else {
        Ok(())
    }
}

/// The flags of the object with that id. Takes no memory.
///
/// Source: docs/SPACE.md, Cases, Look.
pub fn look(tables: &Tables, id: u64) -> Out
    ensures { (s : Plain) → Holds s (ahead_of tables.now) →
        result ≡ (look_spec s (found s id)).out }
{
    match tables.ids.look(id) {
        Looked::Live(ObjectKind::Entry) => look_tuple(tables, id),
        Looked::Live(ObjectKind::Request) => look_request(tables, id),
        Looked::Live(ObjectKind::Notifier) => look_note(tables, id),
        Looked::Ended(_, last) => Out::State(ended_flags(last)),
        Looked::Recycled => Out::Recycled,
        Looked::Never => Out::Unknown,
    }
}

fn look_tuple(tables: &Tables, id: u64) -> Out
    ensures { (s : Plain) (e : Entry) → Holds s (ahead_of tables.now) → tuple_at s id ≡ Some e →
        result ≡ Out.State (tuple_flags_spec s.clock e) }
{
    match tables.tuples.row(id) {
        Some(row) => Out::State(tuple_flags(tables.clock, row)),
        None => Out::Unknown,
    }
}

fn look_request(tables: &Tables, id: u64) -> Out
    ensures { (s : Plain) (r : Request) → Holds s (ahead_of tables.now) →
        request_at s id ≡ Some r → result ≡ Out.State (request_flags_spec s.clock r) }
{
    match tables.requests.row(id) {
        Some(row) => Out::State(request_flags(tables.clock, row)),
        None => Out::Unknown,
    }
}

fn look_note(tables: &Tables, id: u64) -> Out
    ensures { (s : Plain) (n : Notifier) → Holds s (ahead_of tables.now) →
        notifier_at s id ≡ Some n → result ≡ Out.State (notifier_flags s.clock n) }
{
    match tables.notes.note(id) {
        Some(note) => Out::State(note_flags(tables.clock, note)),
        None => Out::Unknown,
    }
}

/// The value of the tuple with that id; nil where it has ended.
///
/// Errors: only want of memory.
/// Source: docs/SPACE.md, Cases, Value.
pub fn value(tables: &Tables, alloc: Global, id: u64) -> Result<Out, AllocError>
    ensures { IfOk result (λ out. (s : Plain) → Holds s (ahead_of tables.now) →
        out ≡ (value_spec s (found s id)).out) }
{
    match tables.ids.look(id) {
        Looked::Live(ObjectKind::Entry) => value_of_tuple(tables, alloc, id),
        Looked::Live(ObjectKind::Request) => Ok(Out::WrongKind),
        Looked::Live(ObjectKind::Notifier) => Ok(Out::WrongKind),
        Looked::Ended(kind, _) => Ok(value_ended(kind)),
        Looked::Recycled => Ok(Out::Recycled),
        Looked::Never => Ok(Out::Unknown),
    }
}

fn value_of_tuple(tables: &Tables, alloc: Global, id: u64) -> Result<Out, AllocError>
    ensures { IfOk result (λ out. (s : Plain) (e : Entry) → Holds s (ahead_of tables.now) →
        tuple_at s id ≡ Some e → out ≡ Out.Answer (value_of e.value)) }
{
    match tables.tuples.row(id) {
        Some(row) => Ok(Out::Answer(row.value.to_value(alloc)?)),
        None => Ok(Out::Unknown),
    }
}

fn value_ended(kind: ObjectKind) -> Out
    ensures { result ≡ value_ended_spec kind }
{
    match kind {
        ObjectKind::Entry => Out::Answer(Value::nil()),
        ObjectKind::Request => Out::WrongKind,
        ObjectKind::Notifier => Out::WrongKind,
    }
}

/// The renewer of the object with that id, which was being asked, gave it that life.
///
/// Errors: only want of memory; what stands is as it was.
/// Source: docs/SPACE.md, Cases, Asked.
pub fn asked(tables: &mut Tables, alloc: Global, id: u64, life: &Life) -> Result<Out, AllocError>
    ensures made { IfOk result (λ out.
        Makes (λ s. told_spec s (deadline_spec life.now s.clock) (found s id))
        tables.old tables.new out) }
    ensures stays { Stays tables.old tables.new }
{
    let deadline = deadline(life, tables.clock);
    told(tables, alloc, id, deadline)
}

fn told(
    tables: &mut Tables,
    alloc: Global,
    id: u64,
    deadline: Option<u64>,
) -> Result<Out, AllocError>
    ensures made { IfOk result (λ out.
        Makes (λ s. told_spec s deadline (found s id)) tables.old tables.new out) }
    ensures stays { Stays tables.old tables.new }
{
    match tables.ids.look(id) {
        Looked::Live(ObjectKind::Entry) => {
            told_tuple(tables, alloc, id, deadline)?;
            Ok(Out::Plain)
        }
        Looked::Live(ObjectKind::Request) => {
            told_request(tables, alloc, id, deadline)?;
            Ok(Out::Plain)
        }
        Looked::Live(ObjectKind::Notifier) => {
            told_note(tables, alloc, id, deadline)?;
            Ok(Out::Plain)
        }
        Looked::Ended(_, _) => Ok(Out::Plain),
        Looked::Recycled => Ok(Out::Recycled),
        Looked::Never => Ok(Out::Unknown),
    }
}

fn told_tuple(
    tables: &mut Tables,
    alloc: Global,
    id: u64,
    deadline: Option<u64>,
) -> Result<(), AllocError>
    ensures becomes { OnOk result
        (BecomesBy id (λ e s. told_tuple_spec s deadline e) tables.old tables.new) }
    ensures stays { Stays tables.old tables.new }
{
    let Some(row) = tables.tuples.row(id) else {
        return Ok(());
    };
    if !is_asked(row.doubt) {
        return Ok(());
    }
    let renewer = renewer_for(alloc, deadline, &row.renewer, tables.clock)?;
    tables.renew_tuple(alloc, id, deadline, renewer)
}

fn told_request(
    tables: &mut Tables,
    alloc: Global,
    id: u64,
    deadline: Option<u64>,
) -> Result<(), AllocError>
    ensures becomes { OnOk result
        (BecomesFor id (λ r s. told_request_spec s deadline r) tables.old tables.new) }
    ensures stays { Stays tables.old tables.new }
{
    let Some(row) = tables.requests.row(id) else {
        return Ok(());
    };
    if !is_asked(row.doubt) {
        return Ok(());
    }
    let renewer = renewer_for(alloc, deadline, &row.renewer, tables.clock)?;
    tables.renew_request(id, deadline, renewer)
}

fn told_note(
    tables: &mut Tables,
    alloc: Global,
    id: u64,
    deadline: Option<u64>,
) -> Result<(), AllocError>
    ensures becomes { OnOk result
        (BecomesOf id (λ n s. told_notifier s deadline n) tables.old tables.new) }
    ensures stays { Stays tables.old tables.new }
{
    let Some(note) = tables.notes.note(id) else {
        return Ok(());
    };
    if !is_asked(note.doubt) {
        return Ok(());
    }
    let renewer = renewer_for(alloc, deadline, &note.renewer, tables.clock)?;
    tables.renew_note(alloc, id, deadline, renewer)
}

/// The object of least id whose renewer is to be asked, and that renewer, which is being asked from now on.
///
/// Errors: only want of memory; what stands is as it was.
/// Source: docs/SPACE.md, Cases, NextAsk.
pub fn next_ask(tables: &mut Tables, alloc: Global) -> Result<Out, AllocError>
    ensures made { IfOk result (λ out.
        Makes (λ s. ask s (least (askings s))) tables.old tables.new out) }
    ensures stays { Stays tables.old tables.new }
{
    let Some(id) = tables.deadlines.next_ask() else {
        return Ok(Out::NotYet);
    };
    match tables.ids.look(id) {
        Looked::Live(ObjectKind::Entry) => ask_tuple(tables, alloc, id),
        Looked::Live(ObjectKind::Request) => ask_request(tables, alloc, id),
        Looked::Live(ObjectKind::Notifier) => ask_note(tables, alloc, id),
        Looked::Ended(_, _) => Ok(Out::NotYet),
        Looked::Recycled => Ok(Out::NotYet),
        Looked::Never => Ok(Out::NotYet),
    }
}

fn ask_tuple(tables: &mut Tables, alloc: Global, id: u64) -> Result<Out, AllocError>
    ensures made { IfOk result
        (MakesBy id (λ e s. ask s (least (asking_of id Doubt.Waiting e.renewer)))
        tables.old tables.new) }
    ensures stays { Stays tables.old tables.new }
{
    let Some(row) = tables.tuples.row(id) else {
        return Ok(Out::NotYet);
    };
    let Some(renewer) = copy_renewer(alloc, &row.renewer)? else {
        return Ok(Out::NotYet);
    };
    tables.ask_tuple(alloc, id)?;
    Ok(Out::Ask(id, renewer))
}

fn ask_request(tables: &mut Tables, alloc: Global, id: u64) -> Result<Out, AllocError>
    ensures made { IfOk result
        (MakesFor id (λ r s. ask s (least (asking_of id Doubt.Waiting r.renewer)))
        tables.old tables.new) }
    ensures stays { Stays tables.old tables.new }
{
    let Some(row) = tables.requests.row(id) else {
        return Ok(Out::NotYet);
    };
    let Some(renewer) = copy_renewer(alloc, &row.renewer)? else {
        return Ok(Out::NotYet);
    };
    tables.ask_request(id)?;
    Ok(Out::Ask(id, renewer))
}

fn ask_note(tables: &mut Tables, alloc: Global, id: u64) -> Result<Out, AllocError>
    ensures made { IfOk result
        (MakesOf id (λ n s. ask s (least (asking_of id Doubt.Waiting n.renewer)))
        tables.old tables.new) }
    ensures stays { Stays tables.old tables.new }
{
    let Some(note) = tables.notes.note(id) else {
        return Ok(Out::NotYet);
    };
    let Some(renewer) = copy_renewer(alloc, &note.renewer)? else {
        return Ok(Out::NotYet);
    };
    tables.ask_note(alloc, id)?;
    Ok(Out::Ask(id, renewer))
}

/// A copy of the renewer, where it is asked for more from now on: nobody is where the lease is over as it is set.
pub(crate) fn renewer_for(
    alloc: Global,
    deadline: Option<u64>,
    renewer: &Option<Remote>,
    now: u64,
) -> Result<Option<Remote>, AllocError>
    ensures { IfOk result (λ x. x ≡ renewer_of_spec deadline renewer.now now) }
{
    if is_over(now, deadline) {
        Ok(None)
    } else {
        copy_renewer(alloc, renewer)
    }
}

fn is_asked(doubt: Doubt) -> bool
    ensures { result ≡ is_asked_spec doubt }
{
    match doubt {
        Doubt::No => false,
        Doubt::Waiting => false,
        Doubt::Asked => true,
    }
}
