//! What is stored of a space, as a line shows it.

use drb_tree::Remote;
use drb_value::Value;
use marshal_write::write_dump;
use rinda_audit::Replay;
use rinda_rules::{
    Ended, Last, NoteRow, NoteState, ObjectKind, Start, StartLease, StartNote, TupleRow,
};
use rinda_tuple::Tuple;
use std::alloc::Global;
use std::io;

/// Prints what is stored of the space, its parts a ` / ` apart, or that it may not be stored.
pub fn show_start(rt: &impl Print, alloc: Global, replay: &Replay) -> io::Result<()> {
    if !replay.may_be_stored() {
        return println!(rt; "refused");
    }
    let start = replay.start(alloc)?;
    let shown = show_parts(rt, alloc, &start);
    drop(start);
    shown
}

/// `start NOW NEXT`, and then each row, lease and object that ended.
fn show_parts(rt: &impl Print, alloc: Global, start: &Start) -> io::Result<()> {
    print!(rt; "start {} {}", start.now, start.next)?;
    for row in start.tuples.as_slice() {
        show_tuple(rt, alloc, row)?;
    }
    for note in start.notes.as_slice() {
        show_note(rt, alloc, note)?;
    }
    for lease in start.leases.as_slice() {
        show_lease(rt, alloc, lease)?;
    }
    for ended in start.ended.as_slice() {
        show_ended(rt, ended)?;
    }
    println!(rt; "")
}

/// `tuple ID VALUE DEADLINE DOUBTED`.
fn show_tuple(rt: &impl Print, alloc: Global, row: &TupleRow) -> io::Result<()> {
    print!(rt; " / tuple {}", row.id)?;
    show_parts_of(rt, alloc, &row.value)?;
    show_deadline(rt, row.deadline)?;
    show_truth(rt, row.doubted)
}

fn show_parts_of(rt: &impl Print, alloc: Global, tuple: &Tuple) -> io::Result<()> {
    let value = tuple.to_value(alloc)?;
    let shown = show_value(rt, alloc, &value);
    drop(value);
    shown
}

/// `notifier ID STATE EVENT..`.
fn show_note(rt: &impl Print, alloc: Global, note: &StartNote) -> io::Result<()> {
    show_row(rt, &note.row)?;
    for event in note.events.as_slice() {
        show_value(rt, alloc, event)?;
    }
    Ok(())
}

fn show_row(rt: &impl Print, row: &NoteRow) -> io::Result<()> {
    let state = match row.state {
        NoteState::Running => "running",
        NoteState::Closed(last) => word_of(last),
    };
    print!(rt; " / notifier {} {state}", row.id)
}

/// `lease ID DEADLINE RENEWER DOUBTED`.
fn show_lease(rt: &impl Print, alloc: Global, lease: &StartLease) -> io::Result<()> {
    print!(rt; " / lease {}", lease.id)?;
    show_deadline(rt, lease.deadline)?;
    show_renewer(rt, alloc, &lease.renewer)?;
    show_truth(rt, lease.doubted)
}

fn show_renewer(rt: &impl Print, alloc: Global, renewer: &Option<Remote>) -> io::Result<()> {
    match renewer {
        None => print!(rt; " -"),
        Some(remote) => show_remote(rt, alloc, remote),
    }
}

fn show_remote(rt: &impl Print, alloc: Global, remote: &Remote) -> io::Result<()> {
    let value = Value::remote(alloc, remote.copy(alloc)?)?;
    let shown = show_value(rt, alloc, &value);
    drop(value);
    shown
}

/// `ended ID KIND HOW`.
fn show_ended(rt: &impl Print, ended: &Ended) -> io::Result<()> {
    let kind = match ended.kind {
        ObjectKind::Entry => "tuple",
        ObjectKind::Request => "request",
        ObjectKind::Notifier => "notifier",
    };
    print!(rt; " / ended {} {kind} {}", ended.id, word_of(ended.last))
}

fn word_of(last: Last) -> &'static str {
    match last {
        Last::Taken => "taken",
        Last::Expired => "expired",
        Last::Canceled => "canceled",
        Last::Done => "done",
    }
}

fn show_deadline(rt: &impl Print, deadline: Option<u64>) -> io::Result<()> {
    match deadline {
        None => print!(rt; " never"),
        Some(at) => print!(rt; " {at}"),
    }
}

fn show_truth(rt: &impl Print, truth: bool) -> io::Result<()> {
    print!(rt; " {}", if truth { "yes" } else { "no" })
}

/// Prints the dump of a value.
fn show_value(rt: &impl Print, alloc: Global, value: &Value) -> io::Result<()> {
    let mut dump = Vec::new(alloc);
    match write_dump(value, &mut dump) {
        Ok(()) => print!(rt; " {}", hex::encode(alloc, dump.as_slice())?),
        Err(error) => print!(rt; " {error}"),
    }
}
