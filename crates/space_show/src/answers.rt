//! Answers, as a line shows them.

use crate::words::Known;
use drb_tree::Remote;
use drb_value::Value;
use marshal_write::write_dump;
use rinda_rules::{Flags, ObjectKind, Out};
use std::alloc::Global;
use std::io;

/// The word for an answer.
pub fn word_of(out: &Out) -> &'static str {
    match out {
        Out::Entry(_) => "entry",
        Out::Reserved(_) => "reserved",
        Out::Answer(_) => "answer",
        Out::Parked(_) => "parked",
        Out::Granted(_, _) => "granted",
        Out::All(_) => "all",
        Out::Notifier(_) => "notifier",
        Out::Event(_) => "event",
        Out::Closed => "closed",
        Out::Expired => "expired",
        Out::Canceled => "canceled",
        Out::WouldWait => "would_wait",
        Out::NotYet => "not_yet",
        Out::State(_) => "state",
        Out::Ask(_, _) => "ask",
        Out::Plain => "plain",
        Out::Recycled => "recycled",
        Out::Unknown => "unknown",
        Out::WrongKind => "wrong_kind",
        Out::Shut => "shut",
    }
}

/// The id that the answer gives out, and for what.
pub fn given_by(out: &Out) -> Option<(u64, ObjectKind)> {
    match out {
        Out::Entry(id) => Some((*id, ObjectKind::Entry)),
        Out::Reserved(id) => Some((*id, ObjectKind::Request)),
        Out::Notifier(id) => Some((*id, ObjectKind::Notifier)),
        _ => None,
    }
}

/// Prints the answer: its word, and then its parts.
pub fn show_out(rt: &impl Print, known: &Known, alloc: Global, out: &Out) -> io::Result<()> {
    print!(rt; "{}", word_of(out))?;
    match out {
        Out::Entry(id) => print!(rt; " {id}"),
        Out::Reserved(id) => print!(rt; " {id}"),
        Out::Answer(value) => show_value(rt, known, alloc, value),
        Out::Parked(id) => print!(rt; " {id}"),
        Out::Granted(id, value) => {
            print!(rt; " {id}")?;
            show_value(rt, known, alloc, value)
        }
        Out::All(values) => show_all(rt, known, alloc, values.as_slice()),
        Out::Notifier(id) => print!(rt; " {id}"),
        Out::Event(value) => show_value(rt, known, alloc, value),
        Out::State(flags) => show_flags(rt, *flags),
        Out::Ask(id, renewer) => {
            print!(rt; " {id}")?;
            show_renewer(rt, known, alloc, renewer)
        }
        _ => Ok(()),
    }
}

fn show_all(rt: &impl Print, known: &Known, alloc: Global, values: &[Value]) -> io::Result<()> {
    for value in values {
        show_value(rt, known, alloc, value)?;
    }
    Ok(())
}

/// Prints each flag that is set.
fn show_flags(rt: &impl Print, flags: Flags) -> io::Result<()> {
    if flags.alive {
        print!(rt; " alive")?;
    }
    if flags.expired {
        print!(rt; " expired")?;
    }
    if flags.canceled {
        print!(rt; " canceled")?;
    }
    Ok(())
}

fn show_renewer(rt: &impl Print, known: &Known, alloc: Global, renewer: &Remote) -> io::Result<()> {
    let value = Value::remote(alloc, renewer.copy(alloc)?)?;
    let shown = show_value(rt, known, alloc, &value);
    drop(value);
    shown
}

/// Prints the name of the value, or else its dump.
fn show_value(rt: &impl Print, known: &Known, alloc: Global, value: &Value) -> io::Result<()> {
    let mut dump = Vec::new(alloc);
    match write_dump(value, &mut dump) {
        Ok(()) => {
            let spelled = hex::encode(alloc, dump.as_slice())?;
            print!(rt; " {}", known.name_of(spelled.as_str()))
        }
        Err(error) => print!(rt; " {error}"),
    }
}
