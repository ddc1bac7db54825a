//! What is printed of an answer and of the dialer's list.

use crate::watched::{Note, Watched};
use drb_back::Back;
use drb_outside::{Line, ScriptDialer};
use drb_value::Value;
use marshal_write::write_dump;
use std::alloc::Global;
use std::io;

/// Prints a word and the dump of a value.
fn show_value(rt: &impl Print, alloc: Global, word: &str, value: &Value) -> io::Result<()> {
    let mut dump = Vec::new(alloc);
    match write_dump(value, &mut dump) {
        Ok(()) => println!(rt; "{word} {}", hex::encode(alloc, dump.as_slice())?),
        Err(error) => println!(rt; "{error}"),
    }
}

/// Prints what a call came to.
pub fn show_answer(rt: &impl Print, alloc: Global, back: &Back) -> io::Result<()> {
    match back {
        Back::Value(value) => show_value(rt, alloc, "value", value),
        Back::Raised(value) => show_value(rt, alloc, "raised", value),
        Back::BadUri => println!(rt; "bad uri"),
        Back::DialFault => println!(rt; "dial failed"),
        Back::ReadFault => println!(rt; "read failed"),
        Back::WriteFault => println!(rt; "write failed"),
        Back::Cut => println!(rt; "connection closed"),
        Back::Refused(why) => println!(rt; "refused: {why}"),
        Back::TooLong => println!(rt; "argument too long"),
        Back::Memory => println!(rt; "out of memory"),
    }
}

/// These bytes in hexadecimal, or `-`.
fn bytes_text(alloc: Global, bytes: &[u8]) -> io::Result<String> {
    if bytes.is_empty() {
        return Ok(String::from_str(alloc, "-")?);
    }
    Ok(hex::encode(alloc, bytes)?)
}

/// Prints the address of a call.
fn show_address(rt: &impl Print, alloc: Global, line: Option<&Line>) -> io::Result<()> {
    match line {
        Some(line) if !line.host.is_empty() => {
            let host = String::from_utf8_lossy(alloc, line.host.as_slice())?;
            print!(rt; "  {host}:{}", line.port)
        }
        _ => print!(rt; "  no address"),
    }
}

/// Prints what was sent to the peer of a call that was made, what was received, and what it still gives.
fn show_bytes(rt: &impl Print, alloc: Global, line: &Line, received: usize) -> io::Result<()> {
    let (before, behind) = line.gives.split_at(received.min(line.gives.len()));
    let sent = bytes_text(alloc, line.takes.as_slice())?;
    print!(rt; " sent {sent}")?;
    let before = bytes_text(alloc, before)?;
    print!(rt; " received {before}")?;
    let behind = bytes_text(alloc, behind)?;
    print!(rt; " gives {behind}")
}

/// Prints the record of a call.
fn show_record(
    rt: &impl Print,
    alloc: Global,
    line: Option<&Line>,
    note: Note,
    up: bool,
) -> io::Result<()> {
    show_address(rt, alloc, line)?;
    match line {
        Some(line) if !note.refused => show_bytes(rt, alloc, line, note.received)?,
        _ => print!(rt; " refused")?,
    }
    println!(rt; " {}", if up { "up" } else { "down" })
}

/// Prints the dialer's list.
pub fn show_records(
    rt: &impl Print,
    alloc: Global,
    dialer: &Watched<ScriptDialer>,
) -> io::Result<()> {
    let lines = dialer.dialer().lines();
    let notes = dialer.notes();
    for i in 0..notes.len() {
        let up = dialer.is_up() && i + 1 == notes.len();
        show_record(rt, alloc, lines.get(i), notes[i], up)?;
    }
    Ok(())
}
