//! What is printed of lookups, ends and calls.

use drb_back::Back;
use drb_outside::Line;
use drb_value::Value;
use marshal_write::write_dump;
use rinda_ring::{Lookup, RingEnd, RingError, RingRefusal};
use std::alloc::Global;
use std::io;

/// Prints the dump of a value in hexadecimal.
fn print_value(rt: &impl Print, alloc: Global, value: Value) -> io::Result<()> {
    let mut dump = Vec::new(alloc);
    let written = write_dump(&value, &mut dump);
    drop(value);
    match written {
        Ok(()) => print!(rt; "{}", hex::encode(alloc, dump.as_slice())?),
        Err(error) => print!(rt; "{error}"),
    }
}

/// Prints a refusal. One of dumps has its number in docs/MARSHAL.md, Refusals.
fn print_refusal(rt: &impl Print, why: RingRefusal) -> io::Result<()> {
    match why {
        RingRefusal::Marshal(refusal) => {
            print!(rt;
                "marshal refusal {} at {}",
                refusal.why.number(),
                refusal.at
            )
        }
        RingRefusal::NotAPair => print!(rt; "not a pair"),
        RingRefusal::NotATuple => print!(rt; "not a tuple"),
    }
}

fn show_found(rt: &impl Print, alloc: Global, lookup: Lookup) -> io::Result<()> {
    let Lookup { tuple, life } = lookup;
    print!(rt; "tuple ")?;
    print_value(rt, alloc, tuple.into_value())?;
    print!(rt; ", life ")?;
    print_value(rt, alloc, life)?;
    println!(rt; "")
}

/// Prints what a datagram is read as.
pub fn show_read(
    rt: &impl Print,
    alloc: Global,
    read: Result<Lookup, RingError>,
) -> io::Result<()> {
    match read {
        Ok(lookup) => show_found(rt, alloc, lookup),
        Err(RingError::Refused(why)) => {
            print_refusal(rt, why)?;
            println!(rt; "")
        }
        Err(RingError::Memory) => println!(rt; "out of memory"),
    }
}

/// Prints what the call of a block came to.
fn print_back(rt: &impl Print, alloc: Global, back: Back) -> io::Result<()> {
    match back {
        Back::Value(value) => print_value(rt, alloc, value),
        Back::Raised(value) => {
            print!(rt; "raised ")?;
            print_value(rt, alloc, value)
        }
        Back::BadUri => print!(rt; "bad uri"),
        Back::DialFault => print!(rt; "dial failed"),
        Back::ReadFault => print!(rt; "read failed"),
        Back::WriteFault => print!(rt; "write failed"),
        Back::Cut => print!(rt; "connection closed"),
        Back::Refused(why) => print!(rt; "refused: {why}"),
        Back::TooLong => print!(rt; "argument too long"),
        Back::Memory => print!(rt; "out of memory"),
    }
}

/// Prints the word for an end.
pub fn show_end(rt: &impl Print, alloc: Global, end: RingEnd) -> io::Result<()> {
    match end {
        RingEnd::Served => print!(rt; "served"),
        RingEnd::Ignored(why) => {
            print!(rt; "ignored: ")?;
            print_refusal(rt, why)
        }
        RingEnd::Failed(back) => {
            print!(rt; "failed: ")?;
            print_back(rt, alloc, back)
        }
        RingEnd::NoTuple => print!(rt; "no tuple"),
        RingEnd::Shut => print!(rt; "shut"),
        RingEnd::Full { turns } => print!(rt; "full after {turns} turns"),
        RingEnd::Memory => print!(rt; "out of memory"),
    }
}

fn print_sent(rt: &impl Print, alloc: Global, sent: &[u8]) -> io::Result<()> {
    if sent.is_empty() {
        return println!(rt; ", sent nothing");
    }
    println!(rt; ", sent {}", hex::encode(alloc, sent)?)
}

/// Prints the call of the dialer's one peer, where it was made.
pub fn show_call(rt: &impl Print, alloc: Global, lines: &[Line]) -> io::Result<()> {
    match lines.first() {
        Some(line) if !line.host.is_empty() => {
            let host = String::from_utf8_lossy(alloc, line.host.as_slice())?;
            print!(rt; "; called {host}:{}", line.port)?;
            print_sent(rt, alloc, line.takes.as_slice())
        }
        _ => println!(rt; ""),
    }
}
