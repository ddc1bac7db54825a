//! Shows sessions in which no turn is made: how each ends, and what it writes.
//!
//! The program reads lines from standard input, each of three words: the bytes of an input in hexadecimal, or `-` for
//! none; the number of the read that fails; and the number of the write that fails, each 0 for none. It prints a line
//! for each: the end of the session, and the bytes written in hexadecimal, or `-`. The session is over an empty space
//! whose history may have no turn, so every request that asks something of it ends it as full. It stands on
//! `drb_session`, whose contract says what is right. `stdin` has the ends of docs/SESSIONS.md, Ends. Read
//! `roomless.rt` for the history.
#![tactic(auto)]

mod roomless;

use drb_dispatch::Place;
use drb_outside::{MemSink, MemSource, ScriptClock, ScriptDialer};
use drb_packet::Limits;
use drb_script::Patience;
use drb_session::{SessionEnd, serve_session};
use drb_value::{Code, Text};
use roomless::Roomless;
use std::alloc::{AllocError, Global};
use std::io;
use std::io::{BufRead, BufReader};

/// Where the server stands.
fn place(alloc: Global) -> Result<Place, AllocError> {
    let uri = Text::of(alloc, b"druby://127.0.0.1:8787", Code::Utf8)?;
    let limits = Limits {
        load: 26_214_400,
        args: 256,
    };
    Ok(Place { uri, limits })
}

/// The word for an end.
fn shown_end(alloc: Global, end: SessionEnd) -> io::Result<String> {
    match end {
        SessionEnd::Ended => Ok(format!(in alloc; "ended")?),
        SessionEnd::Raised => Ok(format!(in alloc; "raised")?),
        SessionEnd::Refused(why) => Ok(format!(in alloc; "refused: {why}")?),
        SessionEnd::ReadFault => Ok(format!(in alloc; "read fault")?),
        SessionEnd::WriteFault => Ok(format!(in alloc; "write fault")?),
        SessionEnd::Full { turns } => Ok(format!(in alloc; "full after {turns} turns")?),
        SessionEnd::Memory => Ok(format!(in alloc; "memory")?),
    }
}

/// The number of a call that fails, as a list.
fn failing(alloc: Global, call: u64) -> Result<Vec<u64>, AllocError> {
    if call == 0 {
        Ok(Vec::new(alloc))
    } else {
        [call].to_vec(alloc)
    }
}

/// The session over this input: its end, and what it wrote.
fn session(
    alloc: Global,
    bytes: Vec<u8>,
    read: u64,
    write: u64,
) -> Result<(SessionEnd, MemSink), AllocError> {
    let place = place(alloc)?;
    let mut input = MemSource::new(bytes, Vec::new(alloc), failing(alloc, read)?);
    let room = Vec::with_capacity(alloc, 4096)?;
    let mut output = MemSink::new(room, 4096, failing(alloc, write)?);
    let mut clock = ScriptClock::new(Vec::new(alloc));
    let mut dialer = ScriptDialer::new(Vec::new(alloc), Vec::new(alloc));
    let end = serve_session(
        alloc,
        &mut Roomless,
        &place,
        &mut input,
        &mut output,
        &mut clock,
        &mut dialer,
        Patience::Never,
    );
    Ok((end, output))
}

/// Bytes in hexadecimal, or `-` where there are none.
fn shown_bytes(alloc: Global, bytes: &[u8]) -> Result<String, AllocError> {
    if bytes.is_empty() {
        format!(in alloc; "-")
    } else {
        hex::encode(alloc, bytes)
    }
}

/// Prints the session of a line of these words.
fn show(rt: &impl Print, alloc: Global, bytes: Vec<u8>, read: u64, write: u64) -> io::Result<()> {
    let (end, output) = session(alloc, bytes, read, write)?;
    let end = shown_end(alloc, end)?;
    println!(rt; "{end}; {}", shown_bytes(alloc, output.bytes())?)
}

/// The bytes of a word.
fn input_of(alloc: Global, word: &str) -> Option<Vec<u8>> {
    if word == "-" {
        Some(Vec::new(alloc))
    } else {
        hex::decode(alloc, word).ok()
    }
}

/// Prints the session of a line.
fn show_line(rt: &impl Print, alloc: Global, line: &str) -> io::Result<()> {
    let mut words = line.split(' ');
    let bytes = words.next().and_then(|word| input_of(alloc, word));
    let read = words.next().and_then(|word| word.parse::<u64>().ok());
    let write = words.next().and_then(|word| word.parse::<u64>().ok());
    match (bytes, read, write) {
        (Some(bytes), Some(read), Some(write)) => show(rt, alloc, bytes, read, write),
        _ => println!(rt; "no line"),
    }
}

fn main(rt: HostRuntime) -> io::Result<()> {
    let alloc = rt.alloc();
    for line in BufReader::new(alloc, rt.reader())?.lines(alloc) {
        show_line(&rt, alloc, line?.as_str())?;
    }
    Ok(())
}
