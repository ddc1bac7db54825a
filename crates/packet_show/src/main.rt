//! Shows what stands first in bytes: a request, a reply, why it is neither, or nothing.
//!
//! The program reads lines from standard input, each `request` or `reply` and bytes in hexadecimal, and prints a line for
//! each: of a request the method's name with its control bytes escaped, the number of arguments and whether there is a
//! block; of a reply whether the call succeeded; else the text of the refusal; and how many bytes are left behind it. It
//! reads the bytes in pieces of 1, 2, 3 and 4,096. Of a line that begins with `again` it prints what stands first as it is
//! written here, and whether that is the bytes themselves. It stands on `drb_packet`, and promises that what it shows is
//! what stands first, in whatever pieces the bytes come, and the text of that. `peer/packets.sh` runs it on what a real
//! Ruby sent. Read `seen.rt`, `names.rt` and `again.rt` for what is promised.
#![tactic(auto)]

mod again;
mod names;
mod pieces;
mod seen;

use again::again;
use seen::{Call, Kind, Seen};
use std::alloc::Global;
use std::io;
use std::io::{BufRead, BufReader};

/// Prints a request.
fn show_call(rt: &impl Print, alloc: Global, call: &Call, left: usize) -> io::Result<()> {
    let name = names::escaped(alloc, call.name.as_slice())?;
    let name = String::from_utf8_lossy(alloc, name.as_slice())?;
    let block = if call.block { "block" } else { "no block" };
    println!(rt; "request {name} {} {block}, {left} left", call.arguments)
}

/// Prints what was seen.
fn show(rt: &impl Print, alloc: Global, seen: &Seen) -> io::Result<()> {
    match seen {
        Seen::End => println!(rt; "end"),
        Seen::Request(call, left) => show_call(rt, alloc, call, *left),
        Seen::Reply(success, left) => println!(rt; "reply {success}, {left} left"),
        Seen::Refused(why, left) => println!(rt; "refused: {why}, {left} left"),
    }
}

/// Prints what stands first in the bytes.
fn show_bytes(rt: &impl Print, alloc: Global, kind: Kind, bytes: &[u8]) -> io::Result<()> {
    match pieces::see(alloc, kind, bytes) {
        Ok(seen) => show(rt, alloc, &seen),
        Err(error) => println!(rt; "{error}"),
    }
}

/// Prints what is written again of the bytes, and whether it is the bytes themselves.
fn show_again(rt: &impl Print, alloc: Global, kind: Kind, bytes: &[u8]) -> io::Result<()> {
    match again(alloc, kind, bytes) {
        Ok(None) => println!(rt; "not written again"),
        Ok(Some(text)) => show_written(rt, alloc, text.as_slice(), bytes),
        Err(error) => println!(rt; "{error}"),
    }
}

fn show_written(rt: &impl Print, alloc: Global, text: &[u8], bytes: &[u8]) -> io::Result<()> {
    let how = if text == bytes {
        "as it came"
    } else {
        "otherwise"
    };
    println!(rt; "{how} {}", hex::encode(alloc, text)?)
}

/// Prints what stands first in bytes in hexadecimal, or what is written again of them.
fn show_text(rt: &impl Print, alloc: Global, asked: Asked, text: &str) -> io::Result<()> {
    let Ok(bytes) = hex::decode(alloc, text) else {
        return println!(rt; "not hexadecimal");
    };
    match asked {
        Asked::First(kind) => show_bytes(rt, alloc, kind, bytes.as_slice()),
        Asked::Again(kind) => show_again(rt, alloc, kind, bytes.as_slice()),
    }
}

/// What a line asks for.
#[derive(Clone, Copy, Debug)]
enum Asked {
    First(Kind),
    Again(Kind),
}

const WORDS: [(&str, Asked); 4] = [
    ("request", Asked::First(Kind::Request)),
    ("reply", Asked::First(Kind::Reply)),
    ("again request", Asked::Again(Kind::Request)),
    ("again reply", Asked::Again(Kind::Reply)),
];

/// Prints what the line asks for.
fn show_line(rt: &impl Print, alloc: Global, line: &str) -> io::Result<()> {
    for (word, asked) in WORDS {
        if let Some(text) = line.strip_prefix(word) {
            return show_text(rt, alloc, asked, text.trim());
        }
    }
    println!(rt; "neither request nor reply")
}

fn main(rt: HostRuntime) -> io::Result<()> {
    let alloc = rt.alloc();
    for line in BufReader::new(alloc, rt.reader())?.lines(alloc) {
        show_line(&rt, alloc, line?.as_str())?;
    }
    Ok(())
}
