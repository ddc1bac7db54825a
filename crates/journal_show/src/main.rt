//! Shows which turns texts tell, and that no others do.
//!
//! The program reads lines from standard input, bytes in hexadecimal, and prints a line for each:
//!
//! - `turn BYTES`: the turn whose text the bytes begin with, how long that text is, and whether the turn is written as
//!   those bytes again; or that there is none;
//! - `cut BYTES`: what each shorter front of the bytes is;
//! - `change BYTES`: what the bytes are with each of them changed in turn, to each other byte;
//! - `#`, and any text: that text.
//!
//! It stands on `rinda_journal`, whose contracts say what is right. `peer/turns.rb` makes `stdin`, so the texts in it
//! are those that Ruby's own Marshal writes. Read `seen.rt` for what is said of bytes, and `names.rt` for the names.
#![tactic(auto)]

mod names;
mod seen;

use seen::{Fault, changed, cut, turn_seen};
use std::alloc::Global;
use std::io;
use std::io::{BufRead, BufReader};

/// Prints the turn whose text the bytes begin with.
fn show_turn(rt: &impl Print, alloc: Global, bytes: &[u8]) -> io::Result<()> {
    match turn_seen(alloc, bytes) {
        Ok(turn) => println!(rt; "{turn}"),
        Err(fault) => println!(rt; "{fault}"),
    }
}

/// Prints what the shorter fronts of the bytes are.
fn show_cut(rt: &impl Print, alloc: Global, bytes: &[u8]) -> io::Result<()> {
    match cut(alloc, bytes) {
        Ok(counts) => println!(rt; "{counts}"),
        Err(fault) => println!(rt; "{fault}"),
    }
}

/// Prints what the bytes are with one of them changed.
fn show_changed(rt: &impl Print, alloc: Global, bytes: &mut [u8]) -> io::Result<()> {
    match changed(alloc, bytes) {
        Ok(counts) => println!(rt; "{counts}"),
        Err(fault) => println!(rt; "{fault}"),
    }
}

/// Prints what is to be said of bytes.
fn show_bytes(rt: &impl Print, alloc: Global, what: &str, text: &str) -> io::Result<()> {
    let Ok(mut bytes) = hex::decode(alloc, text) else {
        return println!(rt; "not hexadecimal");
    };
    match what {
        "turn" => show_turn(rt, alloc, bytes.as_slice()),
        "cut" => show_cut(rt, alloc, bytes.as_slice()),
        "change" => show_changed(rt, alloc, bytes.as_mut_slice()),
        _ => println!(rt; "{}", Fault::NotALine),
    }
}

/// Prints what is to be said of a line.
fn show_line(rt: &impl Print, alloc: Global, line: &str) -> io::Result<()> {
    if line.starts_with('#') {
        return println!(rt; "{line}");
    }
    let mut words = line.split_whitespace();
    let what = words.next().unwrap_or("");
    let text = words.next().unwrap_or("");
    show_bytes(rt, alloc, what, text)
}

fn main(rt: HostRuntime) -> io::Result<()> {
    let alloc = rt.alloc();
    for line in BufReader::new(alloc, rt.reader())?.lines(alloc) {
        show_line(&rt, alloc, line?.as_str())?;
    }
    Ok(())
}
