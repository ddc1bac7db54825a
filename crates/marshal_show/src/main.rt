//! Shows what dumps are: how the value of each is written, or why and where it is refused.
//!
//! The program reads dumps in hexadecimal from standard input, one a line, and prints a line for each: `value` and the
//! written spelling in hexadecimal, or `refused`, the number of the reason and the place. It stands on `marshal_read`
//! and `marshal_write`, and promises that what it shows is the written spelling of the value read, and that a refusal
//! is the grammar's. `peer/` runs it beside a real Ruby. Read `rewrite.rt` for what is promised.
#![tactic(auto)]

mod rewrite;

use rewrite::rewrite;
use std::alloc::Global;
use std::io;
use std::io::{BufRead, BufReader};

/// Prints what the bytes are.
fn show_bytes(rt: &impl Print, alloc: Global, bytes: &[u8]) -> io::Result<()> {
    match rewrite(alloc, bytes) {
        Ok(written) => println!(rt; "value {}", hex::encode(alloc, written.as_slice())?),
        Err(error) => println!(rt; "{error}"),
    }
}

/// Prints what the dump in a line is.
fn show_line(rt: &impl Print, alloc: Global, line: &str) -> io::Result<()> {
    match hex::decode(alloc, line) {
        Ok(bytes) => show_bytes(rt, alloc, bytes.as_slice()),
        Err(_) => println!(rt; "not hexadecimal"),
    }
}

fn main(rt: HostRuntime) -> io::Result<()> {
    let alloc = rt.alloc();
    for line in BufReader::new(alloc, rt.reader())?.lines(alloc) {
        show_line(&rt, alloc, line?.as_str())?;
    }
    Ok(())
}
