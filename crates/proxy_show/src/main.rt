//! Shows what commands of a client ask, print and end with.
//!
//! The program reads lines from standard input: what the dialer's peers and the output do, ` | `, and the command. The
//! words in front are
//!
//! - `gives=HEX`: a peer that takes the dial and gives these bytes. `refuses`: a peer whose dial fails.
//! - `fails=N`: the dialer's call of this number fails; its dials, sends and receives are counted from 1.
//! - `cuts=N`: the output's write of this number fails. `piece=N`: the most bytes that it takes at once.
//! - `life=N`, `event=TEXT`, `count=N`: what the command takes besides; no life, no event and 3 at first.
//! - `#` and further words: what the line shows.
//!
//! The command is `write`, `read`, `readall` or `watch`, a uri, and the text of a tuple. For each the program prints
//! the words behind `#`, what the command printed, with `> ` before each line, the bytes that were sent to each peer,
//! in hexadecimal, and the status.
//!
//! It stands on `rinda_proxy`, whose clauses say what is right. Read `script.rt` for the dialer and the output, and
//! `asked.rt` for the command.
#![tactic(auto)]

mod asked;
mod script;

use asked::{Words, asking_of, uri_of};
use drb_outside::{MemSink, ScriptDialer};
use drb_packet::Limits;
use rinda_proxy::{Asking, client_ask};
use script::{Script, script_of};
use std::alloc::Global;
use std::io;
use std::io::{BufRead, BufReader};

/// How much is read of a packet of a reply.
const LIMITS: Limits = Limits {
    load: 26_214_400,
    args: 256,
};

/// Prints what a command printed.
fn show_printed(rt: &impl Print, alloc: Global, output: &MemSink) -> io::Result<()> {
    let text = String::from_utf8_lossy(alloc, output.bytes())?;
    for line in text.lines() {
        println!(rt; "> {line}")?;
    }
    Ok(())
}

/// Prints what was sent to the peers, as far as anything was.
fn show_sent(rt: &impl Print, alloc: Global, dialer: &ScriptDialer) -> io::Result<()> {
    for line in dialer.lines() {
        if !line.takes.is_empty() {
            println!(rt; "sent {}", hex::encode(alloc, line.takes.as_slice())?)?;
        }
    }
    Ok(())
}

/// Does the command, and prints what came of it.
fn show_asked(
    rt: &impl Print,
    alloc: Global,
    script: Script,
    uri: &str,
    asking: &Asking,
) -> io::Result<()> {
    let Some(uri) = uri_of(alloc, uri) else {
        return println!(rt; "no such uri");
    };
    let Some((mut dialer, mut output)) = script.outside(alloc) else {
        return println!(rt; "no such outside");
    };
    let status = client_ask(alloc, &uri, asking, &mut dialer, &mut output, &LIMITS);
    show_printed(rt, alloc, &output)?;
    show_sent(rt, alloc, &dialer)?;
    println!(rt; "status {}", status.number())
}

/// Prints what the line asks for.
fn show_line(rt: &impl Print, alloc: Global, line: &str) -> io::Result<()> {
    let (front, command) = line.split_once("| ").unwrap_or((line, ""));
    let (front, note) = front.split_once('#').unwrap_or((front, ""));
    println!(rt; "{}", note.trim())?;
    let Some(script) = script_of(alloc, front) else {
        return println!(rt; "no such words");
    };
    let words = Words::of(command);
    match asking_of(alloc, &script, &words) {
        Some(asking) => show_asked(rt, alloc, script, words.uri, &asking),
        None => println!(rt; "no such command"),
    }
}

fn main(rt: HostRuntime) -> io::Result<()> {
    let alloc = rt.alloc();
    for line in BufReader::new(alloc, rt.reader())?.lines(alloc) {
        show_line(&rt, alloc, line?.as_str())?;
    }
    Ok(())
}
