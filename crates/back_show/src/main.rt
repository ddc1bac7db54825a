//! Shows what calls to peers come to, and what they leave in the dialer's list.
//!
//! The program reads lines from standard input: what the dialer's peers do, ` | `, and the call. The words in front are
//!
//! - `gives=HEX`: a peer that takes the dial and gives these bytes. `refuses`: a peer whose dial fails.
//! - `host=N`, `room=N`: the room, in bytes, for the host and for what is sent of the peers behind; 64 and 512 at
//!   first.
//! - `piece=N`: the most bytes that are sent or received at once.
//! - `fails=N`: the dialer's call of this number fails; its dials, sends and receives are counted from 1.
//! - `twice`: the call is made twice.
//!
//! The call is a uri, an id (`front`, a number, or `:` and a text), the method's name and the arguments' dumps. For
//! each call the program prints its answer, and then the dialer's list, a line for each record. Bytes and dumps are
//! in hexadecimal, and `-` where there are none.
//!
//! It stands on `drb_back`, whose answers but `TooLong` and `Memory` are shown here on stated lines. Read `script.rt`
//! for the dialer, `watched.rt` for what is seen of it, `asked.rt` for the call and `shown.rt` for what is printed.
#![tactic(auto)]

mod asked;
mod script;
mod shown;
mod watched;

use asked::{Asked, args_of, remote_of};
use drb_back::call_back;
use drb_outside::ScriptDialer;
use drb_packet::Limits;
use drb_tree::all_ascii;
use drb_value::{Remote, Value};
use script::dialer_of;
use shown::{show_answer, show_records};
use std::alloc::Global;
use std::io;
use std::io::{BufRead, BufReader};
use watched::Watched;

/// How much is read of a packet of a reply.
const LIMITS: Limits = Limits {
    load: 26_214_400,
    args: 256,
};

/// Makes the call, and prints its answer and the dialer's list.
fn show_call(
    rt: &impl Print,
    alloc: Global,
    dialer: &mut Watched<ScriptDialer>,
    to: &Remote,
    name: &[u8],
    args: &[Value],
) -> io::Result<()> {
    if !all_ascii(name) || args.len() > 256 {
        return println!(rt; "no such request");
    }
    let back = call_back(alloc, dialer, to, name, args, &LIMITS);
    show_answer(rt, alloc, &back)?;
    show_records(rt, alloc, dialer)
}

/// Makes the call with these arguments as often as it is asked for.
fn show_calls(
    rt: &impl Print,
    alloc: Global,
    dialer: &mut Watched<ScriptDialer>,
    to: &Remote,
    asked: &Asked<'_>,
    args: &[Value],
) -> io::Result<()> {
    for _ in 0..dialer.times() {
        show_call(rt, alloc, dialer, to, asked.name.as_bytes(), args)?;
    }
    Ok(())
}

/// Makes the call of that reference.
fn show_to(
    rt: &impl Print,
    alloc: Global,
    dialer: &mut Watched<ScriptDialer>,
    to: &Remote,
    asked: &Asked<'_>,
) -> io::Result<()> {
    match args_of(alloc, asked.args) {
        Some(args) => show_calls(rt, alloc, dialer, to, asked, &args),
        None => println!(rt; "no such arguments"),
    }
}

/// Makes the call that is asked for.
fn show_asked(
    rt: &impl Print,
    alloc: Global,
    dialer: &mut Watched<ScriptDialer>,
    asked: &Asked<'_>,
) -> io::Result<()> {
    match remote_of(alloc, asked.uri, asked.id) {
        Some(to) => show_to(rt, alloc, dialer, &to, asked),
        None => println!(rt; "no such reference"),
    }
}

/// Prints what the line asks for.
fn show_line(rt: &impl Print, alloc: Global, line: &str) -> io::Result<()> {
    let (peers, call) = line.split_once("| ").unwrap_or((line, ""));
    match dialer_of(alloc, peers) {
        Some(dialer) => {
            let mut dialer = dialer;
            show_asked(rt, alloc, &mut dialer, &Asked::of(call))
        }
        None => println!(rt; "no such dialer"),
    }
}

fn main(rt: HostRuntime) -> io::Result<()> {
    let alloc = rt.alloc();
    for line in BufReader::new(alloc, rt.reader())?.lines(alloc) {
        show_line(&rt, alloc, line?.as_str())?;
    }
    Ok(())
}
