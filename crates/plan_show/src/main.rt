//! Shows what requests are planned as: the call that each makes, or the exception that it is answered with.
//!
//! The program reads lines from standard input, each the bytes of a request in hexadecimal, and prints a line for each:
//! the call with all that it holds, or the class and the text of the exception. Values stand as their dumps in hexadecimal.
//! It stands on `drb_dispatch`, whose one call, `plan`, is run here on stated requests, and on `drb_packet`, which reads
//! them. Read `shown.rt` for how the parts of a call are shown.
#![tactic(auto)]

mod shown;

use drb_dispatch::{Call, Flag, Lasting, Planned, plan};
use drb_outside::MemSource;
use drb_packet::{Inbound, Limits, Request, read_request};
use drb_value::{Remote, Value};
use rinda_rules::Kind;
use rinda_tuple::{Template, Tuple};
use std::alloc::Global;
use std::io;
use std::io::{BufRead, BufReader};

/// How much is read of a packet, and how many arguments.
const LIMITS: Limits = Limits {
    load: 26_214_400,
    args: 256,
};

/// Prints `write`.
fn show_write(rt: &impl Print, alloc: Global, value: Tuple, life: Lasting) -> io::Result<()> {
    let value = shown::dump(alloc, value.into_value())?;
    let life = shown::life(alloc, life)?;
    println!(rt; "write {value}, {life}")
}

/// The word for a kind.
fn kind_word(kind: Kind) -> &'static str {
    match kind {
        Kind::Read => "read",
        Kind::Take => "take",
        Kind::Move => "move",
    }
}

/// What is asked: the kind, the template and how long.
fn shown_question(
    alloc: Global,
    kind: Kind,
    pattern: Template,
    life: Lasting,
) -> io::Result<String> {
    let pattern = shown::template(alloc, pattern)?;
    let life = shown::life(alloc, life)?;
    Ok(format!(in alloc; "{} {pattern}, {life}", kind_word(kind))?)
}

/// Whom is told: the port and the block.
fn shown_peers(alloc: Global, port: Option<Remote>, block: Option<Remote>) -> io::Result<String> {
    let port = shown::peer(alloc, "port", port)?;
    let block = shown::peer(alloc, "block", block)?;
    Ok(format!(in alloc; "{port}, {block}")?)
}

/// Prints `notify`.
fn show_notify(
    rt: &impl Print,
    alloc: Global,
    event: Value,
    pattern: Template,
    life: Lasting,
) -> io::Result<()> {
    let event = shown::dump(alloc, event)?;
    let pattern = shown::template(alloc, pattern)?;
    let life = shown::life(alloc, life)?;
    println!(rt; "notify {event} of {pattern}, {life}")
}

/// The word for a flag.
fn flag_word(flag: Flag) -> &'static str {
    match flag {
        Flag::Alive => "alive",
        Flag::Expired => "expired",
        Flag::Canceled => "canceled",
    }
}

/// Prints a call.
fn show_call(rt: &impl Print, alloc: Global, call: Call) -> io::Result<()> {
    match call {
        Call::Write { value, life } => show_write(rt, alloc, value, life),
        Call::Ask {
            kind,
            pattern,
            port,
            life,
            block,
        } => {
            let peers = shown_peers(alloc, port, block)?;
            let question = shown_question(alloc, kind, pattern, life)?;
            println!(rt; "{question}, {peers}")
        }
        Call::ReadAll { pattern } => {
            println!(rt; "read_all {}", shown::template(alloc, pattern)?)
        }
        Call::Notify {
            event,
            pattern,
            life,
        } => show_notify(rt, alloc, event, pattern, life),
        Call::Cancel { id } => println!(rt; "cancel {id}"),
        Call::Renew { id, life } => println!(rt; "renew {id}, {}", shown::life(alloc, life)?),
        Call::Look { id, flag } => println!(rt; "look {id}, {}", flag_word(flag)),
        Call::Value { id } => println!(rt; "value {id}"),
        Call::Pop { id } => println!(rt; "pop {id}"),
        Call::Each { id, block } => {
            println!(rt; "each {id}, {}", shown::peer(alloc, "block", block)?)
        }
    }
}

/// Prints what a request is planned as.
fn show_request(rt: &impl Print, alloc: Global, request: Request) -> io::Result<()> {
    match plan(alloc, request)? {
        Planned::Call(call) => show_call(rt, alloc, call),
        Planned::Raise(exception) => { println!(rt; "{}", shown::exception(alloc, &exception)?) }
    }
}

/// Prints what the request in these bytes is planned as.
fn show_bytes(rt: &impl Print, alloc: Global, bytes: Vec<u8>) -> io::Result<()> {
    let mut source = MemSource::new(bytes, Vec::new(alloc), Vec::new(alloc));
    match read_request(alloc, &mut source, &LIMITS) {
        Ok(Inbound::Request(request)) => show_request(rt, alloc, request),
        Ok(Inbound::Refused(why)) => println!(rt; "refused: {why}"),
        Ok(Inbound::End) => println!(rt; "no request"),
        Err(error) => println!(rt; "{error}"),
    }
}

fn main(rt: HostRuntime) -> io::Result<()> {
    let alloc = rt.alloc();
    for line in BufReader::new(alloc, rt.reader())?.lines(alloc) {
        match hex::decode(alloc, line?.as_str()) {
            Ok(bytes) => show_bytes(&rt, alloc, bytes)?,
            Err(_) => println!(&rt; "not hexadecimal")?,
        }
    }
    Ok(())
}
