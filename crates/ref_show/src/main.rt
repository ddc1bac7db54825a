//! Shows uris, exceptions and arrays for blocks: what calls and replies carry besides values.
//!
//! The program reads lines from standard input, each a word and what it takes, and prints a line for each:
//!
//! - `uri` and a text: its host and its port, or its first fault.
//! - `exception`, a class and a message: the exception's dump.
//! - `block` and a dump: the dump of what a block is sent for its value. `back` and a dump: the other way.
//! - `cause`, its name and what it carries: the class and the text of the exception that tells of it.
//! - `error` and the name of an error of `drb_packet`: the text that it prints.
//!
//! Dumps are in hexadecimal. It stands on `drb_ref`, of which each call is run here on stated rows. Read `causes.rt` for
//! the names of causes.
#![tactic(auto)]

mod causes;

use causes::{cause_of, packet_error_of, refusal_of};
use drb_ref::{array_for_block, array_from_block, exception, exception_of, parse_uri};
use drb_tree::all_ascii;
use drb_value::{Node, Value};
use marshal_read::{ReadError, read_dump};
use marshal_write::{WriteError, write_dump};
use std::alloc::Global;
use std::io;
use std::io::{BufRead, BufReader};

/// Prints the host and the port of a uri.
fn show_uri(rt: &impl Print, alloc: Global, text: &str) -> io::Result<()> {
    match parse_uri(text.as_bytes()) {
        Ok(address) => {
            let host = String::from_utf8_lossy(alloc, address.host)?;
            println!(rt; "host {host}, port {}", address.port)
        }
        Err(error) => println!(rt; "{error}"),
    }
}

/// Prints the dump of a value.
fn show_dump(rt: &impl Print, alloc: Global, value: &Value) -> io::Result<()> {
    let mut dump = Vec::new(alloc);
    match write_dump(value, &mut dump) {
        Ok(()) => println!(rt; "{}", hex::encode(alloc, dump.as_slice())?),
        Err(error) => println!(rt; "{error}"),
    }
}

/// Prints the dump of an exception of this class and with this message.
fn show_exception(rt: &impl Print, alloc: Global, text: &str) -> io::Result<()> {
    let (class, message) = text.split_once(' ').unwrap_or((text, ""));
    if !all_ascii(class.as_bytes()) {
        return println!(rt; "the class is not ASCII");
    }
    let value = exception(alloc, class.as_bytes(), message.as_bytes())?;
    show_dump(rt, alloc, &value)
}

/// Prints the dump of what a block is sent for the value of a dump.
fn show_block(rt: &impl Print, alloc: Global, value: &Value) -> io::Result<()> {
    match array_for_block(alloc, value) {
        Ok(sent) => show_dump(rt, alloc, &sent),
        Err(error) => println!(rt; "{error}"),
    }
}

/// Prints the dump of what a block is given for the value that it was sent.
fn show_back(rt: &impl Print, alloc: Global, value: Value) -> io::Result<()> {
    match array_from_block(alloc, value) {
        Ok(back) => show_dump(rt, alloc, &back),
        Err(error) => println!(rt; "{error}"),
    }
}

/// The value that a dump in hexadecimal begins with; None where there is none.
fn value_of(alloc: Global, text: &str) -> Option<Value> {
    let bytes = hex::decode(alloc, text).ok()?;
    match read_dump(alloc, bytes.as_slice()) {
        Ok((value, _)) => Some(value),
        Err(_) => None,
    }
}

/// The class of an exception, and its text.
fn told(value: &Value) -> Option<(&[u8], &[u8])> {
    let Node::Object(object) = &value.node else {
        return None;
    };
    let object = object.get();
    let (_, message) = object.fields.as_slice().first()?;
    match &message.node {
        Node::Text(text) => Some((object.class.as_slice(), text.bytes.as_slice())),
        _ => None,
    }
}

/// Prints the class and the text of an exception.
fn show_told(rt: &impl Print, alloc: Global, value: &Value) -> io::Result<()> {
    match told(value) {
        Some((class, text)) => {
            let class = String::from_utf8_lossy(alloc, class)?;
            println!(rt; "{class}: {}", String::from_utf8_lossy(alloc, text)?)
        }
        None => println!(rt; "no exception"),
    }
}

/// Prints the class and the text of the exception of a cause.
fn show_cause(rt: &impl Print, alloc: Global, text: &str) -> io::Result<()> {
    match cause_of(alloc, text) {
        Some(cause) => {
            let value = exception_of(alloc, &cause)?;
            show_told(rt, alloc, &value)
        }
        None => println!(rt; "no cause"),
    }
}

/// Prints the text that an error prints.
fn show_error(rt: &impl Print, alloc: Global, text: &str) -> io::Result<()> {
    if let Some(refusal) = refusal_of(alloc, text) {
        return println!(rt; "{refusal}");
    }
    match packet_error_of(text) {
        Some(error) => println!(rt; "{error}"),
        None => println!(rt; "no error"),
    }
}

/// Prints what the line asks for.
fn show_line(rt: &impl Print, alloc: Global, line: &str) -> io::Result<()> {
    let (word, rest) = line.split_once(' ').unwrap_or((line, ""));
    match word {
        "uri" => show_uri(rt, alloc, rest),
        "exception" => show_exception(rt, alloc, rest),
        "block" => match value_of(alloc, rest) {
            Some(value) => show_block(rt, alloc, &value),
            None => println!(rt; "no dump"),
        },
        "back" => match value_of(alloc, rest) {
            Some(value) => show_back(rt, alloc, value),
            None => println!(rt; "no dump"),
        },
        "cause" => show_cause(rt, alloc, rest),
        "error" => show_error(rt, alloc, rest),
        _ => println!(rt; "no such word"),
    }
}

fn main(rt: HostRuntime) -> io::Result<()> {
    let alloc = rt.alloc();
    for line in BufReader::new(alloc, rt.reader())?.lines(alloc) {
        show_line(&rt, alloc, line?.as_str())?;
    }
    Ok(())
}
