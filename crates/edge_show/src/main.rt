//! Shows connections over TCP, end to end, within one thread.
//!
//! The program listens on 127.0.0.1, at a port that the system picks, calls itself, and prints what comes. It shows that
//! a guest is taken with its peer, that bytes go both ways, that a reply arrives whole where the rest of a request was
//! never read, and that nobody comes through doors that have handed on as many as they may. It stands on `drb_edge`,
//! and is a test of it: no clause can say what a socket carries.
#![tactic(auto)]

use drb_doors::{Doors, Guest, Known, Limited};
use drb_edge::{TcpDialer, TcpDoors};
use drb_outside::{Address, Clock, Dialer, Failed, Sink, Source};
use std::io;
use std::net::Ipv4Addr;

/// The most bytes that are taken at once.
const MOST: usize = 64;

/// The text of a result of a call.
fn told<T: Drop>(answer: Result<T, Failed>) -> &'static str {
    match answer {
        Ok(_) => "done",
        Err(Failed) => "failed",
    }
}

/// Prints the next bytes that a source gives.
fn show_read<S: Source>(rt: &impl Print, who: &str, source: &mut S) -> io::Result<()> {
    let mut bytes = [0; MOST];
    match source.read(&mut bytes) {
        Ok(count) => show_bytes(rt, who, &bytes[..count]),
        Err(Failed) => println!(rt; "{who}: failed"),
    }
}

/// Prints the next bytes that a peer gives.
fn show_received<D: Dialer>(rt: &impl Print, who: &str, dialer: &mut D) -> io::Result<()> {
    let mut bytes = [0; MOST];
    match dialer.receive(&mut bytes) {
        Ok(count) => show_bytes(rt, who, &bytes[..count]),
        Err(Failed) => println!(rt; "{who}: failed"),
    }
}

fn show_bytes(rt: &impl Print, who: &str, bytes: &[u8]) -> io::Result<()> {
    if bytes.is_empty() {
        return println!(rt; "{who}: the end");
    }
    match str::from_utf8(bytes) {
        Ok(text) => println!(rt; "{who}: {text}"),
        Err(_) => println!(rt; "{who}: no text"),
    }
}

fn main(rt: HostRuntime) -> io::Result<()> {
    let doors = TcpDoors::bind(&rt, rt.alloc(), "127.0.0.1", 0)?;
    let to = Address {
        host: b"127.0.0.1",
        port: doors.port(),
    };
    let mut doors = Limited::new(doors, Some(2));
    let mut dialer = TcpDialer::new(&rt, None);

    println!(&rt; "dial: {}", told(dialer.dial(&to)))?;
    println!(&rt; "send: {}", told(dialer.send(b"a request")))?;
    if let Ok(Some(guest)) = doors.accept() {
        let Guest {
            mut input,
            mut output,
            mut clock,
            dialer: _dialer,
        } = guest;
        match input.peer() {
            Some(address) => println!(&rt; "guest: {}", Ipv4Addr::from_bits(address))?,
            None => println!(&rt; "guest: unknown")?,
        }
        println!(&rt; "guest's clock reads: {}", clock.now() > 0)?;
        show_read(&rt, "guest sent", &mut input)?;
        println!(&rt; "reply: {}", told(output.write(b"a reply")))?;
        show_received(&rt, "received", &mut dialer)?;
        dialer.hang_up();
        show_read(&rt, "guest sent", &mut input)?;
    }

    println!(&rt; "dial: {}", told(dialer.dial(&to)))?;
    println!(&rt; "send: {}", told(dialer.send(&[b'x'; 40_000])))?;
    if let Ok(Some(guest)) = doors.accept() {
        let Guest {
            mut input,
            mut output,
            clock: _clock,
            dialer: _dialer,
        } = guest;
        let mut size = [0; 4];
        println!(&rt; "four bytes of many: {}", told(input.read(&mut size)))?;
        println!(&rt; "refusal: {}", told(output.write(b"too large")))?;
    }
    show_received(&rt, "received", &mut dialer)?;
    show_received(&rt, "received", &mut dialer)?;

    println!(&rt; "dial: {}", told(dialer.dial(&to)))?;
    match doors.accept() {
        Ok(None) => println!(&rt; "nobody more comes")?,
        Ok(Some(_)) => println!(&rt; "one more came")?,
        Err(Failed) => println!(&rt; "the doors failed")?,
    }
    dialer.hang_up();
    println!(&rt;
        "receive after the end: {}",
        told(dialer.receive(&mut [0; 4]))
    )
}
