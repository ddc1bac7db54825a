//! Shows rings: what a datagram is read as, what is done of it, and what the block of a lookup is sent.
//!
//! The program reads lines from standard input and prints a line for each. A line is a word and what belongs to it:
//!
//! - `space CAP`: a new space, whose history may have so many turns. One with room for 1,000 is there at first.
//! - `shut`: the space is shut.
//! - `lookup URI ID SECONDS`: the bytes that a client sends whose block is that reference.
//! - `read BYTES`: what a datagram of these bytes is read as.
//! - `write BYTES PEER`: what `ring_write` of these bytes ends as.
//! - `answer PEER`: what `ring_answer` ends as, which doesn't wait.
//!
//! Bytes are in hexadecimal. PEER is what the dialer's one peer does: `refuses`, or the bytes that it gives. Behind each end
//! stand the number of turns and of tuples, and the call that was made, with what was sent. A line that begins with `#` is
//! shown as it is. The server stands at `druby://127.0.0.1:8787`.
//!
//! It stands on `rinda_ring`, whose contracts say what is right. `stdin` has cases of each end of docs/RING.md, Ends. Read
//! `shown.rt` for what is printed.
#![tactic(auto)]

mod shown;

use drb_dispatch::Place;
use drb_outside::{Line, ScriptClock, ScriptDialer};
use drb_packet::Limits;
use drb_script::Patience;
use drb_session::Alone;
use drb_tree::{Code, RefId, Remote, Text};
use rinda_counted::Counted;
use rinda_marks::Secret;
use rinda_ring::{RingEnd, read_lookup, ring_answer, ring_write, write_lookup};
use rinda_rules::Event;
use rinda_space::Space;
use shown::{show_end, show_read};
use std::alloc::{AllocError, Global};
use std::io;
use std::io::{BufRead, BufReader};

/// The space that is shown.
type Shown = Space<Counted>;

/// The number of its only caller.
const CALLER: u64 = 0;

/// An empty space whose history may have so many turns.
fn space_of(alloc: Global, cap: u64) -> Shown {
    Space::new(alloc, Secret::new(1, 2), Counted::new(cap))
}

/// Where the server stands.
fn place(alloc: Global) -> Result<Place, AllocError> {
    let uri = Text::of(alloc, b"druby://127.0.0.1:8787", Code::Utf8)?;
    let limits = Limits {
        load: 26_214_400,
        args: 256,
    };
    Ok(Place { uri, limits })
}

/// A dialer with one peer, that refuses or gives these bytes.
fn dialer_of(alloc: Global, peer: &str) -> Result<ScriptDialer, AllocError> {
    let gives = match hex::decode(alloc, peer) {
        Ok(gives) => gives,
        Err(_) => Vec::new(alloc),
    };
    let host = Vec::with_capacity(alloc, 64)?;
    let takes = Vec::with_capacity(alloc, 512)?;
    let mut lines = Vec::new(alloc);
    lines.push(Line::new(peer == "refuses", gives, host, takes))?;
    Ok(ScriptDialer::new(lines, Vec::new(alloc)))
}

/// Writes a datagram.
fn written(
    alloc: Global,
    space: &mut Shown,
    place: &Place,
    dialer: &mut ScriptDialer,
    datagram: &[u8],
) -> RingEnd {
    let mut clock = ScriptClock::new(Vec::new(alloc));
    let mut alone = Alone::new(space, CALLER);
    ring_write(alloc, &mut alone, place, &mut clock, dialer, datagram)
}

/// Answers a lookup.
fn answered(alloc: Global, space: &mut Shown, place: &Place, dialer: &mut ScriptDialer) -> RingEnd {
    let mut clock = ScriptClock::new(Vec::new(alloc));
    let mut alone = Alone::new(space, CALLER);
    ring_answer(
        alloc,
        &mut alone,
        place,
        &mut clock,
        dialer,
        Patience::Never,
    )
}

/// Prints an end, and what is left.
fn show_ended(
    rt: &impl Print,
    alloc: Global,
    space: &Shown,
    dialer: &ScriptDialer,
    end: RingEnd,
) -> io::Result<()> {
    show_end(rt, alloc, end)?;
    print!(rt; "; turns {}, tuples {}", space.turns(), space.tuples())?;
    shown::show_call(rt, alloc, dialer.lines())
}

fn show_write(rt: &impl Print, alloc: Global, space: &mut Shown, rest: &str) -> io::Result<()> {
    let (bytes, peer) = rest.split_once(" ").unwrap_or((rest, "refuses"));
    let Ok(datagram) = hex::decode(alloc, bytes) else {
        return println!(rt; "no bytes");
    };
    let place = place(alloc)?;
    let mut dialer = dialer_of(alloc, peer)?;
    let end = written(alloc, space, &place, &mut dialer, datagram.as_slice());
    show_ended(rt, alloc, space, &dialer, end)
}

fn show_answer(rt: &impl Print, alloc: Global, space: &mut Shown, peer: &str) -> io::Result<()> {
    let place = place(alloc)?;
    let mut dialer = dialer_of(alloc, peer)?;
    let end = answered(alloc, space, &place, &mut dialer);
    show_ended(rt, alloc, space, &dialer, end)
}

/// Prints the bytes that a client sends whose block is that reference.
fn show_lookup(
    rt: &impl Print,
    alloc: Global,
    uri: &str,
    id: i128,
    seconds: i128,
) -> io::Result<()> {
    let block = Remote {
        uri: Text::of(alloc, uri.as_bytes(), Code::Utf8)?,
        id: RefId::Number(id),
    };
    let mut datagram = Vec::new(alloc);
    match write_lookup(alloc, &block, seconds, &mut datagram) {
        Ok(()) => println!(rt; "{}", hex::encode(alloc, datagram.as_slice())?),
        Err(error) => println!(rt; "{error}"),
    }
}

fn show_lookup_line(rt: &impl Print, alloc: Global, rest: &str) -> io::Result<()> {
    let mut words = rest.split(' ');
    let uri = words.next();
    let id = words.next().and_then(|word| word.parse::<i128>().ok());
    let seconds = words.next().and_then(|word| word.parse::<i128>().ok());
    match (uri, id, seconds) {
        (Some(uri), Some(id), Some(seconds)) => show_lookup(rt, alloc, uri, id, seconds),
        _ => println!(rt; "no lookup"),
    }
}

fn show_read_line(rt: &impl Print, alloc: Global, bytes: &str) -> io::Result<()> {
    let Ok(datagram) = hex::decode(alloc, bytes) else {
        return println!(rt; "no bytes");
    };
    show_read(rt, alloc, read_lookup(alloc, datagram.as_slice()))
}

fn show_space(rt: &impl Print, alloc: Global, space: &mut Shown, cap: &str) -> io::Result<()> {
    match cap.parse::<u64>() {
        Ok(cap) => {
            *space = space_of(alloc, cap);
            println!(rt; "a space for {cap} turns")
        }
        Err(_) => println!(rt; "no number"),
    }
}

fn show_shut(rt: &impl Print, space: &mut Shown) -> io::Result<()> {
    drop(space.turn(CALLER, 0, Event::Shut));
    println!(rt; "shut; turns {}", space.turns())
}

fn show_line(rt: &impl Print, alloc: Global, space: &mut Shown, line: &str) -> io::Result<()> {
    let (word, rest) = line.split_once(" ").unwrap_or((line, ""));
    match word {
        "space" => show_space(rt, alloc, space, rest),
        "shut" => show_shut(rt, space),
        "lookup" => show_lookup_line(rt, alloc, rest),
        "read" => show_read_line(rt, alloc, rest),
        "write" => show_write(rt, alloc, space, rest),
        "answer" => show_answer(rt, alloc, space, rest),
        "#" => println!(rt; "{line}"),
        _ => println!(rt; "no line"),
    }
}

fn main(rt: HostRuntime) -> io::Result<()> {
    let alloc = rt.alloc();
    let mut space = space_of(alloc, 1000);
    for line in BufReader::new(alloc, rt.reader())?.lines(alloc) {
        show_line(&rt, alloc, &mut space, line?.as_str())?;
    }
    Ok(())
}
