// Guests at a door with a list.

use drb_acl::{Acl, Guarded};
use drb_doors::{Doors, Guest, Known, Limited, MemDoors, PeerSource};
use drb_outside::{MemSink, MemSource, ScriptClock, ScriptDialer};
use std::alloc::{AllocError, Global};
use std::collections::VecDeque;
use std::io;
use std::net::Ipv4Addr;
use std::sync::Wait;

/// A guest in memory, of whom nothing but the peer matters.
type Visitor = Guest<PeerSource<MemSource>, MemSink, ScriptClock, ScriptDialer>;

/// A guest from that address; from none where the word is no address.
fn visitor(alloc: Global, word: &str) -> Visitor {
    let peer = match Ipv4Addr::parse_ascii(word.as_bytes()) {
        Ok(address) => Some(address.to_bits()),
        Err(_) => None,
    };
    Guest {
        input: PeerSource {
            source: MemSource::new(Vec::new(alloc), Vec::new(alloc), Vec::new(alloc)),
            peer,
        },
        output: MemSink::new(Vec::new(alloc), 0, Vec::new(alloc)),
        clock: ScriptClock::new(Vec::new(alloc)),
        dialer: ScriptDialer::new(Vec::new(alloc), Vec::new(alloc)),
    }
}

fn visitors(alloc: Global, words: &str) -> Result<VecDeque<Visitor>, AllocError> {
    let mut guests = VecDeque::new(alloc);
    for word in words.split(' ') {
        guests.push_back(visitor(alloc, word))?;
    }
    Ok(guests)
}

/// Prints who of these comes through a door with that list, two at most, and how many each rule refused.
pub(crate) fn show_door<R: Print + Wait>(
    rt: &R,
    alloc: Global,
    acl: Acl,
    words: &str,
) -> io::Result<()> {
    let inner = MemDoors::new(visitors(alloc, words)?, Vec::new(alloc));
    let mut doors = Limited::new(Guarded::new(rt, acl, inner), Some(2));
    for _ in 0..3 {
        match doors.accept() {
            Ok(Some(guest)) => match guest.input.peer() {
                Some(address) => print!(rt; "{} comes; ", Ipv4Addr::from_bits(address))?,
                None => print!(rt; "one without an address comes; ")?,
            },
            Ok(None) => print!(rt; "nobody comes; ")?,
            Err(_) => print!(rt; "the door fails; ")?,
        }
    }
    print!(rt; "refused:")?;
    for count in doors.doors().judged() {
        print!(rt; " {count}")?;
    }
    println!(rt; "")
}
