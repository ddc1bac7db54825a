// What is printed.

use drb_serving::Served;
use rinda_rules::{Event, VecJournal};
use std::alloc::{AllocError, Global};
use std::io;

/// The bytes of a word, `-` for none.
pub fn bytes_of(alloc: Global, word: &str) -> Option<Vec<u8>> {
    if word == "-" {
        Some(Vec::new(alloc))
    } else {
        hex::decode(alloc, word).ok()
    }
}

/// Bytes in hexadecimal, or `-` where there are none.
pub fn shown(alloc: Global, bytes: &[u8]) -> Result<String, AllocError> {
    if bytes.is_empty() {
        format!(in alloc; "-")
    } else {
        hex::encode(alloc, bytes)
    }
}

/// How it ended, and the counts.
pub fn show_served(rt: &impl Print, served: &Served) -> io::Result<()> {
    match served {
        Served::Done { turns, tuples } => print!(rt; "done; turns {turns}, tuples {tuples}"),
        Served::AcceptFault { turns, tuples } => {
            print!(rt; "accept fault; turns {turns}, tuples {tuples}")
        }
        Served::Memory => print!(rt; "memory"),
    }
}

fn name_of(event: &Event) -> &'static str {
    match event {
        Event::Write { .. } => "write",
        Event::Reserve { .. } => "reserve",
        Event::Submit { .. } => "submit",
        Event::Collect { .. } => "collect",
        Event::Shut => "shut",
        Event::Tick | Event::NextAsk => "age",
        Event::ReadAll { .. } => "read_all",
        _ => "other",
    }
}

/// The turns of that name.
fn count_of(history: &VecJournal, name: &str) -> u64 {
    let mut count: u64 = 0;
    for n in 0..u64::MAX {
        match history.turn(n) {
            Some(turn) if name_of(&turn.event) == name => count = count.saturating_add(1),
            Some(_) => {}
            None => break,
        }
    }
    count
}

/// How many callers there are.
fn callers_of(history: &VecJournal) -> u64 {
    let mut callers: u64 = 0;
    for n in 0..u64::MAX {
        let Some(turn) = history.turn(n) else {
            break;
        };
        let is_new = (0..n).all(|m| match history.turn(m) {
            Some(before) => before.caller != turn.caller,
            None => true,
        });
        if is_new {
            callers = callers.saturating_add(1);
        }
    }
    callers
}

/// Prints how many callers a history has, and how many turns of these names.
pub fn show_history(
    rt: &impl Print,
    history: &VecJournal,
    names: &[&'static str],
) -> io::Result<()> {
    print!(rt; "; callers {}", callers_of(history))?;
    for name in names {
        print!(rt; "; {name} {}", count_of(history, name))?;
    }
    Ok(())
}
