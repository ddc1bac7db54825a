//! Shows what a tuple space answers, turn by turn, and what the judge of histories says of each turn.
//!
//! The program reads lines from standard input and prints what each comes to. Words stand one space apart:
//!
//! - `name WORD DUMP`: the word stands for the dump from now on, a value in hexadecimal;
//! - `new CAP`: an empty space that makes at most so many turns;
//! - `CALLER AT EVENT`: the answer to the event of that caller at that reading of the clock, in milliseconds, and
//!   whether the judge finds the turn legal; or `nothing` or `full`, with the number of turns, where none is made;
//! - `repeat COUNT CALLER AT EVENT ; CALLER AT EVENT`: the two events in turn, so often, up to the first illegal turn; the
//!   id `last` is the one that was given out last;
//! - `random SEED COUNT`: so many events by chance in a new space, up to the first illegal turn, and how often each answer
//!   came;
//! - `#`, and any text: that text.
//!
//! A line for which there is no memory says so, and is done once more. The program stands on `rinda_space`,
//! `rinda_rules` and `rinda_audit`, whose contracts say what is right. `stdin` has histories, and `stdout` what
//! docs/SPACE.md says of each; of what comes by chance the judge alone knows. Read `words` and `events` for how a line
//! is spelled, `answers` for how an answer is, then `showing`, the space and its judge, and `chance` and `tally`.
#![tactic(auto)]

mod answers;
mod chance;
mod events;
mod showing;
mod tally;
mod words;

use answers::{given_by, show_out};
use events::asked;
use showing::{Came, Shown};
use std::alloc::Global;
use std::io;
use std::io::{BufRead, BufReader};
use tally::{Tally, play_by_chance};
use words::{Fault, Known, number, word};

/// Plays what the text says.
fn play(known: &mut Known, shown: &mut Shown, text: &str) -> Result<Came, Fault> {
    let (caller, at, event) = asked(known, text)?;
    let came = shown.play(caller, at, event)?;
    if let Came::Made = came {
        learn(known, shown);
    }
    Ok(came)
}

/// The id in the newest answer is the one that was given out last.
fn learn(known: &mut Known, shown: &Shown) {
    if let Some(turn) = shown.newest() {
        if let Some((id, _)) = given_by(&turn.out) {
            known.gave(id);
        }
    }
}

/// Prints what came of an event.
fn show_came(
    rt: &impl Print,
    alloc: Global,
    known: &Known,
    shown: &mut Shown,
    came: Came,
) -> io::Result<()> {
    match came {
        Came::Made => {
            if let Some(turn) = shown.newest() {
                show_out(rt, known, alloc, &turn.out)?;
            }
            println!(rt;
                "{}",
                if shown.judge() {
                    ", legal"
                } else {
                    ", illegal"
                }
            )
        }
        Came::Nothing { turns } => println!(rt; "nothing {turns}"),
        Came::Full { turns } => println!(rt; "full {turns}"),
    }
}

/// Plays two events in turn, as often as the first word says.
fn repeat(
    known: &mut Known,
    shown: &mut Shown,
    tally: &mut Tally,
    text: &str,
) -> Result<(), Fault> {
    let Some((count, events)) = text.split_once(" ") else {
        return Err(Fault::NotALine);
    };
    let Some((first, second)) = events.split_once(" ; ") else {
        return Err(Fault::NotALine);
    };
    let Ok(count) = count.parse::<u64>() else {
        return Err(Fault::NotALine);
    };
    for _ in 0..count {
        let came = play(known, shown, first)?;
        tally.add(came, shown)?;
        let came = play(known, shown, second)?;
        tally.add(came, shown)?;
    }
    Ok(())
}

/// Plays events by chance in a new space.
fn random(alloc: Global, shown: &mut Shown, tally: &mut Tally, text: &str) -> Result<(), Fault> {
    let mut words = text.split_whitespace();
    let seed = number(&mut words)?;
    let count = number(&mut words)?;
    begin(alloc, shown, u64::MAX);
    play_by_chance(alloc, shown, tally, seed, count)
}

/// What is to be done again where there was no memory.
fn is_memory(fault: Fault) -> bool {
    match fault {
        Fault::Memory => true,
        Fault::NotALine | Fault::Illegal => false,
    }
}

fn show_fault(rt: &impl Print, fault: Fault) -> io::Result<()> {
    match fault {
        Fault::NotALine => println!(rt; "not a line"),
        Fault::Illegal => println!(rt; "a turn is illegal"),
        Fault::Memory => println!(rt; "out of memory"),
    }
}

/// What a line without an answer came to.
fn show_done(rt: &impl Print, done: Result<(), Fault>, word: &str) -> io::Result<Option<Fault>> {
    match done {
        Ok(()) => {
            println!(rt; "{word}")?;
            Ok(None)
        }
        Err(fault) => Ok(Some(fault)),
    }
}

fn name(known: &mut Known, text: &str) -> Result<(), Fault> {
    let mut words = text.split_whitespace();
    let name = word(&mut words);
    known.add(name, word(&mut words))
}

fn renew(alloc: Global, shown: &mut Shown, text: &str) -> Result<(), Fault> {
    let mut words = text.split_whitespace();
    let cap = number(&mut words)?;
    begin(alloc, shown, cap);
    Ok(())
}

/// What is shown is a new space.
fn begin(alloc: Global, shown: &mut Shown, cap: u64) {
    *shown = Shown::new(alloc, cap);
}

/// Does a line, and prints what it comes to, or says why it is not done.
fn do_line(
    rt: &impl Print,
    alloc: Global,
    known: &mut Known,
    shown: &mut Shown,
    line: &str,
) -> io::Result<Option<Fault>> {
    if let Some(text) = line.strip_prefix("name ") {
        return show_done(rt, name(known, text), "named");
    }
    if let Some(text) = line.strip_prefix("new ") {
        return show_done(rt, renew(alloc, shown, text), "new");
    }
    if let Some(text) = line.strip_prefix("repeat ") {
        let mut tally = Tally::new(alloc);
        let done = repeat(known, shown, &mut tally, text);
        return show_tally(rt, tally, done, false);
    }
    if let Some(text) = line.strip_prefix("random ") {
        let mut tally = Tally::new(alloc);
        let done = random(alloc, shown, &mut tally, text);
        return show_tally(rt, tally, done, true);
    }
    match play(known, shown, line) {
        Ok(came) => {
            show_came(rt, alloc, known, shown, came)?;
            Ok(None)
        }
        Err(fault) => Ok(Some(fault)),
    }
}

/// Prints the counts, or hands on why they are not whole.
fn show_tally(
    rt: &impl Print,
    tally: Tally,
    done: Result<(), Fault>,
    with_answers: bool,
) -> io::Result<Option<Fault>> {
    let shown = match done {
        Ok(()) => tally.show(rt, with_answers),
        Err(_) => Ok(()),
    };
    drop(tally);
    shown?;
    Ok(done.err())
}

/// Does a line, once more where there was no memory.
fn show_line(
    rt: &impl Print,
    alloc: Global,
    known: &mut Known,
    shown: &mut Shown,
    line: &str,
) -> io::Result<()> {
    if line.starts_with('#') {
        return println!(rt; "{line}");
    }
    let Some(fault) = do_line(rt, alloc, known, shown, line)? else {
        return Ok(());
    };
    show_fault(rt, fault)?;
    if is_memory(fault) {
        if let Some(fault) = do_line(rt, alloc, known, shown, line)? {
            show_fault(rt, fault)?;
        }
    }
    Ok(())
}

fn show_lines(rt: &HostRuntime, known: &mut Known, shown: &mut Shown) -> io::Result<()> {
    let alloc = rt.alloc();
    for line in BufReader::new(alloc, rt.reader())?.lines(alloc) {
        show_line(rt, alloc, known, shown, line?.as_str())?;
    }
    Ok(())
}

fn main(rt: HostRuntime) -> io::Result<()> {
    let mut known = Known::new(rt.alloc());
    let mut shown = Shown::new(rt.alloc(), u64::MAX);
    let done = show_lines(&rt, &mut known, &mut shown);
    drop(known);
    drop(shown);
    done
}
