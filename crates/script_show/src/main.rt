//! Shows scripts: what a call wants done by the answers that a line tells, and its reply.
//!
//! The program reads lines from standard input and prints a line for each. A line is a patience, `wait` or `never`, a
//! method with its arguments, and behind ` / ` each the answers of the space and of peers, in order. Values, tuples and
//! templates are dumps in hexadecimal, references are a uri and behind a `#` the number of the id, and `-` is nobody:
//!
//! - `write TUPLE LIFE`, `take TEMPLATE LIFE BLOCK`, `read TEMPLATE LIFE BLOCK`, `move PORT TEMPLATE LIFE BLOCK`,
//!   `read_all TEMPLATE`, `notify EVENT TEMPLATE LIFE`, LIFE `never`, `gone`, a number of seconds or a renewer;
//! - `cancel ID`, `renew ID LIFE`, `alive? ID`, `expired? ID`, `canceled? ID`, `value ID`, `pop ID`, `each ID BLOCK`.
//!
//! Shown are the turns and the calls that were asked for, and then the reply, `true` with a dump or `false` with an
//! exception's class and text; or `next` with what is asked for where the answers end; or `lost` where a call found no
//! memory; and the turn that may then be made for what is left behind. A line that begins with `#` is shown as it is.
//!
//! It stands on `drb_script` and `drb_reply`, whose contracts say what is right. `stdin` has cases of each row of
//! docs/SESSIONS.md, Scripts. Read `calls` and `answers` for how a line is spelled, and `shown` for how it is shown.
#![tactic(auto)]

mod answers;
mod calls;
mod shown;
mod words;

use answers::{back_of, out_of};
use calls::{call_of, patience};
use drb_script::{AfterCall, AfterTurn, Loose, Next, Patience, Saying, begin, clearing};
use drb_tree::Remote;
use rinda_rules::Event;
use shown::{call_text, event_text, reply_text};
use std::alloc::Global;
use std::io;
use std::io::{BufRead, BufReader};
use words::{Fault, word};

/// Adds what was asked for.
fn add(text: &mut String, part: Result<String, Fault>) -> Result<(), Fault> {
    let part = part?;
    text.push_str(part.as_str())?;
    text.push_str("; ")?;
    Ok(())
}

/// What a script wants after this turn was answered so.
fn turned(alloc: Global, patience: Patience, then: AfterTurn, answer: &str) -> Result<Next, Fault> {
    match out_of(alloc, answer) {
        Ok(out) => Ok(then.turned(patience, out)),
        Err(fault) => {
            drop(then);
            Err(fault)
        }
    }
}

/// What a script wants after its call of this peer came to this.
fn called(
    alloc: Global,
    patience: Patience,
    to: Remote,
    then: AfterCall,
    answer: &str,
) -> Result<Next, Fault> {
    match back_of(alloc, answer) {
        Ok(back) => Ok(then.called(patience, to, back)),
        Err(fault) => {
            drop(to);
            drop(then);
            Err(fault)
        }
    }
}

/// The turn is made.
fn step_turn(
    alloc: Global,
    patience: Patience,
    event: Event,
    then: AfterTurn,
    answer: &str,
    text: &mut String,
) -> Result<Next, Fault> {
    match add(text, event_text(alloc, event)) {
        Ok(()) => turned(alloc, patience, then, answer),
        Err(fault) => {
            drop(then);
            Err(fault)
        }
    }
}

/// The peer is called.
fn step_call(
    alloc: Global,
    patience: Patience,
    to: Remote,
    part: Result<String, Fault>,
    then: AfterCall,
    answer: &str,
    text: &mut String,
) -> Result<Next, Fault> {
    match add(text, part) {
        Ok(()) => called(alloc, patience, to, then, answer),
        Err(fault) => {
            drop(to);
            drop(then);
            Err(fault)
        }
    }
}

/// What a script wants after this answer.
fn step(
    alloc: Global,
    patience: Patience,
    next: Next,
    answer: &str,
    text: &mut String,
) -> Result<Next, Fault> {
    match next {
        Next::Turn(event, then) => step_turn(alloc, patience, event, then, answer, text),
        Next::Call(to, saying, then) => {
            let part = call_text(alloc, &to, saying);
            step_call(alloc, patience, to, part, then, answer, text)
        }
        other => {
            drop(other);
            Err(Fault::NotALine)
        }
    }
}

/// Adds the turn that may still be made for what is left behind.
fn add_loose(alloc: Global, loose: Loose, text: &mut String) -> Result<(), Fault> {
    match clearing(loose) {
        None => Ok(()),
        Some(event) => {
            let event = event_text(alloc, event)?;
            text.push_str(", left is ")?;
            text.push_str(event.as_str())?;
            Ok(())
        }
    }
}

fn add_word(text: &mut String, word: &str, part: Result<String, Fault>) -> Result<(), Fault> {
    let part = part?;
    text.push_str(word)?;
    text.push_str(part.as_str())?;
    Ok(())
}

fn wanted(alloc: Global, to: Remote, saying: Saying) -> Result<String, Fault> {
    let part = call_text(alloc, &to, saying);
    drop(to);
    part
}

/// Adds where the script stands as the answers end.
fn add_end(alloc: Global, name: &str, next: Next, text: &mut String) -> Result<(), Fault> {
    let loose = next.loose();
    match next {
        Next::Turn(event, then) => {
            drop(then);
            add_word(text, "next ", event_text(alloc, event))?;
        }
        Next::Call(to, saying, then) => {
            drop(then);
            add_word(text, "next ", wanted(alloc, to, saying))?;
        }
        Next::Reply(reply) => add_word(text, "", reply_text(alloc, name, reply))?,
        Next::Lost(_) => text.push_str("lost")?,
    }
    add_loose(alloc, loose, text)
}

/// The script by these answers, each behind ` / `.
fn play(
    alloc: Global,
    patience: Patience,
    first: Next,
    answers: &str,
    text: &mut String,
) -> Result<Next, Fault> {
    let mut next = first;
    for answer in answers.split(" / ") {
        if !answer.is_empty() {
            next = step(alloc, patience, next, answer, text)?;
        }
    }
    Ok(next)
}

/// What is shown of a line.
fn line_text(alloc: Global, line: &str) -> Result<String, Fault> {
    let (asked, answers) = line.split_once(" / ").unwrap_or((line, ""));
    let mut words = asked.split_whitespace();
    let patience = patience(&mut words)?;
    let name = word(&mut words);
    let call = call_of(alloc, name, &mut words)?;
    let mut text = String::new(alloc);
    let next = play(alloc, patience, begin(patience, call), answers, &mut text)?;
    add_end(alloc, name, next, &mut text)?;
    Ok(text)
}

/// Prints what is shown of the line.
fn show_line(rt: &impl Print, alloc: Global, line: &str) -> io::Result<()> {
    if line.starts_with('#') {
        return println!(rt; "{line}");
    }
    match line_text(alloc, line) {
        Ok(text) => println!(rt; "{text}"),
        Err(Fault::NotALine) => println!(rt; "not a line"),
        Err(Fault::Memory) => println!(rt; "out of memory"),
    }
}

fn main(rt: HostRuntime) -> io::Result<()> {
    let alloc = rt.alloc();
    for line in BufReader::new(alloc, rt.reader())?.lines(alloc) {
        show_line(&rt, alloc, line?.as_str())?;
    }
    Ok(())
}
