//! Shows what the rules of the space say: which templates match, which lives are how long, and which turns may come.
//!
//! The program reads lines from standard input and prints a line for each. Words stand one space apart, and values,
//! tuples and templates are dumps in hexadecimal:
//!
//! - `match TEMPLATE TUPLE`: yes or no;
//! - `tuple VALUE`: what the value is as a tuple;
//! - `argument VALUE`: what the value says as the life argument of a request;
//! - `deadline LIFE NOW`: when the life is over, in milliseconds, LIFE a number of seconds, `never` or `gone`;
//! - `new`: an empty space; `reopen`: the space is opened again after a stop;
//! - `start`: what is stored of the space, from which another one may start, or `refused`;
//! - `turn CALLER AT EVENT = ANSWER / PICKS`: whether the turn may come next, which is then made;
//! - `#`, and any text: that text.
//!
//! It stands on `rinda_tuple` and `rinda_audit`, whose contracts say what is right. `stdin` has histories and tables, and
//! `stdout` what docs/SPACE.md says of each. Read `words` and `turns` for how a line is spelled, and `storing` for how a
//! stored space is shown.
#![tactic(auto)]

mod storing;
mod turns;
mod words;

use rinda_audit::Replay;
use rinda_rules::Turn;
use rinda_tuple::{Life, LifeArg, NotTuple, Tuple, WhyNotTuple, deadline, is_match, tuple_of};
use std::alloc::Global;
use std::io::{BufRead, BufReader};
use std::str::SplitWhitespace;
use std::{fmt, io};
use storing::show_start;
use turns::turn_of;
use words::{Fault, life, number, said_life, template, tuple, value, word};

/// What is said of a line.
#[derive(Clone, Copy, Debug)]
enum Said {
    Word(&'static str),
    /// Seconds, or a number of elements.
    Count(&'static str, i128),
}

impl fmt::Display for Said {
    fn fmt<W: fmt::Write>(&self, f: &mut fmt::Formatter<W>) -> fmt::Result {
        match self {
            Said::Word(word) => write!(f, "{word}"),
            Said::Count(word, n) => write!(f, "{word} {n}"),
        }
    }
}

fn matched(alloc: Global, words: &mut SplitWhitespace<'_>) -> Result<Said, Fault> {
    let template = template(alloc, words)?;
    let said = match tuple(alloc, words) {
        Ok(tuple) => {
            let yes = is_match(&template, &tuple);
            drop(tuple);
            Ok(Said::Word(if yes { "yes" } else { "no" }))
        }
        Err(fault) => Err(fault),
    };
    drop(template);
    said
}

fn parts(alloc: Global, words: &mut SplitWhitespace<'_>) -> Result<Said, Fault> {
    match tuple_of(value(alloc, words)?) {
        Ok(tuple) => Ok(parts_of(tuple)),
        Err(refused) => Ok(why_not(refused)),
    }
}

fn parts_of(tuple: Tuple) -> Said {
    let said = match &tuple {
        Tuple::List(items) => Said::Count("list", items.len() as i128),
        Tuple::Named(pairs) => Said::Count("named", pairs.len() as i128),
    };
    drop(tuple);
    said
}

fn why_not(refused: NotTuple) -> Said {
    let why = refused.why;
    drop(refused);
    match why {
        WhyNotTuple::NotAList => Said::Word("neither a list nor a hash"),
        WhyNotTuple::BadKey => Said::Word("a key that is no text"),
    }
}

fn argument(alloc: Global, words: &mut SplitWhitespace<'_>) -> Result<Said, Fault> {
    Ok(match said_life(alloc, words)? {
        LifeArg::Renewer => Said::Word("renewer"),
        LifeArg::Known(Life::Never) => Said::Word("never"),
        LifeArg::Known(Life::Gone) => Said::Word("gone"),
        LifeArg::Known(Life::Seconds(s)) => Said::Count("seconds", s),
    })
}

fn over(words: &mut SplitWhitespace<'_>) -> Result<Said, Fault> {
    let life = life(words)?;
    let now = number(words)?;
    Ok(match deadline(&life, now) {
        None => Said::Word("none"),
        Some(at) => Said::Count("at", at as i128),
    })
}

fn play(alloc: Global, replay: &mut Replay, text: &str) -> Result<Said, Fault> {
    let turn = turn_of(alloc, text)?;
    let came = step(alloc, replay, &turn);
    drop(turn);
    Ok(Said::Word(if came? { "legal" } else { "illegal" }))
}

fn step(alloc: Global, replay: &mut Replay, turn: &Turn) -> Result<bool, Fault> {
    Ok(replay.step(alloc, turn)?)
}

fn renew_space(alloc: Global, replay: &mut Replay) -> Said {
    *replay = Replay::new(alloc);
    Said::Word("new")
}

fn reopen(alloc: Global, replay: &mut Replay) -> Result<Said, Fault> {
    replay.reopen(alloc)?;
    Ok(Said::Word("reopened"))
}

/// What is to be said of the line.
fn answer(alloc: Global, replay: &mut Replay, line: &str) -> Result<Said, Fault> {
    if let Some(text) = line.strip_prefix("turn ") {
        return play(alloc, replay, text);
    }
    let mut words = line.split_whitespace();
    match word(&mut words) {
        "match" => matched(alloc, &mut words),
        "tuple" => parts(alloc, &mut words),
        "argument" => argument(alloc, &mut words),
        "deadline" => over(&mut words),
        "new" => Ok(renew_space(alloc, replay)),
        "reopen" => reopen(alloc, replay),
        _ => Err(Fault::NotALine),
    }
}

/// Prints what is said of the line.
fn show_line(rt: &impl Print, alloc: Global, replay: &mut Replay, line: &str) -> io::Result<()> {
    if line.starts_with('#') {
        return println!(rt; "{line}");
    }
    if line == "start" {
        return show_start(rt, alloc, replay);
    }
    match answer(alloc, replay, line) {
        Ok(said) => println!(rt; "{said}"),
        Err(Fault::NotALine) => println!(rt; "not a line"),
        Err(Fault::Memory) => println!(rt; "out of memory"),
    }
}

fn show_lines(rt: &HostRuntime, replay: &mut Replay) -> io::Result<()> {
    let alloc = rt.alloc();
    for line in BufReader::new(alloc, rt.reader())?.lines(alloc) {
        show_line(rt, alloc, replay, line?.as_str())?;
    }
    Ok(())
}

fn main(rt: HostRuntime) -> io::Result<()> {
    let mut replay = Replay::new(rt.alloc());
    let shown = show_lines(&rt, &mut replay);
    drop(replay);
    shown
}
