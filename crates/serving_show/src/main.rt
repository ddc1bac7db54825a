//! Shows what many guests come to who share one space: what each is written, and the counts at the end.
//!
//! The program reads lines from standard input, each a word and what it takes, with bytes in hexadecimal, `-` for
//! none, and prints a line for each:
//!
//! - `serve`, a number of workers, the number of the call of `accept` that fails, or 0, and what each guest sends: how
//!   it ended, the counts, and what the guests were written, sorted;
//! - `meet` and what two guests send, of whom the first is held until the second has come: the same, with the number in
//!   the second's reference left out, how many callers there were, and which turns they made;
//! - `age` and what one guest sends, in two parts: its clock reads 1000, the keeper's 2000, and the second part comes
//!   once that was read four times more;
//! - `shut` and the same: the space is shut after 3000 milliseconds, each reading of the keeper's clock is 1000 more,
//!   and the second part comes after twenty of them;
//! - `peer` and what one guest sends over TCP, which then ends its sending: what it is written;
//! - `#`, and any text: that text.
//!
//! It stands on `drb_serving`, whose contract says what is right, but not that guests are served beside one another,
//! nor that the keeper steps beside them; these lines show it. Read `doubles`, then `serving`.
#![tactic(auto)]

ghost use Rattle.std.specs.Prelude.{◌≤◌, IfSome};

mod doubles;
mod serving;
mod told;

use crate::serving::{age, meet, peer, serve, shut};
use crate::told::bytes_of;
use std::alloc::{AllocError, Global};
use std::io;
use std::io::{BufRead, BufReader};
use std::sync::Wait;
use std::thread::Threads;

/// The bytes of each word; None where one is none.
fn inputs_of(alloc: Global, text: &str) -> Result<Option<Vec<Vec<u8>>>, AllocError> {
    let mut inputs = Vec::new(alloc);
    if text.is_empty() {
        return Ok(Some(inputs));
    }
    for word in text.split(' ') {
        match bytes_of(alloc, word) {
            Some(bytes) => inputs.push(bytes)?,
            None => return Ok(None),
        }
    }
    Ok(Some(inputs))
}

/// The bytes of two words.
fn two_of(alloc: Global, text: &str) -> Option<(Vec<u8>, Vec<u8>)> {
    let (first, second) = text.split_once(' ')?;
    let first = bytes_of(alloc, first)?;
    let second = bytes_of(alloc, second)?;
    Some((first, second))
}

/// The numbers of workers and of the call that fails, and what is behind them.
fn numbers_of(text: &str) -> Option<(u64, u64, &str)>
    ensures { IfSome result (λ x. (1 ≤ x.0) × (x.0 ≤ 256)) }
{
    let (workers, rest) = text.split_once(' ')?;
    let (fails, rest) = rest.split_once(' ').unwrap_or((rest, ""));
    let workers = workers.parse::<u64>().ok()?;
    let fails = fails.parse::<u64>().ok()?;
    if workers < 1 || workers > 256 {
        return None;
    }
    Some((workers, fails, rest))
}

/// Prints how the guests of a line are served.
fn show_serve<R: Threads + Wait + Print + Sync>(
    rt: &R,
    alloc: Global,
    text: &str,
) -> io::Result<()> {
    if let Some((workers, fails, rest)) = numbers_of(text) {
        if let Some(inputs) = inputs_of(alloc, rest)? {
            return serve(rt, alloc, workers, fails, inputs);
        }
    }
    println!(rt; "no line")
}

/// Prints what the two parts of a line come to.
fn show_two<R: Threads + Wait + Print + Sync>(
    rt: &R,
    alloc: Global,
    word: &str,
    text: &str,
) -> io::Result<()> {
    let Some((first, second)) = two_of(alloc, text) else {
        return println!(rt; "no line");
    };
    match word {
        "meet" => meet(rt, alloc, first, second),
        "age" => age(rt, alloc, first, second),
        "shut" => shut(rt, alloc, first, second),
        _ => println!(rt; "no line"),
    }
}

fn main(rt: HostRuntime) -> io::Result<()> {
    let alloc = rt.alloc();
    for line in BufReader::new(alloc, rt.reader())?.lines(alloc) {
        let line = line?;
        let (word, rest) = line.as_str().split_once(' ').unwrap_or((line.as_str(), ""));
        match word {
            "#" => println!(&rt; "# {rest}")?,
            "serve" => show_serve(&rt, alloc, rest)?,
            "peer" => match bytes_of(alloc, rest) {
                Some(bytes) => peer(&rt, alloc, bytes.as_slice())?,
                None => println!(&rt; "no line")?,
            },
            _ => show_two(&rt, alloc, word, rest)?,
        }
    }
    Ok(())
}
