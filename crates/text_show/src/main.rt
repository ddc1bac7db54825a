//! Shows what texts are read as, and how values are shown.
//!
//! The program reads lines from standard input, each a word and what it takes, and prints a line for each:
//!
//! - `read` and a text: the value's text as it is shown, or the place at which nothing can go on;
//! - `spell` and a text: the value's dump in hexadecimal, or that place;
//! - `dump` and a dump in hexadecimal: its value's text, and whether that is read as a value with the same dump;
//! - `prefixes` and a text: what each front of it is read as, from no bytes on: `v` for a value, else the place;
//! - `nested`, a number and a text: what that text is read as in so many brackets, of which only the place is printed;
//! - `#`, and any text: that text.
//!
//! It stands on `drb_text`, whose contracts say what is right, and on `marshal_read` and `marshal_write` for the dumps.
//! `stdout` has what docs/TEXT.md says of each line, and dumps that a real Ruby made.
#![tactic(auto)]

use drb_text::{TextError, read_text, show};
use drb_value::Value;
use marshal_read::read_dump;
use marshal_write::write_dump;
use std::alloc::{AllocError, Global};
use std::io;
use std::io::{BufRead, BufReader};

/// The text of a value; none where it is too long.
fn shown(alloc: Global, value: &Value) -> Vec<u8> {
    let mut text = Vec::new(alloc);
    if show(value, &mut text).is_err() {
        text.clear();
    }
    text
}

/// The dump of a value; none where it is too long.
fn spelled(alloc: Global, value: &Value) -> Vec<u8> {
    let mut dump = Vec::new(alloc);
    if write_dump(value, &mut dump).is_err() {
        dump.clear();
    }
    dump
}

fn show_read(rt: &impl Print, alloc: Global, word: &str) -> io::Result<()> {
    match read_text(alloc, word.as_bytes()) {
        Ok(value) => {
            let text = shown(alloc, &value);
            println!(rt; "{}", String::from_utf8_lossy(alloc, text.as_slice())?)
        }
        Err(error) => println!(rt; "{error}"),
    }
}

fn show_spelled(rt: &impl Print, alloc: Global, word: &str) -> io::Result<()> {
    match read_text(alloc, word.as_bytes()) {
        Ok(value) => {
            let dump = spelled(alloc, &value);
            println!(rt; "{}", hex::encode(alloc, dump.as_slice())?)
        }
        Err(error) => println!(rt; "{error}"),
    }
}

/// Whether the text is read as a value with that dump.
fn is_read_again(alloc: Global, text: &[u8], dump: &[u8]) -> bool {
    match read_text(alloc, text) {
        Ok(value) => spelled(alloc, &value).as_slice() == dump,
        Err(_) => false,
    }
}

/// Prints the text of a dump's value.
fn show_dump(rt: &impl Print, alloc: Global, digits: &str) -> io::Result<()> {
    let Ok(bytes) = hex::decode(alloc, digits) else {
        return println!(rt; "not hexadecimal");
    };
    let Ok((value, _)) = read_dump(alloc, bytes.as_slice()) else {
        return println!(rt; "no dump");
    };
    let text = shown(alloc, &value);
    let dump = spelled(alloc, &value);
    let again = if is_read_again(alloc, text.as_slice(), dump.as_slice()) {
        "again"
    } else {
        "otherwise"
    };
    println!(rt;
        "{again} {}",
        String::from_utf8_lossy(alloc, text.as_slice())?
    )
}

/// Prints what each front of the text is read as.
fn show_prefixes(rt: &impl Print, alloc: Global, word: &str) -> io::Result<()> {
    let bytes = word.as_bytes();
    for end in 0..=bytes.len() {
        match read_text(alloc, &bytes[..end]) {
            Ok(_) => print!(rt; "v ")?,
            Err(TextError::Syntax { at }) => print!(rt; "{at} ")?,
            Err(TextError::Memory) => print!(rt; "m ")?,
        }
    }
    println!(rt; "")
}

/// The text in so many brackets.
fn nested(alloc: Global, depth: u32, text: &str) -> Result<Vec<u8>, AllocError> {
    let mut word = Vec::new(alloc);
    for _ in 0..depth {
        word.extend_from_slice(b"[")?;
    }
    word.extend_from_slice(text.as_bytes())?;
    for _ in 0..depth {
        word.extend_from_slice(b"]")?;
    }
    Ok(word)
}

/// Prints whether the text in so many brackets is read.
fn show_nested(rt: &impl Print, alloc: Global, text: &str) -> io::Result<()> {
    let (depth, text) = text.split_once(' ').unwrap_or((text, ""));
    let Ok(depth) = depth.parse::<u32>() else {
        return println!(rt; "no number");
    };
    let word = nested(alloc, depth, text)?;
    match read_text(alloc, word.as_slice()) {
        Ok(value) => {
            let again = shown(alloc, &value).as_slice() == word.as_slice();
            println!(rt;
                "{}",
                if again {
                    "shown as it is"
                } else {
                    "shown otherwise"
                }
            )
        }
        Err(error) => println!(rt; "{error}"),
    }
}

fn main(rt: HostRuntime) -> io::Result<()> {
    let alloc = rt.alloc();
    for line in BufReader::new(alloc, rt.reader())?.lines(alloc) {
        let line = line?;
        let (word, rest) = line.as_str().split_once(' ').unwrap_or((line.as_str(), ""));
        match word {
            "read" => show_read(&rt, alloc, rest)?,
            "spell" => show_spelled(&rt, alloc, rest)?,
            "dump" => show_dump(&rt, alloc, rest)?,
            "prefixes" => show_prefixes(&rt, alloc, rest)?,
            "nested" => show_nested(&rt, alloc, rest)?,
            "#" => println!(&rt; "# {rest}")?,
            _ => println!(&rt; "no such word")?,
        }
    }
    Ok(())
}
