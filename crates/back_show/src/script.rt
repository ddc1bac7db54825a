//! The dialer that a line asks for.

use crate::watched::{Note, Watched};
use drb_outside::{Line, ScriptDialer};
use std::alloc::{AllocError, Global};

/// How many calls are noted at most.
const NOTED: usize = 8;

/// A peer with that much room for the host and for what is sent.
fn line_of(
    alloc: Global,
    refuses: bool,
    gives: Vec<u8>,
    host: usize,
    room: usize,
) -> Result<Line, AllocError> {
    let host = Vec::with_capacity(alloc, host)?;
    let takes = Vec::with_capacity(alloc, room)?;
    Ok(Line::new(refuses, gives, host, takes))
}

/// What the words of a line say so far.
#[derive(Drop)]
struct Script {
    lines: Vec<Line>,
    fail: Vec<u64>,
    host: usize,
    room: usize,
    piece: usize,
    times: u64,
}

impl Script {
    fn new(alloc: Global) -> Script {
        Script {
            lines: Vec::new(alloc),
            fail: Vec::new(alloc),
            host: 64,
            room: 512,
            piece: 4096,
            times: 1,
        }
    }

    /// A peer more. False where there was no memory.
    fn push_peer(&mut self, alloc: Global, refuses: bool, gives: Vec<u8>) -> bool {
        match line_of(alloc, refuses, gives, self.host, self.room) {
            Ok(line) => self.lines.push(line).is_ok(),
            Err(_) => false,
        }
    }

    /// A peer that gives these bytes. False where they are none.
    fn push_giving(&mut self, alloc: Global, text: &str) -> bool {
        match hex::decode(alloc, text) {
            Ok(gives) => self.push_peer(alloc, false, gives),
            Err(_) => false,
        }
    }

    /// Takes a number. False where the word is none that takes one.
    fn take_number(&mut self, word: &str, number: u64) -> bool {
        match word {
            "host" => self.host = number as usize,
            "room" => self.room = number as usize,
            "piece" => self.piece = number as usize,
            "fails" => return self.fail.push(number).is_ok(),
            _ => return false,
        }
        true
    }

    /// Takes a word and the text behind its `=`. False where there is no such word.
    fn take_pair(&mut self, alloc: Global, word: &str, text: &str) -> bool {
        if word == "gives" {
            return self.push_giving(alloc, text);
        }
        match text.parse::<u64>() {
            Ok(number) => self.take_number(word, number),
            Err(_) => false,
        }
    }

    /// Takes a word. False where there is no such word.
    fn take(&mut self, alloc: Global, word: &str) -> bool {
        if word == "refuses" {
            return self.push_peer(alloc, true, Vec::new(alloc));
        }
        if word == "twice" {
            self.times = 2;
            return true;
        }
        match word.split_once('=') {
            Some((word, text)) => self.take_pair(alloc, word, text),
            None => false,
        }
    }

    /// The dialer that does so.
    fn dialer(self, notes: Vec<Note>) -> Watched<ScriptDialer> {
        let Script {
            lines,
            fail,
            piece,
            times,
            ..
        } = self;
        Watched::new(ScriptDialer::new(lines, fail), piece, times, notes)
    }
}

/// The dialer of these words; None where one of them is none, or memory ran out.
pub fn dialer_of(alloc: Global, text: &str) -> Option<Watched<ScriptDialer>> {
    let Ok(notes) = Vec::with_capacity(alloc, NOTED) else {
        return None;
    };
    let mut script = Script::new(alloc);
    for word in text.split_whitespace() {
        if !script.take(alloc, word) {
            return None;
        }
    }
    Some(script.dialer(notes))
}
