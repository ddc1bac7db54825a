//! The dialer and the output that a line asks for.

use drb_outside::{Line, MemSink, ScriptDialer};
use std::alloc::{AllocError, Global};

/// The room for the host of a peer, for what is sent to it, and for what is printed, in bytes.
const HOST: usize = 64;

const SENT: usize = 512;

const PRINTED: usize = 4096;

/// What the words of a line say.
#[derive(Drop)]
pub struct Script {
    lines: Vec<Line>,
    fails: Vec<u64>,
    cuts: Vec<u64>,
    piece: usize,
    /// The life of a tuple or a request, in seconds.
    pub life: Option<i128>,
    /// The event that is watched.
    pub event: Option<String>,
    /// How many events are watched.
    pub count: u64,
}

fn line_of(alloc: Global, refuses: bool, gives: Vec<u8>) -> Result<Line, AllocError> {
    let host = Vec::with_capacity(alloc, HOST)?;
    let takes = Vec::with_capacity(alloc, SENT)?;
    Ok(Line::new(refuses, gives, host, takes))
}

impl Script {
    fn new(alloc: Global) -> Script {
        Script {
            lines: Vec::new(alloc),
            fails: Vec::new(alloc),
            cuts: Vec::new(alloc),
            piece: 4096,
            life: None,
            event: None,
            count: 3,
        }
    }

    /// A peer more. False where there was no memory.
    fn push_peer(&mut self, alloc: Global, refuses: bool, gives: Vec<u8>) -> bool {
        match line_of(alloc, refuses, gives) {
            Ok(line) => self.lines.push(line).is_ok(),
            Err(_) => false,
        }
    }

    /// A peer that gives these bytes. False where they are none.
    fn push_giving(&mut self, alloc: Global, text: &str) -> bool {
        match hex::decode(alloc, text) {
            Ok(gives) => self.push_peer(alloc, false, gives),
            Err(_) => false,
        }
    }

    fn take_event(&mut self, alloc: Global, text: &str) -> bool {
        match String::from_str(alloc, text) {
            Ok(event) => {
                self.event = Some(event);
                true
            }
            Err(_) => false,
        }
    }

    /// Takes a number. False where the word is none that takes one.
    fn take_number(&mut self, word: &str, number: u64) -> bool {
        match word {
            "fails" => return self.fails.push(number).is_ok(),
            "cuts" => return self.cuts.push(number).is_ok(),
            "piece" => self.piece = number as usize,
            "life" => self.life = Some(i128::from(number)),
            "count" => self.count = number,
            _ => return false,
        }
        true
    }

    /// Takes a word. False where there is no such word.
    fn take(&mut self, alloc: Global, word: &str) -> bool {
        if word == "refuses" {
            return self.push_peer(alloc, true, Vec::new(alloc));
        }
        let Some((word, text)) = word.split_once('=') else {
            return false;
        };
        match word {
            "gives" => self.push_giving(alloc, text),
            "event" => self.take_event(alloc, text),
            _ => match text.parse::<u64>() {
                Ok(number) => self.take_number(word, number),
                Err(_) => false,
            },
        }
    }

    /// The dialer and the output that do so; None where there was no memory.
    pub fn outside(self, alloc: Global) -> Option<(ScriptDialer, MemSink)> {
        let Script {
            lines,
            fails,
            cuts,
            piece,
            ..
        } = self;
        match Vec::with_capacity(alloc, PRINTED) {
            Ok(room) => Some((
                ScriptDialer::new(lines, fails),
                MemSink::new(room, piece, cuts),
            )),
            Err(_) => None,
        }
    }
}

/// What these words say; None where one of them is none, or memory ran out.
pub fn script_of(alloc: Global, text: &str) -> Option<Script> {
    let mut script = Script::new(alloc);
    for word in text.split_whitespace() {
        if !script.take(alloc, word) {
            return None;
        }
    }
    Some(script)
}
