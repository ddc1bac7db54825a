//! The command that a line asks for.

use crate::script::Script;
use drb_text::read_text;
use drb_value::{Code, Text, Value};
use rinda_proxy::Asking;
use std::alloc::Global;

/// The words of a command.
#[derive(Clone, Copy, Debug)]
pub struct Words<'a> {
    pub name: &'a str,
    pub uri: &'a str,
    /// The text of the tuple.
    pub tuple: &'a str,
}

/// The text up to the first space, and what follows it.
fn word(text: &str) -> (&str, &str) {
    text.split_once(' ').unwrap_or((text, ""))
}

impl<'a> Words<'a> {
    /// The words of a command, as far as there are any.
    pub fn of(text: &'a str) -> Words<'a> {
        let (name, rest) = word(text);
        let (uri, tuple) = word(rest);
        Words { name, uri, tuple }
    }
}

/// A uri.
pub fn uri_of(alloc: Global, text: &str) -> Option<Text> {
    Text::of(alloc, text.as_bytes(), Code::Utf8).ok()
}

/// The event that is watched: a text, or nil for any.
fn event_of(alloc: Global, event: Option<&str>) -> Option<Value> {
    match event {
        None => Some(Value::nil()),
        Some(text) => match Text::of(alloc, text.as_bytes(), Code::Utf8) {
            Ok(text) => Some(Value::text(text)),
            Err(_) => None,
        },
    }
}

fn watch_of(alloc: Global, event: Option<&str>, count: u64, tuple: Value) -> Option<Asking> {
    match event_of(alloc, event) {
        Some(event) => Some(Asking::Watch {
            event,
            tuple,
            count,
        }),
        None => None,
    }
}

/// What the command asks for.
pub fn asking_of(alloc: Global, script: &Script, words: &Words<'_>) -> Option<Asking> {
    let Ok(tuple) = read_text(alloc, words.tuple.as_bytes()) else {
        return None;
    };
    let life = script.life;
    match words.name {
        "write" => Some(Asking::Write { tuple, life }),
        "read" => Some(Asking::Read { tuple, life }),
        "readall" => Some(Asking::ReadAll { tuple }),
        "watch" => watch_of(alloc, event_word(script), script.count, tuple),
        _ => None,
    }
}

fn event_word(script: &Script) -> Option<&str> {
    match &script.event {
        Some(event) => Some(event.as_str()),
        None => None,
    }
}
