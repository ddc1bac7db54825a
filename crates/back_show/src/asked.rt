//! The call that a line asks for.

use drb_value::{Code, RefId, Remote, Text, Value};
use marshal_read::read_dump;
use std::alloc::Global;

/// The words of a call.
#[derive(Clone, Copy, Debug)]
pub struct Asked<'a> {
    pub uri: &'a str,
    pub id: &'a str,
    pub name: &'a str,
    /// The arguments' dumps, with a space between them.
    pub args: &'a str,
}

/// The text up to the first space, and what follows it.
fn word(text: &str) -> (&str, &str) {
    text.split_once(' ').unwrap_or((text, ""))
}

impl<'a> Asked<'a> {
    /// The words of a call, as far as there are any.
    pub fn of(text: &'a str) -> Asked<'a> {
        let (uri, rest) = word(text);
        let (id, rest) = word(rest);
        let (name, args) = word(rest);
        Asked {
            uri,
            id,
            name,
            args,
        }
    }
}

/// A text of UTF-8.
fn text_of(alloc: Global, text: &str) -> Option<Text> {
    Text::of(alloc, text.as_bytes(), Code::Utf8).ok()
}

/// The id that is written so.
fn id_of(alloc: Global, text: &str) -> Option<RefId> {
    if text == "front" {
        return Some(RefId::Front);
    }
    match text.strip_prefix(':') {
        Some(name) => text_of(alloc, name).map(RefId::Text),
        None => text.parse::<i128>().ok().map(RefId::Number),
    }
}

/// The reference of that uri and that id.
pub fn remote_of(alloc: Global, uri: &str, id: &str) -> Option<Remote> {
    let uri = text_of(alloc, uri)?;
    match id_of(alloc, id) {
        Some(id) => Some(Remote { uri, id }),
        None => None,
    }
}

/// The value that a dump in hexadecimal begins with.
fn value_of(alloc: Global, text: &str) -> Option<Value> {
    let bytes = hex::decode(alloc, text).ok()?;
    match read_dump(alloc, bytes.as_slice()) {
        Ok((value, _)) => Some(value),
        Err(_) => None,
    }
}

/// One argument more. False where it is none.
fn push_arg(alloc: Global, args: &mut Vec<Value>, text: &str) -> bool {
    match value_of(alloc, text) {
        Some(value) => args.push(value).is_ok(),
        None => false,
    }
}

/// The arguments of these dumps.
pub fn args_of(alloc: Global, text: &str) -> Option<Vec<Value>> {
    let mut args = Vec::new(alloc);
    for word in text.split_whitespace() {
        if !push_arg(alloc, &mut args, word) {
            return None;
        }
    }
    Some(args)
}
