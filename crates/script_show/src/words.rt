//! The words of a line: numbers, dumps in hexadecimal, and what they spell.

ghost use Rattle.std.specs.Prelude.{◌≡◌};

use drb_dispatch::Lasting;
use drb_tree::{Code, RefId, Remote, Text};
use drb_value::Value;
use hex::FromHexError;
use marshal_read::{ReadError, read_dump};
use rinda_tuple::{Life, Template, Tuple, template_of, tuple_of};
use std::alloc::{AllocError, AllocFailed, Global};
use std::str::SplitWhitespace;

/// Why a line is not done.
#[derive(Clone, Copy, Debug, PartialEq, Eq)]
pub enum Fault {
    /// It says nothing that is known here.
    NotALine,
    Memory,
}

impl From<AllocError> for Fault {
    ghost use Rattle.script_show.specs.declared.words.Fault.TheVariants.{Memory};

    ghost from_gives = { λ _ e. e ≡ Memory };

    fn from(_: AllocError) -> Fault {
        Fault::Memory
    }
}

impl<T: Drop> From<AllocFailed<T>> for Fault {
    ghost use Rattle.script_show.specs.declared.words.Fault.TheVariants.{Memory};

    ghost from_gives = { λ _ e. e ≡ Memory };

    fn from(_: AllocFailed<T>) -> Fault {
        Fault::Memory
    }
}

/// The next word, which is empty behind the last one.
pub fn word<'a>(words: &mut SplitWhitespace<'a>) -> &'a str {
    words.next().unwrap_or("")
}

/// The next word as a number.
pub fn number(words: &mut SplitWhitespace<'_>) -> Result<u64, Fault> {
    number_of(word(words))
}

pub fn number_of(word: &str) -> Result<u64, Fault> {
    match word.parse::<u64>() {
        Ok(n) => Ok(n),
        Err(_) => Err(Fault::NotALine),
    }
}

/// The next word as yes or no.
pub fn truth(words: &mut SplitWhitespace<'_>) -> Result<bool, Fault> {
    match word(words) {
        "yes" => Ok(true),
        "no" => Ok(false),
        _ => Err(Fault::NotALine),
    }
}

/// The next word as a dump of a value.
pub fn value(alloc: Global, words: &mut SplitWhitespace<'_>) -> Result<Value, Fault> {
    value_of(alloc, word(words))
}

pub fn value_of(alloc: Global, word: &str) -> Result<Value, Fault> {
    match hex::decode(alloc, word) {
        Ok(bytes) => read(alloc, bytes.as_slice()),
        Err(FromHexError::OutOfMemory) => Err(Fault::Memory),
        Err(_) => Err(Fault::NotALine),
    }
}

/// The value that a whole dump spells.
fn read(alloc: Global, bytes: &[u8]) -> Result<Value, Fault> {
    match read_dump(alloc, bytes) {
        Ok((value, size)) => whole(value, size == bytes.len()),
        Err(ReadError::Memory) => Err(Fault::Memory),
        Err(ReadError::Refused(_)) => Err(Fault::NotALine),
    }
}

fn whole(value: Value, is_whole: bool) -> Result<Value, Fault> {
    if is_whole {
        Ok(value)
    } else {
        drop(value);
        Err(Fault::NotALine)
    }
}

/// The next word as a dump of a tuple.
pub fn tuple(alloc: Global, words: &mut SplitWhitespace<'_>) -> Result<Tuple, Fault> {
    match tuple_of(value(alloc, words)?) {
        Ok(tuple) => Ok(tuple),
        Err(refused) => {
            drop(refused);
            Err(Fault::NotALine)
        }
    }
}

/// The next word as a dump of a template.
pub fn template(alloc: Global, words: &mut SplitWhitespace<'_>) -> Result<Template, Fault> {
    match template_of(value(alloc, words)?) {
        Ok(template) => Ok(template),
        Err(refused) => {
            drop(refused);
            Err(Fault::NotALine)
        }
    }
}

/// The next word as a reference: a uri, and behind a `#` the number of its id.
pub fn remote(alloc: Global, words: &mut SplitWhitespace<'_>) -> Result<Remote, Fault> {
    remote_of(alloc, word(words))
}

fn remote_of(alloc: Global, word: &str) -> Result<Remote, Fault> {
    let (uri, id) = word.split_once('#').unwrap_or((word, ""));
    let id = id_of(id)?;
    let uri = Text::of(alloc, uri.as_bytes(), Code::Utf8)?;
    Ok(Remote { uri, id })
}

fn id_of(word: &str) -> Result<RefId, Fault> {
    if word.is_empty() {
        return Ok(RefId::Front);
    }
    match word.parse::<i128>() {
        Ok(number) => Ok(RefId::Number(number)),
        Err(_) => Err(Fault::NotALine),
    }
}

/// The next word as a reference, or `-` for nobody.
pub fn nobody_or(alloc: Global, words: &mut SplitWhitespace<'_>) -> Result<Option<Remote>, Fault> {
    match word(words) {
        "-" => Ok(None),
        other => Ok(Some(remote_of(alloc, other)?)),
    }
}

/// The next word as a life: `never`, `gone`, a number of seconds, or the reference of a renewer.
pub fn life(alloc: Global, words: &mut SplitWhitespace<'_>) -> Result<Lasting, Fault> {
    match word(words) {
        "never" => Ok(Lasting::Known(Life::Never)),
        "gone" => Ok(Lasting::Known(Life::Gone)),
        other => match other.parse::<i128>() {
            Ok(seconds) => Ok(Lasting::Known(Life::Seconds(seconds))),
            Err(_) => Ok(Lasting::Renewer(remote_of(alloc, other)?)),
        },
    }
}
