//! The words of a line: numbers, dumps in hexadecimal, and what they spell.

ghost use Rattle.std.specs.Prelude.{◌≡◌};

use drb_tree::Remote;
use drb_value::{Node, Value};
use hex::FromHexError;
use marshal_read::{ReadError, read_dump};
use rinda_tuple::{Lease, Life, LifeArg, Template, Tuple, life_of, template_of, tuple_of};
use std::alloc::{AllocError, AllocFailed, Global};
use std::str::SplitWhitespace;

/// Why a line is not done.
#[derive(Clone, Copy, Debug, PartialEq, Eq)]
pub enum Fault {
    /// It says nothing that is known here.
    NotALine,
    Memory,
}

impl From<AllocError> for Fault {
    ghost use Rattle.rinda_show.specs.declared.words.Fault.TheVariants.{Memory};

    ghost from_gives = { λ _ e. e ≡ Memory };

    fn from(_: AllocError) -> Fault {
        Fault::Memory
    }
}

impl<T: Drop> From<AllocFailed<T>> for Fault {
    ghost use Rattle.rinda_show.specs.declared.words.Fault.TheVariants.{Memory};

    ghost from_gives = { λ _ e. e ≡ Memory };

    fn from(_: AllocFailed<T>) -> Fault {
        Fault::Memory
    }
}

/// The next word, which is empty behind the last one.
pub fn word<'a>(words: &mut SplitWhitespace<'a>) -> &'a str {
    words.next().unwrap_or("")
}

/// The next word as a number.
pub fn number(words: &mut SplitWhitespace<'_>) -> Result<u64, Fault> {
    number_of(word(words))
}

pub fn number_of(word: &str) -> Result<u64, Fault> {
    match word.parse::<u64>() {
        Ok(n) => Ok(n),
        Err(_) => Err(Fault::NotALine),
    }
}

/// The next word as yes or no.
pub fn truth(words: &mut SplitWhitespace<'_>) -> Result<bool, Fault> {
    match word(words) {
        "yes" => Ok(true),
        "no" => Ok(false),
        _ => Err(Fault::NotALine),
    }
}

/// The next word as a dump of a value.
pub fn value(alloc: Global, words: &mut SplitWhitespace<'_>) -> Result<Value, Fault> {
    value_of(alloc, word(words))
}

pub fn value_of(alloc: Global, word: &str) -> Result<Value, Fault> {
    match hex::decode(alloc, word) {
        Ok(bytes) => read(alloc, bytes.as_slice()),
        Err(FromHexError::OutOfMemory) => Err(Fault::Memory),
        Err(_) => Err(Fault::NotALine),
    }
}

/// The value that a whole dump spells.
fn read(alloc: Global, bytes: &[u8]) -> Result<Value, Fault> {
    match read_dump(alloc, bytes) {
        Ok((value, size)) => whole(value, size == bytes.len()),
        Err(ReadError::Memory) => Err(Fault::Memory),
        Err(ReadError::Refused(_)) => Err(Fault::NotALine),
    }
}

fn whole(value: Value, is_whole: bool) -> Result<Value, Fault> {
    if is_whole {
        Ok(value)
    } else {
        drop(value);
        Err(Fault::NotALine)
    }
}

/// The next word as a dump of a tuple.
pub fn tuple(alloc: Global, words: &mut SplitWhitespace<'_>) -> Result<Tuple, Fault> {
    match tuple_of(value(alloc, words)?) {
        Ok(tuple) => Ok(tuple),
        Err(refused) => {
            drop(refused);
            Err(Fault::NotALine)
        }
    }
}

/// The next word as a dump of a template.
pub fn template(alloc: Global, words: &mut SplitWhitespace<'_>) -> Result<Template, Fault> {
    match template_of(value(alloc, words)?) {
        Ok(template) => Ok(template),
        Err(refused) => {
            drop(refused);
            Err(Fault::NotALine)
        }
    }
}

/// The next word as a dump of a reference.
pub fn remote(alloc: Global, words: &mut SplitWhitespace<'_>) -> Result<Remote, Fault> {
    remote_of(alloc, word(words))
}

fn remote_of(alloc: Global, word: &str) -> Result<Remote, Fault> {
    let value = value_of(alloc, word)?;
    let remote = remote_in(alloc, &value);
    drop(value);
    remote
}

fn remote_in(alloc: Global, value: &Value) -> Result<Remote, Fault> {
    match &value.node {
        Node::Remote(remote) => Ok(remote.get().copy(alloc)?),
        _ => Err(Fault::NotALine),
    }
}

/// The next word as a life: `never`, `gone`, or a number of seconds.
pub fn life(words: &mut SplitWhitespace<'_>) -> Result<Life, Fault> {
    match word(words) {
        "never" => Ok(Life::Never),
        "gone" => Ok(Life::Gone),
        seconds => match seconds.parse::<i128>() {
            Ok(seconds) => Ok(Life::Seconds(seconds)),
            Err(_) => Err(Fault::NotALine),
        },
    }
}

/// The next two words as a life and a renewer: a dump of its reference, or `-` for nobody.
pub fn lease(alloc: Global, words: &mut SplitWhitespace<'_>) -> Result<Lease, Fault> {
    let life = life(words)?;
    let renewer = renewer(alloc, words)?;
    Ok(Lease { life, renewer })
}

fn renewer(alloc: Global, words: &mut SplitWhitespace<'_>) -> Result<Option<Remote>, Fault> {
    match word(words) {
        "-" => Ok(None),
        dump => Ok(Some(remote_of(alloc, dump)?)),
    }
}

/// What the next word, a dump, says as the life argument of a request.
pub fn said_life(alloc: Global, words: &mut SplitWhitespace<'_>) -> Result<LifeArg, Fault> {
    let value = value(alloc, words)?;
    let said = life_of(&value);
    drop(value);
    Ok(said)
}
