//! The words of a line: numbers, names of dumps, dumps in hexadecimal, and what they spell.

ghost use Rattle.std.specs.Prelude.{◌≡◌};

use drb_tree::Remote;
use drb_value::{Node, Value};
use hex::FromHexError;
use marshal_read::{ReadError, read_dump};
use rinda_tuple::{Lease, Life, Template, Tuple, template_of, tuple_of};
use std::alloc::{AllocError, AllocFailed, Global};
use std::str::SplitWhitespace;

/// Why a line is not done.
#[derive(Clone, Copy, Debug, PartialEq, Eq)]
pub enum Fault {
    /// It says nothing that is known here.
    NotALine,
    /// The judge says no.
    Illegal,
    Memory,
}

impl From<AllocError> for Fault {
    ghost use Rattle.space_show.specs.declared.words.Fault.TheVariants.{Memory};

    ghost from_gives = { λ _ e. e ≡ Memory };

    fn from(_: AllocError) -> Fault {
        Fault::Memory
    }
}

impl<T: Drop> From<AllocFailed<T>> for Fault {
    ghost use Rattle.space_show.specs.declared.words.Fault.TheVariants.{Memory};

    ghost from_gives = { λ _ e. e ≡ Memory };

    fn from(_: AllocFailed<T>) -> Fault {
        Fault::Memory
    }
}

/// A dump, and the word that stands for it.
#[derive(Drop)]
struct Named {
    name: String,
    dump: String,
}

/// What words stand for beside what they spell.
#[derive(Drop)]
pub struct Known {
    alloc: Global,
    names: Vec<Named>,
    last: u64,
}

impl Known {
    pub fn new(alloc: Global) -> Known {
        Known {
            alloc,
            names: Vec::new(alloc),
            last: 0,
        }
    }

    /// The name stands for the dump from now on.
    pub fn add(&mut self, name: &str, dump: &str) -> Result<(), Fault> {
        let name = String::from_str(self.alloc, name)?;
        let dump = String::from_str(self.alloc, dump)?;
        self.names.push(Named { name, dump })?;
        Ok(())
    }

    /// The word `last` stands for that id from now on.
    pub fn gave(&mut self, id: u64) {
        self.last = id;
    }

    /// The dump for which the word stands, or the word itself.
    fn dump_of<'a>(&'a self, word: &'a str) -> &'a str {
        for named in self.names.iter() {
            if named.name.as_str() == word {
                return named.dump.as_str();
            }
        }
        word
    }

    /// The name of the dump, or the dump itself.
    pub fn name_of<'a>(&'a self, dump: &'a str) -> &'a str {
        for named in self.names.iter() {
            if named.dump.as_str() == dump {
                return named.name.as_str();
            }
        }
        dump
    }
}

/// The next word, which is empty behind the last one.
pub fn word<'a>(words: &mut SplitWhitespace<'a>) -> &'a str {
    words.next().unwrap_or("")
}

/// The next word as a number.
pub fn number(words: &mut SplitWhitespace<'_>) -> Result<u64, Fault> {
    number_of(word(words))
}

fn number_of(word: &str) -> Result<u64, Fault> {
    match word.parse::<u64>() {
        Ok(n) => Ok(n),
        Err(_) => Err(Fault::NotALine),
    }
}

/// The next word as an id: a number, or `last`.
pub fn id(known: &Known, words: &mut SplitWhitespace<'_>) -> Result<u64, Fault> {
    match word(words) {
        "last" => Ok(known.last),
        spelled => number_of(spelled),
    }
}

/// The next word as yes or no.
pub fn truth(words: &mut SplitWhitespace<'_>) -> Result<bool, Fault> {
    match word(words) {
        "yes" => Ok(true),
        "no" => Ok(false),
        _ => Err(Fault::NotALine),
    }
}

/// The next word as a dump of a value, or its name.
pub fn value(known: &Known, words: &mut SplitWhitespace<'_>) -> Result<Value, Fault> {
    value_of(known, word(words))
}

fn value_of(known: &Known, word: &str) -> Result<Value, Fault> {
    match hex::decode(known.alloc, known.dump_of(word)) {
        Ok(bytes) => read(known.alloc, bytes.as_slice()),
        Err(FromHexError::OutOfMemory) => Err(Fault::Memory),
        Err(_) => Err(Fault::NotALine),
    }
}

/// The value that a whole dump spells.
fn read(alloc: Global, bytes: &[u8]) -> Result<Value, Fault> {
    match read_dump(alloc, bytes) {
        Ok((value, size)) => whole(value, size == bytes.len()),
        Err(ReadError::Memory) => Err(Fault::Memory),
        Err(ReadError::Refused(_)) => Err(Fault::NotALine),
    }
}

fn whole(value: Value, is_whole: bool) -> Result<Value, Fault> {
    if is_whole {
        Ok(value)
    } else {
        drop(value);
        Err(Fault::NotALine)
    }
}

/// The next word as a dump of a tuple.
pub fn tuple(known: &Known, words: &mut SplitWhitespace<'_>) -> Result<Tuple, Fault> {
    match tuple_of(value(known, words)?) {
        Ok(tuple) => Ok(tuple),
        Err(refused) => {
            drop(refused);
            Err(Fault::NotALine)
        }
    }
}

/// The next word as a dump of a template.
pub fn template(known: &Known, words: &mut SplitWhitespace<'_>) -> Result<Template, Fault> {
    match template_of(value(known, words)?) {
        Ok(template) => Ok(template),
        Err(refused) => {
            drop(refused);
            Err(Fault::NotALine)
        }
    }
}

fn remote_of(known: &Known, word: &str) -> Result<Remote, Fault> {
    let value = value_of(known, word)?;
    let remote = remote_in(known.alloc, &value);
    drop(value);
    remote
}

fn remote_in(alloc: Global, value: &Value) -> Result<Remote, Fault> {
    match &value.node {
        Node::Remote(remote) => Ok(remote.get().copy(alloc)?),
        _ => Err(Fault::NotALine),
    }
}

/// The next word as a life: `never`, `gone`, or a number of seconds.
pub fn life(words: &mut SplitWhitespace<'_>) -> Result<Life, Fault> {
    match word(words) {
        "never" => Ok(Life::Never),
        "gone" => Ok(Life::Gone),
        seconds => match seconds.parse::<i128>() {
            Ok(seconds) => Ok(Life::Seconds(seconds)),
            Err(_) => Err(Fault::NotALine),
        },
    }
}

/// The next two words as a life and a renewer: a dump of its reference, or `-` for nobody.
pub fn lease(known: &Known, words: &mut SplitWhitespace<'_>) -> Result<Lease, Fault> {
    let life = life(words)?;
    let renewer = renewer(known, words)?;
    Ok(Lease { life, renewer })
}

fn renewer(known: &Known, words: &mut SplitWhitespace<'_>) -> Result<Option<Remote>, Fault> {
    match word(words) {
        "-" => Ok(None),
        dump => Ok(Some(remote_of(known, dump)?)),
    }
}
