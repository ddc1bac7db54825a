//! What a word sets: a tuple, a life, a count, or an event.

ghost use Rattle.std.specs.Prelude.{◌≡◌, ◌≤◌, IfOk, IfSome, Ok};
ghost use Rattle.drb_text.specs.Texts.{reading};

use drb_text::{TextError, read_text};
use drb_value::{Code, Node, Text, Value};
use std::alloc::{AllocError, Global};
use std::fmt;

/// The greatest life, in seconds.
const LIFE: u64 = 9_223_372_036_854_775_807;

/// The most events.
const COUNT: u64 = 1_000_000;

/// A word that doesn't set what it stands for.
#[derive(Clone, Copy, Debug)]
pub(crate) enum Wrong<'a> {
    /// No text of a value goes on at this byte.
    Tuple { word: &'a str, at: usize },
    /// The value is no list.
    NoList { word: &'a str },
    Life { word: &'a str },
    Count { word: &'a str },
}

impl<'a> fmt::Display for Wrong<'a> {
    fn fmt<W: fmt::Write>(&self, f: &mut fmt::Formatter<W>) -> fmt::Result {
        match *self {
            Wrong::Tuple { word, at } => write!(
                f,
                "invalid value {word:?} for 'TUPLE': no text of a value can go on at byte {at}"
            ),
            Wrong::NoList { word } => {
                write!(f, "invalid value {word:?} for 'TUPLE': a list is wanted")
            }
            Wrong::Life { word } => write!(
                f,
                "invalid value {word:?} for '--life': 0 to {LIFE} is wanted"
            ),
            Wrong::Count { word } => write!(
                f,
                "invalid value {word:?} for '--count': 0 to {COUNT} is wanted"
            ),
        }
    }
}

fn is_list(node: &Node) -> bool {
    match node {
        Node::List(_) => true,
        _ => false,
    }
}

/// The value of a word, which is a list.
pub(crate) fn tuple_of<'a>(
    alloc: Global,
    word: &'a str,
) -> Result<Result<Value, Wrong<'a>>, AllocError>
    ensures value { IfOk result (λ r. IfOk r (λ v. reading word.now ≡ Ok v)) }
{
    match read_text(alloc, word.as_bytes()) {
        Ok(value) => {
            if is_list(&value.node) {
                return Ok(Ok(value));
            }
            drop(value);
            Ok(Err(Wrong::NoList { word }))
        }
        Err(TextError::Syntax { at }) => Ok(Err(Wrong::Tuple { word, at })),
        Err(TextError::Memory) => Err(AllocError),
    }
}

/// The number, up to the greatest, that 1 to 19 digits write.
fn number_in(word: &str, greatest: u64) -> Option<u64>
    ensures { IfSome result (λ n. n ≤ greatest) }
{
    if word.len() > 19 {
        return None;
    }
    if !word.as_bytes().iter().all(|b| b.is_ascii_digit()) {
        return None;
    }
    match word.parse::<u64>() {
        Ok(number) => {
            if number <= greatest {
                Some(number)
            } else {
                None
            }
        }
        Err(_) => None,
    }
}

/// A life in seconds, where one is named.
pub(crate) fn life_of(word: Option<&str>) -> Result<Option<i128>, Wrong<'_>> {
    match word {
        None => Ok(None),
        Some(word) => match number_in(word, LIFE) {
            Some(seconds) => Ok(Some(i128::from(seconds))),
            None => Err(Wrong::Life { word }),
        },
    }
}

/// How many events are waited for: as many as there may be, where no number is named.
pub(crate) fn count_of(word: Option<&str>) -> Result<u64, Wrong<'_>>
    ensures { IfOk result (λ n. n ≤ 1000000) }
{
    match word {
        None => Ok(COUNT),
        Some(word) => match number_in(word, COUNT) {
            Some(count) => Ok(count),
            None => Err(Wrong::Count { word }),
        },
    }
}

/// An event: its name as a text, or nil for `any`.
pub(crate) fn event_of(alloc: Global, word: &str) -> Result<Value, AllocError> {
    if word == "any" {
        return Ok(Value::nil());
    }
    let text = Text::of(alloc, word.as_bytes(), Code::Utf8)?;
    Ok(Value::text(text))
}
