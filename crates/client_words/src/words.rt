//! The commands, as clap reads them.

use crate::values::{Wrong, count_of, event_of, life_of, tuple_of};
use clap::error::ErrorKind;
use clap::{Arg, ArgMatches, Command, Error};
use drb_value::{Code, Text};
use rinda_proxy::Asking;
use std::alloc::{AllocError, Global};

/// What the words of a client's command set.
#[derive(Drop)]
pub struct Setup {
    /// The uri of the server.
    pub uri: Text,
    /// What is asked of its space.
    pub asking: Asking,
}

/// Whether a command of that name is a client's.
pub fn is_client(name: &str) -> bool {
    match name {
        "write" => true,
        "read" => true,
        "readall" => true,
        "watch" => true,
        _ => false,
    }
}

/// What the words set, of which the first is a client's command.
///
/// Errors: one whose text is for the user. Help is asked for, the words aren't those of the command, or a word doesn't
/// set what it stands for; or there is no memory.
/// Source: docs/CLIENT.md, Words.
pub fn read_client(alloc: Global, words: &[String]) -> Result<Setup, Error> {
    let name = match words.first() {
        Some(word) => word.as_str(),
        None => "read",
    };
    let mut command = command_of(alloc, name)?;
    let matches = command.try_get_matches_from_mut(words)?;
    match setup_of(alloc, name, &matches)? {
        Ok(setup) => Ok(setup),
        Err(wrong) => {
            let text = format!(in alloc; "{wrong}")?;
            Err(command.error(ErrorKind::ValueValidation, text.as_str())?)
        }
    }
}

/// The command of that name and its words.
pub fn command_of<'a>(alloc: Global, name: &'a str) -> Result<Command<'a>, AllocError> {
    match name {
        "write" => write_command(alloc),
        "readall" => readall_command(alloc),
        "watch" => watch_command(alloc),
        _ => read_command(alloc),
    }
}

fn write_command<'a>(alloc: Global) -> Result<Command<'a>, AllocError> {
    let command = Command::new(alloc, "write")
        .about("Writes a tuple, and prints the reference of its entry")
        .after_help("Example: drbts write druby://127.0.0.1:8787 '[:a, 1]' --life 60")
        .bin_name("drbts write")?;
    let command = with_uri(command, alloc)?;
    let command = with_tuple(command, alloc, "The tuple, as `[:a, 1]`")?;
    with_life(
        command,
        alloc,
        "After how many seconds the tuple is gone [default: never]",
    )
}

fn read_command<'a>(alloc: Global) -> Result<Command<'a>, AllocError> {
    let command = Command::new(alloc, "read")
        .about("Waits for a tuple that matches, prints it, and leaves it there")
        .after_help("Example: drbts read druby://127.0.0.1:8787 '[:a, nil]' --life 5")
        .bin_name("drbts read")?;
    let command = with_uri(command, alloc)?;
    let command = with_tuple(command, alloc, "The template, where nil matches any value")?;
    with_life(
        command,
        alloc,
        "How many seconds it waits [default: no end]",
    )
}

fn readall_command<'a>(alloc: Global) -> Result<Command<'a>, AllocError> {
    let command = Command::new(alloc, "readall")
        .about("Prints each tuple that matches on a line of its own")
        .after_help("Example: drbts readall druby://127.0.0.1:8787 '[:a, nil]'")
        .bin_name("drbts readall")?;
    let command = with_uri(command, alloc)?;
    with_tuple(command, alloc, "The template, where nil matches any value")
}

fn watch_command<'a>(alloc: Global) -> Result<Command<'a>, AllocError> {
    let command = Command::new(alloc, "watch")
        .about("Prints what happens to tuples that match, event by event")
        .after_help("Example: drbts watch druby://127.0.0.1:8787 any '[:a, nil]' --count 3")
        .bin_name("drbts watch")?;
    let command = with_uri(command, alloc)?;
    let event = Arg::new(alloc, "EVENT")
        .required(true)
        .help("write, take, delete, or any");
    let command = command.arg(event)?;
    let command = with_tuple(command, alloc, "The template, where nil matches any value")?;
    let count = Arg::new(alloc, "count").long("count").value_name("N").help(
        "After how many events it ends, 0 to 1000000 [default: 1000000]",
    );
    command.arg(count)
}

fn with_uri<'a>(command: Command<'a>, alloc: Global) -> Result<Command<'a>, AllocError> {
    let uri = Arg::new(alloc, "URI")
        .required(true)
        .help("The uri of the server, as druby://127.0.0.1:8787");
    command.arg(uri)
}

fn with_tuple<'a>(
    command: Command<'a>,
    alloc: Global,
    help: &'a str,
) -> Result<Command<'a>, AllocError> {
    let tuple = Arg::new(alloc, "TUPLE").required(true).help(help);
    command.arg(tuple)
}

fn with_life<'a>(
    command: Command<'a>,
    alloc: Global,
    help: &'a str,
) -> Result<Command<'a>, AllocError> {
    let life = Arg::new(alloc, "life")
        .long("life")
        .value_name("S")
        .help(help);
    command.arg(life)
}

/// What the words set, or the one that doesn't set what it stands for.
fn setup_of<'a>(
    alloc: Global,
    name: &str,
    matches: &ArgMatches<'a>,
) -> Result<Result<Setup, Wrong<'a>>, AllocError> {
    let word = matches.get_str("URI").unwrap_or("");
    let uri = Text::of(alloc, word.as_bytes(), Code::Utf8)?;
    match asking_of(alloc, name, matches)? {
        Ok(asking) => Ok(Ok(Setup { uri, asking })),
        Err(wrong) => Ok(Err(wrong)),
    }
}

fn asking_of<'a>(
    alloc: Global,
    name: &str,
    matches: &ArgMatches<'a>,
) -> Result<Result<Asking, Wrong<'a>>, AllocError> {
    match name {
        "write" => write_of(alloc, matches),
        "readall" => readall_of(alloc, matches),
        "watch" => watch_of(alloc, matches),
        _ => read_of(alloc, matches),
    }
}

fn write_of<'a>(
    alloc: Global,
    matches: &ArgMatches<'a>,
) -> Result<Result<Asking, Wrong<'a>>, AllocError> {
    let life = match life_of(matches.get_str("life")) {
        Ok(life) => life,
        Err(wrong) => return Ok(Err(wrong)),
    };
    match tuple_of(alloc, matches.get_str("TUPLE").unwrap_or(""))? {
        Ok(tuple) => Ok(Ok(Asking::Write { tuple, life })),
        Err(wrong) => Ok(Err(wrong)),
    }
}

fn read_of<'a>(
    alloc: Global,
    matches: &ArgMatches<'a>,
) -> Result<Result<Asking, Wrong<'a>>, AllocError> {
    let life = match life_of(matches.get_str("life")) {
        Ok(life) => life,
        Err(wrong) => return Ok(Err(wrong)),
    };
    match tuple_of(alloc, matches.get_str("TUPLE").unwrap_or(""))? {
        Ok(tuple) => Ok(Ok(Asking::Read { tuple, life })),
        Err(wrong) => Ok(Err(wrong)),
    }
}

fn readall_of<'a>(
    alloc: Global,
    matches: &ArgMatches<'a>,
) -> Result<Result<Asking, Wrong<'a>>, AllocError> {
    match tuple_of(alloc, matches.get_str("TUPLE").unwrap_or(""))? {
        Ok(tuple) => Ok(Ok(Asking::ReadAll { tuple })),
        Err(wrong) => Ok(Err(wrong)),
    }
}

fn watch_of<'a>(
    alloc: Global,
    matches: &ArgMatches<'a>,
) -> Result<Result<Asking, Wrong<'a>>, AllocError> {
    let count = match count_of(matches.get_str("count")) {
        Ok(count) => count,
        Err(wrong) => return Ok(Err(wrong)),
    };
    let event = event_of(alloc, matches.get_str("EVENT").unwrap_or("any"))?;
    match tuple_of(alloc, matches.get_str("TUPLE").unwrap_or(""))? {
        Ok(tuple) => Ok(Ok(Asking::Watch {
            event,
            tuple,
            count,
        })),
        Err(wrong) => {
            drop(event);
            Ok(Err(wrong))
        }
    }
}
