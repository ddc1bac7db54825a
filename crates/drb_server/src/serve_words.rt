//! The words of the command `serve`.

ghost use Rattle.std.specs.Prelude.{◌≡◌, ◌≤◌, ◌⊎◌, ◌++◌, ℕ, Bool, Option, true, false, map, codes, string_bytes, option_copied, IfOk, IfErr, IfSome, Ok, Some};
ghost use Rattle.clap.specs.Words.{app_of, first_value, found_of, kind_of, with_rule};
ghost use Rattle.drb_server.specs.Words.{Word, default_uri, default_load};
ghost use Rattle.drb_server.specs.ServeWords.{option, serve_command, IsWordOr, IsNumberOr, IsStand, IsUriAt, MayBeNumber, ServeOptions, serve_options, Sets, MeansServe, with_port};

use crate::words::{is_place, load_in, number_in};
use clap::error::ErrorKind;
use clap::{Arg, ArgMatches, Command, Error};
use std::alloc::{AllocError, Global};
use std::fmt;

/// What the words of `drbts serve` set.
#[derive(Clone, Copy)]
pub struct ServeSetup<'a> {
    /// The server's own uri.
    pub uri: &'a str,
    /// Whether the system picks the port, which is 0 in the uri then.
    pub picks: bool,
    /// How many guests are served at once.
    pub workers: u64,
    /// How many turns the history may have.
    pub max_turns: u64,
    /// The load limit, in bytes.
    pub load_limit: u32,
    /// How many guests are served in all.
    pub sessions: Option<u64>,
    /// After how many milliseconds the space is shut.
    pub shut_after: Option<u64>,
    /// The file with the access list.
    pub acl: Option<&'a str>,
    /// The file that the history is written to.
    pub journal: Option<&'a str>,
}

/// The word of an option that doesn't set it.
#[derive(Clone, Copy, Debug)]
struct Wrong<'a> {
    option: &'static str,
    word: Option<&'a str>,
    wanted: &'static str,
}

impl<'a> fmt::Display for Wrong<'a> {
    fn fmt<W: fmt::Write>(&self, f: &mut fmt::Formatter<W>) -> fmt::Result {
        let Wrong {
            option,
            word,
            wanted,
        } = *self;
        let word = word.unwrap_or("");
        write!(f, "invalid value {word:?} for '--{option}': {wanted}")
    }
}

/// What the words set, of which the first is `serve`.
///
/// Errors: one whose text is for the user. Help is asked for, the words aren't those of the command, or the word of an
/// option doesn't set it; or there is no memory.
/// Source: docs/SESSIONS.md, The command serve.
#[tactic(auto, using(crate::proofs::Serving::workers_fit))]
pub fn read_serve<'a>(alloc: Global, words: &'a [String]) -> Result<ServeSetup<'a>, Error>
    ensures means { IfOk result (λ x. MeansServe (map (λ w. string_bytes w) words.now)
        (serve_options x)) }
    ensures workers { IfOk result (λ x. (1 ≤ x.workers) × (x.workers ≤ 256)) }
    ensures wrong { IfErr result (λ e. (kind_of e ≡ ErrorKind.OutOfMemory)
        ⊎ ((s : ServeOptions) → MeansServe (map (λ w. string_bytes w) words.now) s → ⊥)) }
{
    let mut command = command_of(alloc)?;
    let matches = command.try_get_matches_from_mut(words)?;
    match setup_of(alloc, &matches)? {
        Ok(setup) => Ok(setup),
        Err(wrong) => {
            let text = format!(in alloc; "{wrong}")?;
            Err(command.error(ErrorKind::ValueValidation, text.as_str())?)
        }
    }
}

/// The command and its options.
pub fn command_of<'a>(alloc: Global) -> Result<Command<'a>, AllocError>
    ensures { IfOk result (λ command. app_of command ≡ serve_command) }
{
    let command = Command::new(alloc, "serve")
        .about("Serves a tuple space over TCP")
        .bin_name("drbts serve")?;
    let command = with_option(
        command,
        alloc,
        "uri",
        "URI",
        "The uri of the server, where the port 0 lets the system pick one [default: druby://127.0.0.1:8787]",
    )?;
    let command = with_option(
        command,
        alloc,
        "workers",
        "N",
        "How many connections are served at once, 1 to 256 [default: 256]",
    )?;
    let command = with_option(
        command,
        alloc,
        "max-turns",
        "N",
        "How many turns there may be, 1 to 4000000 [default: no end]",
    )?;
    let command = with_option(
        command,
        alloc,
        "load-limit",
        "BYTES",
        "From which size on a packet is too large, 64 to 1073741823 [default: 26214400]",
    )?;
    let command = with_option(
        command,
        alloc,
        "sessions",
        "N",
        "After how many connections it ends, 1 to 1000000000 [default: no end]",
    )?;
    let command = with_option(
        command,
        alloc,
        "shut-after",
        "MS",
        "After how many milliseconds the space is shut, 1 to 86400000 [default: never]",
    )?;
    let command = with_option(
        command,
        alloc,
        "acl",
        "FILE",
        "The file of the access list [default: everybody may come]",
    )?;
    with_option(
        command,
        alloc,
        "journal",
        "FILE",
        "The file that the history is written to at the end [default: none is kept]",
    )
}

/// The command with one more option.
fn with_option<'a>(
    command: Command<'a>,
    alloc: Global,
    name: &'a str,
    value: &'a str,
    help: &'a str,
) -> Result<Command<'a>, AllocError>
    ensures { IfOk result (λ more. app_of more
        ≡ with_rule (app_of command.entry) (option name.entry.now)) }
{
    let arg = Arg::new(alloc, name)
        .long(name)
        .value_name(value)
        .help(help);
    command.arg(arg)
}

/// What the options set, or the one whose word doesn't set it.
fn setup_of<'a>(
    alloc: Global,
    matches: &ArgMatches<'a>,
) -> Result<Result<ServeSetup<'a>, Wrong<'a>>, AllocError>
    ensures sets { IfOk result (λ r. IfOk r (λ x.
        Sets (first_value (found_of matches.now)) (serve_options x))) }
    ensures wrong { IfOk result (λ r. IfErr r (λ _. (s : ServeOptions)
        → Sets (first_value (found_of matches.now)) s → ⊥)) }
{
    let uri = word_or(matches.get_str("uri"), "druby://127.0.0.1:8787");
    let Some(picks) = picks_of(alloc, uri)? else {
        return Ok(Err(Wrong {
            option: "uri",
            word: Some(uri),
            wanted: "druby://HOST:PORT is wanted",
        }));
    };
    Ok(numbers_of(matches, uri, picks))
}

/// What the options set, where the uri is known.
fn numbers_of<'a>(
    matches: &ArgMatches<'a>,
    uri: &'a str,
    picks: bool,
) -> Result<ServeSetup<'a>, Wrong<'a>>
    requires uri { IsWordOr default_uri (first_value (found_of matches.now) (codes "uri")) uri.now }
    requires stand { IsStand picks uri.now }
    ensures sets { IfOk result (λ x. Sets (first_value (found_of matches.now)) (serve_options x)) }
    ensures wrong { IfErr result (λ _. (s : ServeOptions) → Sets (first_value (found_of matches.now)) s → ⊥) }
{
    let word = matches.get_str("workers");
    let Some(workers) = number_or(word, 256, 1, 256) else {
        return Err(Wrong {
            option: "workers",
            word,
            wanted: "1 to 256 is wanted",
        });
    };
    let word = matches.get_str("max-turns");
    let Some(max_turns) = number_or(word, u64::MAX, 1, 4_000_000) else {
        return Err(Wrong {
            option: "max-turns",
            word,
            wanted: "1 to 4000000 is wanted",
        });
    };
    let word = matches.get_str("load-limit");
    let Some(load_limit) = load_or(word) else {
        return Err(Wrong {
            option: "load-limit",
            word,
            wanted: "64 to 1073741823 is wanted",
        });
    };
    let word = matches.get_str("sessions");
    let Some(sessions) = number_where(word, 1_000_000_000) else {
        return Err(Wrong {
            option: "sessions",
            word,
            wanted: "1 to 1000000000 is wanted",
        });
    };
    let word = matches.get_str("shut-after");
    let Some(shut_after) = number_where(word, 86_400_000) else {
        return Err(Wrong {
            option: "shut-after",
            word,
            wanted: "1 to 86400000 is wanted",
        });
    };
    Ok(ServeSetup {
        uri,
        picks,
        workers,
        max_turns,
        load_limit,
        sessions,
        shut_after,
        acl: matches.get_str("acl"),
        journal: matches.get_str("journal"),
    })
}

fn word_or<'a>(given: Option<&'a str>, default: &'a str) -> &'a str
    ensures { IsWordOr default.entry.now (option_copied given.entry) result.now }
{
    match given {
        Some(word) => word,
        None => default,
    }
}

/// The number that the word sets, or the default where there is none; None where it sets none.
fn number_or(given: Option<&str>, default: u64, least: u64, greatest: u64) -> Option<u64>
    ensures number { IfSome result (λ n.
        IsNumberOr default least greatest (option_copied given.entry) n) }
    ensures every { (n : ℕ) → IsNumberOr default least greatest (option_copied given.entry) n
        → result ≡ Some n }
{
    match given {
        Some(word) => number_in(word, least, greatest),
        None => Some(default),
    }
}

/// The load limit that the word sets.
fn load_or(given: Option<&str>) -> Option<u32>
    ensures number { IfSome result (λ n.
        IsNumberOr default_load 64 1073741823 (option_copied given.entry) n) }
    ensures every { (n : ℕ) → IsNumberOr default_load 64 1073741823 (option_copied given.entry) n
        → result ≡ Some n }
{
    match given {
        Some(word) => load_in(word),
        None => Some(26_214_400),
    }
}

/// The number, from 1 on, that the word sets, where there is one; None where it sets none.
fn number_where(given: Option<&str>, greatest: u64) -> Option<Option<u64>>
    ensures number { IfSome result (λ set.
        MayBeNumber 1 greatest (option_copied given.entry) set) }
    ensures every { (set : Option ℕ) → MayBeNumber 1 greatest (option_copied given.entry) set
        → result ≡ Some set }
{
    match given {
        Some(word) => match number_in(word, 1, greatest) {
            Some(number) => Some(Some(number)),
            None => None,
        },
        None => Some(None),
    }
}

/// Whether the system picks the port of this uri; None where it is none.
fn picks_of(alloc: Global, word: &str) -> Result<Option<bool>, AllocError>
    ensures stand { IfOk result (λ r. IfSome r (λ picks. IsStand picks word.now)) }
    ensures every { IfOk result (λ r. (picks : Bool) → IsStand picks word.now → r ≡ Some picks) }
{
    if is_place(word) {
        return Ok(Some(false));
    }
    let Some(front) = front_of(word) else {
        return Ok(None);
    };
    let uri = with_port(alloc, front, 1)?;
    if is_place(uri.as_str()) {
        Ok(Some(true))
    } else {
        Ok(None)
    }
}

/// What stands before the port 0 at the end.
fn front_of(word: &str) -> Option<&str>
    ensures front { IfSome result (λ front. word.now ≡ front.now ++ codes ":0") }
    ensures every { (front : Word) → word.now ≡ front ++ codes ":0"
        → option_copied result ≡ Some front }
{
    word.strip_suffix(":0")
}

fn with_port(alloc: Global, front: &str, port: u16) -> Result<String, AllocError>
    ensures { IfOk result (λ uri. string_bytes uri ≡ with_port front.now port) }
{
    format!(in alloc; "{front}:{port}")
}

/// The uri of a server that stands at this port.
pub fn uri_at(alloc: Global, setup: &ServeSetup<'_>, port: u16) -> Result<String, AllocError>
    ensures { IfOk result (λ uri. IsUriAt setup.now.picks setup.now.uri.now port (string_bytes uri)) }
{
    match front_of(setup.uri) {
        Some(front) if setup.picks => with_port(alloc, front, port),
        _ => String::from_str(alloc, setup.uri),
    }
}
