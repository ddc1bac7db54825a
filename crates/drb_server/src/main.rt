//! The program `drbts`.
//!
//! `drbts stdio` serves a session of requests over standard input and standard output, and `drbts serve` whoever comes
//! over TCP. All that the first does is one public call, `stdio::stdio_run`, and all that the second does is
//! `drb_serving::serve_run`, with what its words set; both take what they meet outside as arguments, and `main` and
//! `serve` give them the system (`drb_edge`). So does `main` for a client's commands, each of which is one call of
//! `rinda_proxy::client_ask` with what its words set (`client_words`). Read `specs/Words.antt` and `words`, then `specs/Runs.antt` and `stdio`;
//! then `specs/ServeWords.antt` and `serve_words`, `specs/Serving.antt` and `serve`, and `access`. What the process says
//! at its end is in `specs/Statuses.antt` and `statuses`.
#![tactic(auto)]

ghost use Rattle.std.specs.Prelude.{◌≤◌, IfOk};

mod access;
mod serve;
mod serve_words;
mod statuses;
mod stdio;
mod words;

use crate::serve::serve;
use crate::serve_words::{ServeSetup, command_of, read_serve};
use crate::statuses::words_status;
use crate::stdio::{Status, stdio_run};
use clap::{Command, Error};
use client_words::{command_of as client_command_of, is_client, read_client};
use drb_edge::{Reading, TcpDialer, WallClock, Writing};
use drb_outside::Buffered;
use drb_packet::Limits;
use rinda_marks::Secret;
use rinda_proxy::client_ask;
use std::process::ExitCode;
use std::random::RandomSource;
use std::{env, io};

/// The words after the program's name.
fn words_of(rt: &HostRuntime) -> io::Result<Vec<String>> {
    let mut words = Vec::new(rt.alloc());
    for word in env::args(rt)?.skip(1) {
        words.push(word)?;
    }
    Ok(words)
}

/// Two random words of the system.
fn secret_of(rt: &HostRuntime) -> io::Result<Secret> {
    let mut first = [0; 8];
    let mut second = [0; 8];
    rt.fill_bytes(&mut first)?;
    rt.fill_bytes(&mut second)?;
    Ok(Secret::new(u64::from_le_bytes(first), u64::from_le_bytes(second)))
}

/// The command `stdio` over the system.
fn run_stdio(rt: &HostRuntime, words: &[String]) -> io::Result<Status> {
    let secret = secret_of(rt)?;
    let Ok(mut input) = Buffered::new(rt.alloc(), Reading::new(rt.stdin())) else {
        return Ok(Status(7));
    };
    let mut output = Writing::new(rt.stdout());
    let mut clock = WallClock::new(rt);
    let mut dialer = TcpDialer::new(rt, None);
    Ok(stdio_run(
        rt.alloc(),
        secret,
        words,
        &mut input,
        &mut output,
        &mut clock,
        &mut dialer,
    ))
}

fn told_stdio(rt: &HostRuntime, words: &[String]) -> u8 {
    let Ok(status) = run_stdio(rt, words) else {
        return 7;
    };
    if status.0 == 1 {
        let _untold = eprintln!(rt;
            "usage: drbts stdio [--uri U] [--max-turns N] [--load-limit N]"
        );
    }
    status.0
}

/// Shows the user what clap says.
fn tell(rt: &HostRuntime, error: &Error) -> u8 {
    let _untold = error.print(rt);
    words_status(error.kind())
}

/// How much is read of a packet of a reply.
const REPLIES: Limits = Limits {
    load: 26_214_400,
    args: 256,
};

/// A client's command over the system. The first word is its name.
fn told_client(rt: &HostRuntime, words: &[String]) -> u8 {
    let alloc = rt.alloc();
    match read_client(alloc, words) {
        Ok(setup) => {
            let mut dialer = TcpDialer::new(rt, None);
            let mut output = Writing::new(rt.stdout());
            client_ask(
                alloc,
                &setup.uri,
                &setup.asking,
                &mut dialer,
                &mut output,
                &REPLIES,
            )
            .number()
        }
        Err(error) => tell(rt, &error),
    }
}

/// What the words of the command `serve` set, and a secret; else the status.
fn setup_of<'a>(rt: &HostRuntime, words: &'a [String]) -> Result<(ServeSetup<'a>, Secret), u8>
    ensures { IfOk result (λ x. (1 ≤ x.0.workers) × (x.0.workers ≤ 256)) }
{
    match read_serve(rt.alloc(), words) {
        Ok(setup) => match secret_of(rt) {
            Ok(secret) => Ok((setup, secret)),
            Err(_) => Err(7),
        },
        Err(error) => Err(tell(rt, &error)),
    }
}

/// What clap says of words that begin with none of the commands.
fn help_of(rt: &HostRuntime, words: &[String]) -> Result<(), Error> {
    let alloc = rt.alloc();
    let stdio = Command::new(alloc, "stdio")
        .about("Serves one session over standard input and standard output")
        .override_usage("drbts stdio [--uri U] [--max-turns N] [--load-limit N]");
    let commands = Command::new(alloc, "drbts")
        .about("A dRuby object server with a Rinda tuple space")
        .bin_name("drbts")?
        .no_binary_name(true)
        .subcommand_required(true)
        .arg_required_else_help(true)
        .subcommand(command_of(alloc)?)?
        .subcommand(stdio)?
        .subcommand(client_command_of(alloc, "write")?)?
        .subcommand(client_command_of(alloc, "read")?)?
        .subcommand(client_command_of(alloc, "readall")?)?
        .subcommand(client_command_of(alloc, "watch")?)?;
    commands.try_get_matches_from(words)?;
    Ok(())
}

fn main(rt: HostRuntime) -> ExitCode {
    let Ok(words) = words_of(&rt) else {
        return ExitCode::from(1);
    };
    let status = match words.first() {
        Some(word) if word.as_str() == "stdio" => told_stdio(&rt, words.as_slice()),
        Some(word) if word.as_str() == "serve" => match setup_of(&rt, words.as_slice()) {
            Ok((setup, secret)) => serve(&rt, secret, &setup),
            Err(status) => status,
        },
        Some(word) if is_client(word.as_str()) => told_client(&rt, words.as_slice()),
        _ => match help_of(&rt, words.as_slice()) {
            Ok(()) => 1,
            Err(error) => tell(&rt, &error),
        },
    };
    ExitCode::from(status)
}
