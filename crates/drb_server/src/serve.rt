//! The command `serve`: whoever comes over TCP is served from one space.
//!
//! What is promised of that is the contract of `drb_serving::serve_run`. Here are the lines that give it the system.

ghost use Rattle.std.specs.Prelude.{◌≡◌, ◌≤◌, string_bytes, IfOk};
ghost use Rattle.drb_server.specs.ServeWords.{serve_options};
ghost use Rattle.drb_server.specs.Serving.{settings_at};

use crate::access::{list_of, tell_refused};
use crate::serve_words::{ServeSetup, uri_at};
use crate::statuses::{logged_status, served_status};
use drb_acl::{Acl, Guarded};
use drb_dispatch::Place;
use drb_doors::{Doors, Known, Limited};
use drb_edge::{TcpDialer, TcpDoors, WallClock, Writing};
use drb_logged::{Logged, serve_logged};
use drb_packet::Limits;
use drb_ref::parse_uri;
use drb_serving::{Gate, Served, Settings, serve_run};
use drb_value::{Code, Text};
use rinda_counted::Counted;
use rinda_marks::Secret;
use rinda_rules::VecJournal;
use rinda_space::Space;
use std::alloc::{AllocError, Global};
use std::fs::File;
use std::io::Write;
use std::net::{Net, TcpListener, TcpStream};
use std::rt::{Clock, Files};
use std::sync::Wait;
use std::thread::Threads;
use std::time::Duration;

/// The most arguments of a request.
const ARGUMENTS: u32 = 256;

/// How many turns there may be where they are written down and no number is given: they are kept in memory until then.
const WRITTEN_TURNS: u64 = 4_000_000;

/// How many seconds a renewer has to answer, while nothing ages.
const RENEWER_SECONDS: u64 = 5;

/// Holds nobody.
#[derive(Drop)]
struct Open;

impl Gate for Open {
    fn started(&self, _session: u64) {}
}

/// All that `drbts serve` does with what its words set. Answers the status of the process.
///
/// The access list is read, and the journal's file made or emptied, before anything is bound. The first line on standard
/// output is the uri that clients use, and it is there before anybody is let in. The last is `turns N tuples M`. What went
/// wrong is a line on standard error, and so is how many guests each rule of the list refused.
/// Source: docs/SESSIONS.md, The command serve.
pub fn serve<
    R: Net<Listener = TcpListener, Stream = TcpStream>
        + Clock
        + Files
        + Threads
        + Wait
        + Print
        + Eprint
        + AllocGlobal
        + Sync,
>(rt: &R, secret: Secret, setup: &ServeSetup<'_>) -> u8
    requires { (1 ≤ setup.now.workers) × (setup.now.workers ≤ 256) }
{
    let list = match setup.acl {
        Some(file) => match list_of(rt, file) {
            Ok(list) => Some(list),
            Err(status) => return status,
        },
        None => None,
    };
    let journal = match setup.journal {
        Some(file) => match journal_at(rt, file) {
            Ok(journal) => Some(journal),
            Err(status) => return status,
        },
        None => None,
    };
    let (doors, uri) = match bind(rt, setup) {
        Ok(bound) => bound,
        Err(status) => return status,
    };
    match list {
        Some(list) => serve_listed(rt, secret, setup, uri.as_str(), list, doors, journal),
        None => serve_through(rt, secret, setup, uri.as_str(), doors, journal).0,
    }
}

/// The file for the history, which is made or emptied; else the status.
fn journal_at<R: Files + Eprint>(rt: &R, file: &str) -> Result<R::File, u8> {
    match File::create(rt, file) {
        Ok(journal) => Ok(journal),
        Err(error) => {
            let _untold = eprintln!(rt; "journal: {file:?}: {error}");
            Err(5)
        }
    }
}

/// Serves those who come through these doors and whom the list admits.
fn serve_listed<
    N: Doors + Drop + Send,
    R: Net<Listener = TcpListener, Stream = TcpStream>
        + Clock
        + Threads
        + Wait
        + Print
        + Eprint
        + AllocGlobal
        + Sync,
    F: Write + Drop,
>(
    rt: &R,
    secret: Secret,
    setup: &ServeSetup<'_>,
    uri: &str,
    list: Acl,
    doors: N,
    journal: Option<F>,
) -> u8
where
    N::In: Known,
    requires { (1 ≤ setup.now.workers) × (setup.now.workers ≤ 256) }
{
    let doors = Guarded::new(rt, list, doors);
    let (status, doors) = serve_through(rt, secret, setup, uri, doors, journal);
    let guarded = doors.doors();
    tell_refused(rt, guarded.rules(), guarded.judged());
    status
}

/// The doors where the server stands, and the uri that clients use; else the status.
fn bind<'a, R: Net<Listener = TcpListener, Stream = TcpStream> + Eprint + AllocGlobal>(
    rt: &'a R,
    setup: &ServeSetup<'_>,
) -> Result<(TcpDoors<'a, R>, String), u8> {
    let alloc = rt.alloc();
    // any port will do for the host's sake
    let Ok(named) = uri_at(alloc, setup, 1) else {
        return Err(7);
    };
    let Ok(address) = parse_uri(named.as_bytes()) else {
        return Err(1);
    };
    let host = str::from_utf8(address.host).unwrap_or("?");
    let port = if setup.picks { 0 } else { address.port };
    match TcpDoors::bind(rt, alloc, host, port) {
        Ok(doors) => match uri_at(alloc, setup, doors.port()) {
            Ok(uri) => Ok((doors, uri)),
            Err(_) => Err(7),
        },
        Err(error) => {
            let _untold = eprintln!(rt; "bind {host:?}, port {port}: {error}");
            Err(8)
        }
    }
}

/// Serves those who come through these doors, as many as may, and writes the history where there is a file for it.
fn serve_through<
    N: Doors + Drop + Send,
    R: Net<Listener = TcpListener, Stream = TcpStream>
        + Clock
        + Threads
        + Wait
        + Print
        + Eprint
        + AllocGlobal
        + Sync,
    F: Write + Drop,
>(
    rt: &R,
    secret: Secret,
    setup: &ServeSetup<'_>,
    uri: &str,
    doors: N,
    journal: Option<F>,
) -> (u8, Limited<N>)
    requires { (1 ≤ setup.now.workers) × (setup.now.workers ≤ 256) }
{
    let alloc = rt.alloc();
    let doors = Limited::new(doors, setup.sessions);
    let Ok(settings) = settings_of(alloc, setup, uri) else {
        return (7, doors);
    };
    if println!(rt; "{uri}").is_err() {
        return (5, doors);
    }
    match journal {
        Some(file) => serve_writing(rt, secret, setup.max_turns, &settings, doors, file),
        None => serve_counting(rt, secret, setup.max_turns, &settings, doors),
    }
}

/// Serves them at a space that keeps no turns.
fn serve_counting<
    N: Doors + Drop + Send,
    R: Net<Listener = TcpListener, Stream = TcpStream>
        + Clock
        + Threads
        + Wait
        + Print
        + Eprint
        + AllocGlobal
        + Sync,
>(rt: &R, secret: Secret, max_turns: u64, settings: &Settings, doors: N) -> (u8, N)
    requires { (1 ≤ settings.now.workers) × (settings.now.workers ≤ 256) }
{
    let (served, doors, _clock, space) = serve_run(
        rt,
        rt.alloc(),
        secret,
        settings,
        Counted::new(max_turns),
        doors,
        WallClock::new(rt),
        TcpDialer::new(rt, Some(Duration::from_secs(RENEWER_SECONDS))),
        &Open,
    );
    drop(space);
    tell_served(rt, &served);
    (served_status(&served), doors)
}

/// Serves them at a space that keeps its turns, and writes these to the file.
fn serve_writing<
    N: Doors + Drop + Send,
    R: Net<Listener = TcpListener, Stream = TcpStream>
        + Clock
        + Threads
        + Wait
        + Print
        + Eprint
        + AllocGlobal
        + Sync,
    F: Write + Drop,
>(rt: &R, secret: Secret, max_turns: u64, settings: &Settings, doors: N, file: F) -> (u8, N)
    requires { (1 ≤ settings.now.workers) × (settings.now.workers ≤ 256) }
{
    let mut journal = Writing::new(file);
    let (logged, doors, _clock, space) = serve_logged(
        rt,
        rt.alloc(),
        secret,
        settings,
        max_turns.min(WRITTEN_TURNS),
        doors,
        WallClock::new(rt),
        TcpDialer::new(rt, Some(Duration::from_secs(RENEWER_SECONDS))),
        &Open,
        &mut journal,
    );
    tell_logged(rt, &logged, space);
    (logged_status(&logged), doors)
}

/// The last line, of what is left.
fn tell_served(rt: &impl Print, served: &Served) {
    match served {
        Served::Done { turns, tuples } | Served::AcceptFault { turns, tuples } => {
            let _untold = println!(rt; "turns {turns} tuples {tuples}");
        }
        Served::Memory => {}
    }
}

/// The same, and why the history wasn't written whole.
fn tell_logged(rt: &(impl Print + Eprint), logged: &Logged, space: Option<Space<VecJournal>>) {
    if let Some(space) = space {
        let (turns, tuples) = (space.turns(), space.tuples());
        let _untold = println!(rt; "turns {turns} tuples {tuples}");
    }
    match logged {
        Logged::Served(_) => {}
        Logged::DoesNotFit { turn } => {
            let _untold = eprintln!(rt; "journal: turn {turn} has no text");
        }
        Logged::WriteFault => {
            let _untold = eprintln!(rt; "journal: write failed");
        }
    }
}

/// What is served with.
fn settings_of(alloc: Global, setup: &ServeSetup<'_>, uri: &str) -> Result<Settings, AllocError>
    ensures { IfOk result (λ settings. settings ≡ settings_at (serve_options setup.now) uri.now) }
{
    let uri = Text::of(alloc, uri.as_bytes(), Code::Utf8)?;
    let limits = Limits {
        load: setup.load_limit,
        args: ARGUMENTS,
    };
    Ok(Settings {
        place: Place { uri, limits },
        workers: setup.workers,
        shut_after: setup.shut_after,
    })
}
