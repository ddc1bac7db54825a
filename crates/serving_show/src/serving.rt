// Guests that are served, and what they come to.

ghost use Rattle.std.specs.Prelude.{◌≡◌, ◌≤◌, IfOk};

use crate::doubles::{HeldSource, Meeting, Open, SeenClock, SeenSink};
use crate::told::{show_history, show_served, shown};
use drb_dispatch::Place;
use drb_doors::{Doors, Guest, Limited, MemDoors};
use drb_edge::{TcpDialer, TcpDoors, WallClock};
use drb_outside::{Clock, MemSource, ScriptClock, ScriptDialer, Source};
use drb_packet::Limits;
use drb_serving::{Gate, Served, Settings, serve_run};
use drb_value::{Code, Text};
use rinda_marks::Secret;
use rinda_rules::VecJournal;
use rinda_space::Space;
use std::alloc::{AllocError, Global};
use std::collections::VecDeque;
use std::io::{Read, Write};
use std::net::{Net, Shutdown, TcpListener, TcpStream};
use std::sync::atomic::AtomicU64;
use std::sync::{Arc, Mutex, Wait};
use std::thread::Threads;
use std::{io, thread};

/// How many turns a history may have.
const TURNS: u64 = 1_000;

/// What a guest was written, where it is seen.
type Seen = Arc<Mutex<Vec<u8>>, Global>;

/// Doors through which guests come who are seen.
type Hall<'a, S, R> = MemDoors<S, SeenSink<'a, R>, ScriptClock, ScriptDialer>;

/// The end of a service, and its space.
type End = (Served, Option<Space<VecJournal>>);

/// What is served with.
fn settings_of(alloc: Global, workers: u64, shut_after: Option<u64>) -> Result<Settings, AllocError>
    ensures { IfOk result (λ settings. settings.workers ≡ workers) }
{
    let uri = Text::of(alloc, b"druby://127.0.0.1:8787", Code::Utf8)?;
    let limits = Limits {
        load: 26_214_400,
        args: 256,
    };
    Ok(Settings {
        place: Place { uri, limits },
        workers,
        shut_after,
    })
}

fn no_dialer(alloc: Global) -> ScriptDialer {
    ScriptDialer::new(Vec::new(alloc), Vec::new(alloc))
}

/// A place in which it is seen what a guest is written.
fn seen(alloc: Global) -> Result<Seen, AllocError> {
    match Arc::new(alloc, Mutex::new(Vec::new(alloc))) {
        Ok(seen) => Ok(seen),
        Err(_) => Err(AllocError),
    }
}

/// What is seen there.
fn bytes_in<R: Wait>(rt: &R, alloc: Global, seen: &Seen) -> Result<Vec<u8>, AllocError> {
    Vec::from_slice(alloc, seen.lock(rt).as_slice())
}

/// Doors through which a guest comes for each of these, and what each is written. The call of that number fails.
fn doors_of<'a, S: Source + Drop + Send, R: Wait + Sync>(
    rt: &'a R,
    alloc: Global,
    inputs: Vec<S>,
    fails: u64,
) -> Result<(Hall<'a, S, R>, Vec<Seen>), AllocError> {
    let mut guests = VecDeque::new(alloc);
    let mut all = Vec::new(alloc);
    for input in inputs {
        let bytes = seen(alloc)?;
        guests.push_back(Guest {
            input,
            output: SeenSink::new(rt, Arc::try_clone(&bytes)?),
            clock: ScriptClock::new([1_000].to_vec(alloc)?),
            dialer: no_dialer(alloc),
        })?;
        all.push(bytes)?;
    }
    let fail = if fails == 0 {
        Vec::new(alloc)
    } else {
        [fails].to_vec(alloc)?
    };
    Ok((MemDoors::new(guests, fail), all))
}

/// Serves them over a new space.
fn end_of<N: Doors + Drop + Send, C: Clock + Drop + Send, G: Gate, R: Threads + Wait + Sync>(
    rt: &R,
    alloc: Global,
    settings: &Settings,
    doors: N,
    clock: C,
    gate: &G,
) -> End
    requires { (1 ≤ settings.now.workers) × (settings.now.workers ≤ 256) }
{
    let (served, doors, clock, space) = serve_run(
        rt,
        alloc,
        Secret::new(1, 2),
        settings,
        VecJournal::new(alloc, TURNS),
        doors,
        clock,
        no_dialer(alloc),
        gate,
    );
    drop(doors);
    drop(clock);
    (served, space)
}

/// A guest that sends these bytes.
fn sender(alloc: Global, bytes: Vec<u8>) -> MemSource {
    MemSource::new(bytes, Vec::new(alloc), Vec::new(alloc))
}

/// Prints how guests were served, and what each was written, sorted.
pub fn serve<R: Threads + Wait + Print + Sync>(
    rt: &R,
    alloc: Global,
    workers: u64,
    fails: u64,
    inputs: Vec<Vec<u8>>,
) -> io::Result<()>
    requires { (1 ≤ workers) × (workers ≤ 256) }
{
    let mut senders = Vec::new(alloc);
    for bytes in inputs {
        senders.push(sender(alloc, bytes))?;
    }
    let (doors, all) = doors_of(rt, alloc, senders, fails)?;
    let settings = settings_of(alloc, workers, None)?;
    let clock = ScriptClock::new([1_000].to_vec(alloc)?);
    let (served, space) = end_of(rt, alloc, &settings, doors, clock, &Open);
    drop(space);
    drop(settings);
    let mut texts = Vec::new(alloc);
    for bytes in &all {
        let bytes = bytes_in(rt, alloc, bytes)?;
        texts.push(shown(alloc, bytes.as_slice())?)?;
    }
    texts.sort()?;
    show_served(rt, &served)?;
    for text in &texts {
        print!(rt; "; {text}")?;
    }
    println!(rt; "")
}

/// The bytes without the last, where the number of a reference stands.
fn but_last(bytes: &[u8]) -> &[u8] {
    match bytes.split_last() {
        Some((_, front)) => front,
        None => bytes,
    }
}

/// Prints what two guests came to, of whom the first is held until the second has come.
pub fn meet<R: Threads + Wait + Print + Sync>(
    rt: &R,
    alloc: Global,
    first: Vec<u8>,
    second: Vec<u8>,
) -> io::Result<()> {
    let mut senders = Vec::new(alloc);
    senders.push(sender(alloc, first))?;
    senders.push(sender(alloc, second))?;
    let (doors, all) = doors_of(rt, alloc, senders, 0)?;
    let settings = settings_of(alloc, 2, None)?;
    let clock = ScriptClock::new([1_000].to_vec(alloc)?);
    let (served, space) = end_of(rt, alloc, &settings, doors, clock, &Meeting::new());
    drop(settings);
    match served {
        Served::Done {
            turns: 3 | 4,
            tuples,
        } => print!(rt; "done; turns 3 or 4, tuples {tuples}")?,
        _ => show_served(rt, &served)?,
    }
    if let Some(space) = &space {
        show_history(rt, space.history(), &["reserve", "submit", "write"])?;
    }
    drop(space);
    let mut texts = Vec::new(alloc);
    for bytes in &all {
        texts.push(bytes_in(rt, alloc, bytes)?)?;
    }
    for (number, bytes) in texts.iter().enumerate() {
        let bytes = if number == 1 {
            but_last(bytes.as_slice())
        } else {
            bytes.as_slice()
        };
        print!(rt; "; {}", shown(alloc, bytes)?)?;
    }
    println!(rt; "")
}

/// What the keeper's clock reads beside a guest, and how long the guest waits.
#[derive(Clone, Copy)]
struct Keeping {
    /// By how many milliseconds each reading is later.
    step: u64,
    shut_after: Option<u64>,
    /// How many more readings the guest waits for.
    more: u64,
}

/// Prints what one guest came to, who sends the second part once the keeper's clock was read so many times more.
fn held<R: Threads + Wait + Print + Sync>(
    rt: &R,
    alloc: Global,
    first: Vec<u8>,
    second: Vec<u8>,
    keeping: Keeping,
) -> io::Result<()> {
    let reads = Arc::new(alloc, AtomicU64::new(0))?;
    let mut sources = Vec::new(alloc);
    sources.push(HeldSource::new(first, second, Arc::try_clone(&reads)?, keeping.more))?;
    let (doors, all) = doors_of(rt, alloc, sources, 0)?;
    let settings = settings_of(alloc, 1, keeping.shut_after)?;
    let clock = SeenClock::new(reads, 2_000, keeping.step);
    let (served, space) = end_of(rt, alloc, &settings, doors, clock, &Open);
    drop(settings);
    show_served(rt, &served)?;
    if let Some(space) = &space {
        show_history(rt, space.history(), &["write", "age", "shut", "read_all"])?;
    }
    drop(space);
    for bytes in &all {
        let bytes = bytes_in(rt, alloc, bytes)?;
        print!(rt; "; {}", shown(alloc, bytes.as_slice())?)?;
    }
    println!(rt; "")
}

/// The keeper's clock always reads 2000, and four more readings are waited for.
pub fn age<R: Threads + Wait + Print + Sync>(
    rt: &R,
    alloc: Global,
    first: Vec<u8>,
    second: Vec<u8>,
) -> io::Result<()> {
    let keeping = Keeping {
        step: 0,
        shut_after: None,
        more: 4,
    };
    held(rt, alloc, first, second, keeping)
}

/// The space is shut after 3000 milliseconds, each reading is 1000 more, and twenty are waited for.
pub fn shut<R: Threads + Wait + Print + Sync>(
    rt: &R,
    alloc: Global,
    first: Vec<u8>,
    second: Vec<u8>,
) -> io::Result<()> {
    let keeping = Keeping {
        step: 1_000,
        shut_after: Some(3_000),
        more: 20,
    };
    held(rt, alloc, first, second, keeping)
}

/// What a peer is answered that sends these bytes, and then ends its sending.
fn answered<R: Net<Stream = TcpStream>>(
    rt: &R,
    alloc: Global,
    port: u16,
    bytes: &[u8],
) -> io::Result<Vec<u8>> {
    let mut stream = TcpStream::connect(rt, ("127.0.0.1", port))?;
    stream.write_all(bytes)?;
    stream.shutdown(Shutdown::Write)?;
    let mut answer = Vec::new(alloc);
    stream.read_to_end(&mut answer)?;
    Ok(answer)
}

/// Serves one guest of these doors.
fn serve_over_tcp<
    N: Doors + Drop + Send,
    R: Net<Listener = TcpListener, Stream = TcpStream>
        + std::rt::Clock
        + Threads
        + Wait
        + Eprint
        + Sync,
>(rt: &R, alloc: Global, doors: N) -> Result<Served, AllocError> {
    let settings = settings_of(alloc, 1, None)?;
    let (served, doors, clock, space) = serve_run(
        rt,
        alloc,
        Secret::new(1, 2),
        &settings,
        VecJournal::new(alloc, TURNS),
        Limited::new(doors, Some(1)),
        WallClock::new(rt),
        TcpDialer::new(rt, None),
        &Open,
    );
    drop(doors);
    drop(clock);
    drop(space);
    Ok(served)
}

/// Prints what one guest over TCP is answered.
pub fn peer<
    R: Net<Listener = TcpListener, Stream = TcpStream>
        + std::rt::Clock
        + Threads
        + Wait
        + Print
        + Eprint
        + Sync,
>(rt: &R, alloc: Global, bytes: &[u8]) -> io::Result<()> {
    let doors = TcpDoors::bind(rt, alloc, "127.0.0.1", 0)?;
    let port = doors.port();
    let (served, answer) = thread::join(
        rt,
        || serve_over_tcp(rt, alloc, doors),
        || answered(rt, alloc, port, bytes),
    );
    show_served(rt, &served?)?;
    match answer {
        Ok(answer) => println!(rt; "; {}", shown(alloc, answer.as_slice())?),
        Err(error) => println!(rt; "; {error}"),
    }
}
