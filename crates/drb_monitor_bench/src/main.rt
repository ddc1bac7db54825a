//! Measures what it costs to enter a monitor, beside std's mutex round the same machine.
//!
//! `bench/monitor.sh` runs it with the word `measure`: it then prints the nanoseconds of one enter and of one locked
//! turn, and their ratio, for one, two and four threads. With the word `hold` four threads enter for turns of about a
//! millisecond, and the script prints the processor time beside. Without these words it measures nothing. It stands on
//! `drb_monitor_tests`, whose account both take in; docs/PERFORMANCE.md has what it printed.
#![tactic(auto)]

ghost use Rattle.std.specs.Prelude.{◌≡◌, ◌^◌, ◌<◌};

use drb_monitor::Machine;
use drb_monitor_tests::{Account, race};
use std::alloc::Global;
use std::sync::{Mutex, Wait};
use std::thread::Threads;
use std::time::{Clock, Instant};
use std::{env, io, thread};

// How many turns are made in one run, by all threads together.
const TURNS: u64 = 200_000;

// How many runs there are of each, of which the quickest counts.
const RUNS: u32 = 9;

// How many turns are made in the run with long turns, and how often the processor pauses in each.
const LONG_TURNS: u64 = 1_000;

const LONG_PAUSES: u64 = 225_000;

// Pays in 1 so often under the mutex.
fn pay_locked<R: Wait>(rt: &R, shared: &Mutex<Account>, caller: u64, count: u64) -> u64 {
    for at in 0..count {
        let mut account = shared.lock(rt);
        let _ = account.turn(caller, at, 1);
    }
    count
}

// The turns made by as many threads under a mutex, each so often.
fn race_locked<R: Threads + Wait + Sync>(
    rt: &R,
    alloc: Global,
    threads: u64,
    count: u64,
) -> Option<Account> {
    let mutex = Mutex::new(Account::new(alloc, 4_000_000, 0));
    let shared = &mutex;
    thread::map_indices(
        rt,
        alloc,
        threads as usize,
        &|i: usize| -> u64 { pay_locked(rt, shared, i as u64, count) },
    )
    .ok()?;
    Some(mutex.into_inner())
}

// The least nanoseconds of one turn over all runs: at the monitor, and under the mutex.
fn measure<R: Threads + Wait + Clock + Sync>(
    rt: &R,
    alloc: Global,
    threads: u64,
) -> io::Result<(u64, u64)>
    requires { (0 < threads) × (threads < 2 ^ 32) }
{
    let count = TURNS / threads;
    let mut entered = u64::MAX;
    let mut locked = u64::MAX;
    for _ in 0..RUNS {
        let start = Instant::now(rt)?;
        let made = race(rt, alloc, threads, count, 0);
        let spent = u64::try_from(start.elapsed(rt)?.as_nanos()).unwrap_or(u64::MAX);
        if made.is_some() {
            entered = entered.min(spent / TURNS);
        }
        let start = Instant::now(rt)?;
        let made = race_locked(rt, alloc, threads, count);
        let spent = u64::try_from(start.elapsed(rt)?.as_nanos()).unwrap_or(u64::MAX);
        if made.is_some() {
            locked = locked.min(spent / TURNS);
        }
    }
    Ok((entered, locked))
}

// The nanoseconds of one turn where four threads enter for long turns.
fn hold<R: Threads + Wait + Clock + Sync>(rt: &R, alloc: Global) -> io::Result<u64> {
    let start = Instant::now(rt)?;
    let _ = race(rt, alloc, 4, LONG_TURNS / 4, LONG_PAUSES);
    let spent = u64::try_from(start.elapsed(rt)?.as_nanos()).unwrap_or(u64::MAX);
    Ok(spent / LONG_TURNS)
}

fn main(rt: HostRuntime) -> io::Result<()> {
    let mut measures = false;
    let mut holds = false;
    for word in env::args(&rt)? {
        match word.as_str() {
            "measure" => measures = true,
            "hold" => holds = true,
            _ => {}
        }
    }
    if !measures && !holds {
        println!(rt; "The word `measure` measures the monitor, `hold` its long turns.")?;
        return Ok(());
    }
    if holds {
        let turn = hold(&rt, rt.alloc())?;
        println!(rt; "threads 4: {LONG_TURNS} long turns, each {turn} ns")?;
    }
    if measures {
        for threads in [1u64, 2, 4] {
            let (entered, locked) = measure(&rt, rt.alloc(), threads)?;
            let ratio = entered.saturating_mul(100) / locked.max(1);
            println!(rt;
                "threads {threads}: enter {entered} ns, mutex {locked} ns, ratio {}.{:02}",
                ratio / 100,
                ratio % 100
            )?;
        }
    }
    Ok(())
}
