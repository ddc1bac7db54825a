//! Measures the tuple space.
//!
//! `bench/space.sh` runs it with a word and numbers, and it prints the nanoseconds of one step of the quickest round:
//!
//! - `pairs COUNT ROUNDS`: a tuple is written and taken again;
//! - `among RESIDENT COUNT ROUNDS`: one of so many tuples is taken and written again;
//! - `beside WAITING COUNT ROUNDS`: `pairs` while so many takes of other names wait;
//! - `beside_same WAITING COUNT ROUNDS`: `pairs` while so many takes of the same name and other numbers wait;
//! - `writes COUNT`, `rising COUNT`, `mixed COUNT`: tuples are written, that live for ever, that end later and later, and
//!   that end in no order;
//! - `read_all RESIDENT FOUND ROUNDS`: so many of so many tuples are read.
//!
//! With `memory COUNT` it prints the bytes that each tuple takes. Without these words it measures nothing. It stands on
//! `rinda_space` and `rinda_counted`; docs/PERFORMANCE.md has what was measured.
#![tactic(auto)]

mod playing;
mod tuples;

use anyhow::{Result, bail};
use playing::{Played, read_all, take, wait, write};
use rinda_counted::Counted;
use rinda_marks::Secret;
use rinda_space::Space;
use rinda_tuple::Life;
use std::alloc::Global;
use std::io::Read;
use std::time::{Clock, Instant};
use std::{env, fs};

/// The nanoseconds since then, by each of so many steps.
fn each_since<R: Clock>(rt: &R, start: &Instant, steps: u64) -> Result<u64> {
    let spent = u64::try_from(start.elapsed(rt)?.as_nanos()).unwrap_or(u64::MAX);
    Ok(spent / steps.max(1))
}

/// Writes and takes so often.
fn pair_up(alloc: Global, space: &mut Played, count: u64) -> Result<()> {
    for number in 0..count {
        write(alloc, space, "job", number, Life::Never)?;
        take(alloc, space, "job", number)?;
    }
    Ok(())
}

/// The nanoseconds of one pair, in the quickest round.
fn time_pairs<R: Clock>(
    rt: &R,
    alloc: Global,
    space: &mut Played,
    count: u64,
    rounds: u64,
) -> Result<u64> {
    let mut best = u64::MAX;
    for _ in 0..rounds {
        let start = Instant::now(rt)?;
        pair_up(alloc, space, count)?;
        best = best.min(each_since(rt, &start, count)?);
    }
    Ok(best)
}

/// Writes so many tuples, which stay.
fn fill(alloc: Global, space: &mut Played, name: &str, count: u64) -> Result<()> {
    for number in 0..count {
        write(alloc, space, name, number, Life::Never)?;
    }
    Ok(())
}

/// Takes one tuple and writes it again, so often.
fn take_among(alloc: Global, space: &mut Played, resident: u64, count: u64) -> Result<()> {
    for step in 0..count {
        let number = out_of_order(step, resident);
        take(alloc, space, "job", number)?;
        write(alloc, space, "job", number, Life::Never)?;
    }
    Ok(())
}

/// Numbers below the limit, far apart.
fn out_of_order(step: u64, limit: u64) -> u64 {
    step.wrapping_mul(48_271) % limit.max(1)
}

/// The nanoseconds of one take and write among so many tuples, in the quickest round.
fn time_among<R: Clock>(
    rt: &R,
    alloc: Global,
    space: &mut Played,
    resident: u64,
    count: u64,
    rounds: u64,
) -> Result<u64> {
    fill(alloc, space, "job", resident)?;
    let mut best = u64::MAX;
    for _ in 0..rounds {
        let start = Instant::now(rt)?;
        take_among(alloc, space, resident, count)?;
        best = best.min(each_since(rt, &start, count)?);
    }
    Ok(best)
}

/// The nanoseconds of one pair while so many takes of that name wait, in the quickest round.
fn time_beside<R: Clock>(
    rt: &R,
    alloc: Global,
    space: &mut Played,
    name: &str,
    waiting: u64,
    count: u64,
    rounds: u64,
) -> Result<u64> {
    for number in 0..waiting {
        wait(alloc, space, name, number.saturating_add(count))?;
    }
    time_pairs(rt, alloc, space, count, rounds)
}

/// When a tuple's time is over.
#[derive(Clone, Copy)]
enum Order {
    Never,
    Rising,
    Mixed,
}

fn life_at(order: Order, step: u64, count: u64) -> Life {
    match order {
        Order::Never => Life::Never,
        Order::Rising => Life::Seconds(step as i128 + 1),
        Order::Mixed => Life::Seconds(out_of_order(step, count) as i128 + 1),
    }
}

/// The nanoseconds of one write of so many.
fn time_writes<R: Clock>(
    rt: &R,
    alloc: Global,
    space: &mut Played,
    order: Order,
    count: u64,
) -> Result<u64> {
    let start = Instant::now(rt)?;
    for number in 0..count {
        write(alloc, space, "job", number, life_at(order, number, count))?;
    }
    each_since(rt, &start, count)
}

/// The nanoseconds of one reading of so many tuples among so many, in the quickest round.
fn time_read_all<R: Clock>(
    rt: &R,
    alloc: Global,
    space: &mut Played,
    resident: u64,
    found: u64,
    rounds: u64,
) -> Result<u64> {
    fill(alloc, space, "job", resident.saturating_sub(found))?;
    fill(alloc, space, "note", found)?;
    let mut best = u64::MAX;
    for _ in 0..rounds {
        let start = Instant::now(rt)?;
        if read_all(alloc, space, "note")? != found {
            bail!("other tuples were read");
        }
        best = best.min(each_since(rt, &start, 1)?);
    }
    Ok(best)
}

/// The bytes of this process that are in memory.
fn resident(rt: &HostRuntime) -> Result<u64> {
    let mut file = fs::open(rt, "/proc/self/statm")?;
    let mut bytes = [0u8; 64];
    let size = file.read(&mut bytes)?;
    let text = std::str::from_utf8(bytes.get(..size).unwrap_or(b""))?;
    let pages = text.split_whitespace().nth(1).unwrap_or("").parse::<u64>()?;
    Ok(pages.saturating_mul(4_096))
}

/// The bytes of one of so many tuples.
fn weigh(rt: &HostRuntime, alloc: Global, space: &mut Played, count: u64) -> Result<u64> {
    let before = resident(rt)?;
    fill(alloc, space, "job", count)?;
    let grown = resident(rt)?.saturating_sub(before);
    Ok(grown / count.max(1))
}

/// What is measured in the space, which is empty, by a word and its numbers.
fn measure(
    rt: &HostRuntime,
    alloc: Global,
    space: &mut Played,
    word: &str,
    numbers: &[u64],
) -> Result<u64> {
    match (word, numbers) {
        ("pairs", [count, rounds]) => time_pairs(rt, alloc, space, *count, *rounds),
        ("among", [resident, count, rounds]) => {
            time_among(rt, alloc, space, *resident, *count, *rounds)
        }
        ("beside", [waiting, count, rounds]) => {
            time_beside(rt, alloc, space, "other", *waiting, *count, *rounds)
        }
        ("beside_same", [waiting, count, rounds]) => {
            time_beside(rt, alloc, space, "job", *waiting, *count, *rounds)
        }
        ("writes", [count]) => time_writes(rt, alloc, space, Order::Never, *count),
        ("rising", [count]) => time_writes(rt, alloc, space, Order::Rising, *count),
        ("mixed", [count]) => time_writes(rt, alloc, space, Order::Mixed, *count),
        ("read_all", [resident, found, rounds]) => {
            time_read_all(rt, alloc, space, *resident, *found, *rounds)
        }
        ("memory", [count]) => weigh(rt, alloc, space, *count),
        _ => bail!("no such measure"),
    }
}

fn main(rt: HostRuntime) -> Result<()> {
    let alloc = rt.alloc();
    let mut words = env::args(&rt)?.skip(1);
    let Some(word) = words.next() else {
        println!(rt; "A word and its numbers measure the space, as bench/space.sh has them.")?;
        return Ok(());
    };
    let mut numbers = Vec::new(alloc);
    for word in words {
        numbers.push(word.as_str().parse::<u64>()?)?;
    }
    let mut space = Space::new(alloc, Secret::new(1, 2), Counted::new(u64::MAX));
    let measured = measure(&rt, alloc, &mut space, word.as_str(), numbers.as_slice());
    drop(space);
    println!(rt; "{}", measured?)?;
    Ok(())
}
