//! Measures the reader and the writer of dumps.
//!
//! `bench/marshal.sh` runs it with the word `read`, `write` or `copy` and a number of rounds: it then takes one dump
//! from standard input, and prints the nanoseconds of the quickest round. Without these words it measures nothing. It
//! stands on `marshal_read` and `marshal_write`; docs/PERFORMANCE.md has what was measured.
#![tactic(auto)]

use anyhow::{Result, bail};
use drb_value::Value;
use marshal_read::read_dump;
use marshal_write::write_dump;
use std::alloc::Global;
use std::env;
use std::io::{BufReader, Read};
use std::time::{Clock, Instant};

/// The nanoseconds since then.
fn nanos_since<R: Clock>(rt: &R, start: &Instant) -> Result<u64> {
    Ok(u64::try_from(start.elapsed(rt)?.as_nanos()).unwrap_or(u64::MAX))
}

/// The nanoseconds of one reading. The value is let go after the clock is read.
fn time_read<R: Clock>(rt: &R, alloc: Global, bytes: &[u8]) -> Result<u64> {
    let start = Instant::now(rt)?;
    let value = read_dump(alloc, bytes)?;
    let spent = nanos_since(rt, &start)?;
    drop(value);
    Ok(spent)
}

/// The nanoseconds of one writing, into a list that has no room yet.
fn time_write<R: Clock>(rt: &R, alloc: Global, value: &Value) -> Result<u64> {
    let mut out = Vec::new(alloc);
    let start = Instant::now(rt)?;
    write_dump(value, &mut out)?;
    nanos_since(rt, &start)
}

/// The nanoseconds of one plain copy, into a list that has no room yet.
fn time_copy<R: Clock>(rt: &R, alloc: Global, bytes: &[u8]) -> Result<u64> {
    let mut out = Vec::new(alloc);
    let start = Instant::now(rt)?;
    out.extend_from_slice(bytes)?;
    nanos_since(rt, &start)
}

/// The nanoseconds of the quickest reading.
fn best_read<R: Clock>(rt: &R, alloc: Global, bytes: &[u8], rounds: u32) -> Result<u64> {
    let mut best = u64::MAX;
    for _ in 0..rounds {
        best = best.min(time_read(rt, alloc, bytes)?);
    }
    Ok(best)
}

/// The nanoseconds of the quickest writing of the value read.
fn best_write<R: Clock>(rt: &R, alloc: Global, bytes: &[u8], rounds: u32) -> Result<u64> {
    let (value, _) = read_dump(alloc, bytes)?;
    let mut best = u64::MAX;
    for _ in 0..rounds {
        best = best.min(time_write(rt, alloc, &value)?);
    }
    Ok(best)
}

/// The nanoseconds of the quickest copy.
fn best_copy<R: Clock>(rt: &R, alloc: Global, bytes: &[u8], rounds: u32) -> Result<u64> {
    let mut best = u64::MAX;
    for _ in 0..rounds {
        best = best.min(time_copy(rt, alloc, bytes)?);
    }
    Ok(best)
}

/// The nanoseconds of the quickest round of what the word says.
fn best_of<R: Clock>(rt: &R, alloc: Global, word: &str, bytes: &[u8], rounds: u32) -> Result<u64> {
    match word {
        "read" => best_read(rt, alloc, bytes, rounds),
        "write" => best_write(rt, alloc, bytes, rounds),
        "copy" => best_copy(rt, alloc, bytes, rounds),
        _ => bail!("no such word"),
    }
}

fn main(rt: HostRuntime) -> Result<()> {
    let alloc = rt.alloc();
    let mut words = env::args(&rt)?.skip(1);
    let (Some(word), Some(rounds)) = (words.next(), words.next()) else {
        println!(rt;
            "The words `read`, `write` and `copy`, each with a number of rounds, measure one dump."
        )?;
        return Ok(());
    };
    let rounds = rounds.as_str().parse::<u32>()?;
    let mut input = Vec::new(alloc);
    BufReader::new(alloc, rt.reader())?.read_to_end(&mut input)?;
    let best = best_of(&rt, alloc, word.as_str(), input.as_slice(), rounds)?;
    println!(rt; "{best}")?;
    Ok(())
}
