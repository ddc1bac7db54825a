//! What is played: writes, takes and reads by one caller, at one reading of the clock.

use crate::tuples::{read_all_of, take_of, write_of};
use anyhow::{Result, bail};
use rinda_counted::Counted;
use rinda_rules::{Event, Out};
use rinda_space::{Space, Turned};
use rinda_tuple::Life;
use std::alloc::Global;

/// The space that is measured. Only the number of its turns is kept.
pub type Played = Space<Counted>;

// The one caller, and the one reading of the clock.
const CALLER: u64 = 1;

const AT: u64 = 1_000;

/// What the measures look at in an answer.
#[derive(Clone, Copy)]
enum Told {
    Id(u64),
    Tuple,
    Tuples(u64),
    Parked,
    Else,
}

/// Makes the event's turn.
fn tell(space: &mut Played, event: Event) -> Result<Told> {
    let turned = space.turn(CALLER, AT, event)?;
    let told = told_by(&turned);
    drop(turned);
    Ok(told)
}

fn told_by(turned: &Turned) -> Told {
    match turned {
        Turned::Done(Out::Entry(id)) => Told::Id(*id),
        Turned::Done(Out::Reserved(id)) => Told::Id(*id),
        Turned::Done(Out::Answer(_)) => Told::Tuple,
        Turned::Done(Out::All(values)) => Told::Tuples(values.len() as u64),
        Turned::Done(Out::Parked(_)) => Told::Parked,
        _ => Told::Else,
    }
}

/// Writes `[name, number, "text"]`.
pub fn write(alloc: Global, space: &mut Played, name: &str, number: u64, life: Life) -> Result<()> {
    match tell(space, write_of(alloc, name, number, life)?)? {
        Told::Id(_) => Ok(()),
        _ => bail!("a tuple was not written"),
    }
}

/// The id of a take of `[name, number, nil]`.
fn reserve(alloc: Global, space: &mut Played, name: &str, number: u64) -> Result<u64> {
    match tell(space, take_of(alloc, name, number)?)? {
        Told::Id(id) => Ok(id),
        _ => bail!("a take was not reserved"),
    }
}

/// Takes `[name, number, nil]`, which is there.
pub fn take(alloc: Global, space: &mut Played, name: &str, number: u64) -> Result<()> {
    let id = reserve(alloc, space, name, number)?;
    match tell(space, Event::Submit { id })? {
        Told::Tuple => Ok(()),
        _ => bail!("a tuple was not taken"),
    }
}

/// Waits for `[name, number, nil]`, which is not there.
pub fn wait(alloc: Global, space: &mut Played, name: &str, number: u64) -> Result<()> {
    let id = reserve(alloc, space, name, number)?;
    match tell(space, Event::Submit { id })? {
        Told::Parked => Ok(()),
        _ => bail!("a take does not wait"),
    }
}

/// How many tuples `[name, nil, nil]` matches.
pub fn read_all(alloc: Global, space: &mut Played, name: &str) -> Result<u64> {
    match tell(space, read_all_of(alloc, name)?)? {
        Told::Tuples(count) => Ok(count),
        _ => bail!("the tuples were not read"),
    }
}
