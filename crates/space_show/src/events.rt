//! What a caller asks, as a line spells it.

use crate::words::{Fault, Known, id, lease, life, number, template, truth, tuple, value, word};
use rinda_rules::{Event, Kind};
use std::str::SplitWhitespace;

/// The caller, the reading of the clock, and what the caller asks.
pub fn asked(known: &Known, text: &str) -> Result<(u64, u64, Event), Fault> {
    let mut words = text.split_whitespace();
    let caller = number(&mut words)?;
    let at = number(&mut words)?;
    let event = event(known, &mut words)?;
    Ok((caller, at, event))
}

fn event(known: &Known, words: &mut SplitWhitespace<'_>) -> Result<Event, Fault> {
    match word(words) {
        "write" => write(known, words),
        "reserve" => reserve(known, words),
        "renew" => renew(known, words),
        "read_all" => Ok(Event::ReadAll {
            pattern: template(known, words)?,
        }),
        "notify" => notify(known, words),
        "settle" => settle(known, words),
        "asked" => answered(known, words),
        "next_ask" => Ok(Event::NextAsk),
        "tick" => Ok(Event::Tick),
        "shut" => Ok(Event::Shut),
        name => of_id(name, id(known, words)?),
    }
}

/// What has an id and no more.
fn of_id(name: &str, id: u64) -> Result<Event, Fault> {
    match name {
        "submit" => Ok(Event::Submit { id }),
        "collect" => Ok(Event::Collect { id }),
        "withdraw" => Ok(Event::Withdraw { id }),
        "cancel" => Ok(Event::Cancel { id }),
        "look" => Ok(Event::Look { id }),
        "value" => Ok(Event::Value { id }),
        "pop" => Ok(Event::Pop { id }),
        _ => Err(Fault::NotALine),
    }
}

fn write(known: &Known, words: &mut SplitWhitespace<'_>) -> Result<Event, Fault> {
    let value = tuple(known, words)?;
    let lease = lease(known, words)?;
    Ok(Event::Write { value, lease })
}

fn reserve(known: &Known, words: &mut SplitWhitespace<'_>) -> Result<Event, Fault> {
    let kind = kind(words)?;
    let pattern = template(known, words)?;
    let lease = lease(known, words)?;
    Ok(Event::Reserve {
        kind,
        pattern,
        lease,
    })
}

fn kind(words: &mut SplitWhitespace<'_>) -> Result<Kind, Fault> {
    match word(words) {
        "read" => Ok(Kind::Read),
        "take" => Ok(Kind::Take),
        "move" => Ok(Kind::Move),
        _ => Err(Fault::NotALine),
    }
}

fn settle(known: &Known, words: &mut SplitWhitespace<'_>) -> Result<Event, Fault> {
    let id = id(known, words)?;
    let ok = truth(words)?;
    Ok(Event::Settle { id, ok })
}

fn renew(known: &Known, words: &mut SplitWhitespace<'_>) -> Result<Event, Fault> {
    let id = id(known, words)?;
    let lease = lease(known, words)?;
    Ok(Event::Renew { id, lease })
}

fn notify(known: &Known, words: &mut SplitWhitespace<'_>) -> Result<Event, Fault> {
    let event = value(known, words)?;
    let pattern = template(known, words)?;
    let lease = lease(known, words)?;
    Ok(Event::Notify {
        event,
        pattern,
        lease,
    })
}

fn answered(known: &Known, words: &mut SplitWhitespace<'_>) -> Result<Event, Fault> {
    let id = id(known, words)?;
    let life = life(words)?;
    Ok(Event::Asked { id, life })
}
