//! Turns, as a line spells them.

use crate::words::{
    Fault, lease, life, number, number_of, remote, template, truth, tuple, value, value_of, word,
};
use drb_value::Value;
use rinda_rules::{Event, Flags, Kind, Out, Pick, Picks, Turn};
use sqlite_items::Items;
use std::alloc::Global;
use std::str::SplitWhitespace;

/// The turn of a line: `CALLER AT EVENT = ANSWER`, and behind a `/` the picks.
pub fn turn_of(alloc: Global, text: &str) -> Result<Turn, Fault> {
    let (event, told) = halves(text, " = ")?;
    let (out, picks) = told.split_once(" / ").unwrap_or((told, ""));
    let picks = picks_of(alloc, picks)?;
    let out = out_of(alloc, out)?;
    turn_with(alloc, event, out, picks)
}

fn halves<'a>(text: &'a str, between: &'static str) -> Result<(&'a str, &'a str), Fault> {
    text.split_once(between).ok_or(Fault::NotALine)
}

/// The turn, with that answer and these picks.
fn turn_with(alloc: Global, text: &str, out: Out, picks: Picks) -> Result<Turn, Fault> {
    match asked(alloc, text) {
        Ok((caller, at, event)) => Ok(Turn {
            caller,
            at,
            event,
            out,
            picks,
        }),
        Err(fault) => {
            drop(out);
            drop(picks);
            Err(fault)
        }
    }
}

/// The caller, the reading of the clock, and what the caller asks.
fn asked(alloc: Global, text: &str) -> Result<(u64, u64, Event), Fault> {
    let mut words = text.split_whitespace();
    let caller = number(&mut words)?;
    let at = number(&mut words)?;
    let event = event(alloc, &mut words)?;
    Ok((caller, at, event))
}

fn event(alloc: Global, words: &mut SplitWhitespace<'_>) -> Result<Event, Fault> {
    match word(words) {
        "write" => write(alloc, words),
        "reserve" => reserve(alloc, words),
        "submit" => Ok(Event::Submit { id: number(words)? }),
        "collect" => Ok(Event::Collect { id: number(words)? }),
        "settle" => settle(words),
        "withdraw" => Ok(Event::Withdraw { id: number(words)? }),
        "cancel" => Ok(Event::Cancel { id: number(words)? }),
        "renew" => renew(alloc, words),
        "look" => Ok(Event::Look { id: number(words)? }),
        "value" => Ok(Event::Value { id: number(words)? }),
        "read_all" => Ok(Event::ReadAll {
            pattern: template(alloc, words)?,
        }),
        "notify" => notify(alloc, words),
        "pop" => Ok(Event::Pop { id: number(words)? }),
        "next_ask" => Ok(Event::NextAsk),
        "asked" => answered(words),
        "tick" => Ok(Event::Tick),
        "shut" => Ok(Event::Shut),
        _ => Err(Fault::NotALine),
    }
}

fn write(alloc: Global, words: &mut SplitWhitespace<'_>) -> Result<Event, Fault> {
    let value = tuple(alloc, words)?;
    let lease = lease(alloc, words)?;
    Ok(Event::Write { value, lease })
}

fn reserve(alloc: Global, words: &mut SplitWhitespace<'_>) -> Result<Event, Fault> {
    let kind = kind(words)?;
    let pattern = template(alloc, words)?;
    let lease = lease(alloc, words)?;
    Ok(Event::Reserve {
        kind,
        pattern,
        lease,
    })
}

fn kind(words: &mut SplitWhitespace<'_>) -> Result<Kind, Fault> {
    match word(words) {
        "read" => Ok(Kind::Read),
        "take" => Ok(Kind::Take),
        "move" => Ok(Kind::Move),
        _ => Err(Fault::NotALine),
    }
}

fn settle(words: &mut SplitWhitespace<'_>) -> Result<Event, Fault> {
    let id = number(words)?;
    let ok = truth(words)?;
    Ok(Event::Settle { id, ok })
}

fn renew(alloc: Global, words: &mut SplitWhitespace<'_>) -> Result<Event, Fault> {
    let id = number(words)?;
    let lease = lease(alloc, words)?;
    Ok(Event::Renew { id, lease })
}

fn notify(alloc: Global, words: &mut SplitWhitespace<'_>) -> Result<Event, Fault> {
    let event = value(alloc, words)?;
    let pattern = template(alloc, words)?;
    let lease = lease(alloc, words)?;
    Ok(Event::Notify {
        event,
        pattern,
        lease,
    })
}

fn answered(words: &mut SplitWhitespace<'_>) -> Result<Event, Fault> {
    let id = number(words)?;
    let life = life(words)?;
    Ok(Event::Asked { id, life })
}

fn out_of(alloc: Global, text: &str) -> Result<Out, Fault> {
    let mut words = text.split_whitespace();
    let name = word(&mut words);
    match name {
        "answer" => Ok(Out::Answer(value(alloc, &mut words)?)),
        "granted" => granted(alloc, &mut words),
        "all" => Ok(Out::All(all(alloc, words)?)),
        "event" => Ok(Out::Event(value(alloc, &mut words)?)),
        "ask" => ask(alloc, &mut words),
        "state" => state(&mut words),
        "entry" => Ok(Out::Entry(number(&mut words)?)),
        "reserved" => Ok(Out::Reserved(number(&mut words)?)),
        "parked" => Ok(Out::Parked(number(&mut words)?)),
        "notifier" => Ok(Out::Notifier(number(&mut words)?)),
        _ => just(name),
    }
}

/// An answer that is its name alone.
fn just(name: &str) -> Result<Out, Fault> {
    match name {
        "closed" => Ok(Out::Closed),
        "expired" => Ok(Out::Expired),
        "canceled" => Ok(Out::Canceled),
        "would_wait" => Ok(Out::WouldWait),
        "not_yet" => Ok(Out::NotYet),
        "plain" => Ok(Out::Plain),
        "recycled" => Ok(Out::Recycled),
        "unknown" => Ok(Out::Unknown),
        "wrong_kind" => Ok(Out::WrongKind),
        "shut" => Ok(Out::Shut),
        _ => Err(Fault::NotALine),
    }
}

fn granted(alloc: Global, words: &mut SplitWhitespace<'_>) -> Result<Out, Fault> {
    let id = number(words)?;
    let value = value(alloc, words)?;
    Ok(Out::Granted(id, value))
}

fn all(alloc: Global, words: SplitWhitespace<'_>) -> Result<Items<Value>, Fault> {
    let mut values = Items::new(alloc);
    match add_all(alloc, &mut values, words) {
        Ok(()) => Ok(values),
        Err(fault) => {
            drop(values);
            Err(fault)
        }
    }
}

fn add_all(
    alloc: Global,
    values: &mut Items<Value>,
    words: SplitWhitespace<'_>,
) -> Result<(), Fault> {
    for word in words {
        values.push(value_of(alloc, word)?)?;
    }
    Ok(())
}

fn ask(alloc: Global, words: &mut SplitWhitespace<'_>) -> Result<Out, Fault> {
    let id = number(words)?;
    let renewer = remote(alloc, words)?;
    Ok(Out::Ask(id, renewer))
}

/// Whether the object is alive, expired and canceled.
fn state(words: &mut SplitWhitespace<'_>) -> Result<Out, Fault> {
    let alive = truth(words)?;
    let expired = truth(words)?;
    let canceled = truth(words)?;
    Ok(Out::State(Flags {
        alive,
        expired,
        canceled,
    }))
}

/// The picks, each `REQUEST:TUPLE`.
fn picks_of(alloc: Global, text: &str) -> Result<Picks, Fault> {
    let mut picks = Vec::new(alloc);
    for word in text.split_whitespace() {
        picks.push(pick_of(word)?)?;
    }
    Ok(Picks::of(picks))
}

fn pick_of(word: &str) -> Result<Pick, Fault> {
    let (request, tuple) = halves(word, ":")?;
    Ok(Pick {
        request: number_of(request)?,
        tuple: number_of(tuple)?,
    })
}
