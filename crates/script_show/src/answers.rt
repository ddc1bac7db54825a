//! Answers of the space and of peers, as a line spells them.

use crate::words::{Fault, number, truth, value, value_of, word};
use drb_back::Back;
use drb_packet::PacketRefusal;
use drb_value::Value;
use rinda_rules::{Flags, Out};
use sqlite_items::Items;
use std::alloc::Global;
use std::str::SplitWhitespace;

/// An answer of the space.
pub fn out_of(alloc: Global, text: &str) -> Result<Out, Fault> {
    let mut words = text.split_whitespace();
    let name = word(&mut words);
    match name {
        "answer" => Ok(Out::Answer(value(alloc, &mut words)?)),
        "granted" => granted(alloc, &mut words),
        "all" => Ok(Out::All(all(alloc, words)?)),
        "event" => Ok(Out::Event(value(alloc, &mut words)?)),
        "state" => state(&mut words),
        "entry" => Ok(Out::Entry(number(&mut words)?)),
        "reserved" => Ok(Out::Reserved(number(&mut words)?)),
        "parked" => Ok(Out::Parked(number(&mut words)?)),
        "notifier" => Ok(Out::Notifier(number(&mut words)?)),
        _ => just(name),
    }
}

/// An answer that is its name alone.
fn just(name: &str) -> Result<Out, Fault> {
    match name {
        "closed" => Ok(Out::Closed),
        "expired" => Ok(Out::Expired),
        "canceled" => Ok(Out::Canceled),
        "would_wait" => Ok(Out::WouldWait),
        "not_yet" => Ok(Out::NotYet),
        "plain" => Ok(Out::Plain),
        "recycled" => Ok(Out::Recycled),
        "unknown" => Ok(Out::Unknown),
        "wrong_kind" => Ok(Out::WrongKind),
        "shut" => Ok(Out::Shut),
        _ => Err(Fault::NotALine),
    }
}

fn granted(alloc: Global, words: &mut SplitWhitespace<'_>) -> Result<Out, Fault> {
    let id = number(words)?;
    let value = value(alloc, words)?;
    Ok(Out::Granted(id, value))
}

fn all(alloc: Global, words: SplitWhitespace<'_>) -> Result<Items<Value>, Fault> {
    let mut values = Items::new(alloc);
    match add_all(alloc, &mut values, words) {
        Ok(()) => Ok(values),
        Err(fault) => {
            drop(values);
            Err(fault)
        }
    }
}

fn add_all(
    alloc: Global,
    values: &mut Items<Value>,
    words: SplitWhitespace<'_>,
) -> Result<(), Fault> {
    for word in words {
        values.push(value_of(alloc, word)?)?;
    }
    Ok(())
}

/// Whether the object is alive, expired and canceled.
fn state(words: &mut SplitWhitespace<'_>) -> Result<Out, Fault> {
    let alive = truth(words)?;
    let expired = truth(words)?;
    let canceled = truth(words)?;
    Ok(Out::State(Flags {
        alive,
        expired,
        canceled,
    }))
}

/// What a call of a peer came to.
pub fn back_of(alloc: Global, text: &str) -> Result<Back, Fault> {
    let mut words = text.split_whitespace();
    match word(&mut words) {
        "value" => Ok(Back::Value(value(alloc, &mut words)?)),
        "raised" => Ok(Back::Raised(value(alloc, &mut words)?)),
        "bad_uri" => Ok(Back::BadUri),
        "dial_fault" => Ok(Back::DialFault),
        "read_fault" => Ok(Back::ReadFault),
        "write_fault" => Ok(Back::WriteFault),
        "cut" => Ok(Back::Cut),
        "refused" => Ok(Back::Refused(refusal(&mut words)?)),
        "too_long" => Ok(Back::TooLong),
        "memory" => Ok(Back::Memory),
        _ => Err(Fault::NotALine),
    }
}

fn refusal(words: &mut SplitWhitespace<'_>) -> Result<PacketRefusal, Fault> {
    match word(words) {
        "premature_header" => Ok(PacketRefusal::PrematureHeader),
        "too_large" => too_large(word(words)),
        "premature_body" => Ok(PacketRefusal::PrematureBody),
        "cut_between" => Ok(PacketRefusal::CutBetween),
        _ => Err(Fault::NotALine),
    }
}

fn too_large(size: &str) -> Result<PacketRefusal, Fault> {
    match size.parse::<u32>() {
        Ok(size) => Ok(PacketRefusal::TooLarge(size)),
        Err(_) => Err(Fault::NotALine),
    }
}
