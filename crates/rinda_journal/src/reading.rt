//! Turns out of their fields and values.

ghost use Rattle.std.specs.Prelude.{◌≡◌, ◌∷◌, [], IfOk};
ghost use Rattle.drb_tree.specs.Trees.{list_tree};
ghost use Rattle.rinda_rules.specs.Space.{text_of as text_of_spec};
ghost use Rattle.rinda_journal.specs.Parsers.{Parses, Finds};
ghost use Rattle.rinda_journal.specs.Reading.{write_event as write_spec, reserve_event as reserve_spec, settle_event as settle_spec, renew_event as renew_spec, read_all_event as read_all_spec, notify_event as notify_spec, asked_event as asked_spec, event_named as event_named_spec, next_event as next_event_spec, answer_out as answer_spec, granted_out as granted_spec, all_out as all_spec, event_out as event_out_spec, state_out as state_spec, ask_out as ask_spec, out_named as out_named_spec, next_out as next_out_spec, id_event as id_event_spec, id_out as id_out_spec, pattern_and_lease, ended as ended_spec, turn_left as turn_left_spec};

use crate::ReadTurnError;
use crate::cursor::{Cursor, picks_in};
use crate::word::Word;
use drb_value::{Bytes, Code, Items, Text, Value};
use rinda_rules::plain::Happening;
use rinda_rules::{Event, Flags, Out, Picks, Turn};
use rinda_tuple::{Lease, Life, Template};
use std::alloc::{AllocError, Global};

fn write(cursor: &mut Cursor<'_>, alloc: Global) -> Result<Event, ReadTurnError>
    ensures { Parses write_spec cursor.old cursor.new result }
{
    let life = cursor.life()?;
    let told = cursor.truth()?;
    let value = cursor.tuple(alloc)?;
    match cursor.renewer(alloc, told) {
        Ok(renewer) => Ok(Event::Write {
            value,
            lease: Lease { life, renewer },
        }),
        Err(error) => {
            drop(value);
            Err(error)
        }
    }
}

/// A pattern, and the renewer of the lease whose life was read.
fn asked_for(
    cursor: &mut Cursor<'_>,
    alloc: Global,
    life: Life,
    told: bool,
) -> Result<(Template, Lease), ReadTurnError>
    ensures { Parses (pattern_and_lease life told) cursor.old cursor.new result }
{
    let pattern = cursor.template(alloc)?;
    match cursor.renewer(alloc, told) {
        Ok(renewer) => Ok((pattern, Lease { life, renewer })),
        Err(error) => {
            drop(pattern);
            Err(error)
        }
    }
}

fn reserve(cursor: &mut Cursor<'_>, alloc: Global) -> Result<Event, ReadTurnError>
    ensures { Parses reserve_spec cursor.old cursor.new result }
{
    let kind = cursor.kind()?;
    let life = cursor.life()?;
    let told = cursor.truth()?;
    let (pattern, lease) = asked_for(cursor, alloc, life, told)?;
    Ok(Event::Reserve {
        kind,
        pattern,
        lease,
    })
}

fn settle(cursor: &mut Cursor<'_>) -> Result<Event, ReadTurnError>
    ensures { Parses settle_spec cursor.old cursor.new result }
{
    let id = cursor.number()?;
    let ok = cursor.truth()?;
    Ok(Event::Settle { id, ok })
}

fn renew(cursor: &mut Cursor<'_>, alloc: Global) -> Result<Event, ReadTurnError>
    ensures { Parses renew_spec cursor.old cursor.new result }
{
    let id = cursor.number()?;
    let life = cursor.life()?;
    let told = cursor.truth()?;
    let renewer = cursor.renewer(alloc, told)?;
    Ok(Event::Renew {
        id,
        lease: Lease { life, renewer },
    })
}

fn read_all(cursor: &mut Cursor<'_>, alloc: Global) -> Result<Event, ReadTurnError>
    ensures { Parses read_all_spec cursor.old cursor.new result }
{
    let pattern = cursor.template(alloc)?;
    Ok(Event::ReadAll { pattern })
}

fn notify(cursor: &mut Cursor<'_>, alloc: Global) -> Result<Event, ReadTurnError>
    ensures { Parses notify_spec cursor.old cursor.new result }
{
    let life = cursor.life()?;
    let told = cursor.truth()?;
    let event = cursor.value(alloc)?;
    match asked_for(cursor, alloc, life, told) {
        Ok((pattern, lease)) => Ok(Event::Notify {
            event,
            pattern,
            lease,
        }),
        Err(error) => {
            drop(event);
            Err(error)
        }
    }
}

fn asked(cursor: &mut Cursor<'_>) -> Result<Event, ReadTurnError>
    ensures { Parses asked_spec cursor.old cursor.new result }
{
    let id = cursor.number()?;
    let life = cursor.life()?;
    Ok(Event::Asked { id, life })
}

/// The event of that name.
fn event_named(cursor: &mut Cursor<'_>, alloc: Global, word: Word) -> Result<Event, ReadTurnError>
    ensures { Parses (event_named_spec word) cursor.old cursor.new result }
{
    match word {
        Word::Write => write(cursor, alloc),
        Word::Reserve => reserve(cursor, alloc),
        Word::Settle => settle(cursor),
        Word::Renew => renew(cursor, alloc),
        Word::ReadAll => read_all(cursor, alloc),
        Word::Notify => notify(cursor, alloc),
        Word::Asked => asked(cursor),
        Word::NextAsk => Ok(Event::NextAsk),
        Word::Tick => Ok(Event::Tick),
        Word::Shut => Ok(Event::Shut),
        _ => event_by_id(cursor, word),
    }
}

/// The event of that name that has an id alone.
fn event_by_id(cursor: &mut Cursor<'_>, word: Word) -> Result<Event, ReadTurnError>
    ensures { Parses (id_event_spec word) cursor.old cursor.new result }
{
    match word {
        Word::Submit => {
            let id = cursor.number()?;
            Ok(Event::Submit { id })
        }
        Word::Collect => {
            let id = cursor.number()?;
            Ok(Event::Collect { id })
        }
        Word::Withdraw => {
            let id = cursor.number()?;
            Ok(Event::Withdraw { id })
        }
        Word::Cancel => {
            let id = cursor.number()?;
            Ok(Event::Cancel { id })
        }
        Word::Look => {
            let id = cursor.number()?;
            Ok(Event::Look { id })
        }
        Word::Value => {
            let id = cursor.number()?;
            Ok(Event::Value { id })
        }
        Word::Pop => {
            let id = cursor.number()?;
            Ok(Event::Pop { id })
        }
        _ => Err(ReadTurnError::NotATurn),
    }
}

/// The next event.
#[tactic(auto, unfolding(crate::specs::Reading::next_event))]
fn next_event(cursor: &mut Cursor<'_>, alloc: Global) -> Result<Event, ReadTurnError>
    ensures { Parses next_event_spec cursor.old cursor.new result }
{
    let word = cursor.word()?;
    event_named(cursor, alloc, word)
}

fn answer(cursor: &mut Cursor<'_>, alloc: Global) -> Result<Out, ReadTurnError>
    ensures { Parses answer_spec cursor.old cursor.new result }
{
    let value = cursor.value(alloc)?;
    Ok(Out::Answer(value))
}

fn granted(cursor: &mut Cursor<'_>, alloc: Global) -> Result<Out, ReadTurnError>
    ensures { Parses granted_spec cursor.old cursor.new result }
{
    let id = cursor.number()?;
    let value = cursor.value(alloc)?;
    Ok(Out::Granted(id, value))
}

fn all(cursor: &mut Cursor<'_>, alloc: Global) -> Result<Out, ReadTurnError>
    ensures { Parses all_spec cursor.old cursor.new result }
{
    let count = cursor.number()?;
    let values = cursor.values(alloc, count)?;
    Ok(Out::All(values))
}

/// The name of what happened, as a text.
///
/// Errors: only want of memory.
fn text_of(alloc: Global, what: Happening) -> Result<Value, AllocError>
    ensures { IfOk result (λ v. v ≡ text_of_spec what) }
{
    let bytes = match what {
        Happening::Write => Bytes::of(alloc, b"write")?,
        Happening::Take => Bytes::of(alloc, b"take")?,
        Happening::Delete => Bytes::of(alloc, b"delete")?,
    };
    Ok(Value::text(Text {
        bytes,
        code: Code::Utf8,
    }))
}

/// The list of the name of what happened and a value.
///
/// Errors: only want of memory.
fn raised(alloc: Global, what: Happening, value: Value) -> Result<Value, AllocError>
    ensures { IfOk result (λ v. v ≡ list_tree (text_of_spec what ∷ value ∷ [])) }
{
    let mut items = Items::new(alloc);
    items.push(text_of(alloc, what)?)?;
    items.push(value)?;
    Ok(Value::list(items))
}

fn event(cursor: &mut Cursor<'_>, alloc: Global) -> Result<Out, ReadTurnError>
    ensures { Parses event_out_spec cursor.old cursor.new result }
{
    let what = cursor.happening()?;
    let value = cursor.value(alloc)?;
    let event = raised(alloc, what, value)?;
    Ok(Out::Event(event))
}

fn state(cursor: &mut Cursor<'_>) -> Result<Out, ReadTurnError>
    ensures { Parses state_spec cursor.old cursor.new result }
{
    let alive = cursor.truth()?;
    let expired = cursor.truth()?;
    let canceled = cursor.truth()?;
    Ok(Out::State(Flags {
        alive,
        expired,
        canceled,
    }))
}

fn ask(cursor: &mut Cursor<'_>, alloc: Global) -> Result<Out, ReadTurnError>
    ensures { Parses ask_spec cursor.old cursor.new result }
{
    let id = cursor.number()?;
    let renewer = cursor.remote(alloc)?;
    Ok(Out::Ask(id, renewer))
}

/// The answer of that name.
fn out_named(cursor: &mut Cursor<'_>, alloc: Global, word: Word) -> Result<Out, ReadTurnError>
    ensures { Parses (out_named_spec word) cursor.old cursor.new result }
{
    match word {
        Word::Answer => answer(cursor, alloc),
        Word::Granted => granted(cursor, alloc),
        Word::All => all(cursor, alloc),
        Word::Event => event(cursor, alloc),
        Word::State => state(cursor),
        Word::Ask => ask(cursor, alloc),
        Word::Closed => Ok(Out::Closed),
        Word::Expired => Ok(Out::Expired),
        Word::Canceled => Ok(Out::Canceled),
        Word::WouldWait => Ok(Out::WouldWait),
        Word::NotYet => Ok(Out::NotYet),
        Word::Plain => Ok(Out::Plain),
        Word::Recycled => Ok(Out::Recycled),
        Word::Unknown => Ok(Out::Unknown),
        Word::WrongKind => Ok(Out::WrongKind),
        Word::Shut => Ok(Out::Shut),
        _ => out_by_id(cursor, word),
    }
}

/// The answer of that name that has an id alone.
fn out_by_id(cursor: &mut Cursor<'_>, word: Word) -> Result<Out, ReadTurnError>
    ensures { Parses (id_out_spec word) cursor.old cursor.new result }
{
    match word {
        Word::Entry => {
            let id = cursor.number()?;
            Ok(Out::Entry(id))
        }
        Word::Reserved => {
            let id = cursor.number()?;
            Ok(Out::Reserved(id))
        }
        Word::Parked => {
            let id = cursor.number()?;
            Ok(Out::Parked(id))
        }
        Word::Notifier => {
            let id = cursor.number()?;
            Ok(Out::Notifier(id))
        }
        _ => Err(ReadTurnError::NotATurn),
    }
}

/// The next answer.
#[tactic(auto, unfolding(crate::specs::Reading::next_out))]
fn next_out(cursor: &mut Cursor<'_>, alloc: Global) -> Result<Out, ReadTurnError>
    ensures { Parses next_out_spec cursor.old cursor.new result }
{
    let word = cursor.word()?;
    out_named(cursor, alloc, word)
}

/// An answer, and the picks behind it.
#[tactic(auto, unfolding(crate::specs::Reading::ended))]
fn ended(cursor: &mut Cursor<'_>, alloc: Global) -> Result<(Out, Picks), ReadTurnError>
    ensures { Finds (ended_spec cursor.old) result }
{
    let out = next_out(cursor, alloc)?;
    match picks_in(alloc, cursor.fields()) {
        Ok(picks) => Ok((out, picks)),
        Err(error) => {
            drop(out);
            Err(error)
        }
    }
}

/// The turn of what the cursor has left.
#[tactic(auto, unfolding(crate::specs::Reading::turn_left))]
pub fn turn(cursor: &mut Cursor<'_>, alloc: Global) -> Result<Turn, ReadTurnError>
    ensures { Finds (turn_left_spec cursor.old) result }
{
    let caller = cursor.number()?;
    let at = cursor.number()?;
    let event = next_event(cursor, alloc)?;
    match ended(cursor, alloc) {
        Ok((out, picks)) => Ok(Turn {
            caller,
            at,
            event,
            out,
            picks,
        }),
        Err(error) => {
            drop(event);
            Err(error)
        }
    }
}
