//! What each turn in memory keeps, by its types. These functions do nothing.

ghost use Rattle.std.specs.Prelude.{All, IsTrue};
ghost use Rattle.rinda_tuple.specs.Keys.{all_texts};
ghost use Rattle.rinda_journal.specs.Kept.{IsU64, TupleKept, TemplateKept, EventKept, OutKept, PickKept, PlainKept};

use rinda_rules::{Event, Out, Pick, Turn};
use rinda_tuple::{NamedPairs, Template, Tuple};

fn note_number(_n: u64)
    ensures { IsU64 _n }
{}

fn note_named(pairs: &NamedPairs)
    ensures { IsTrue (all_texts pairs.now) }
{
    pairs.as_slice();
}

fn note_tuple(tuple: &Tuple)
    ensures { TupleKept tuple.now }
{
    match tuple {
        Tuple::List(_) => {}
        Tuple::Named(pairs) => note_named(pairs),
    }
}

fn note_template(template: &Template)
    ensures { TemplateKept template.now }
{
    match template {
        Template::List(_) => {}
        Template::Named(pairs) => note_named(pairs),
    }
}

fn note_event(event: &Event)
    ensures { EventKept event.now }
{
    match event {
        Event::Write { value, lease: _ } => note_tuple(value),
        Event::Reserve {
            kind: _,
            pattern,
            lease: _,
        } => note_template(pattern),
        Event::Submit { id } => note_number(*id),
        Event::Collect { id } => note_number(*id),
        Event::Settle { id, ok: _ } => note_number(*id),
        Event::Withdraw { id } => note_number(*id),
        Event::Cancel { id } => note_number(*id),
        Event::Renew { id, lease: _ } => note_number(*id),
        Event::Look { id } => note_number(*id),
        Event::Value { id } => note_number(*id),
        Event::ReadAll { pattern } => note_template(pattern),
        Event::Notify {
            event: _,
            pattern,
            lease: _,
        } => note_template(pattern),
        Event::Pop { id } => note_number(*id),
        Event::NextAsk => {}
        Event::Asked { id, life: _ } => note_number(*id),
        Event::Tick => {}
        Event::Shut => {}
    }
}

fn note_out(out: &Out)
    ensures { OutKept out.now }
{
    match out {
        Out::Entry(id) => note_number(*id),
        Out::Reserved(id) => note_number(*id),
        Out::Parked(id) => note_number(*id),
        Out::Granted(id, _) => note_number(*id),
        Out::All(values) => note_number(values.len() as u64),
        Out::Notifier(id) => note_number(*id),
        Out::Ask(id, _) => note_number(*id),
        _ => {}
    }
}

fn note_pick(pick: &Pick)
    ensures { PickKept pick.now }
{
    note_number(pick.request);
    note_number(pick.tuple);
}

fn note_picks(picks: &[Pick])
    ensures { All PickKept picks.now }
{
    for pick in picks {
        note_pick(pick);
    }
}

/// What the types of a turn's plain parts say.
pub fn note_turn(turn: &Turn)
    ensures { PlainKept turn.now }
{
    note_number(turn.caller);
    note_number(turn.at);
    note_event(&turn.event);
    note_out(&turn.out);
    note_picks(turn.picks.as_slice());
}
