//! What the head of a turn's text says.

ghost use Rattle.std.specs.Prelude.{◌≡◌, ◌++◌, IfOk, OnOk};
ghost use Rattle.drb_tree.specs.declared.Tree.TheViews.{out-Tree};
ghost use Rattle.drb_tree.specs.declared.Tree.TheOpen.{Tree-F};
ghost use Rattle.drb_value.specs.View.{layer};
ghost use Rattle.rinda_journal.specs.Heads.{event_fields as event_fields_spec, out_fields as out_fields_spec, picks_fields as picks_fields_spec, head_fields as head_fields_spec, named as named_spec, happened as happened_spec, text_word as text_word_spec, raised_word as raised_word_spec};

use crate::field::{Field, kind_word, life_field, number, put, told};
use crate::word::Word;
use drb_value::{Node, Value};
use rinda_rules::{Event, Flags, Out, Pick, Turn};
use std::alloc::{AllocError, Global};

/// Appends the name and the plain fields of an event.
///
/// Errors: only want of memory.
fn event_fields(event: &Event, fields: &mut Vec<Field>) -> Result<(), AllocError>
    ensures { OnOk result (fields.new.items ≡ fields.old.items ++ event_fields_spec event.now) }
{
    match event {
        Event::Write { value: _, lease } => put(
            fields,
            &[
                Field::Word(Word::Write),
                life_field(&lease.life),
                told(&lease.renewer),
            ],
        ),
        Event::Reserve {
            kind,
            pattern: _,
            lease,
        } => put(
            fields,
            &[
                Field::Word(Word::Reserve),
                Field::Word(kind_word(*kind)),
                life_field(&lease.life),
                told(&lease.renewer),
            ],
        ),
        Event::Submit { id } => named(Word::Submit, *id, fields),
        Event::Collect { id } => named(Word::Collect, *id, fields),
        Event::Settle { id, ok } => put(
            fields,
            &[Field::Word(Word::Settle), number(*id), Field::Truth(*ok)],
        ),
        Event::Withdraw { id } => named(Word::Withdraw, *id, fields),
        Event::Cancel { id } => named(Word::Cancel, *id, fields),
        Event::Renew { id, lease } => put(
            fields,
            &[
                Field::Word(Word::Renew),
                number(*id),
                life_field(&lease.life),
                told(&lease.renewer),
            ],
        ),
        Event::Look { id } => named(Word::Look, *id, fields),
        Event::Value { id } => named(Word::Value, *id, fields),
        Event::ReadAll { pattern: _ } => put(fields, &[Field::Word(Word::ReadAll)]),
        Event::Notify {
            event: _,
            pattern: _,
            lease,
        } => put(
            fields,
            &[
                Field::Word(Word::Notify),
                life_field(&lease.life),
                told(&lease.renewer),
            ],
        ),
        Event::Pop { id } => named(Word::Pop, *id, fields),
        Event::NextAsk => put(fields, &[Field::Word(Word::NextAsk)]),
        Event::Asked { id, life } => put(
            fields,
            &[Field::Word(Word::Asked), number(*id), life_field(life)],
        ),
        Event::Tick => put(fields, &[Field::Word(Word::Tick)]),
        Event::Shut => put(fields, &[Field::Word(Word::Shut)]),
    }
}

/// Appends a name and an id.
///
/// Errors: only want of memory.
fn named(word: Word, id: u64, fields: &mut Vec<Field>) -> Result<(), AllocError>
    ensures { OnOk result (fields.new.items ≡ fields.old.items ++ named_spec word id) }
{
    put(fields, &[Field::Word(word), number(id)])
}

/// What happened, by its name.
fn happened(name: &[u8]) -> Word
    ensures { result ≡ happened_spec name.now }
{
    if name == b"write".as_slice() {
        return Word::Write;
    }
    if name == b"take".as_slice() {
        return Word::Take;
    }
    Word::Delete
}

/// What happened, by the text that names it.
fn text_word(what: &Node) -> Word
    ensures { result ≡ text_word_spec (layer what.now) }
{
    match what {
        Node::Text(text) => happened(text.bytes.as_slice()),
        _ => Word::Delete,
    }
}

/// What happened, by a value that names it.
#[tactic(auto, using(crate::proofs::Outer::outer))]
fn value_word(what: &Value) -> Word
    ensures { result ≡ text_word_spec (out-Tree what.now) }
{
    text_word(&what.node)
}

/// What happened in an event of the rules that has these items.
fn items_word(items: &[Value]) -> Word
    ensures { result ≡ raised_word_spec (Tree-F.List items.now) }
{
    match items {
        [what, _] => value_word(what),
        _ => Word::Delete,
    }
}

/// What happened in an event of the rules, the first of its two items.
fn node_word(node: &Node) -> Word
    ensures { result ≡ raised_word_spec (layer node.now) }
{
    match node {
        Node::List(items) => items_word(items.as_slice()),
        _ => Word::Delete,
    }
}

/// What happened in an event of the rules.
#[tactic(auto, using(crate::proofs::Outer::outer))]
fn raised_word(value: &Value) -> Word
    ensures { result ≡ raised_word_spec (out-Tree value.now) }
{
    node_word(&value.node)
}

/// The three flags, as fields.
fn state_fields(flags: Flags, fields: &mut Vec<Field>) -> Result<(), AllocError>
    ensures { OnOk result
        (fields.new.items ≡ fields.old.items ++ out_fields_spec (Out.State flags)) }
{
    put(
        fields,
        &[
            Field::Word(Word::State),
            Field::Truth(flags.alive),
            Field::Truth(flags.expired),
            Field::Truth(flags.canceled),
        ],
    )
}

/// Appends the name and the plain fields of an answer.
///
/// Errors: only want of memory.
fn out_fields(out: &Out, fields: &mut Vec<Field>) -> Result<(), AllocError>
    ensures { OnOk result (fields.new.items ≡ fields.old.items ++ out_fields_spec out.now) }
{
    match out {
        Out::Entry(id) => named(Word::Entry, *id, fields),
        Out::Reserved(id) => named(Word::Reserved, *id, fields),
        Out::Answer(_) => put(fields, &[Field::Word(Word::Answer)]),
        Out::Parked(id) => named(Word::Parked, *id, fields),
        Out::Granted(id, _) => named(Word::Granted, *id, fields),
        Out::All(values) => named(Word::All, values.len() as u64, fields),
        Out::Notifier(id) => named(Word::Notifier, *id, fields),
        Out::Event(value) => put(
            fields,
            &[Field::Word(Word::Event), Field::Word(raised_word(value))],
        ),
        Out::Closed => put(fields, &[Field::Word(Word::Closed)]),
        Out::Expired => put(fields, &[Field::Word(Word::Expired)]),
        Out::Canceled => put(fields, &[Field::Word(Word::Canceled)]),
        Out::WouldWait => put(fields, &[Field::Word(Word::WouldWait)]),
        Out::NotYet => put(fields, &[Field::Word(Word::NotYet)]),
        Out::State(flags) => state_fields(*flags, fields),
        Out::Ask(id, _) => named(Word::Ask, *id, fields),
        Out::Plain => put(fields, &[Field::Word(Word::Plain)]),
        Out::Recycled => put(fields, &[Field::Word(Word::Recycled)]),
        Out::Unknown => put(fields, &[Field::Word(Word::Unknown)]),
        Out::WrongKind => put(fields, &[Field::Word(Word::WrongKind)]),
        Out::Shut => put(fields, &[Field::Word(Word::Shut)]),
    }
}

/// Appends the request and the tuple of each pick.
///
/// Errors: only want of memory.
fn picks_fields(picks: &[Pick], fields: &mut Vec<Field>) -> Result<(), AllocError>
    ensures { OnOk result (fields.new.items ≡ fields.old.items ++ picks_fields_spec picks.now) }
{
    for pick in picks {
        put(fields, &[number(pick.request), number(pick.tuple)])?;
    }
    Ok(())
}

/// The fields of a turn's head.
///
/// Errors: only want of memory.
pub fn head_fields(alloc: Global, turn: &Turn) -> Result<Vec<Field>, AllocError>
    ensures { IfOk result (λ fields. fields.items ≡ head_fields_spec turn.now) }
{
    let mut fields = Vec::new(alloc);
    put(&mut fields, &[number(turn.caller), number(turn.at)])?;
    event_fields(&turn.event, &mut fields)?;
    out_fields(&turn.out, &mut fields)?;
    picks_fields(turn.picks.as_slice(), &mut fields)?;
    Ok(fields)
}
