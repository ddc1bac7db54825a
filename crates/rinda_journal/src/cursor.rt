//! A turn that is being read: its fields and its values come in two rows.

ghost use Rattle.std.specs.Prelude.{◌≡◌, ◌++◌, ◌∷◌, [], OnOk};
ghost use Rattle.drb_tree.specs.declared.Tree.TheViews.{out-Tree};
ghost use Rattle.drb_value.specs.View.{layer};
ghost use Rattle.rinda_tuple.specs.Tuples.{parts_of};
ghost use Rattle.rinda_journal.specs.Parsers.{Parses, Finds};
ghost use Rattle.rinda_journal.specs.Streams.{stream};
ghost use Rattle.rinda_journal.specs.Reading.{next_field as next_field_spec, next_value as next_value_spec, number_in as number_in_spec, truth_in as truth_in_spec, word_in as word_in_spec, life_in as life_in_spec, kind_in as kind_in_spec, happening_in as happening_in_spec, next_number, next_truth, next_word, next_life, next_kind, next_happening, tuple_in as tuple_in_spec, template_in as template_in_spec, remote_in as remote_in_spec, next_tuple, next_template, next_remote, renewer_if, values_of, pick_of as pick_spec, picks_in as picks_in_spec};

use crate::ReadTurnError;
use crate::field::Field;
use crate::packet_at::packet_at;
use crate::word::Word;
use drb_tree::Remote;
use drb_value::{Items, Node, Value};
use rinda_rules::plain::Happening;
use rinda_rules::{Kind, Pick, Picks};
use rinda_tuple::{Life, Template, Tuple, template_of, tuple_of};
use std::alloc::{AllocError, Global};
use std::marker::Model;

/// What is left of a turn: the fields of its head that were not read yet, and the bytes of the values that follow.
#[derive(Drop)]
pub struct Cursor<'a> {
    fields: &'a [Field],
    bytes: &'a [u8],
}

impl<'a> Model for Cursor<'a> {
    ghost use Rattle.drb_tree.specs.contracts.Tree as e;
    ghost use Rattle.std.specs.Coded.{codes};
    ghost use Rattle.rinda_journal.specs.Parsers.{Left};
    ghost use Rattle.rinda_journal.specs.Streams.{stream};

    ghost Value = { Left };

    ghost coded = { Prim.hlevel (codes, e.the_row.coded) };

    ghost view = { λ c. record { fields = c.fields.now; values = stream c.bytes.now } };
}

impl<'a> Cursor<'a> {
    /// Before these fields and the values in these bytes.
    pub fn new(fields: &'a [Field], bytes: &'a [u8]) -> Cursor<'a>
        ensures { result ≡ record { fields = fields.entry.now; values = stream bytes.entry.now } }
    {
        Cursor { fields, bytes }
    }

    /// The fields that are left.
    pub fn fields(&self) -> &[Field]
        ensures { result.now ≡ self.now.fields }
    {
        self.fields
    }

    /// The next field.
    fn field(&mut self) -> Result<Field, ReadTurnError>
        ensures { Parses next_field_spec self.old self.new result }
    {
        let Some((first, more)) = self.fields.split_first() else {
            return Err(ReadTurnError::NotATurn);
        };
        self.fields = more;
        Ok(*first)
    }

    /// The next value.
    ///
    /// Errors: `NotATurn` where no dump stands there; `Memory`.
    pub fn value(&mut self, alloc: Global) -> Result<Value, ReadTurnError>
        ensures { Parses next_value_spec self.old self.new result }
    {
        let (value, rest) = packet_at(alloc, self.bytes)?;
        self.bytes = rest;
        Ok(value)
    }

    /// An id, a time or a count.
    pub fn number(&mut self) -> Result<u64, ReadTurnError>
        ensures { Parses next_number self.old self.new result }
    {
        let field = self.field()?;
        number_in(field)
    }

    /// A truth value.
    pub fn truth(&mut self) -> Result<bool, ReadTurnError>
        ensures { Parses next_truth self.old self.new result }
    {
        let field = self.field()?;
        truth_in(field)
    }

    /// A name.
    pub fn word(&mut self) -> Result<Word, ReadTurnError>
        ensures { Parses next_word self.old self.new result }
    {
        let field = self.field()?;
        word_in(field)
    }

    /// A life.
    pub fn life(&mut self) -> Result<Life, ReadTurnError>
        ensures { Parses next_life self.old self.new result }
    {
        let field = self.field()?;
        life_in(field)
    }

    /// A kind of request.
    pub fn kind(&mut self) -> Result<Kind, ReadTurnError>
        ensures { Parses next_kind self.old self.new result }
    {
        let word = self.word()?;
        kind_in(word)
    }

    /// What happened to a tuple.
    pub fn happening(&mut self) -> Result<Happening, ReadTurnError>
        ensures { Parses next_happening self.old self.new result }
    {
        let word = self.word()?;
        happening_in(word)
    }

    /// A tuple.
    pub fn tuple(&mut self, alloc: Global) -> Result<Tuple, ReadTurnError>
        ensures { Parses next_tuple self.old self.new result }
    {
        let value = self.value(alloc)?;
        tuple_in(value)
    }

    /// A template.
    pub fn template(&mut self, alloc: Global) -> Result<Template, ReadTurnError>
        ensures { Parses next_template self.old self.new result }
    {
        let value = self.value(alloc)?;
        template_in(value)
    }

    /// A remote object.
    pub fn remote(&mut self, alloc: Global) -> Result<Remote, ReadTurnError>
        ensures { Parses next_remote self.old self.new result }
    {
        let value = self.value(alloc)?;
        remote_in(value)
    }

    /// The renewer, where it was told that one is there.
    pub fn renewer(&mut self, alloc: Global, told: bool) -> Result<Option<Remote>, ReadTurnError>
        ensures { Parses (renewer_if told) self.old self.new result }
    {
        if told {
            let remote = self.remote(alloc)?;
            Ok(Some(remote))
        } else {
            Ok(None)
        }
    }

    /// So many values.
    pub fn values(&mut self, alloc: Global, count: u64) -> Result<Items<Value>, ReadTurnError>
        ensures { Parses (values_of count) self.old self.new result }
    {
        let mut values = Items::new(alloc);
        while (values.len() as u64) < count {
            let value = self.value(alloc)?;
            values.push(value)?;
        }
        Ok(values)
    }
}

fn number_in(field: Field) -> Result<u64, ReadTurnError>
    ensures { Finds (number_in_spec field) result }
{
    let Field::Number(number) = field else {
        return Err(ReadTurnError::NotATurn);
    };
    if number < 0 || number > i128::from(u64::MAX) {
        return Err(ReadTurnError::NotATurn);
    }
    Ok(number as u64)
}

fn truth_in(field: Field) -> Result<bool, ReadTurnError>
    ensures { Finds (truth_in_spec field) result }
{
    match field {
        Field::Truth(truth) => Ok(truth),
        _ => Err(ReadTurnError::NotATurn),
    }
}

fn word_in(field: Field) -> Result<Word, ReadTurnError>
    ensures { Finds (word_in_spec field) result }
{
    match field {
        Field::Word(word) => Ok(word),
        _ => Err(ReadTurnError::NotATurn),
    }
}

fn life_in(field: Field) -> Result<Life, ReadTurnError>
    ensures { Finds (life_in_spec field) result }
{
    match field {
        Field::Nil => Ok(Life::Never),
        Field::Truth(true) => Ok(Life::Gone),
        Field::Number(seconds) => Ok(Life::Seconds(seconds)),
        _ => Err(ReadTurnError::NotATurn),
    }
}

fn kind_in(word: Word) -> Result<Kind, ReadTurnError>
    ensures { Finds (kind_in_spec word) result }
{
    match word {
        Word::Read => Ok(Kind::Read),
        Word::Take => Ok(Kind::Take),
        Word::Move => Ok(Kind::Move),
        _ => Err(ReadTurnError::NotATurn),
    }
}

fn happening_in(word: Word) -> Result<Happening, ReadTurnError>
    ensures { Finds (happening_in_spec word) result }
{
    match word {
        Word::Write => Ok(Happening::Write),
        Word::Take => Ok(Happening::Take),
        Word::Delete => Ok(Happening::Delete),
        _ => Err(ReadTurnError::NotATurn),
    }
}

fn tuple_in(value: Value) -> Result<Tuple, ReadTurnError>
    ensures { Finds (tuple_in_spec (parts_of value)) result }
{
    match tuple_of(value) {
        Ok(tuple) => Ok(tuple),
        Err(_) => Err(ReadTurnError::NotATurn),
    }
}

fn template_in(value: Value) -> Result<Template, ReadTurnError>
    ensures { Finds (template_in_spec (parts_of value)) result }
{
    match template_of(value) {
        Ok(template) => Ok(template),
        Err(_) => Err(ReadTurnError::NotATurn),
    }
}

fn remote_node(node: Node) -> Result<Remote, ReadTurnError>
    ensures { Finds (remote_in_spec (layer node)) result }
{
    match node {
        Node::Remote(remote) => Ok(remote.into_inner()),
        _ => Err(ReadTurnError::NotATurn),
    }
}

#[tactic(auto, using(crate::proofs::Outer::outer))]
fn remote_in(value: Value) -> Result<Remote, ReadTurnError>
    ensures { Finds (remote_in_spec (out-Tree value)) result }
{
    let Value { node } = value;
    remote_node(node)
}

fn pick_in(request: Field, tuple: Field) -> Result<Pick, ReadTurnError>
    ensures { Finds (pick_spec (number_in_spec request) (number_in_spec tuple)) result }
{
    let request = number_in(request)?;
    let tuple = number_in(tuple)?;
    Ok(Pick { request, tuple })
}

/// Appends a pick.
///
/// Errors: only want of memory.
fn put_pick(list: &mut Vec<Pick>, pick: Pick) -> Result<(), AllocError>
    ensures { OnOk result (list.new.items ≡ list.old.items ++ pick ∷ []) }
{
    list.push(pick)?;
    Ok(())
}

/// The picks that the last fields are, two fields each.
pub fn picks_in(alloc: Global, fields: &[Field]) -> Result<Picks, ReadTurnError>
    ensures { Finds (picks_in_spec fields.now) result }
{
    let mut list = Vec::new(alloc);
    let mut rest = fields;
    while let [request, tuple, more @ ..] = rest {
        let pick = pick_in(*request, *tuple)?;
        put_pick(&mut list, pick)?;
        rest = more;
    }
    if rest.is_empty() {
        Ok(Picks::of(list))
    } else {
        Err(ReadTurnError::NotATurn)
    }
}
