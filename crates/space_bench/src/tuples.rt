//! The tuples and templates that are measured: a name, a number, and a short text.

use anyhow::Result;
use drb_tree::{Code, Text};
use drb_value::{Name, Value};
use rinda_rules::{Event, Kind};
use rinda_tuple::{Lease, Life, Template, Tuple};
use sqlite_items::Items;
use std::alloc::Global;

/// What a place has.
#[derive(Clone, Copy)]
enum Part {
    Nothing,
    Number(u64),
    Text,
}

/// Writes `[name, number, "text"]` for that life.
pub fn write_of(alloc: Global, name: &str, number: u64, life: Life) -> Result<Event> {
    let value = Tuple::List(items_of(alloc, name, Part::Number(number), Part::Text)?);
    let lease = Lease {
        life,
        renewer: None,
    };
    Ok(Event::Write { value, lease })
}

/// Makes a take of `[name, number, nil]` that may wait for ever.
pub fn take_of(alloc: Global, name: &str, number: u64) -> Result<Event> {
    let pattern = Template::List(items_of(alloc, name, Part::Number(number), Part::Nothing)?);
    let lease = Lease {
        life: Life::Never,
        renewer: None,
    };
    Ok(Event::Reserve {
        kind: Kind::Take,
        pattern,
        lease,
    })
}

/// Reads all of `[name, nil, nil]`.
pub fn read_all_of(alloc: Global, name: &str) -> Result<Event> {
    let pattern = Template::List(items_of(alloc, name, Part::Nothing, Part::Nothing)?);
    Ok(Event::ReadAll { pattern })
}

fn items_of(alloc: Global, name: &str, second: Part, third: Part) -> Result<Items<Value>> {
    let mut items = Items::new(alloc);
    items.push(Value::sym(Name::of(alloc, name.as_bytes())?))?;
    push_part(alloc, &mut items, second)?;
    push_part(alloc, &mut items, third)?;
    Ok(items)
}

fn push_part(alloc: Global, items: &mut Items<Value>, part: Part) -> Result<()> {
    let value = value_of(alloc, part)?;
    items.push(value)?;
    Ok(())
}

fn value_of(alloc: Global, part: Part) -> Result<Value> {
    match part {
        Part::Nothing => Ok(Value::nil()),
        Part::Number(number) => Ok(Value::int(number as i128)),
        Part::Text => Ok(Value::text(Text::of(alloc, b"text", Code::Utf8)?)),
    }
}
