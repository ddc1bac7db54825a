//! Calls, as a line spells them.

use crate::words::{Fault, life, nobody_or, number, remote, template, tuple, value, word};
use drb_dispatch::{Call, Flag};
use drb_script::Patience;
use rinda_rules::Kind;
use std::alloc::Global;
use std::str::SplitWhitespace;

/// The next word as a patience.
pub fn patience(words: &mut SplitWhitespace<'_>) -> Result<Patience, Fault> {
    match word(words) {
        "never" => Ok(Patience::Never),
        "wait" => Ok(Patience::Wait),
        _ => Err(Fault::NotALine),
    }
}

/// The call of the method with that name.
pub fn call_of(alloc: Global, name: &str, words: &mut SplitWhitespace<'_>) -> Result<Call, Fault> {
    match name {
        "write" => write(alloc, words),
        "take" => ask(alloc, Kind::Take, words),
        "read" => ask(alloc, Kind::Read, words),
        "move" => push_to(alloc, words),
        "read_all" => Ok(Call::ReadAll {
            pattern: template(alloc, words)?,
        }),
        "notify" => notify(alloc, words),
        "renew" => renew(alloc, words),
        "each" => each(alloc, words),
        _ => of_object(name, words),
    }
}

/// A call that takes an id alone.
fn of_object(name: &str, words: &mut SplitWhitespace<'_>) -> Result<Call, Fault> {
    let id = number(words)?;
    match name {
        "cancel" => Ok(Call::Cancel { id }),
        "alive?" => Ok(Call::Look {
            id,
            flag: Flag::Alive,
        }),
        "expired?" => Ok(Call::Look {
            id,
            flag: Flag::Expired,
        }),
        "canceled?" => Ok(Call::Look {
            id,
            flag: Flag::Canceled,
        }),
        "value" => Ok(Call::Value { id }),
        "pop" => Ok(Call::Pop { id }),
        _ => Err(Fault::NotALine),
    }
}

fn write(alloc: Global, words: &mut SplitWhitespace<'_>) -> Result<Call, Fault> {
    let value = tuple(alloc, words)?;
    match life(alloc, words) {
        Ok(life) => Ok(Call::Write { value, life }),
        Err(fault) => {
            drop(value);
            Err(fault)
        }
    }
}

fn ask(alloc: Global, kind: Kind, words: &mut SplitWhitespace<'_>) -> Result<Call, Fault> {
    let pattern = template(alloc, words)?;
    let life = life(alloc, words)?;
    let block = nobody_or(alloc, words)?;
    Ok(Call::Ask {
        kind,
        pattern,
        port: None,
        life,
        block,
    })
}

fn push_to(alloc: Global, words: &mut SplitWhitespace<'_>) -> Result<Call, Fault> {
    let port = remote(alloc, words)?;
    let pattern = template(alloc, words)?;
    let life = life(alloc, words)?;
    let block = nobody_or(alloc, words)?;
    Ok(Call::Ask {
        kind: Kind::Move,
        pattern,
        port: Some(port),
        life,
        block,
    })
}

fn notify(alloc: Global, words: &mut SplitWhitespace<'_>) -> Result<Call, Fault> {
    let event = value(alloc, words)?;
    let pattern = template(alloc, words)?;
    let life = life(alloc, words)?;
    Ok(Call::Notify {
        event,
        pattern,
        life,
    })
}

fn renew(alloc: Global, words: &mut SplitWhitespace<'_>) -> Result<Call, Fault> {
    let id = number(words)?;
    let life = life(alloc, words)?;
    Ok(Call::Renew { id, life })
}

fn each(alloc: Global, words: &mut SplitWhitespace<'_>) -> Result<Call, Fault> {
    let id = number(words)?;
    let block = nobody_or(alloc, words)?;
    Ok(Call::Each { id, block })
}
