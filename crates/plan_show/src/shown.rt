//! The parts of a call, as they are shown.

use drb_dispatch::Lasting;
use drb_value::{Node, Remote, Value};
use marshal_write::write_dump;
use rinda_tuple::{Life, Template};
use std::alloc::Global;
use std::io;

/// The dump of a value, in hexadecimal.
pub fn dump(alloc: Global, value: Value) -> io::Result<String> {
    let mut dump = Vec::new(alloc);
    match write_dump(&value, &mut dump) {
        Ok(()) => Ok(hex::encode(alloc, dump.as_slice())?),
        Err(error) => Ok(format!(in alloc; "{error}")?),
    }
}

/// The dump of a template as a value, in hexadecimal.
pub fn template(alloc: Global, template: Template) -> io::Result<String> {
    match template {
        Template::List(items) => dump(alloc, Value::list(items)),
        Template::Named(pairs) => dump(alloc, Value::hash(pairs.into_pairs())),
    }
}

/// A life that is known.
fn known(alloc: Global, life: Life) -> io::Result<String> {
    match life {
        Life::Never => Ok(format!(in alloc; "for ever")?),
        Life::Gone => Ok(format!(in alloc; "gone")?),
        Life::Seconds(seconds) => Ok(format!(in alloc; "{seconds} s")?),
    }
}

/// How long something is to last.
pub fn life(alloc: Global, life: Lasting) -> io::Result<String> {
    match life {
        Lasting::Known(life) => known(alloc, life),
        Lasting::Renewer(renewer) => {
            let renewer = dump(alloc, Value::remote(alloc, renewer)?)?;
            Ok(format!(in alloc; "renewer {renewer}")?)
        }
    }
}

/// A port or a block, or that there is none.
pub fn peer(alloc: Global, word: &str, peer: Option<Remote>) -> io::Result<String> {
    match peer {
        Some(peer) => {
            let peer = dump(alloc, Value::remote(alloc, peer)?)?;
            Ok(format!(in alloc; "{word} {peer}")?)
        }
        None => Ok(format!(in alloc; "no {word}")?),
    }
}

/// The class and the message of an exception.
fn told(value: &Value) -> Option<(&[u8], &[u8])> {
    let Node::Object(object) = &value.node else {
        return None;
    };
    let object = object.get();
    let (_, message) = object.fields.as_slice().first()?;
    match &message.node {
        Node::Text(text) => Some((object.class.as_slice(), text.bytes.as_slice())),
        _ => None,
    }
}

/// The class and the text of an exception.
pub fn exception(alloc: Global, value: &Value) -> io::Result<String> {
    match told(value) {
        Some((class, text)) => {
            let class = String::from_utf8_lossy(alloc, class)?;
            let text = String::from_utf8_lossy(alloc, text)?;
            Ok(format!(in alloc; "{class}: {text}")?)
        }
        None => Ok(format!(in alloc; "no exception")?),
    }
}
