//! Events, calls of peers and replies, as they are shown.

use crate::words::Fault;
use drb_reply::{answer, arguments_of, method_of};
use drb_script::{Reply, Saying};
use drb_tree::{Code, RefId, Remote, Text};
use drb_value::{Node, Value};
use marshal_write::write_dump;
use rinda_rules::{Event, Kind};
use rinda_tuple::{Lease, Life, Template};
use sqlite_items::Items;
use std::alloc::Global;

/// The dump of a value, in hexadecimal.
fn hex_of(alloc: Global, value: &Value) -> Result<String, Fault> {
    let mut dump = Vec::new(alloc);
    match write_dump(value, &mut dump) {
        Ok(()) => Ok(hex::encode(alloc, dump.as_slice())?),
        Err(_) => Err(Fault::Memory),
    }
}

/// The dump of a value, which is let go of.
fn dumped(alloc: Global, value: Value) -> Result<String, Fault> {
    let text = hex_of(alloc, &value);
    drop(value);
    text
}

fn template_of(template: Template) -> Value {
    match template {
        Template::List(items) => Value::list(items),
        Template::Named(pairs) => Value::hash(pairs.into_pairs()),
    }
}

/// A reference: its uri, and behind a `#` the number of its id.
fn remote_text(alloc: Global, remote: &Remote) -> Result<String, Fault> {
    let uri = String::from_utf8_lossy(alloc, remote.uri.bytes.as_slice())?;
    match &remote.id {
        RefId::Number(id) => Ok(format!(in alloc; "{uri}#{id}")?),
        _ => Ok(format!(in alloc; "{uri}")?),
    }
}

fn renewer_text(alloc: Global, renewer: &Option<Remote>) -> Result<String, Fault> {
    match renewer {
        Some(renewer) => remote_text(alloc, renewer),
        None => Ok(format!(in alloc; "-")?),
    }
}

fn lease_text(alloc: Global, lease: &Lease) -> Result<String, Fault> {
    let renewer = renewer_text(alloc, &lease.renewer)?;
    match lease.life {
        Life::Never => Ok(format!(in alloc; "never {renewer}")?),
        Life::Gone => Ok(format!(in alloc; "gone {renewer}")?),
        Life::Seconds(seconds) => Ok(format!(in alloc; "{seconds} {renewer}")?),
    }
}

/// A word, a value and a lease.
fn leased(alloc: Global, word: &str, value: Value, lease: Lease) -> Result<String, Fault> {
    let value = dumped(alloc, value);
    let lease_text = lease_text(alloc, &lease);
    drop(lease);
    Ok(format!(in alloc; "{word} {} {}", value?, lease_text?)?)
}

fn kind_text(kind: Kind) -> &'static str {
    match kind {
        Kind::Read => "reserve read",
        Kind::Take => "reserve take",
        Kind::Move => "reserve move",
    }
}

fn notify_text(
    alloc: Global,
    event: Value,
    pattern: Template,
    lease: Lease,
) -> Result<String, Fault> {
    let event = dumped(alloc, event);
    let rest = leased(alloc, "", template_of(pattern), lease);
    Ok(format!(in alloc; "notify {}{}", event?, rest?)?)
}

fn renew_text(alloc: Global, id: u64, lease: Lease) -> Result<String, Fault> {
    let text = lease_text(alloc, &lease);
    drop(lease);
    Ok(format!(in alloc; "renew {id} {}", text?)?)
}

fn settle_text(alloc: Global, id: u64, ok: bool) -> Result<String, Fault> {
    let answer = if ok { "yes" } else { "no" };
    Ok(format!(in alloc; "settle {id} {answer}")?)
}

/// An event that a session makes.
pub fn event_text(alloc: Global, event: Event) -> Result<String, Fault> {
    match event {
        Event::Write { value, lease } => leased(alloc, "write", value.into_value(), lease),
        Event::Reserve {
            kind,
            pattern,
            lease,
        } => leased(alloc, kind_text(kind), template_of(pattern), lease),
        Event::Notify {
            event,
            pattern,
            lease,
        } => notify_text(alloc, event, pattern, lease),
        Event::Renew { id, lease } => renew_text(alloc, id, lease),
        Event::ReadAll { pattern } => read_all_text(alloc, pattern),
        Event::Settle { id, ok } => settle_text(alloc, id, ok),
        other => named_text(alloc, other),
    }
}

fn read_all_text(alloc: Global, pattern: Template) -> Result<String, Fault> {
    let pattern = dumped(alloc, template_of(pattern))?;
    Ok(format!(in alloc; "read_all {pattern}")?)
}

/// An event of an id alone.
fn named_text(alloc: Global, event: Event) -> Result<String, Fault> {
    let named = named(&event);
    drop(event);
    match named {
        Some((word, id)) => Ok(format!(in alloc; "{word} {id}")?),
        None => Err(Fault::NotALine),
    }
}

fn named(event: &Event) -> Option<(&'static str, u64)> {
    match event {
        Event::Submit { id } => Some(("submit", *id)),
        Event::Collect { id } => Some(("collect", *id)),
        Event::Withdraw { id } => Some(("withdraw", *id)),
        Event::Cancel { id } => Some(("cancel", *id)),
        Event::Look { id } => Some(("look", *id)),
        Event::Value { id } => Some(("value", *id)),
        Event::Pop { id } => Some(("pop", *id)),
        _ => None,
    }
}

/// The uri of this server.
fn place(alloc: Global) -> Result<Text, Fault> {
    Ok(Text::of(alloc, b"druby://127.0.0.1:8787", Code::Utf8)?)
}

/// The arguments of a call, each behind a space.
fn arguments_text(alloc: Global, saying: Saying) -> Result<String, Fault> {
    let uri = place(alloc)?;
    match arguments_of(alloc, &uri, saying) {
        Ok(args) => listed(alloc, args),
        Err(_) => Err(Fault::Memory),
    }
}

fn listed(alloc: Global, args: Items<Value>) -> Result<String, Fault> {
    let text = first_text(alloc, args.as_slice());
    drop(args);
    text
}

fn first_text(alloc: Global, args: &[Value]) -> Result<String, Fault> {
    match args.first() {
        Some(value) => Ok(format!(in alloc; " {}", hex_of(alloc, value)?)?),
        None => Ok(String::new(alloc)),
    }
}

/// A call of a peer: whom, by which method and with what.
pub fn call_text(alloc: Global, to: &Remote, saying: Saying) -> Result<String, Fault> {
    let method = String::from_utf8_lossy(alloc, method_of(&saying));
    let arguments = arguments_text(alloc, saying);
    let to = remote_text(alloc, to)?;
    Ok(format!(in alloc; "call {to} {}{}", method?, arguments?)?)
}

/// The class of an exception, and its text.
fn told(value: &Value) -> Option<(&[u8], &[u8])> {
    let Node::Object(object) = &value.node else {
        return None;
    };
    let object = object.get();
    let (_, message) = object.fields.as_slice().first()?;
    match &message.node {
        Node::Text(text) => Some((object.class.as_slice(), text.bytes.as_slice())),
        _ => None,
    }
}

fn failure_text(alloc: Global, value: &Value) -> Result<String, Fault> {
    match told(value) {
        Some((class, text)) => {
            let class = String::from_utf8_lossy(alloc, class)?;
            let text = String::from_utf8_lossy(alloc, text)?;
            Ok(format!(in alloc; "false {class}: {text}")?)
        }
        None => Ok(format!(in alloc; "false {}", hex_of(alloc, value)?)?),
    }
}

fn answer_text(alloc: Global, ok: bool, value: &Value) -> Result<String, Fault> {
    if ok {
        return Ok(format!(in alloc; "true {}", hex_of(alloc, value)?)?);
    }
    failure_text(alloc, value)
}

/// The reply to the method with that name.
pub fn reply_text(alloc: Global, name: &str, reply: Reply) -> Result<String, Fault> {
    let uri = place(alloc);
    replied(alloc, uri, name, reply)
}

fn replied(
    alloc: Global,
    uri: Result<Text, Fault>,
    name: &str,
    reply: Reply,
) -> Result<String, Fault> {
    match uri {
        Ok(uri) => with_place(alloc, &uri, name, reply),
        Err(fault) => {
            drop(reply);
            Err(fault)
        }
    }
}

fn with_place(alloc: Global, uri: &Text, name: &str, reply: Reply) -> Result<String, Fault> {
    let (ok, value) = answer(alloc, uri, name.as_bytes(), reply)?;
    let text = answer_text(alloc, ok, &value);
    drop(value);
    text
}
