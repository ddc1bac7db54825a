//! The names of events and answers.

use rinda_rules::{Event, Out};

/// The name of an event.
pub fn event_name(event: &Event) -> &'static str {
    match event {
        Event::Write { .. } => "write",
        Event::Reserve { .. } => "reserve",
        Event::Submit { .. } => "submit",
        Event::Collect { .. } => "collect",
        Event::Settle { .. } => "settle",
        Event::Withdraw { .. } => "withdraw",
        Event::Cancel { .. } => "cancel",
        Event::Renew { .. } => "renew",
        Event::Look { .. } => "look",
        Event::Value { .. } => "value",
        Event::ReadAll { .. } => "read all",
        Event::Notify { .. } => "notify",
        Event::Pop { .. } => "pop",
        Event::NextAsk => "next ask",
        Event::Asked { .. } => "asked",
        Event::Tick => "tick",
        Event::Shut => "shut",
    }
}

/// The name of an answer.
pub fn out_name(out: &Out) -> &'static str {
    match out {
        Out::Entry(_) => "entry",
        Out::Reserved(_) => "reserved",
        Out::Answer(_) => "answer",
        Out::Parked(_) => "parked",
        Out::Granted(_, _) => "granted",
        Out::All(_) => "all",
        Out::Notifier(_) => "notifier",
        Out::Event(_) => "event",
        Out::Closed => "closed",
        Out::Expired => "expired",
        Out::Canceled => "canceled",
        Out::WouldWait => "would wait",
        Out::NotYet => "not yet",
        Out::State(_) => "state",
        Out::Ask(_, _) => "ask",
        Out::Plain => "plain",
        Out::Recycled => "recycled",
        Out::Unknown => "unknown",
        Out::WrongKind => "wrong kind",
        Out::Shut => "shut",
    }
}
