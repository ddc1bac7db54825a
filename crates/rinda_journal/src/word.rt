//! The names in the head of a turn's text.

ghost use Rattle.std.specs.Prelude.{◌≡◌, bytes_eq};
ghost use Rattle.rinda_journal.specs.Words.{name_of, first_named, word_named as word_named_spec};

/// A name in the head of a turn's text: of an event, an answer, a kind of request, or what happened to a tuple.
///
/// Source: docs/JOURNAL.md, The head.
#[derive(Clone, Copy, Debug, PartialEq, Eq)]
pub enum Word {
    Write,
    Reserve,
    Submit,
    Collect,
    Settle,
    Withdraw,
    Cancel,
    Renew,
    Look,
    Value,
    ReadAll,
    Notify,
    Pop,
    NextAsk,
    Asked,
    Tick,
    Shut,
    Entry,
    Reserved,
    Answer,
    Parked,
    Granted,
    All,
    Notifier,
    Event,
    Closed,
    Expired,
    Canceled,
    WouldWait,
    NotYet,
    State,
    Ask,
    Plain,
    Recycled,
    Unknown,
    WrongKind,
    Read,
    Take,
    Move,
    Delete,
}

impl Word {
    /// The name as it is spelled.
    pub fn name(self) -> &'static str
        ensures { result.now ≡ name_of self }
    {
        match self {
            Word::Write => "write",
            Word::Reserve => "reserve",
            Word::Submit => "submit",
            Word::Collect => "collect",
            Word::Settle => "settle",
            Word::Withdraw => "withdraw",
            Word::Cancel => "cancel",
            Word::Renew => "renew",
            Word::Look => "look",
            Word::Value => "value",
            Word::ReadAll => "read_all",
            Word::Notify => "notify",
            Word::Pop => "pop",
            Word::NextAsk => "next_ask",
            Word::Asked => "asked",
            Word::Tick => "tick",
            Word::Shut => "shut",
            Word::Entry => "entry",
            Word::Reserved => "reserved",
            Word::Answer => "answer",
            Word::Parked => "parked",
            Word::Granted => "granted",
            Word::All => "all",
            Word::Notifier => "notifier",
            Word::Event => "event",
            Word::Closed => "closed",
            Word::Expired => "expired",
            Word::Canceled => "canceled",
            Word::WouldWait => "would_wait",
            Word::NotYet => "not_yet",
            Word::State => "state",
            Word::Ask => "ask",
            Word::Plain => "plain",
            Word::Recycled => "recycled",
            Word::Unknown => "unknown",
            Word::WrongKind => "wrong_kind",
            Word::Read => "read",
            Word::Take => "take",
            Word::Move => "move",
            Word::Delete => "delete",
        }
    }
}

/// The word that these bytes spell.
#[tactic(auto, unfolding(crate::specs::Words::word_named))]
pub fn word_named(bytes: &[u8]) -> Option<Word>
    ensures { result ≡ word_named_spec bytes.now }
{
    first_named(
        bytes,
        &[
            Word::Write,
            Word::Reserve,
            Word::Submit,
            Word::Collect,
            Word::Settle,
            Word::Withdraw,
            Word::Cancel,
            Word::Renew,
            Word::Look,
            Word::Value,
            Word::ReadAll,
            Word::Notify,
            Word::Pop,
            Word::NextAsk,
            Word::Asked,
            Word::Tick,
            Word::Shut,
            Word::Entry,
            Word::Reserved,
            Word::Answer,
            Word::Parked,
            Word::Granted,
            Word::All,
            Word::Notifier,
            Word::Event,
            Word::Closed,
            Word::Expired,
            Word::Canceled,
            Word::WouldWait,
            Word::NotYet,
            Word::State,
            Word::Ask,
            Word::Plain,
            Word::Recycled,
            Word::Unknown,
            Word::WrongKind,
            Word::Read,
            Word::Take,
            Word::Move,
            Word::Delete,
        ],
    )
}

/// The first of these words that the bytes spell.
fn first_named(bytes: &[u8], words: &[Word]) -> Option<Word>
    ensures { result ≡ first_named bytes.now words.now }
{
    for word in words {
        if is(word.name(), bytes) {
            return Some(*word);
        }
    }
    None
}

/// The bytes are that name.
fn is(name: &str, bytes: &[u8]) -> bool
    ensures { result ≡ bytes_eq name.now bytes.now }
{
    name.as_bytes() == bytes
}
