//! What counts as nothing, and makes no turn.

ghost use Rattle.std.specs.Prelude.{◌≡◌, ◌&&◌, is_none};
ghost use Rattle.rinda_rules.specs.Space.{Plain, found, is_parked as is_parked_spec};
ghost use Rattle.rinda_rules.specs.Phases.{advanced, nothing_due as nothing_due_spec};
ghost use Rattle.rinda_rules.specs.Cases.{askings, least};
ghost use Rattle.rinda_rules.specs.Sound.{Sound};
ghost use Rattle.rinda_rules.specs.Nothing.{is_nothing as is_nothing_spec, finds_nothing as finds_nothing_spec, waits_for as waits_for_spec, hears_nothing as hears_nothing_spec};
ghost use Rattle.rinda_notify.specs.Notes.{first, is_open};
ghost use Rattle.rinda_tables.specs.Holds.{Holds};
ghost use Rattle.rinda_tables.specs.Tabled.{ahead_of};

use rinda_notify::Note;
use rinda_rules::{Event, NoteState, RequestState};
use rinda_tables::Tables;

/// Whether the caller's event at that reading counts as nothing: no row is due at the larger of now and the reading, and
/// the event finds nothing to do.
///
/// Source: docs/SPACE.md, Nothing.
pub fn is_nothing(tables: &Tables, caller: u64, at: u64, event: &Event) -> bool
    ensures { (s : Plain) → Sound s → Holds s (ahead_of tables.now) →
        result ≡ is_nothing_spec s caller at event.now }
{
    finds_nothing(tables, caller, event) && nothing_due(tables, at)
}

/// No row is due at the larger of now and the reading.
fn nothing_due(tables: &Tables, at: u64) -> bool
    ensures { (s : Plain) → Holds s (ahead_of tables.now) →
        result ≡ nothing_due_spec (advanced s at) }
{
    !tables.deadlines.is_due(tables.clock.max(at))
}

/// The event is a Tick, or would answer NotYet.
fn finds_nothing(tables: &Tables, caller: u64, event: &Event) -> bool
    ensures { (s : Plain) → Sound s → Holds s (ahead_of tables.now) →
        result ≡ finds_nothing_spec s caller event.now }
{
    match event {
        Event::Collect { id } => waits_for(tables, caller, *id),
        Event::Pop { id } => hears_nothing(tables, *id),
        Event::NextAsk => asks_nobody(tables),
        Event::Tick => true,
        Event::Shut => tables.shut,
        _ => false,
    }
}

/// The request with that id is the caller's, and is parked.
fn waits_for(tables: &Tables, caller: u64, id: u64) -> bool
    ensures { (s : Plain) → Holds s (ahead_of tables.now) →
        result ≡ waits_for_spec caller (found s id) }
{
    match tables.requests.row(id) {
        Some(row) => row.caller == caller && is_parked(&row.state),
        None => false,
    }
}

fn is_parked(state: &RequestState) -> bool
    ensures { result ≡ is_parked_spec state.now }
{
    matches!(state, RequestState::Parked)
}

/// The notifier with that id runs, and its queue is empty.
fn hears_nothing(tables: &Tables, id: u64) -> bool
    ensures { (s : Plain) → Holds s (ahead_of tables.now) →
        result ≡ hears_nothing_spec s (found s id) }
{
    match tables.notes.note(id) {
        Some(note) => is_idle(note),
        None => false,
    }
}

fn is_idle(note: &Note) -> bool
    ensures { result ≡ (is_open note.now.state && is_none (first note.now.queue)) }
{
    is_running(note.state) && note.queue.first().is_none()
}

fn is_running(state: NoteState) -> bool
    ensures { result ≡ is_open state }
{
    matches!(state, NoteState::Running)
}

/// No renewer is to be asked.
fn asks_nobody(tables: &Tables) -> bool
    ensures { (s : Plain) → Sound s → Holds s (ahead_of tables.now) →
        result ≡ is_none (least (askings s)) }
{
    tables.deadlines.next_ask().is_none()
}
