//! What an event will touch.

ghost use Rattle.std.specs.Prelude.{◌≡◌, ◌<◌, ◌^◌};
ghost use Rattle.rinda_rules.specs.Space.{Plain, found};
ghost use Rattle.rinda_effects.specs.Touches.{touched_by as touched_by_spec, settle_touches, lease_touches};
ghost use Rattle.rinda_tables.specs.Holds.{Holds};
ghost use Rattle.rinda_tables.specs.Tabled.{ahead_of};
ghost use Rattle.rinda_serve.specs.Serving.{seen};

use drb_ids::Looked;
use rinda_rules::{Event, ObjectKind, RequestState};
use rinda_serve::Touched;
use rinda_tables::Tables;

/// What the event touches in the tables as it finds them: at most this tuple or this request may newly be served after it.
///
/// Fewer than 2^64 - 1 ids may have been given out.
pub fn touched_by(tables: &Tables, event: &Event) -> Touched
    requires room { tables.now.ids.ahead.next < 2 ^ 64 }
    ensures { (s : Plain) → Holds s (ahead_of tables.now) →
        seen result ≡ touched_by_spec s event.now }
{
    match event {
        Event::Write { value: _, lease: _ } => Touched::ATuple(tables.ids.given() + 1),
        Event::Settle { id, ok } => let_go_by(tables, *id, *ok),
        Event::Renew { id, lease: _ } => leased(tables, *id),
        Event::Asked { id, life: _ } => leased(tables, *id),
        _ => Touched::NoRow,
    }
}

/// The tuple that the request holds, which a Settle lets go.
fn let_go_by(tables: &Tables, id: u64, ok: bool) -> Touched
    ensures { (s : Plain) → Holds s (ahead_of tables.now) →
        seen result ≡ settle_touches ok (found s id) }
{
    if ok {
        return Touched::NoRow;
    }
    match tables.requests.row(id) {
        Some(row) => match row.state {
            RequestState::Granted(tuple) => Touched::ATuple(tuple),
            _ => Touched::NoRow,
        },
        None => Touched::NoRow,
    }
}

/// The tuple or the request with that id, which has a new lease.
fn leased(tables: &Tables, id: u64) -> Touched
    ensures { (s : Plain) → Holds s (ahead_of tables.now) →
        seen result ≡ lease_touches (found s id) }
{
    match tables.ids.look(id) {
        Looked::Live(ObjectKind::Entry) => Touched::ATuple(id),
        Looked::Live(ObjectKind::Request) => Touched::ARequest(id),
        _ => Touched::NoRow,
    }
}
