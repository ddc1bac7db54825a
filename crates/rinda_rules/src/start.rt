//! The rows with which a space starts that was stored before.

use crate::{Ended, NoteRow, TupleRow};
use drb_tree::Remote;
use drb_value::Value;
use sqlite_items::Items;

/// A notifier and its queue.
#[derive(Drop)]
pub struct StartNote {
    pub row: NoteRow,
    pub events: Items<Value>,
}

/// The lease of a tuple or a notifier, by its id. `deadline` is in milliseconds; `doubted` says that its renewer has
/// to be asked.
#[derive(Drop)]
pub struct StartLease {
    pub id: u64,
    pub deadline: Option<u64>,
    pub renewer: Option<Remote>,
    pub doubted: bool,
}

/// All that a space without requests has, which is not shut.
///
/// `now` is in milliseconds, `next` the next id. The rows rise by id, and `ended` has the last objects that ended, in the
/// order in which they ended.
/// Source: docs/SPACE.md, Opening again.
#[derive(Drop)]
pub struct Start {
    pub now: u64,
    pub next: u64,
    pub tuples: Items<TupleRow>,
    pub notes: Items<StartNote>,
    pub leases: Items<StartLease>,
    pub ended: Items<Ended>,
}
