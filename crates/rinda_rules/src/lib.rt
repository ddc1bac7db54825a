//! The rules of the tuple space: what one turn may do to it, and the data of which the rules speak.
//!
//! It stands on tuples and templates alone, and holds no space. A turn is one event of one caller at one reading of
//! the clock, with its answer and the matches that it picked; the turns of a space, in order, are its journal, and the
//! journal determines the whole space. `specs/` says which turns may follow which: read Rows, Space, Phases, Cases,
//! Steps and Legal in this order (docs/SPACE.md is the same in prose). The code has the types of events, answers,
//! turns and rows, and the journal. Read `object`, `event`, `out`, `turn`, `row`, `plain` and then `journal`.
#![tactic(auto)]

pub mod event;
pub mod journal;
pub mod laws;
pub mod object;
pub mod out;
pub mod plain;
pub mod row;
pub mod start;
pub mod turn;

pub use event::{Event, Kind};
pub use journal::{Journal, JournalError, VecJournal};
pub use object::{Doubt, Last, ObjectKind};
pub use out::{Flags, Out};
pub use plain::Ended;
pub use row::{NoteRow, NoteState, RequestRow, RequestState, TupleRow};
pub use start::{Start, StartLease, StartNote};
pub use turn::{Pick, Picks, Turn};
