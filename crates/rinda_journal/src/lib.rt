//! The text of a history: turns as bytes, and back.
//!
//! A turn is written as packets of Ruby's Marshal: a head with its plain fields, and then its values, as docs/JOURNAL.md
//! has them. The crate stands on the turns of `rinda_rules`, on the reader and the writer of dumps, and on the sinks of
//! `drb_outside`. It promises that `write_turn` appends exactly the text of a turn, and refuses exactly the turns that
//! have none; that `read_turn` gives a turn exactly where its text begins; that no text is a front of another turn's;
//! and that `write_history` gives a sink exactly the texts of a journal's turns. Only want of memory is free.
//!
//! Read `specs/Words.antt`, `Fields.antt`, `Heads.antt`, `Kept.antt` and `Texts.antt` for what a text is, `Histories.antt`
//! for the text of a history and `Laws.antt` for what follows. Then `error.rt`, `writing.rt`, `turn_at.rt` and
//! `history.rt` for the calls. Writing goes over `heads.rt` (the fields, which `field.rt` and `word.rt` spell), `values.rt`
//! and `packet.rt`, with `events.rt` and `kept.rt` for what a turn has to be. Reading goes over `packet_at.rt`,
//! `fields_at.rt`, `cursor.rt` and `reading.rt`, after `specs/Parsers.antt`, `Streams.antt`, `Reading.antt` and `Fronts.antt`.
#![tactic(auto)]

mod cursor;
mod error;
mod events;
mod field;
mod fields_at;
mod heads;
mod history;
mod kept;
pub mod laws;
mod packet;
mod packet_at;
mod reading;
mod turn_at;
mod values;
mod word;
mod writing;

pub use error::{HistoryError, ReadTurnError, TurnTextError};
pub use history::write_history;
pub use turn_at::read_turn;
pub use writing::{event_fits, write_turn};
