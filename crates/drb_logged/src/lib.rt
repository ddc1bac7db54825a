//! Serving guests at a space whose whole history is written down at the end.
//!
//! It stands on `drb_serving` for all of the serving, over a journal that keeps each turn, and on `rinda_journal` for the
//! text of a history. It promises what `drb_serving::serve_run` does, and that the bytes that the sink was given are the
//! texts of the turns of the space that is handed back. Read `specs/Logging.antt` and `logging.rt`.
#![tactic(auto)]

mod logging;

pub use logging::{Logged, serve_logged};
