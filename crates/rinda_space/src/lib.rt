//! A tuple space that keeps its history, and makes each turn as the rules say.
//!
//! It stands on the tables of a space (`rinda_tables`), on each event's own case (`rinda_cases`) and on serving
//! (`rinda_serve`), and keeps its turns in any journal. It promises that its history is always legal, that each turn that
//! it makes is the next one there, that an event is nothing exactly where the rules say so, and that whatever is
//! refused leaves the space as it was: all memory is taken while what stands is untouched, and then nothing can fail.
//! Read specs/Spaces.antt (what one turn comes to), `space`, then `making`, the phases of a turn, with specs/Begins.antt.
#![tactic(auto)]

mod machine;
mod making;
mod space;
mod turned;

pub use space::Space;
pub use turned::{TurnError, Turned};
