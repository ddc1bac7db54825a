//! Each event's own case, over the tables of a space.
//!
//! It stands on `rinda_tables`, and on `rinda_serve` for whom a tuple serves. It promises that where tables held a sound
//! space of the rules, ahead of what stands, the answer is that of the event's case, and the tables hold what the case
//! leaves; where there is no memory, what stands is as it was. Read specs/Makes.antt and `outcome`, then the cases:
//! `entering` (Write, Reserve, Notify), `requests` (Submit, Collect, Settle, and Withdraw of a request), `hearing` (Pop,
//! Withdraw), `objects` (Cancel, Renew, Look, Value, NextAsk, Asked) with `flags`, and `reading` (ReadAll); Tick and Shut
//! stand in `outcome`. `quiet` says when an event is nothing, and `touching` what it touches.
#![tactic(auto)]

mod entering;
mod flags;
mod hearing;
mod objects;
mod outcome;
mod quiet;
mod reading;
mod requests;
mod touching;

pub use outcome::case;
pub use quiet::is_nothing;
pub use touching::touched_by;
