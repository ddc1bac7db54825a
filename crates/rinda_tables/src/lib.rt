//! The tables that a space keeps its rows in: ids, tuples, requests, notifiers and deadlines.
//!
//! Each table has two lists: what stands, and what is ahead, as the turn under way would leave it. A change acts on what is
//! ahead, and where there is no memory for it, both lists are as they were. `commit` makes what is ahead stand, and
//! `forget` goes back to what stands; neither can fail, so that a turn over several tables is done wholly or not at all.
//!
//! `Tables` has all of them, and the small steps of which a turn is made: where the tables held a space of the rules ahead,
//! they then hold what the rules make of it; and two whole phases, time that goes on and aging. `rinda_cases` and
//! `rinda_serve` make the others of these steps, and `rinda_space` whole turns. Tables may also start from stored rows: they
//! then hold the space that these stand for. Read specs/Holds.antt (what tables hold), then `tuples`, `requests` and
//! `deadlines`, `tables`, `aging`, and `starting`.
#![tactic(auto)]

mod aging;
mod deadlines;
pub mod laws;
mod requests;
mod starting;
mod tables;
mod tuples;

pub use deadlines::Deadlines;
pub use requests::Requests;
pub use tables::Tables;
pub use tuples::Tuples;
