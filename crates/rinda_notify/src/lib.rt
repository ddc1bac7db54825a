//! The notifiers of a space and their queues.
//!
//! It stands on the rules of the space (`rinda_rules`). A turn of a space changes its notifiers step by step, and then
//! either all of that stands or none of it. So a table of notifiers is seen as two lists: what stands, and what is
//! ahead. Each change is made ahead, wants memory at most, and at an error all is as before; each look-up reads what is
//! ahead. It promises of each call what both lists are afterwards, and that neither a commit nor its opposite can fail.
//! Read `note` and `queue`, then `notes`. Below it `changes` (with `step`) has the changes that are taken back, `rows`
//! the rows, and `chain` the events that went back to a queue. `specs/Notes.antt` has each call's result; `laws` says
//! what the same happenings do to the notifiers of a plain space.
#![tactic(auto)]

mod chain;
mod changes;
mod event;
pub mod laws;
mod note;
mod notes;
mod queue;
mod rows;
mod step;
mod stored;

pub use note::{Note, Popped};
pub use notes::Notes;
pub use queue::Queue;
