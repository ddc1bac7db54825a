//! Where those who are served come from.
//!
//! `Doors` hand on one guest after the other: what it sends, what is sent to it, a clock, and a dialer for the calls
//! that are made on its behalf. Like what `drb_outside` has, which it stands on, doors have a written meaning: the
//! guests that will come, where they tell them, and two counts, of their failures and of their ends. A contract above
//! speaks of these alone. Doors over a network tell nothing of who will come; those in memory tell all.
//!
//! Promises that guests come in their order and none is lost, that a failure is answered only where the count of faults
//! rose, and that nobody will come only where the count of ends rose. Read `traits`; then the doubles `mem_doors` and
//! `peer_source`, and `limited`, which hands on so many guests and no more.
#![tactic(auto)]

mod limited;
mod mem_doors;
mod peer_source;
mod traits;

pub use limited::Limited;
pub use mem_doors::MemDoors;
pub use peer_source::PeerSource;
pub use traits::{Doors, Guest, Known};
