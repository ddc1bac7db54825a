//! Rings: how a server is found by whoever sends a datagram to all.
//!
//! A client that looks for a server sends a lookup, the dump of `[[:lookup_ring, block], seconds]`, to all machines of its
//! net. A ring writes the tuple of each datagram that it hears to its space, and then takes each lookup out again and calls
//! its block with the front of its server. The layer makes no socket: it is given a datagram's bytes.
//!
//! It stands on the reader and the writer of dumps, on `drb_session` for the runs of scripts over any `Turns`, on
//! `drb_script` for the scripts themselves, and on `drb_back` for calls of peers. It promises that a datagram is read as
//! exactly the lookup that it begins with, or refused for its own reason; that what is done of it is exactly the script of a
//! write; that an answer is exactly the script of a take and one call; and that each end has its cause. Only want of memory
//! is free.
//!
//! Read `specs/Lookups.antt` and `lookup.rt`; then `specs/Rings.antt`, after `specs/Blocks.antt` and `specs/Tasks.antt`,
//! for what is done and how that ends; then `end.rt`, `writing.rt`, and `answering.rt` over `blocks.rt`.
#![tactic(auto)]

mod answering;
mod blocks;
mod end;
mod lookup;
mod writing;

pub use answering::ring_answer;
pub use end::RingEnd;
pub use lookup::{Lookup, RingError, RingRefusal, read_lookup, write_lookup};
pub use writing::ring_write;
