//! The requests of a space, and who of them waits for a tuple.
//!
//! It stands on the rules of the space (`rinda_rules`), whose list of requests it keeps, and on marks (`rinda_marks`),
//! by which templates are found. It promises that each call leaves exactly the list that the rules name, that a tuple
//! is told exactly the requests that wait to read it and the first that waits to take it, that nothing in the life of a
//! request takes memory once it is reserved, and that each change but an end can be taken back without memory. Read
//! `waits` first, whose contracts cite `specs/Waiting.antt` alone; then `table`, which has the requests, and `places`
//! with `probes` and `serving`, through which a tuple finds them.
#![tactic(auto)]

mod places;
mod probes;
mod serving;
mod table;
mod waits;

pub use waits::Waits;
