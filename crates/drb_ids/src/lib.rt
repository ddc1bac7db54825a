//! The ids of a space: which were given out, what they name, and how the last of them ended.
//!
//! It stands on the rules of the space (`rinda_rules`), of which it takes the kinds of objects and the ends that they
//! may have. A look-up answers what the rules find for an id that has no row any more. What a turn changes is ahead of what
//! stands, until it is committed or forgotten. Read `object` and then `table`; `specs/Ids.antt` has each call's result,
//! `specs/Found.antt` what it has to do with a space.
#![tactic(auto)]

mod object;
mod table;

pub use object::{LiveId, Looked};
pub use table::IdTable;
