//! The tuples of a space, kept so that a template finds its tuple at once.
//!
//! The layer stands on the rows of the rules (`rinda_rules`) and on marks (`rinda_marks`). It promises that a bag is
//! the list of its rows in rising id, that each call leaves exactly the list that the rules speak of, and that the
//! least row that a template may have is found in at most as many steps as rows open as the template does. Only `put`
//! and `find_all` take memory; a `put` that fails leaves all as it was. Read `bag` first, which has the calls, then
//! `lent` and `lending`, by which a tuple is out for a while, then `rows`, the rows by their ids, `keys`, the index
//! beside them, `change` and `wanting`; `specs/Wanted.antt` says which row is found.
#![tactic(auto)]

pub mod bag;
mod change;
mod keys;
mod lending;
pub mod lent;
mod rows;
mod wanting;

pub use bag::Bag;
pub use change::Standing;
pub use lent::Lent;
