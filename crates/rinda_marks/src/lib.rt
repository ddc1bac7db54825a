//! Marks: keyed 64-bit numbers by which tuples and templates are found in a table.
//!
//! A symbol, a text and an integer have a mark each, a number under a secret that no stranger can foresee, so that
//! nobody can choose values that fall together in an index. The layer stands on tuples and templates. It promises that
//! values that are the same have the same mark, and that a tuple has the marks that each template that matches it asks
//! for; that two other values share one costs time, never an answer. Read `secret`, then `marks`, then `opening`,
//! which compares the values themselves, and `laws`; docs/SPACE.md, Matching, has the rules beneath.
#![tactic(auto)]

pub mod laws;
pub mod marks;
pub mod opening;
pub mod secret;
#[cfg(test)]
mod tests;

pub use marks::{Marks, mark_of, template_marks, tuple_marks};
pub use opening::opens;
pub use secret::Secret;
