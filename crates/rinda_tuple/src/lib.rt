//! Tuples, the templates that match them, and how long an object of the space stays.
//!
//! The layer stands on the values alone. It promises that `matches` says yes exactly where a template matches a
//! tuple by the table of classes and the rule of ranges, at the price of one step of a counter that costs nothing
//! when it runs, and that a deadline is exactly what a life and a time give. Read `tuple` and `named` first, then `lease`, then
//! `matching` with its two helpers `class` and `range`, and `steps` last; docs/SPACE.md, Matching, has the rules in
//! plain words.
#![tactic(auto)]

mod class;
pub mod lease;
pub mod matching;
pub mod named;
mod range;
pub mod steps;
pub mod tuple;

pub use lease::{Lease, Life, LifeArg, copy_renewer, deadline, life_of};
pub use matching::{is_match, matches, suits};
pub use named::NamedPairs;
pub use steps::Steps;
pub use tuple::{NotTuple, Template, Tuple, WhyNotTuple, template_of, tuple_of};
