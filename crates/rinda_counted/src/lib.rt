//! A journal of which only the number of turns is there as the program runs.
//!
//! For a space whose history nobody reads. It stands on the rules of the space (`rinda_rules`), and is a `Journal` as
//! every other: what its turns are is known to proofs, and takes no memory.
#![tactic(auto)]

mod counted;

pub use counted::Counted;
