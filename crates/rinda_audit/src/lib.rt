//! The judge of histories: a plain space that replays turns one after another.
//!
//! It stands on the rules of the space alone, and keeps its rows in plain lists, as `rinda_rules`' specs have them.
//! It promises of each turn that it says yes exactly where the turn, with its answer and the matches that it picked, is
//! a step of the rules from the state that the turns before it left, and that it then has the next state. Read `state`
//! first, with `rows`, `changes` and `aging` below it; then what each event does, in `requests`, `objects`, `shutting` and
//! `outcome`; then `serving` and `steps`; and `reopening` and `starting`, for a space that is stopped and stored.
//! `equality` tells two answers apart. docs/SPACE.md has the rules in prose.
#![tactic(auto)]

mod aging;
mod asking;
mod changes;
mod copies;
mod equality;
mod flags;
mod found;
mod fresh;
mod objects;
mod outcome;
mod queue;
mod reopening;
mod requests;
mod row;
mod rows;
mod serving;
mod shutting;
mod starting;
mod state;
mod steps;

pub use state::Replay;
