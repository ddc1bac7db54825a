//! What one event can touch, which is what a space over tables is proved with.
//!
//! It stands on the rules alone. In a settled space nobody waits beside a match and nothing is due. So one event leaves
//! at most one tuple or one request that may newly be served, and at most one row that is due. The laws say which one,
//! how it is served and which turn comes of it: a space over tables then only shows that its tables equal the lists of
//! a space that a law names. They hold from any sound and settled start, of which the opening is one. Each function
//! does nothing, and its contract is the law, which `specs/` says in full: read Touches, Unserved, Serves, Served,
//! Ages, Dues, Answers, Queues, Turns and Quiet in this order. Read `serving`, `aging`, `answering`, `hearing`, `turns`
//! and then `quiet`.
#![tactic(auto)]

pub mod aging;
pub mod answering;
pub mod hearing;
pub mod quiet;
pub mod serving;
pub mod turns;
