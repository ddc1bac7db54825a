//! What a script's reply and its outgoing calls say in values: references, exceptions, arrays for blocks.
//!
//! `drb_script` speaks of ids, failures and events, without a place or memory. Here they become the values that stand in
//! packets. The layer stands on `drb_ref` for exceptions and arrays for blocks, and on `drb_script`. It promises that a
//! reply is exactly the value of docs/SESSIONS.md, Replies, and that an outgoing call has exactly the method and the
//! arguments stated there.
//!
//! Read `replies.rt` and `failure.rt` after `specs/Replies.antt`, and `arguments.rt` after `specs/Arguments.antt`.
#![tactic(auto)]

mod arguments;
mod failure;
mod replies;
mod values;

pub use arguments::{arguments_of, method_of};
pub use failure::exception_for;
pub use replies::{answer, reply_too_long};
pub use values::{close, reference};
