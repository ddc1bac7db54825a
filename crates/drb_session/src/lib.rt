//! Sessions: requests off an input, what they do to a space and to peers, and their replies, until an end.
//!
//! It stands on `drb_packet` for requests and replies, on `drb_dispatch` for what a request asks, on `drb_script` for
//! what a call does, on `drb_reply` and `drb_back` for calls of peers, and on the rules of the space, `rinda_rules`.
//! A space is only what `Turns` says of it: turns of one caller in a history that others may share; `Alone` is the only
//! caller of a space of `rinda_space`. It promises that
//! whatever the bytes, their pieces, the clock and the peers, the turns of `serve_session` and the bytes that it
//! writes are those of the scripts of the requests that its bytes spell, in their order, and that each end has its
//! cause. Only want of memory is free.
//!
//! Read `specs/Passes.antt`, `turns.rt` and `alone.rt` for what a space has to be; `specs/Runs.antt` and `running.rt` for the run
//! of one script, over `making.rt`, `peers.rt` and `clearing.rt`; `specs/Replies.antt`, `Transcripts.antt` and
//! `Session.antt` for the ends, `end.rt`, and then `serving.rt` for the session, over `answering.rt` and
//! `replying.rt`. `polling.rt` makes the steps of a script for one who waits for no turn.
#![tactic(auto)]

mod alone;
mod answering;
mod clearing;
mod end;
mod making;
mod peers;
mod polling;
mod replying;
mod running;
mod serving;
mod turns;

pub use alone::Alone;
pub use end::SessionEnd;
pub use making::Halt;
pub use polling::{Polled, poll};
pub use replying::{Said, is_told, say, say_refusal};
pub use rinda_space::{TurnError, Turned};
pub use running::{Stepped, run};
pub use serving::{refuse, serve_session, write_out};
pub use turns::Turns;
