//! A client of a tuple space: what its commands ask of a server, what they print, and the status that they end with.
//!
//! It stands on `drb_back` for the requests, each one outgoing call, and on `drb_text` for what is printed. It promises
//! that `client_ask` adds to the dialer's list exactly the requests of its command, that it prints exactly the text of
//! the answers that the bytes of the server spell, and that each status has its cause in the first answer that isn't a
//! value, or in a count of faults. Only want of memory is free.
//!
//! Read `asking.rt` for what can be asked and `status.rt` for the ends; `specs/Requests.antt`, `Lines.antt` and
//! `Commands.antt` for what they promise; then `client.rt`, over `watching.rt` for the events of a notifier,
//! `calling.rt` for one request, `lines.rt` for what is printed and `printing.rt` for how.
#![tactic(auto)]

mod asking;
mod calling;
mod client;
mod lines;
mod printing;
mod status;
mod watching;

pub use asking::Asking;
pub use client::client_ask;
pub use status::Status;
