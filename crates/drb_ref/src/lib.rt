//! Where peers are called, why calls fail, and the values that only calls and replies carry: exceptions, and arrays for
//! blocks.
//!
//! It stands on `drb_outside` for addresses, on `drb_packet` for the refusals of packets, on `drb_value`, and on the reader
//! and the writer of dumps. It promises that a uri is taken apart exactly as docs/WIRE.md says and refused for the first
//! fault that it has, that each cause of a failure raises the exception of its row there, and that exceptions and arrays
//! for blocks are exactly the values stated there, both ways.
//!
//! Read `uris.rt`, `exceptions.rt`, `causes.rt` and `blocks.rt`, each after the file of `specs/` of its name.
#![tactic(auto)]

mod blocks;
mod causes;
mod exceptions;
mod uris;

pub use blocks::{array_for_block, array_from_block};
pub use causes::{Cause, exception_of};
pub use exceptions::exception;
pub use uris::{UriError, parse_uri};
