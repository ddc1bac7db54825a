//! What the server meets outside, over the system: standard input and output, the clock, and TCP.
//!
//! These are the few lines that are trusted. Each stands for a trait of `drb_outside` or `drb_doors`, keeps that trait's
//! contract, and tells nothing: no clause can say what a socket carries. They are proved to be safe, to answer a failure
//! only where their count of faults rose, and to say of a peer which address it has. What went wrong at a dial or an
//! accept is one line on standard error.
//!
//! Stands on `drb_outside` and `drb_doors`. Read `standard` and `wall_clock`; then `tcp_line`, the two ends of a
//! connection; then `tcp_doors`, which take connections, and `tcp_dialer`, which makes them. `again` and `trouble` say
//! which errors of the system are passed over.
#![tactic(auto)]

mod again;
mod standard;
mod tcp_dialer;
mod tcp_doors;
mod tcp_line;
mod trouble;
mod wall_clock;

pub use standard::{Reading, Writing};
pub use tcp_dialer::TcpDialer;
pub use tcp_doors::{TcpDoors, TcpGuest, peer_of};
pub use tcp_line::{TcpSink, TcpSource};
pub use wall_clock::WallClock;
