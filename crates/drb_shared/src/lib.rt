//! The turns of one of many callers of a space.
//!
//! It stands on a monitor of a space (`drb_monitor`, `rinda_space`), and makes each caller's turns by its pass what a
//! session is proved over, `Turns` of `drb_session`. It promises that a caller makes and sees turns of the one history of
//! its monitor, whoever else makes turns beside it; so all that is proved of a session holds of each of many. It does not
//! promise that a wait ends.
//!
//! Read `specs/Sharing.antt` and then `shared.rt`.
#![tactic(auto)]

mod shared;

pub use shared::Shared;
