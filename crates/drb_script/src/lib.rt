//! Scripts: the turns and the outgoing calls of one call, and its reply, as a machine without input or output.
//!
//! `begin` gives the first thing that a call wants done. Whoever drives it does that, and hands the answer of the turn to
//! `AfterTurn::turned`, or what the peer's call came to to `AfterCall::called`, which give the next thing, until there is a
//! reply. So threads that wait and a loop that polls drive the same scripts.
//!
//! It stands on the calls of `drb_dispatch`, on what outgoing calls come to, `drb_back`, and on the events and answers of
//! `rinda_rules`. It takes no memory and copies no event. It promises that the machine stands at every moment where the
//! call's script does, which `specs/Scripts.antt` has row by row, as docs/SESSIONS.md, Scripts.
//!
//! Read `specs/Acting.antt`, `Scripts.antt` and `Stands.antt`; then `reply.rt` and `next.rt` for the types, `beginning.rt`,
//! and `turned.rt`, `called.rt`, `each.rt` and `leased.rt` for what follows each answer; `loose.rt` for what is left behind;
//! and `laws.rt` for what follows from where the machine stands.
#![tactic(auto)]

mod beginning;
mod called;
mod each;
pub mod laws;
mod leased;
mod loose;
mod next;
mod patience;
mod reply;
mod turned;

pub use beginning::begin;
pub use loose::clearing;
pub use next::{AfterCall, AfterTurn, Leasing, Loose, Next, Saying};
pub use patience::Patience;
pub use reply::{Failure, Reply};
