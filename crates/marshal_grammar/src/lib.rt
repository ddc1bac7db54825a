//! The grammar of dumps: which bytes spell which value, which bytes are refused, why and where, and the one spelling that
//! is written.
//!
//! It stands on `drb_tree`, the tree that contracts see of a value. The rules are in docs/MARSHAL.md, and once more, as
//! definitions, in `specs/`. The reader and the writer are proved against these. Promised here: each list of bytes has
//! exactly one dump at its front or exactly one refusal, and what is written of a value is read as that value again.
//! Read `refusal.rt`, `kind.rt` and `long.rt`, then `specs/` from `Longs` over `Contexts`, `Grammar`, `Counts`, `Symbols`,
//! `Values` and `Dumps` to `Reading` and `Spelled`, and last `laws.rt`.
#![tactic(auto)]

pub mod kind;
pub mod laws;
pub mod long;
pub mod refusal;

pub use kind::{Kind, kind_of};
pub use long::long_at;
pub use refusal::{Refusal, Why};
