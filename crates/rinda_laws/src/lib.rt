//! Laws of every legal history of a tuple space.
//!
//! They stand on the rules alone, whatever program keeps them. Each function does nothing, and its contract is the
//! law, which `specs/` says in full: Starting says where a history may begin, then Owns, Balance, Holds, Hears and
//! Decides say a law or a few each, and each of them cites only those before it.
#![tactic(auto)]

pub mod answers;
pub mod holders;
pub mod notifiers;
pub mod requests;
pub mod starts;
pub mod tuples;
