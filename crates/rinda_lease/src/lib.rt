//! Which rows of a space are due when, and whose renewer is to be asked.
//!
//! The rows keep their deadlines and renewers themselves; here is the order in which they come up: ids by their
//! deadlines, found by halving, and the ids that are doubted. It stands on the rules of the space (`rinda_rules`) for
//! the word `rising` alone. It promises that `due` names exactly the ids whose deadline has come, in rising id, and that
//! `next_ask` names the least id that waits to be asked; once an id is set, no change of it but `set` wants memory.
//! Read `stage`, `leases` and then `orders` and `keys`; `specs/Stages.antt` has what each call answers.
#![tactic(auto)]

mod keys;
mod leases;
mod orders;
mod stage;

pub use leases::Leases;
pub use stage::Stage;
