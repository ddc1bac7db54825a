//! The keeper: it lets a space age, shuts it, and asks the renewers of what is due for how long it goes on.
//!
//! It stands on `drb_session` for the turns of a caller in a history, on `drb_back` for the calls of renewers, on
//! `drb_script` for the life that a renewer's answer says, and on the rules of the space, `rinda_rules`. It promises
//! that whatever the history, the clock and the renewers, the turns and the calls of a step are the ones that are due
//! by what the keeper owes, that what could not be done stays owed, that each end has its cause, and that a step that
//! memory didn't end leaves no row due. Only want of memory is free.
//!
//! Read `specs/Deeds.antt` for what a keeper does, `specs/Keeping.antt` for what it does by what it owes, `owed.rt` for
//! the types, and `keeper.rt` for the step, over `trying.rt` and `life.rt`.
#![tactic(auto)]

mod keeper;
mod life;
mod owed;
mod trying;

pub use keeper::Keeper;
pub use owed::{KeeperEnd, Owed};
