//! What a request asks of the space: the call that it makes, or why it makes none.
//!
//! It stands on `drb_packet` for requests, on `rinda_tuple` for tuples, templates and lives, on `rinda_rules` for what may
//! be done with a tuple, and on `drb_ref` for the exceptions of causes. It makes no turn and calls no peer. It promises
//! that `plan` answers exactly the call of a request, or exactly the exception of the first check that the request fails;
//! only want of memory is free.
//!
//! Read `specs/Methods.antt` for the tables of methods, `Checks.antt` for the checks in their order, `Calls.antt` for what
//! each method is a call of, and `Plans.antt` for all of it together. Then `call.rt` and `planned.rt` for what a caller
//! meets; `method.rt`, `fault.rt`, `checks.rt`, `arguments.rt` and `calls.rt` follow those definitions. `place.rt` has
//! where a server stands.
#![tactic(auto)]

mod arguments;
mod call;
mod calls;
mod checks;
mod fault;
mod method;
mod place;
mod planned;

pub use call::{Call, Flag, Lasting};
pub use place::Place;
pub use planned::{Planned, plan};
