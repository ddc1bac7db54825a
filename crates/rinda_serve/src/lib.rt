//! Serving what one event touched, over the tables of a space.
//!
//! It stands on the tables (`rinda_tables`) and on what one event can touch (`rinda_effects`). After an event only that
//! may be served which it touched: no row, one tuple or one request. So a tuple is looked up once among the requests,
//! and a request once among the tuples. The picks that come back serve the space that the tables held, as the rules
//! say, and the tables then hold what that leaves. Read `touched` and `serving` first, then `waiting`, which rows may be
//! served at all, `giving`, by which requests get a tuple, and `telling`, by which they read a value that is no tuple
//! of the space.
#![tactic(auto)]

mod giving;
mod serving;
mod telling;
mod touched;
mod waiting;

pub use serving::serve;
pub use telling::tell;
pub use touched::Touched;
