//! The words of a client's commands: `drbts write`, `read`, `readall` and `watch`.
//!
//! `read_client` reads them with `clap`, over `command_of`, which has the help of each command. What is asked then is
//! `rinda_proxy::Asking`, and `rinda_proxy::client_ask` does it. Read `words.rt` for the commands and `values.rt` for
//! what their words set.
#![tactic(auto)]

mod values;
mod words;

pub use words::{Setup, command_of, is_client, read_client};
