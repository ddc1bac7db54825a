//! Serves guests beside one another: workers that take one guest after the other, all at one space, and a keeper.
//!
//! It stands on `drb_shared` for the turns of one of many callers, on `drb_session` for a guest's session, on
//! `drb_keeper` for the keeper's steps, on `drb_doors` for the guests, and on a monitor (`drb_monitor`) of one space
//! (`rinda_space`). It promises that whatever the guests, the clocks, the renewers and the way the threads run, the space
//! that it hands back has a history that is one legal run of the tuple space's rules, that the numbers answered are its
//! own, that each answer has its cause at the doors, and that the keeper kept the space: its clock was read, and nothing
//! is due. It promises nothing of when guests are served, and a guest goes out of sight once a worker has it. Only want
//! of memory is free.
//!
//! Read `specs/Serving.antt` and `settings.rt`, and then `serve.rt` for the call, over `entrance.rt` for the doors under
//! their lock, `work.rt` for the workers and `keeping.rt` for the keeper's thread.
#![tactic(auto)]

mod entrance;
mod keeping;
mod serve;
mod settings;
mod work;

pub use serve::serve_run;
pub use settings::{Gate, Served, Settings};
