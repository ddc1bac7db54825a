//! Access lists: which peers may come in, after the words of Ruby's `acl.rb`.
//!
//! It stands on `drb_outside` and `drb_doors`. `Acl::parse` reads a file's text, or names its first line that is wrong;
//! `Acl::judge` says whether a peer is admitted, and which rule says so; `Guarded` hands on the guests of other doors
//! whom a list admits. Read `rule`, `acl`, `guarded` and then what `parse` stands on: `listing`, `line`, `pattern` and
//! `cut`. `specs/Judging.antt` says who is admitted, `Guarding.antt` what becomes of guests, `Reading.antt` and
//! `Patterns.antt` how a file reads, and `laws` what follows. docs/ACCESS.md has the same in words, with an example.
#![tactic(auto)]

mod acl;
mod cut;
mod guarded;
pub mod laws;
mod line;
mod listing;
mod pattern;
mod rule;

pub use acl::{Acl, AclError, Judged};
pub use guarded::Guarded;
pub use rule::{Order, Rule, Verdict};
