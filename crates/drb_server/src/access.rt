//! The access list of the command `serve`: its file, and what is told of whom it refused.

use crate::statuses::list_status;
use drb_acl::{Acl, Rule, Verdict};
use std::net::Ipv4Addr;
use std::rt::Files;
use std::{fmt, fs};

/// A rule as a file writes it.
#[derive(Clone, Copy)]
struct Written(Rule);

impl fmt::Display for Written {
    fn fmt<W: fmt::Write>(&self, f: &mut fmt::Formatter<W>) -> fmt::Result {
        let rule = self.0;
        let verdict = match rule.verdict {
            Verdict::Deny => "deny",
            Verdict::Allow => "allow",
        };
        if rule.all {
            return write!(f, "{verdict} all");
        }
        let net = Ipv4Addr::from_bits(rule.net);
        write!(f, "{verdict} {net}/{}", rule.bits)
    }
}

/// The list of a file. Where it has none that is told, and the status answered: 1, 7 for want of memory, or 4 where the
/// file can't be read.
pub fn list_of<R: Files + AllocGlobal + Eprint>(rt: &R, file: &str) -> Result<Acl, u8> {
    let text = match fs::read(rt, file) {
        Ok(text) => text,
        Err(error) => {
            let _untold = eprintln!(rt; "acl: {file:?}: {error}");
            return Err(4);
        }
    };
    match Acl::parse(rt.alloc(), text.as_slice()) {
        Ok(list) => Ok(list),
        Err(error) => {
            let _untold = eprintln!(rt; "acl: {error}");
            Err(list_status(error))
        }
    }
}

/// Tells of each rule that refused somebody how many, and of how many no rule refused.
///
/// Source: docs/ACCESS.md, At the door.
pub fn tell_refused(rt: &impl Eprint, rules: &[Rule], counts: &[u64]) {
    for (number, count) in counts.iter().enumerate() {
        if *count > 0 {
            let _untold = match rules.get(number) {
                Some(rule) => eprintln!(rt;
                    "acl: {count} refused by rule {number}, {}",
                    Written(*rule)
                ),
                None => eprintln!(rt; "acl: {count} refused by no rule"),
            };
        }
    }
}
