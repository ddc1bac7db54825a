//! Shows what access lists say, and whom they admit.
//!
//! The program reads lines from standard input, each a word and what it takes, and prints a line for each:
//!
//! - `list` and a file's text, with `|` between its lines: the order and the rules, or the first line that is wrong;
//! - `times`, a number and a text: the same for that many lines like the text's first, with the rest of the text behind
//!   them, and the number of rules in place of them;
//! - `peer` and an IPv4 address, or `peer` alone for a peer that has none: what the last list makes of it;
//! - `door` and peers, addresses or `-` for one that has none: who of them comes through a door with the last list, which
//!   is gone then, two at most; and how many each of its rules refused, and at last no rule;
//! - `#`, and any text: that text.
//!
//! It stands on `drb_acl` and `drb_doors`, whose contracts say what is right; `stdout` has what docs/ACCESS.md says of each line.
#![tactic(auto)]

mod door;

use crate::door::show_door;
use drb_acl::{Acl, Judged, Order, Rule, Verdict};
use std::alloc::{AllocError, Global};
use std::io::{BufRead, BufReader};
use std::net::Ipv4Addr;
use std::{fmt, io};

/// A rule as a file writes it.
#[derive(Clone, Copy)]
struct Written(Rule);

impl fmt::Display for Written {
    fn fmt<W: fmt::Write>(&self, f: &mut fmt::Formatter<W>) -> fmt::Result {
        let rule = self.0;
        let verdict = match rule.verdict {
            Verdict::Deny => "deny",
            Verdict::Allow => "allow",
        };
        if rule.all {
            return write!(f, "{verdict} all");
        }
        let net = Ipv4Addr::from_bits(rule.net);
        write!(f, "{verdict} {net}/{}", rule.bits)
    }
}

fn order_of(acl: &Acl) -> &'static str {
    match acl.order() {
        Order::DenyAllow => "deny,allow",
        Order::AllowDeny => "allow,deny",
    }
}

/// The text with its lines as a file has them.
fn lines_of(alloc: Global, text: &str) -> Result<Vec<u8>, AllocError> {
    text.bytes()
        .map(|b| if b == b'|' { b'\n' } else { b })
        .collect(alloc)
}

/// That many lines like the first, and the rest behind them.
fn repeated(alloc: Global, times: u32, text: &str) -> Result<Vec<u8>, AllocError> {
    let (line, rest) = text.split_once('|').unwrap_or((text, ""));
    let mut file = Vec::new(alloc);
    for _ in 0..times {
        file.extend_from_slice(line.as_bytes())?;
        file.extend_from_slice(b"\n")?;
    }
    let rest = lines_of(alloc, rest)?;
    file.extend_from_slice(rest.as_slice())?;
    Ok(file)
}

/// The list of a file; where it has none, what is wrong is printed.
fn list_of(rt: &impl Print, alloc: Global, file: &[u8]) -> io::Result<Option<Acl>> {
    match Acl::parse(alloc, file) {
        Ok(acl) => Ok(Some(acl)),
        Err(error) => {
            println!(rt; "{error}")?;
            Ok(None)
        }
    }
}

/// Prints a list: its order, and its rules.
fn show_rules(rt: &impl Print, acl: &Acl) -> io::Result<()> {
    print!(rt; "{}", order_of(acl))?;
    for rule in acl.rules() {
        print!(rt; "; {}", Written(*rule))?;
    }
    println!(rt; "")
}

fn show_list(rt: &impl Print, alloc: Global, text: &str) -> io::Result<Option<Acl>> {
    let file = lines_of(alloc, text)?;
    let list = list_of(rt, alloc, file.as_slice())?;
    if let Some(acl) = &list {
        show_rules(rt, acl)?;
    }
    Ok(list)
}

fn show_many(rt: &impl Print, alloc: Global, text: &str) -> io::Result<Option<Acl>> {
    let (times, text) = text.split_once(' ').unwrap_or((text, ""));
    let Ok(times) = times.parse::<u32>() else {
        println!(rt; "no number")?;
        return Ok(None);
    };
    let file = repeated(alloc, times, text)?;
    let list = list_of(rt, alloc, file.as_slice())?;
    if let Some(acl) = &list {
        println!(rt; "{}; {} rules", order_of(acl), acl.rules().len())?;
    }
    Ok(list)
}

/// Prints what becomes of a peer.
fn show_peer(rt: &impl Print, list: &Option<Acl>, text: &str) -> io::Result<()> {
    let Some(acl) = list else {
        return println!(rt; "no list");
    };
    let peer = match Ipv4Addr::parse_ascii(text.as_bytes()) {
        Ok(address) => Some(address.to_bits()),
        Err(_) if text.is_empty() => None,
        Err(_) => return println!(rt; "no address"),
    };
    match acl.judge(peer) {
        Judged::Admitted(Some(rule)) => println!(rt; "admitted by rule {rule}"),
        Judged::Admitted(None) => println!(rt; "admitted"),
        Judged::Refused(Some(rule)) => println!(rt; "refused by rule {rule}"),
        Judged::Refused(None) => println!(rt; "refused"),
    }
}

fn main(rt: HostRuntime) -> io::Result<()> {
    let alloc = rt.alloc();
    let mut list = None;
    for line in BufReader::new(alloc, rt.reader())?.lines(alloc) {
        let line = line?;
        let (word, rest) = line.as_str().split_once(' ').unwrap_or((line.as_str(), ""));
        match word {
            "list" => list = show_list(&rt, alloc, rest)?,
            "times" => list = show_many(&rt, alloc, rest)?,
            "peer" => show_peer(&rt, &list, rest)?,
            "door" => match list.take() {
                Some(acl) => show_door(&rt, alloc, acl, rest)?,
                None => println!(&rt; "no list")?,
            },
            "#" => println!(&rt; "# {rest}")?,
            _ => println!(&rt; "no such word")?,
        }
    }
    Ok(())
}
