//! An access list.

ghost use Rattle.std.specs.Prelude.{◌≡◌, IfOk, IfErr, Ok};
ghost use Rattle.drb_acl.specs.Judging.{judged_of};
ghost use Rattle.drb_acl.specs.Reading.{reading, IsToldOf};

use crate::listing::Listing;
use crate::rule::{Order, Rule};
use std::alloc::Global;
use std::marker::Model;
use thiserror::Error;

/// What becomes of a peer, with the number of the rule that says so, from 0; None where no rule does.
#[derive(Clone, Copy, Debug, PartialEq, Eq)]
pub enum Judged {
    Admitted(Option<usize>),
    Refused(Option<usize>),
}

/// Why a text is no access list. Lines count from 1; the first that is wrong is named.
///
/// Source: docs/ACCESS.md, Files.
#[derive(Clone, Copy, Debug, PartialEq, Eq, Error)]
pub enum AclError {
    /// The line has none of the forms of a line.
    #[error("line {line}: neither an order at the head nor a rule")]
    Word { line: usize },
    /// What stands behind `deny ` or `allow ` is no pattern.
    #[error("line {line}: not all, * or an IPv4 address, perhaps with /0 to /32")]
    Address { line: usize },
    /// The line's rule is one too many.
    #[error("line {line}: more than 1024 rules")]
    TooMany { line: usize },
    #[error("out of memory")]
    Memory,
}

/// An access list. Contracts see its order, and its rules as they stand in the file.
#[derive(Debug, Drop)]
pub struct Acl {
    pub(crate) listing: Listing,
    // room for a count of each rule, and for one more
    pub(crate) counts: Vec<u64>,
}

impl Model for Acl {
    ghost use Rattle.std.specs.Prelude.{◌≡◌, ◌+◌, length, replicate};
    ghost use Rattle.drb_acl.specs.Judging.{Access};

    ghost Value = { Access };

    ghost view = { λ a. a.listing };

    ghost invariant = { λ a. a.counts.items ≡ replicate (length a.listing.rules + 1) 0 };
}

impl Acl {
    /// Reads an access list from a file's text.
    ///
    /// Errors: exactly what is wrong with the first line that is wrong, `Word` before `Address` before `TooMany`; or
    /// `Memory`.
    /// Source: docs/ACCESS.md, Files.
    pub fn parse(alloc: Global, text: &[u8]) -> Result<Acl, AclError>
        ensures acl { IfOk result (λ acl. reading text.now ≡ Ok acl) }
        ensures refusal { IfErr result (λ e. IsToldOf (reading text.now) e) }
    {
        let listing = Listing::parse(alloc, text)?;
        let Ok(counts) = vec![in alloc; 0; listing.rules.len() + 1] else {
            return Err(AclError::Memory);
        };
        Ok(Acl { listing, counts })
    }

    /// What becomes of a peer: an IPv4 address, or None for a peer that has none. Takes no memory.
    ///
    /// Source: docs/ACCESS.md, Judging.
    pub fn judge(&self, peer: Option<u32>) -> Judged
        ensures { result ≡ judged_of self.now peer }
    {
        self.listing.judge(peer)
    }

    /// The order of the words.
    pub fn order(&self) -> Order
        ensures { result ≡ self.now.order }
    {
        self.listing.order
    }

    /// The rules, as they stand in the file.
    pub fn rules(&self) -> &[Rule]
        ensures { result.now ≡ self.now.rules }
    {
        self.listing.rules.as_slice()
    }
}
